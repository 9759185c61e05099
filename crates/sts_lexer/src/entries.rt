// The numbers of strings in the tables.
ghost use Rattle.std.specs.Prelude.{◌≡◌, ℕ, ◌+◌, ◌<◌, ◌≤◌, ◌^◌, length, slice_get, Some, IfOk, OnOk};
ghost use Rattle.sts_base.specs.Distinct.{IsDistinct};
ghost use Rattle.sts_lexer.specs.Tables.{Extends};
ghost use Rattle.sts_lexer.specs.Entries.{Indexes, Notes, IsIndexed};
ghost use Rattle.sts_lexer.specs.Uses.{TakesUp};

use std::alloc::Global;
use std::collections::BTreeMap;
use sts_base::{NoMemory, Seq, Tables};

/// The number of each string of a table. A text may hold 17,000 distinct names: a look-up takes logarithmic time.
pub type Entries = BTreeMap<Vec<u8>, u32>;

/// The numbers of the strings of both tables.
#[derive(Drop)]
pub struct Index {
    pub names: Entries,
    pub texts: Entries,
}

/// A copy of bytes.
fn copied(alloc: Global, bytes: &[u8]) -> Result<Seq<u8>, NoMemory>
    ensures { IfOk result (λ copy. copy ≡ bytes.now) }
{
    let mut copy = Seq::new(alloc);
    for byte in bytes {
        copy.push(*byte)?;
    }
    Ok(copy)
}

/// Notes the number of a string that had none.
fn note(alloc: Global, entries: &mut Entries, bytes: &[u8], entry: u32) -> Result<(), NoMemory>
    ensures { OnOk result (Notes entries.old entries.new bytes.now entry) }
{
    let Ok(key) = Vec::from_slice(alloc, bytes) else {
        return Err(NoMemory);
    };
    match entries.insert(key, entry) {
        Ok(_) => Ok(()),
        Err(_) => Err(NoMemory),
    }
}

/// The numbers of the strings of a table.
fn entries_of(alloc: Global, strings: &[Seq<u8>]) -> Result<Entries, NoMemory>
    requires { length strings.now < 2 ^ 31 }
    ensures { IfOk result (λ entries. Indexes entries strings.now) }
{
    let mut entries = BTreeMap::new(alloc);
    for (entry, string) in strings.iter().enumerate() {
        note(alloc, &mut entries, string.as_slice(), entry as u32)?;
    }
    Ok(entries)
}

/// The number of a string in a table, which takes it up at its end where it lacks it.
pub fn entry_of(
    alloc: Global,
    strings: &mut Seq<Seq<u8>>,
    entries: &mut Entries,
    bytes: &[u8],
) -> Result<u32, NoMemory>
    requires indexed { Indexes entries.old strings.old }
    requires distinct { IsDistinct strings.old }
    requires room { length strings.old < 2 ^ 32 }
    ensures entry { IfOk result (λ entry. slice_get strings.new entry ≡ Some bytes.now) }
    ensures indexed { OnOk result (Indexes entries.new strings.new) }
    ensures distinct { IsDistinct strings.new }
    ensures extended { Extends strings.old strings.new }
    ensures few { length strings.new ≤ length strings.old + 1 }
    ensures in_order { IfOk result (λ entry. TakesUp (Some entry) (length strings.old) (length strings.new)) }
{
    if let Some(entry) = entries.get(bytes) {
        return Ok(*entry);
    }
    let entry = strings.len() as u32;
    strings.push(copied(alloc, bytes)?)?;
    note(alloc, entries, bytes, entry)?;
    Ok(entry)
}

/// The numbers of the strings of both tables.
pub fn index_of(alloc: Global, tables: &Tables) -> Result<Index, NoMemory>
    requires distinct_names { IsDistinct tables.now.names }
    requires distinct_texts { IsDistinct tables.now.texts }
    requires few_names { length tables.now.names < 2 ^ 31 }
    requires few_texts { length tables.now.texts < 2 ^ 31 }
    ensures { IfOk result (IsIndexed tables.now) }
{
    Ok(Index {
        names: entries_of(alloc, tables.names.as_slice())?,
        texts: entries_of(alloc, tables.texts.as_slice())?,
    })
}
