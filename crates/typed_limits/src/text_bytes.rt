// The bytes of the texts that a program names.
ghost use Rattle.std.specs.Prelude.{◌≡◌, ◌||◌, ◌==◌, ℕ, ◌<◌, false, length, slice_index_or, replicate, nat_le, IfOk};
ghost use Rattle.sts_syntax.specs.Nodes.{is_among, used_bytes};

use std::alloc::Global;
use sts_base::{NoMemory, Seq};

/// Marks a text by its number, if it is there.
fn mark(marks: &mut [bool], text: u32)
    ensures long { length marks.new ≡ length marks.old }
    ensures marks { (i : ℕ) → i < length marks.old
        → slice_index_or marks.new i false ≡ (text == i || slice_index_or marks.old i false) }
{
    if (text as usize) < marks.len() {
        marks[text as usize] = true;
    }
}

/// So many texts, none of which is marked.
fn no_marks(alloc: Global, count: usize) -> Result<Vec<bool>, NoMemory>
    ensures { IfOk result (λ marks. marks.items ≡ replicate count false) }
{
    let mut marks = Vec::new(alloc);
    for _ in 0..count {
        if marks.push(false).is_err() {
            return Err(NoMemory);
        }
    }
    Ok(marks)
}

/// Of each of so many texts whether it is among some, by their numbers.
fn marked(alloc: Global, used: &[u32], count: usize) -> Result<Vec<bool>, NoMemory>
    ensures long { IfOk result (λ marks. length marks.items ≡ count) }
    ensures marks { IfOk result
        (λ marks. (i : ℕ) → i < count → slice_index_or marks.items i false ≡ is_among used.now i) }
{
    let mut marks = no_marks(alloc, count)?;
    for text in used {
        mark(&mut marks, *text);
    }
    Ok(marks)
}

/// Whether the texts that are used, by their numbers, have no more than so many bytes together.
pub fn texts_fit(
    alloc: Global,
    used: &[u32],
    texts: &[Seq<u8>],
    most: usize,
) -> Result<bool, NoMemory>
    ensures { IfOk result (λ fits. fits ≡ nat_le (used_bytes 0 texts.now used.now) most) }
{
    let marks = marked(alloc, used, texts.len())?;
    let mut left = most;
    for (number, text) in texts.iter().enumerate() {
        if marks[number] {
            let length = text.as_slice().len();
            if length > left {
                return Ok(false);
            }
            left -= length;
        }
    }
    Ok(true)
}
