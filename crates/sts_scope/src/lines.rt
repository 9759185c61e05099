// The lines of classes: of each class itself, its base, the base's base, and so on.
ghost use Rattle.std.specs.Prelude.{◌≡◌, ℕ, ◌+◌, ◌<◌, ◌≤◌, ◌^◌, ◌++◌, ◌∷◌, [], List, not, true, false, Some, None, length, get_or, set, if◌then◌else◌, IfOk, IfSome, OnOk};
ghost use Rattle.std.specs.List.{All};
ghost use Rattle.std.specs.Option.{option_copied};
ghost use Rattle.std.specs.BTreeMap.{get};
ghost use Rattle.std.specs.Ordering.{nat_cmp};
ghost use Rattle.persistent_maps.specs.Maps.{value_in};
ghost use Rattle.std.specs.Option.{option_or};
ghost use Rattle.sts_scope.specs.Lookup as look;
ghost use Rattle.sts_scope.specs.Bases.{is_endless};
ghost use Rattle.sts_scope.specs.Rules as rule;
ghost use Rattle.sts_scope.specs.Lines as lines;
ghost use Rattle.sts_scope.specs.Lines.{IsLine, AreLines};

use crate::lookup::{base_of, is_endless, maker_takes, reaches};
use crate::{ClassHead, StaticType, SymbolTable, Table};
use persistent_maps::PersistentMap;
use std::alloc::Global;
use std::collections::BTreeMap;
use sts_base::NoMemory;

/// What is known of the line of a class, by maps.
#[derive(Drop)]
pub struct Line {
    /// how many classes stand on it
    pub len: usize,
    /// has the numbers of these classes
    pub classes: PersistentMap,
    /// the members' declarations, by their names: of each name that of the nearest class
    pub members: PersistentMap,
    /// the nearest class that has a written constructor
    pub maker: Option<u32>,
}

/// Puts the members of a class over those of its base.
pub fn put_members(
    alloc: Global,
    own: &BTreeMap<u32, usize>,
    base: &PersistentMap,
) -> Result<PersistentMap, NoMemory>
    ensures { IfOk result
        (λ made. (x : ℕ) → value_in made x ≡ option_or (get nat_cmp own.now x) (value_in base.now x)) }
{
    let mut made = base.share()?;
    for (x, d) in own.iter().rev() {
        made = made.with(alloc, *x, *d)?;
    }
    Ok(made)
}

/// The line of a class, where it is known.
fn line_at(all: &Table<Option<Line>>, c: usize) -> Option<&Line>
    ensures { option_copied result ≡ lines.at all.now c }
{
    match all.get(c) {
        None => None,
        Some(line) => line.as_ref(),
    }
}

/// The line above a class that has no base.
fn no_line() -> Line
    ensures { result ≡ lines.no_line }
{
    Line {
        len: 0,
        classes: PersistentMap::Empty,
        members: PersistentMap::Empty,
        maker: None,
    }
}

/// The nearest class with a written constructor, where the base's is known.
fn nearest_maker(class: &ClassHead, c: u32, above: Option<u32>) -> Option<u32>
    ensures { result ≡ lines.nearest_maker class.now c above }
{
    match class.takes {
        Some(_) => Some(c),
        None => above,
    }
}

/// The line of the class c, where that of its base is known and leaves a class out.
fn longer(
    alloc: Global,
    entries: &SymbolTable,
    classes: &[ClassHead],
    c: u32,
    above: &Line,
) -> Result<Line, NoMemory>
    requires there { c < length classes.now }
    requires short { above.now.len < length classes.now }
    requires above { IsLine entries.now classes.now (look.base_of classes.now c) above.now }
    ensures { IfOk result (λ line. IsLine entries.now classes.now (Some c) line) }
{
    let all = above.classes.with(alloc, c, 0)?;
    let members = entries.put_members(c, &above.members)?;
    Ok(Line {
        len: above.len + 1,
        classes: all,
        members,
        maker: nearest_maker(&classes[c as usize], c, above.maker),
    })
}

/// The line of the class c, if that of its base is known. One of more classes than there are is none.
#[tactic(auto, using(crate::proofs::Longer::none_is, crate::proofs::Longer::above_is))]
fn line_of(
    alloc: Global,
    all: &Table<Option<Line>>,
    entries: &SymbolTable,
    classes: &[ClassHead],
    c: u32,
) -> Result<Option<Line>, NoMemory>
    requires there { c < length classes.now }
    requires known { AreLines entries.now classes.now all.now }
    ensures { IfOk result (λ line. IfSome line (λ l. IsLine entries.now classes.now (Some c) l)) }
{
    match base_of(classes, c as usize) {
        None => Ok(Some(longer(alloc, entries, classes, c, &no_line())?)),
        Some(b) => match line_at(all, b as usize) {
            Some(above) if above.len < classes.len() => {
                Ok(Some(longer(alloc, entries, classes, c, above)?))
            }
            _ => Ok(None),
        },
    }
}

/// Notes the line of the class c, if that of its base is known.
#[tactic(auto, using(crate::proofs::Longer::lines_set))]
fn note_line(
    alloc: Global,
    all: &mut Table<Option<Line>>,
    entries: &SymbolTable,
    classes: &[ClassHead],
    c: u32,
) -> Result<(), NoMemory>
    requires { AreLines entries.now classes.now all.old }
    ensures { AreLines entries.now classes.now all.new }
{
    let at = c as usize;
    if at < classes.len() && at < all.len() {
        if let Some(line) = line_of(alloc, all, entries, classes, c)? {
            all.set(at, Some(line));
        }
    }
    Ok(())
}

/// So many lines, none of which is known.
#[tactic(auto, using(crate::proofs::Longer::none_more))]
fn no_lines(alloc: Global, count: usize) -> Result<Table<Option<Line>>, NoMemory>
    ensures { IfOk result (λ all. (c : ℕ) → lines.at all c ≡ None) }
{
    let mut all = Table::new(alloc);
    for _ in 0..count {
        all.push(None)?;
    }
    Ok(all)
}

/// Marks a class as seen. Whether it wasn't seen yet.
fn mark(seen: &mut [bool], c: u32) -> bool
    ensures first { result ≡ not (get_or seen.old c true) }
    ensures marked { seen.new ≡ if result then set seen.old c true else seen.old }
{
    let at = c as usize;
    if at < seen.len() && !seen[at] {
        seen[at] = true;
        true
    } else {
        false
    }
}

/// Adds a class.
fn add(order: &mut Vec<u32>, c: u32) -> Result<(), NoMemory>
    ensures { OnOk result (order.new.items ≡ order.old.items ++ c ∷ []) }
{
    match order.push(c) {
        Ok(()) => Ok(()),
        Err(_) => Err(NoMemory),
    }
}

/// The class at a place and its bases, as far as they aren't seen yet, the nearest first. They are seen from now on.
fn see(
    seen: &mut [bool],
    order: &mut Vec<u32>,
    classes: &[ClassHead],
    c: u32,
) -> Result<(), NoMemory>
    ensures { OnOk result ((these : List ℕ) × (order.new.items ≡ order.old.items ++ these)
        × lines.GoesUp classes.now seen.old seen.new (Some c) these) }
{
    let mut next = Some(c);
    while let Some(c) = next {
        if !mark(seen, c) {
            break;
        }
        add(order, c)?;
        next = base_of(classes, c as usize);
    }
    Ok(())
}

/// So many classes, none of which is seen.
fn none_seen(alloc: Global, count: usize) -> Result<Vec<bool>, NoMemory>
    ensures none { IfOk result (λ seen. All (λ b. b ≡ false) seen.items) }
    ensures len { IfOk result (λ seen. length seen.items ≡ count) }
{
    let mut seen = Vec::new(alloc);
    for _ in 0..count {
        match seen.push(false) {
            Ok(()) => {}
            Err(_) => return Err(NoMemory),
        }
    }
    Ok(seen)
}

/// Notes the lines of some classes, the last one first.
fn note_all(
    alloc: Global,
    all: &mut Table<Option<Line>>,
    entries: &SymbolTable,
    classes: &[ClassHead],
    order: &mut Vec<u32>,
) -> Result<(), NoMemory>
    requires { AreLines entries.now classes.now all.old }
    ensures { AreLines entries.now classes.now all.new }
{
    while let Some(c) = order.pop() {
        note_line(alloc, all, entries, classes, c)?;
    }
    Ok(())
}

/// The lines of all classes whose chains of bases end.
///
/// A base is noted before the classes over it, each class once. What is noted is right in any order; one whose base is noted later, or never, has no line.
#[tactic(auto, using(crate::proofs::Longer::none_known))]
pub fn lines_of(
    alloc: Global,
    entries: &SymbolTable,
    classes: &[ClassHead],
) -> Result<Table<Option<Line>>, NoMemory>
    requires few { length classes.now < 2 ^ 32 }
    ensures { IfOk result (λ all. AreLines entries.now classes.now all) }
{
    let mut all = no_lines(alloc, classes.len())?;
    let mut seen = none_seen(alloc, classes.len())?;
    let mut order = Vec::new(alloc);
    for c in 0..classes.len() {
        see(seen.as_mut_slice(), &mut order, classes, c as u32)?;
        note_all(alloc, &mut all, entries, classes, &mut order)?;
    }
    Ok(all)
}

/// The line of a class, where it is known and has at most so many classes.
fn short_line(all: &Table<Option<Line>>, count: usize, c: usize) -> Option<&Line>
    ensures { IfSome result (λ line. (lines.at all.now c ≡ Some line.now) × (line.now.len ≤ count)) }
{
    match line_at(all, c) {
        Some(line) if line.len <= count => Some(line),
        _ => None,
    }
}

/// The member of a name of a class: its own one, else that of the nearest base that has one.
#[tactic(auto, using(crate::proofs::Longer::member_is))]
pub fn member_of(
    all: &Table<Option<Line>>,
    entries: &SymbolTable,
    classes: &[ClassHead],
    c: u32,
    x: u32,
) -> Option<usize>
    requires { AreLines entries.now classes.now all.now }
    ensures { result ≡ look.member_number entries.now classes.now c x }
{
    match short_line(all, classes.len(), c as usize) {
        Some(line) => line.members.get(x),
        None => entries.member(classes, c, x),
    }
}

/// Whether a class is another, or one of its bases is.
pub fn is_below(
    all: &Table<Option<Line>>,
    entries: &SymbolTable,
    classes: &[ClassHead],
    m: u32,
    n: u32,
) -> bool
    requires { AreLines entries.now classes.now all.now }
    ensures { result ≡ rule.reaches classes.now (length classes.now) m n }
{
    match short_line(all, classes.len(), m as usize) {
        Some(line) => line.classes.get(n).is_some(),
        None => reaches(classes, m, n),
    }
}

/// Whether the chain of a class's bases has no end.
pub fn has_no_end(
    all: &Table<Option<Line>>,
    entries: &SymbolTable,
    classes: &[ClassHead],
    c: usize,
) -> bool
    requires { AreLines entries.now classes.now all.now }
    ensures { result ≡ is_endless classes.now c }
{
    match short_line(all, classes.len(), c) {
        Some(_) => false,
        None => is_endless(classes, c),
    }
}

/// What the written constructor of a class takes, if there is one.
fn written_takes(classes: &[ClassHead], maker: Option<u32>) -> &[StaticType]
    ensures { result.now ≡ lines.takes_of classes.now maker }
{
    let Some(m) = maker else {
        return &[];
    };
    match classes.get(m as usize) {
        None => &[],
        Some(class) => match &class.takes {
            None => &[],
            Some(takes) => takes.as_slice(),
        },
    }
}

/// What the nearest written constructor of a class takes.
pub fn takes_of<'a>(
    all: &Table<Option<Line>>,
    entries: &SymbolTable,
    classes: &'a [ClassHead],
    c: u32,
) -> &'a [StaticType]
    requires { AreLines entries.now classes.now all.now }
    ensures { result.now ≡ rule.maker_takes_of classes.now c }
{
    match short_line(all, classes.len(), c as usize) {
        Some(line) => written_takes(classes, line.maker),
        None => maker_takes(classes, c),
    }
}
