// Names, bases and headings of a text.
ghost use Rattle.std.specs.Prelude.{◌≡◌, ◌++◌, ◌<◌, ◌≤◌, ◌^◌, length, IfOk, IfErr};
ghost use Rattle.sts_scope.specs.Values.{value_at};
ghost use Rattle.sts_syntax.specs.Programs.{program};
ghost use Rattle.sts_scope.specs.Failures.{Finds};
ghost use Rattle.sts_scope.specs.Entries.{class_names};
ghost use Rattle.sts_scope.specs.Known.{IsDeclared};
ghost use Rattle.sts_scope.specs.Scopes as scope;
ghost use Rattle.text_headings.specs.Lists.{is_one, AreScopes};
ghost use Rattle.text_headings.specs.Standing.{IsTextDeclared};

use crate::heading_checks::check_headings;
use crate::names::{check_bases, check_chains, check_names};
use std::alloc::Global;
use sts_base::{NoMemory, Refused, Seq, Tables};
use sts_scope::{DeclarationKind, Declared, Entry, declarations_of, or_no_memory};
use sts_syntax::Unit;

/// The names of the globals, functions and classes of a library and a text, by their numbers in `Tables::names`: in text order, the library's first.
#[derive(Drop)]
pub struct Scopes {
    /// the globals
    pub globals: Seq<u32>,
    /// the functions
    pub functions: Seq<u32>,
    /// the classes
    pub classes: Seq<u32>,
}

/// What a library and a text declare; want of memory is a refusal.
fn declared_of(alloc: Global, library: &Unit, text: &Unit) -> Result<Declared, Refused>
    requires few { length (class_names (program library.now ++ program text.now)) < 2 ^ 32 }
    ensures known { IfOk result (λ r. IsDeclared (program library.now) (program text.now) r) }
    ensures err { IfErr result (λ e. e ≡ Refused.NoMemory) }
{
    or_no_memory(declarations_of(alloc, library, text))
}

/// The passes over names, bases and headings of a text.
fn check_all(
    alloc: Global,
    text: &Unit,
    tables: &Tables,
    declared: &Declared,
) -> Result<(), Refused>
    requires entries { declared.now.known.library ≤ length declared.now.known.entries }
    requires classes { declared.now.first_class ≤ length declared.now.known.classes }
    requires stands { IsTextDeclared (program text.now) declared.now }
    ensures { Finds result (scope.passes tables.now.names (program text.now)
        (value_at declared.now.classes.values.items) declared.now.known.entries declared.now.known.classes
        declared.now.known.library declared.now.first_class) }
{
    let known = &declared.known;
    let first = declared.first_class;
    check_names(alloc, tables, known)?;
    check_bases(known.classes(), first as usize)?;
    check_chains(known, first as usize)?;
    check_headings(
        alloc,
        tables,
        &declared.classes,
        known,
        known.library(),
        text.items.as_slice(),
    )
}

/// What a library and a text declare, with the types that are written.
///
/// Refused with the text's first failure of names, else of bases, else of headings.
pub fn headings(
    alloc: Global,
    library: &Unit,
    text: &Unit,
    tables: &Tables,
) -> Result<Declared, Refused>
    requires few { length (class_names (program library.now ++ program text.now)) < 2 ^ 32 }
    ensures found { Finds result (scope.heading_refusal tables.now.names (program library.now) (program text.now)) }
    ensures known { IfOk result (λ r. IsDeclared (program library.now) (program text.now) r) }
{
    let declared = declared_of(alloc, library, text)?;
    check_all(alloc, text, tables, &declared)?;
    Ok(declared)
}

/// Which declarations are asked for.
#[derive(Clone, Copy)]
enum Which {
    Globals,
    Functions,
    Classes,
}

fn is_one(which: Which, sort: DeclarationKind) -> bool
    ensures { result ≡ is_one which sort }
{
    match (which, sort) {
        (Which::Globals, DeclarationKind::Global { fixed: _ }) => true,
        (Which::Functions, DeclarationKind::Function) => true,
        (Which::Classes, DeclarationKind::Class(_)) => true,
        (Which::Globals, _) => false,
        (Which::Functions, _) => false,
        (Which::Classes, _) => false,
    }
}

/// The names of those declarations.
fn names_of(alloc: Global, entries: &[Entry], which: Which) -> Result<Seq<u32>, NoMemory>
    ensures { IfOk result (λ names. names ≡ scope.names_of (is_one which) entries.now) }
{
    let mut names = Seq::new(alloc);
    for i in 0..entries.len() {
        if is_one(which, entries[i].sort) {
            names.push(entries[i].name)?;
        }
    }
    Ok(names)
}

/// The three lists of names.
fn scopes_of(alloc: Global, entries: &[Entry]) -> Result<Scopes, NoMemory>
    ensures { IfOk result (λ s. AreScopes entries.now s) }
{
    let globals = names_of(alloc, entries, Which::Globals)?;
    let functions = names_of(alloc, entries, Which::Functions)?;
    let classes = names_of(alloc, entries, Which::Classes)?;
    Ok(Scopes {
        globals,
        functions,
        classes,
    })
}

/// The names of the globals, functions and classes of a library and a text, in text order, the library's first.
///
/// Refused with the text's first failure of names, else of bases, else of headings: a global name that begins with `$` (`UnknownName`) or is a second one
/// (`TwiceNamed`); an unknown base (`UnknownName`), a chain of bases that comes back (`ClassCycle`); an unknown type (`UnknownName`), a parameter without a
/// type (`NeedsType`), a second parameter or member of a name, a field or a clash of field and method with a base (`TwiceNamed`), and a field without type
/// and initialiser (`NeedsType`).
pub fn resolve(
    alloc: Global,
    library: &Unit,
    text: &Unit,
    tables: &Tables,
) -> Result<Scopes, Refused>
    requires few { length (class_names (program library.now ++ program text.now)) < 2 ^ 32 }
    ensures found { Finds result (scope.heading_refusal tables.now.names (program library.now) (program text.now)) }
    ensures names { IfOk result (λ s. AreScopes (scope.all_entries (program library.now) (program text.now)) s) }
{
    let declared = headings(alloc, library, text, tables)?;
    or_no_memory(scopes_of(alloc, declared.known.entries().as_slice()))
}
