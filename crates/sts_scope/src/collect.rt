// All declarations of a library and a text.
ghost use Rattle.std.specs.Prelude.{◌≡◌, ℕ, ◌+◌, ◌<◌, ◌^◌, ◌==◌, length, ◌++◌, ◌∷◌, [], IfOk, OnOk};
ghost use Rattle.sts_syntax.specs.Programs.{top_level, top_levels, class_member, class_members, program};
ghost use Rattle.sts_syntax.specs.Views.{statement, declarations, routine};
ghost use Rattle.sts_scope.specs.Values.{value_at};
ghost use Rattle.sts_scope.specs.Entries as entry;
ghost use Rattle.sts_scope.specs.Adding.{Adds};
ghost use Rattle.sts_scope.specs.Known.{IsDeclared};

use crate::build::{
    add_declared, add_entry, number_classes, parameter_kinds, routine_entry, routine_gives,
};
use crate::by_number::ByNumber;
use crate::{
    ClassHead, DeclarationKind, Entry, Environment, Known, Owner, StaticType, SymbolTable, Table,
};
use std::alloc::Global;
use sts_base::{NoMemory, Seq};
use sts_syntax::{Binding, Body, Form, Item, Member, Stmt, Unit};

/// Adds declared globals.
fn add_globals(
    alloc: Global,
    classes: &ByNumber,
    known: &mut Known,
    fixed: bool,
    each: &[Binding],
) -> Result<(), NoMemory>
    ensures { OnOk result (Adds known.old known.new (entry.global_entries fixed (declarations each.now))
        (entry.global_kinds (value_at classes.now.values.items) (declarations each.now)) []) }
{
    for i in 0..each.len() {
        add_declared(
            alloc,
            classes,
            known,
            Owner::Whole,
            DeclarationKind::Global { fixed },
            &each[i],
        )?;
    }
    Ok(())
}

/// Adds what a statement of the main program declares.
fn add_main(alloc: Global, classes: &ByNumber, known: &mut Known, s: &Stmt) -> Result<(), NoMemory>
    ensures { OnOk result (Adds known.old known.new (entry.main_entries (statement s.now))
        (entry.main_kinds (value_at classes.now.values.items) (statement s.now)) []) }
{
    match &s.form {
        Form::Let { fixed, each } => add_globals(alloc, classes, known, *fixed, each.as_slice()),
        Form::Block(_) => Ok(()),
        Form::If(_, _, _) => Ok(()),
        Form::While(_, _) => Ok(()),
        Form::DoWhile(_, _) => Ok(()),
        Form::For(_, _, _, _) => Ok(()),
        Form::ForOf {
            fixed: _,
            name: _,
            list: _,
            body: _,
        } => Ok(()),
        Form::Return(_) => Ok(()),
        Form::Break => Ok(()),
        Form::Continue => Ok(()),
        Form::Plain(_) => Ok(()),
        Form::Empty => Ok(()),
    }
}

/// Adds a member of a class.
fn add_member(
    alloc: Global,
    classes: &ByNumber,
    known: &mut Known,
    class: u32,
    member: &Member,
) -> Result<(), NoMemory>
    ensures { OnOk result (Adds known.old known.new
        (entry.member_entry (value_at classes.now.values.items) class (class_member member.now))
        (entry.member_kind (value_at classes.now.values.items) (class_member member.now)) []) }
{
    let owner = Owner::Class(class);
    match member {
        Member::Field(b) => add_declared(alloc, classes, known, owner, DeclarationKind::Field, b),
        Member::Method { name, body } => {
            let sort = DeclarationKind::Method;
            let entry = routine_entry(alloc, classes, owner, *name, sort, body)?;
            add_entry(known, entry, routine_gives(classes, body))
        }
        Member::Constructor(_) => Ok(()),
    }
}

/// Adds the members of a class.
fn add_members(
    alloc: Global,
    classes: &ByNumber,
    known: &mut Known,
    class: u32,
    members: &[Member],
) -> Result<(), NoMemory>
    ensures { OnOk result (Adds known.old known.new
        (entry.member_entries (value_at classes.now.values.items) class (class_members members.now))
        (entry.member_kinds (value_at classes.now.values.items) (class_members members.now)) []) }
{
    for i in 0..members.len() {
        add_member(alloc, classes, known, class, &members[i])?;
    }
    Ok(())
}

/// What a constructor takes.
#[tactic(auto, using(sts_syntax::proofs::Laws::routine_parts))]
fn written_takes(
    alloc: Global,
    classes: &ByNumber,
    body: &Body,
) -> Result<Seq<StaticType>, NoMemory>
    ensures { IfOk result
        (λ takes. takes ≡ entry.routine_takes (value_at classes.now.values.items) (routine body.now)) }
{
    parameter_kinds(alloc, classes, body.params.as_slice())
}

/// What the first written constructor takes.
fn maker_takes(
    alloc: Global,
    classes: &ByNumber,
    members: &[Member],
) -> Result<Option<Seq<StaticType>>, NoMemory>
    ensures { IfOk result
        (λ takes. takes ≡ entry.maker_takes (value_at classes.now.values.items) (class_members members.now)) }
{
    for i in 0..members.len() {
        match &members[i] {
            Member::Constructor(body) => {
                let takes = written_takes(alloc, classes, body)?;
                return Ok(Some(takes));
            }
            Member::Field(_) => {}
            Member::Method { name: _, body: _ } => {}
        }
    }
    Ok(None)
}

/// The number of the class of a name.
fn class_number(classes: &ByNumber, name: Option<u32>) -> Option<u32>
    ensures { result ≡ entry.base_number (value_at classes.now.values.items) name }
{
    match name {
        Some(x) => classes.get(x),
        None => None,
    }
}

/// The number of the class that comes next.
fn next_class(known: &Known) -> u32
    requires { length known.now.classes < 2 ^ 32 }
    ensures { result ≡ length known.now.classes }
{
    known.classes.len() as u32
}

/// Adds what a part of a text declares.
fn add_item(
    alloc: Global,
    classes: &ByNumber,
    known: &mut Known,
    item: &Item,
) -> Result<(), NoMemory>
    requires { length known.old.classes + length (entry.item_class (top_level item.now)) < 2 ^ 32 }
    ensures { OnOk result (Adds known.old known.new (entry.item_entries (value_at classes.now.values.items)
        (length known.old.classes) (top_level item.now)) (entry.item_kinds (value_at classes.now.values.items)
        (top_level item.now)) (entry.item_heads (value_at classes.now.values.items) (top_level item.now))) }
{
    match item {
        Item::Class {
            at,
            name,
            base,
            base_at,
            members,
        } => {
            let class = next_class(known);
            let takes = maker_takes(alloc, classes, members.as_slice())?;
            let head = ClassHead {
                at: *at,
                base_name: *base,
                base_at: *base_at,
                base: class_number(classes, *base),
                takes,
            };
            known.classes.push(head)?;
            let entry = Entry {
                at: *at,
                owner: Owner::Whole,
                name: *name,
                sort: DeclarationKind::Class(class),
                takes: Seq::new(alloc),
            };
            add_entry(known, entry, None)?;
            add_members(alloc, classes, known, class, members.as_slice())
        }
        Item::Function { name, body } => {
            let sort = DeclarationKind::Function;
            let entry = routine_entry(alloc, classes, Owner::Whole, *name, sort, body)?;
            add_entry(known, entry, routine_gives(classes, body))
        }
        Item::Stmt(s) => add_main(alloc, classes, known, s),
    }
}

/// Adds what some parts of a text declare.
fn add_items(
    alloc: Global,
    classes: &ByNumber,
    known: &mut Known,
    items: &[Item],
) -> Result<(), NoMemory>
    requires { length known.old.classes + length (entry.class_names (top_levels items.now)) < 2 ^ 32 }
    ensures { OnOk result (Adds known.old known.new (entry.entries_from (value_at classes.now.values.items)
        (length known.old.classes) (top_levels items.now)) (entry.written_kinds (value_at classes.now.values.items)
        (top_levels items.now)) (entry.heads_of (value_at classes.now.values.items) (top_levels items.now))) }
{
    for i in 0..items.len() {
        add_item(alloc, classes, known, &items[i])?;
    }
    Ok(())
}

/// What a library and a text declare.
#[derive(Drop)]
pub struct Declared {
    /// the numbers of the classes, by their names
    pub classes: ByNumber,
    /// all declarations, with the types that are written
    pub known: Environment,
    /// how many classes are the library's
    pub first_class: u32,
}

/// What a library and a text declare, with the types that are written.
pub fn declarations_of(alloc: Global, library: &Unit, text: &Unit) -> Result<Declared, NoMemory>
    requires few { length (entry.class_names (program library.now ++ program text.now)) < 2 ^ 32 }
    ensures { IfOk result (λ r. IsDeclared (program library.now) (program text.now) r) }
{
    let mut classes = ByNumber::new(alloc);
    let count = number_classes(&mut classes, 0, library.items.as_slice())?;
    number_classes(&mut classes, count, text.items.as_slice())?;
    let mut known = Known {
        entries: SymbolTable::new(alloc),
        classes: Seq::new(alloc),
        kinds: Table::new(alloc),
        library: 0,
    };
    add_items(alloc, &classes, &mut known, library.items.as_slice())?;
    known.library = known.entries.len();
    add_items(alloc, &classes, &mut known, text.items.as_slice())?;
    Ok(Declared {
        classes,
        known: Environment::new(alloc, known)?,
        first_class: count,
    })
}
