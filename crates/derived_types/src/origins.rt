// How the type of each declaration follows, in text order.
ghost use Rattle.std.specs.Prelude.{◌≡◌, ◌+◌, ◌<◌, ◌^◌, ◌++◌, ◌∷◌, [], length, OnOk, IfOk};
ghost use Rattle.sts_syntax.specs.Programs.{top_level, top_levels, class_member, class_members, program};
ghost use Rattle.sts_syntax.specs.Views.{statement, declaration, declarations, routine};
ghost use Rattle.sts_scope.specs.declared.known.This.TheVariants as this;
ghost use Rattle.sts_scope.specs.Entries.{class_names, item_class};
ghost use Rattle.sts_scope.specs.Values.{value_at};
ghost use Rattle.type_derive.specs.Derived as derived;
ghost use Rattle.derived_types.specs.Origins.{source, sources};

use std::alloc::Global;
use sts_base::NoMemory;
use sts_scope::{ByNumber, StaticType, This, kind_of};
use sts_syntax::{Binding, Body, Expr, Form, Item, Member, Param, Stmt, Unit};

/// How the type of a declaration follows.
#[derive(Drop)]
pub enum Origin<'a> {
    /// It is written, or it is none.
    Stated(Option<StaticType>),
    /// It is an initialiser's, where `this` is this.
    Initial(This, &'a Option<Expr>),
    /// It is that of the first value that is returned, of a function with these parameters and statements.
    Returns(This, &'a [Param], &'a [Stmt]),
}

/// Adds one.
fn add<'a>(origins: &mut Vec<Origin<'a>>, origin: Origin<'a>) -> Result<(), NoMemory>
    ensures { OnOk result (origins.new.items ≡ origins.old.items ++ origin.entry ∷ []) }
{
    match origins.push(origin) {
        Ok(()) => Ok(()),
        Err(_) => Err(NoMemory),
    }
}

/// That of a declared name.
#[tactic(auto, using(sts_syntax::proofs::Laws::declaration_parts))]
fn declared<'a>(classes: &ByNumber, this: This, b: &'a Binding) -> Origin<'a>
    ensures { source result ≡ derived.declared_source (value_at classes.now.values.items) this (declaration b.now) }
{
    match &b.shape {
        None => Origin::Initial(this, &b.first),
        Some(shape) => Origin::Stated(kind_of(classes, shape)),
    }
}

/// That of a function or method.
#[tactic(auto, using(sts_syntax::proofs::Laws::routine_parts))]
fn result_of<'a>(classes: &ByNumber, this: This, body: &'a Body) -> Origin<'a>
    ensures { source result ≡ derived.routine_source (value_at classes.now.values.items) this (routine body.now) }
{
    match &body.gives {
        None => Origin::Returns(this, body.params.as_slice(), body.stmts.as_slice()),
        Some(shape) => Origin::Stated(kind_of(classes, shape)),
    }
}

/// Adds those of globals.
#[tactic(auto, using(crate::proofs::Gathered::sources_append))]
fn add_globals<'a>(
    origins: &mut Vec<Origin<'a>>,
    classes: &ByNumber,
    each: &'a [Binding],
) -> Result<(), NoMemory>
    ensures { OnOk result (sources origins.new.items
        ≡ sources origins.old.items ++ derived.global_sources (value_at classes.now.values.items)
        (declarations each.now)) }
{
    for i in 0..each.len() {
        let origin = declared(classes, This::Nowhere, &each[i]);
        add(origins, origin)?;
    }
    Ok(())
}

/// Adds those of the globals of a statement of the main program.
fn add_main<'a>(
    origins: &mut Vec<Origin<'a>>,
    classes: &ByNumber,
    s: &'a Stmt,
) -> Result<(), NoMemory>
    ensures { OnOk result (sources origins.new.items
        ≡ sources origins.old.items ++ derived.main_sources (value_at classes.now.values.items) (statement s.now)) }
{
    match &s.form {
        Form::Let { fixed: _, each } => add_globals(origins, classes, each.as_slice()),
        Form::Block(_) => Ok(()),
        Form::If(_, _, _) => Ok(()),
        Form::While(_, _) => Ok(()),
        Form::DoWhile(_, _) => Ok(()),
        Form::For(_, _, _, _) => Ok(()),
        Form::ForOf {
            fixed: _,
            name: _,
            list: _,
            body: _,
        } => Ok(()),
        Form::Return(_) => Ok(()),
        Form::Break => Ok(()),
        Form::Continue => Ok(()),
        Form::Plain(_) => Ok(()),
        Form::Empty => Ok(()),
    }
}

/// Adds that of a member of a class; a constructor has none.
#[tactic(auto, using(crate::proofs::Gathered::sources_append))]
fn add_member<'a>(
    origins: &mut Vec<Origin<'a>>,
    classes: &ByNumber,
    class: u32,
    member: &'a Member,
) -> Result<(), NoMemory>
    ensures { OnOk result (sources origins.new.items
        ≡ sources origins.old.items ++ derived.member_sources (value_at classes.now.values.items) class
        (class_member member.now ∷ [])) }
{
    match member {
        Member::Field(b) => {
            let origin = declared(classes, This::Object(class), b);
            add(origins, origin)
        }
        Member::Method { name: _, body } => {
            let origin = result_of(classes, This::Object(class), body);
            add(origins, origin)
        }
        Member::Constructor(_) => Ok(()),
    }
}

/// Adds those of the members of a class.
fn add_members<'a>(
    origins: &mut Vec<Origin<'a>>,
    classes: &ByNumber,
    class: u32,
    members: &'a [Member],
) -> Result<(), NoMemory>
    ensures { OnOk result (sources origins.new.items
        ≡ sources origins.old.items ++ derived.member_sources (value_at classes.now.values.items) class
        (class_members members.now)) }
{
    for i in 0..members.len() {
        add_member(origins, classes, class, &members[i])?;
    }
    Ok(())
}

/// Adds those of a part of a text, before which stand so many classes. How many stand behind it.
#[tactic(auto, using(crate::proofs::Gathered::sources_append))]
fn add_item<'a>(
    origins: &mut Vec<Origin<'a>>,
    classes: &ByNumber,
    count: u32,
    item: &'a Item,
) -> Result<u32, NoMemory>
    requires { count + length (item_class (top_level item.now)) < 2 ^ 32 }
    ensures sources { OnOk result (sources origins.new.items
        ≡ sources origins.old.items ++ derived.item_sources (value_at classes.now.values.items) count
        (top_level item.now)) }
    ensures count { IfOk result (λ n. n ≡ count + length (item_class (top_level item.now))) }
{
    match item {
        Item::Class {
            at: _,
            name: _,
            base: _,
            base_at: _,
            members,
        } => {
            add(origins, Origin::Stated(None))?;
            add_members(origins, classes, count, members.as_slice())?;
            Ok(count + 1)
        }
        Item::Function { name: _, body } => {
            let origin = result_of(classes, This::Nowhere, body);
            add(origins, origin)?;
            Ok(count)
        }
        Item::Stmt(s) => {
            add_main(origins, classes, s)?;
            Ok(count)
        }
    }
}

/// Adds those of some parts of a text, before which stand so many classes.
fn add_items<'a>(
    origins: &mut Vec<Origin<'a>>,
    classes: &ByNumber,
    first: u32,
    items: &'a [Item],
) -> Result<u32, NoMemory>
    requires { first + length (class_names (top_levels items.now)) < 2 ^ 32 }
    ensures sources { OnOk result (sources origins.new.items
        ≡ sources origins.old.items ++ derived.sources_from (value_at classes.now.values.items) first
        (top_levels items.now)) }
    ensures count { IfOk result (λ n. n ≡ first + length (class_names (top_levels items.now))) }
{
    let mut count = first;
    for i in 0..items.len() {
        count = add_item(origins, classes, count, &items[i])?;
    }
    Ok(count)
}

/// How the types of all declarations of a library and a text follow.
pub fn origins_of<'a>(
    alloc: Global,
    classes: &ByNumber,
    library: &'a Unit,
    text: &'a Unit,
) -> Result<Vec<Origin<'a>>, NoMemory>
    requires { length (class_names (program library.now ++ program text.now)) < 2 ^ 32 }
    ensures { IfOk result (λ origins. sources origins.items
        ≡ derived.sources_from (value_at classes.now.values.items) 0 (program library.now ++ program text.now)) }
{
    let mut origins = Vec::new(alloc);
    let count = add_items(&mut origins, classes, 0, library.items.as_slice())?;
    add_items(&mut origins, classes, count, text.items.as_slice())?;
    Ok(origins)
}
