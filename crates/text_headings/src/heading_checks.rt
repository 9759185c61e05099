// The headings of functions and of members of classes.
ghost use Rattle.std.specs.Prelude.{◌≡◌, ℕ, ◌+◌, ◌^◌, ◌<◌, ◌||◌, ◌==◌, length, is_some, not, false, IfOk, OnOk, IfErr};
ghost use Rattle.std.specs.BTreeSet.{contains};
ghost use Rattle.std.specs.Ordering.{nat_cmp};
ghost use Rattle.sts_syntax.specs.Annotations.{annotation};
ghost use Rattle.sts_syntax.specs.Views.{declaration, declarations, routine, parameter, parameters, optional_annotation, optional_expression, statement};
ghost use Rattle.sts_syntax.specs.Programs.{class_member, class_members, top_level, top_levels};
ghost use Rattle.sts_scope.specs.Values.{value_at};
ghost use Rattle.sts_scope.specs.Failures.{Finds, ◌then◌, own, unless};
ghost use Rattle.sts_scope.specs.Entries as entry;
ghost use Rattle.sts_scope.specs.Lookup as look;
ghost use Rattle.sts_scope.specs.Headings as heading;
ghost use Rattle.sts_base.specs.declared.refused.Code.TheVariants as code;
ghost use Rattle.text_headings.specs.Standing.{classes_before, IsItemAt, IsTextAt};

use crate::numbers::{class_at, globals_in};
use std::alloc::Global;
use std::collections::BTreeSet;
use sts_base::{Code, Refused, Tables};
use sts_scope::{ByNumber, Environment, Owner, is_spelled, kind_of, unless};
use sts_syntax::{Binding, Body, Item, Member, Param, Shape};

/// The name of a type is known.
fn check_type_name(classes: &ByNumber, shape: &Shape) -> Result<(), Refused>
    ensures { Finds result (heading.type_name_failure (value_at classes.now.values.items) (annotation shape.now)) }
{
    let mut inner = shape;
    loop {
        match inner {
            Shape::List(item) => inner = item,
            Shape::Named { at, name } => {
                return unless(classes.get(*name).is_some(), Code::UnknownName, *at);
            }
            Shape::Number => return Ok(()),
            Shape::Boolean => return Ok(()),
            Shape::Text => return Ok(()),
            Shape::Nothing => return Ok(()),
        }
    }
}

/// A type is known: its name is, and it hasn't too many `[]`. What has it stands at this place.
fn check_type(classes: &ByNumber, at: u32, shape: &Shape) -> Result<(), Refused>
    ensures { Finds result (heading.type_failure (value_at classes.now.values.items) at (annotation shape.now)) }
{
    check_type_name(classes, shape)?;
    unless(kind_of(classes, shape).is_some(), Code::UnknownName, at)
}

/// The type that is written at what stands at this place is known.
pub fn check_written(classes: &ByNumber, at: u32, shape: &Option<Shape>) -> Result<(), Refused>
    ensures { Finds result (heading.written_failure (value_at classes.now.values.items) at
        (optional_annotation shape.now)) }
{
    match shape {
        None => Ok(()),
        Some(shape) => check_type(classes, at, shape),
    }
}

/// Notes a name among those of parameters. Whether it is there already.
fn note(seen: &mut BTreeSet<u32>, x: u32) -> Result<bool, Refused>
    ensures twice { IfOk result (λ twice. twice ≡ contains nat_cmp seen.old x) }
    ensures noted { OnOk result ((y : ℕ) → contains nat_cmp seen.new y ≡ (x == y || contains nat_cmp seen.old y)) }
    ensures err { IfErr result (λ e. e ≡ Refused.NoMemory) }
{
    match seen.insert(x) {
        Ok(added) => Ok(!added),
        Err(_) => Err(Refused::NoMemory),
    }
}

/// A parameter, whose name stands before it already or doesn't.
fn check_parameter(classes: &ByNumber, twice: bool, p: &Param) -> Result<(), Refused>
    ensures { Finds result (own (optional_annotation p.now.shape) code.NeedsType p.now.at
        then unless (not twice) code.TwiceNamed p.now.at
        then heading.written_failure (value_at classes.now.values.items) p.now.at (optional_annotation p.now.shape)) }
{
    unless(p.shape.is_some(), Code::NeedsType, p.at)?;
    unless(!twice, Code::TwiceNamed, p.at)?;
    check_written(classes, p.at, &p.shape)
}

/// The parameters of a function.
fn check_parameters(alloc: Global, classes: &ByNumber, params: &[Param]) -> Result<(), Refused>
    ensures { Finds result (heading.parameters_failure (value_at classes.now.values.items) (parameters params.now) 0
        (parameters params.now)) }
{
    let mut seen = BTreeSet::new(alloc);
    for i in 0..params.len() {
        let twice = note(&mut seen, params[i].name)?;
        check_parameter(classes, twice, &params[i])?;
    }
    Ok(())
}

/// The heading of a function.
#[tactic(auto, using(sts_syntax::proofs::Laws::routine_parts))]
fn check_routine(alloc: Global, classes: &ByNumber, body: &Body) -> Result<(), Refused>
    ensures { Finds result (heading.routine_failure (value_at classes.now.values.items) (routine body.now)) }
{
    check_parameters(alloc, classes, body.params.as_slice())?;
    check_written(classes, body.at, &body.gives)
}

/// What is known where members are.
#[derive(Clone, Copy)]
struct Lent<'a> {
    alloc: Global,
    /// the names' spellings
    tables: &'a Tables,
    /// the numbers of the classes, by their names
    classes: &'a ByNumber,
    /// all declarations
    known: &'a Environment,
}

/// Whether a field's name is `constructor`.
#[tactic(auto, using(sts_syntax::proofs::Laws::declaration_parts))]
fn declares_constructor(tables: &Tables, b: &Binding) -> bool
    ensures { result ≡ heading.declares_constructor tables.now.names (declaration b.now) }
{
    is_spelled(tables, b.name, b"constructor")
}

/// A field. None of the name `constructor` is beside a constructor.
#[tactic(auto, using(sts_syntax::proofs::Laws::declaration_parts))]
fn check_field(lent: &Lent, c: u32, d: usize, made: bool, b: &Binding) -> Result<(), Refused>
    ensures { Finds result (heading.field_failure lent.now.tables.now.names
        (value_at lent.now.classes.now.values.items) lent.now.known.now.entries lent.now.known.now.classes c d made
        (declaration b.now)) }
{
    unless(
        !(made && is_spelled(lent.tables, b.name, b"constructor")),
        Code::TwiceNamed,
        b.at,
    )?;
    unless(
        !lent.known.entries().is_second(d, Owner::Class(c), b.name),
        Code::TwiceNamed,
        b.at,
    )?;
    unless(
        lent.known.inherited(c, b.name).is_none(),
        Code::TwiceNamed,
        b.at,
    )?;
    unless(
        b.shape.is_some() || b.first.is_some(),
        Code::NeedsType,
        b.at,
    )?;
    check_written(lent.classes, b.at, &b.shape)
}

/// A method.
#[tactic(auto, using(crate::proofs::Parameters::method_at))]
fn check_method(lent: &Lent, c: u32, d: usize, x: u32, body: &Body) -> Result<(), Refused>
    ensures { Finds result (heading.method_failure lent.now.tables.now.names
        (value_at lent.now.classes.now.values.items) lent.now.known.now.entries lent.now.known.now.classes c d x
        (routine body.now)) }
{
    let at = body.at;
    unless(
        !lent.known.entries().is_second(d, Owner::Class(c), x),
        Code::TwiceNamed,
        at,
    )?;
    unless(!lent.known.inherits_field(c, x), Code::TwiceNamed, at)?;
    check_routine(lent.alloc, lent.classes, body)
}

/// A constructor is no second one.
#[tactic(auto, using(crate::proofs::Parameters::method_at))]
fn check_constructor(
    alloc: Global,
    classes: &ByNumber,
    made: bool,
    body: &Body,
) -> Result<(), Refused>
    ensures { Finds result (unless (not made) code.TwiceNamed (heading.routine_at (routine body.now))
        then heading.routine_failure (value_at classes.now.values.items) (routine body.now)) }
{
    let at = body.at;
    unless(!made, Code::TwiceNamed, at)?;
    check_routine(alloc, classes, body)
}

/// A member of the class c; the d-th declaration is the next. How many are declared behind it.
fn check_member(
    lent: &Lent,
    c: u32,
    d: usize,
    made: bool,
    member: &Member,
) -> Result<usize, Refused>
    requires { d + length (entry.member_entry (value_at lent.now.classes.now.values.items) c (class_member member.now))
        < 2 ^ 64 }
    ensures found { Finds result (heading.member_failure lent.now.tables.now.names
        (value_at lent.now.classes.now.values.items) lent.now.known.now.entries lent.now.known.now.classes c d made
        (class_member member.now)) }
    ensures next { IfOk result (λ n. n ≡ d + length
        (entry.member_entry (value_at lent.now.classes.now.values.items) c (class_member member.now))) }
{
    match member {
        Member::Field(b) => {
            check_field(lent, c, d, made, b)?;
            Ok(d + 1)
        }
        Member::Method { name, body } => {
            check_method(lent, c, d, *name, body)?;
            Ok(d + 1)
        }
        Member::Constructor(body) => {
            check_constructor(lent.alloc, lent.classes, made, body)?;
            Ok(d)
        }
    }
}

/// Whether a member is a constructor, or a field of that name.
fn is_constructor(tables: &Tables, member: &Member) -> bool
    ensures { result ≡ heading.is_constructor tables.now.names (class_member member.now) }
{
    match member {
        Member::Field(b) => declares_constructor(tables, b),
        Member::Method { name: _, body: _ } => false,
        Member::Constructor(_) => true,
    }
}

/// The members of a class.
fn check_members(
    alloc: Global,
    tables: &Tables,
    classes: &ByNumber,
    known: &Environment,
    c: u32,
    first: usize,
    members: &[Member],
) -> Result<usize, Refused>
    requires { first + length (entry.member_entries (value_at classes.now.values.items) c (class_members members.now))
        < 2 ^ 64 }
    ensures found { Finds result (heading.members_failure tables.now.names
        (value_at classes.now.values.items) known.now.entries known.now.classes c first false
        (class_members members.now)) }
    ensures next { IfOk result (λ n. n ≡ first
        + length (entry.member_entries (value_at classes.now.values.items) c (class_members members.now))) }
{
    let lent = Lent {
        alloc,
        tables,
        classes,
        known,
    };
    let mut d = first;
    let mut made = false;
    for i in 0..members.len() {
        d = check_member(&lent, c, d, made, &members[i])?;
        made = made || is_constructor(tables, &members[i]);
    }
    Ok(d)
}

/// A part of a text, whose first declaration is the d-th. How many are declared behind it.
fn check_item(
    alloc: Global,
    tables: &Tables,
    classes: &ByNumber,
    known: &Environment,
    d: usize,
    item: &Item,
) -> Result<usize, Refused>
    requires room { d + length (entry.item_entries (value_at classes.now.values.items)
        (classes_before known.now.entries d) (top_level item.now)) < 2 ^ 64 }
    requires stands { IsItemAt (value_at classes.now.values.items) known.now.entries d (top_level item.now) }
    ensures found { Finds result (heading.item_failure tables.now.names
        (value_at classes.now.values.items) known.now.entries known.now.classes (classes_before known.now.entries d) d
        (top_level item.now)) }
    ensures next { IfOk result (λ n. n ≡ d + length
        (entry.item_entries (value_at classes.now.values.items) (classes_before known.now.entries d)
        (top_level item.now))) }
{
    match item {
        Item::Class {
            at: _,
            name: _,
            base: _,
            base_at: _,
            members,
        } => {
            let c = class_at(known, d);
            check_members(alloc, tables, classes, known, c, d + 1, members.as_slice())
        }
        Item::Function { name: _, body } => {
            check_routine(alloc, classes, body)?;
            Ok(d + 1)
        }
        Item::Stmt(s) => Ok(d + globals_in(s)),
    }
}

/// The headings of a text, whose first declaration is this one.
pub fn check_headings(
    alloc: Global,
    tables: &Tables,
    classes: &ByNumber,
    known: &Environment,
    first: usize,
    items: &[Item],
) -> Result<(), Refused>
    requires { IsTextAt (value_at classes.now.values.items) known.now.entries first (top_levels items.now) }
    ensures { Finds result (heading.headings_failure tables.now.names
        (value_at classes.now.values.items) known.now.entries known.now.classes
        (classes_before known.now.entries first) first (top_levels items.now)) }
{
    // (all of them are in memory: that bounds every number of one)
    let _count = known.entries().len();
    let mut d = first;
    for i in 0..items.len() {
        d = check_item(alloc, tables, classes, known, d, &items[i])?;
    }
    Ok(())
}
