// The least table of types: each declaration that others ask for is derived before them, as far as there is an order, and then all are tried until nothing new is said.
ghost use Rattle.std.specs.Prelude.{◌≡◌, ℕ, ◌≤◌, ◌<◌, None, length, true, false, ◌||◌, OnOk, IfOk};
ghost use Rattle.sts_syntax.specs.Programs.{program};
ghost use Rattle.sts_syntax.specs.Views.{parameters};
ghost use Rattle.sts_scope.specs.Known.{IsDeclared};
ghost use Rattle.sts_scope.specs.Places as name;
ghost use Rattle.sts_scope.specs.Values.{value_at};
ghost use Rattle.type_derive.specs.Derived as derived;
ghost use Rattle.derived_types.specs.Origins.{source, sources};
ghost use Rattle.derived_types.specs.Rules.{rule_by};
ghost use Rattle.type_derive.specs.Scopes.{naming, place};
ghost use Rattle.type_derive.specs.Returns as given;
ghost use Rattle.derived_types.specs.Solved.{IsSolved};
ghost use Rattle.derived_types.specs.Underway as way;
ghost use Rattle.derived_types.specs.Underway.{Keeps};
ghost use Rattle.derived_types.specs.Work.{IsOpen, effort};

use crate::origins::{Origin, origins_of};
use crate::rules::Rules;
use crate::work::Work;
use std::alloc::Global;
use sts_base::{NoMemory, Tables};
use sts_scope::{
    Base, ByNumber, Declared, Environment, StaticType, Table, This, flat, written_kind,
};
use sts_syntax::{Param, Unit};
use type_derive::{Context, Locals, Scope, Wanted, bound, declare, kind_at, returned_in_block};

/// Outside all functions.
fn outside<'a>(alloc: Global, this: This, library: bool) -> Scope<'a>
    ensures { place result ≡ name.outside this library None }
{
    Scope {
        locals: Locals::new(alloc),
        this,
        gives: None,
        library,
    }
}

/// Where a function's statements begin.
fn within<'a>(
    alloc: Global,
    classes: &ByNumber,
    params: &[Param],
    this: This,
    library: bool,
) -> Result<Scope<'a>, NoMemory>
    ensures { IfOk result (λ scope. name.inner (place scope)
        ≡ given.within (given.parameter_locals (value_at classes.now.values.items)
        (parameters params.now)) this None library) }
{
    let mut scope = outside(alloc, this, library);
    for i in 0..params.len() {
        let param = &params[i];
        let kind = written_kind(classes, &param.shape);
        declare(&mut scope, param.name, kind, false)?;
    }
    Ok(scope)
}

/// The result of a function by the first value that it returns: nothing where none is.
fn answered(returned: Option<Option<StaticType>>) -> Option<StaticType>
    ensures { result ≡ given.answered returned }
{
    match returned {
        None => Some(flat(Base::Nothing)),
        Some(kind) => kind,
    }
}

/// The type that follows from an origin.
fn follow(
    wanted: &mut Wanted,
    context: &Context,
    library: bool,
    origin: &Origin,
) -> Result<Option<StaticType>, NoMemory>
    ensures { IfOk result (λ kind. kind ≡ derived.follows
        (naming context.now) context.now.tables.now context.now.known.now library (source origin.now)) }
{
    match origin {
        Origin::Stated(kind) => Ok(*kind),
        Origin::Initial(this, first) => {
            let scope = outside(context.alloc, *this, library);
            bound(wanted, context, &scope, &None, first)
        }
        Origin::Returns(this, params, all) => {
            let mut scope = within(context.alloc, context.classes, params, *this, library)?;
            let returned = returned_in_block(wanted, context, &mut scope, all)?;
            Ok(answered(returned))
        }
    }
}

/// The type that the rule of a declaration gives.
fn derive(
    wanted: &mut Wanted,
    context: &Context,
    origins: &[Origin],
    d: usize,
) -> Result<Option<StaticType>, NoMemory>
    ensures { IfOk result (λ kind. kind ≡ derived.rule context.now.tables.now (naming context.now) context.now.known.now
        (sources origins.now) context.now.known.now.kinds d) }
{
    if d < origins.len() {
        follow(wanted, context, d < context.known.library(), &origins[d])
    } else {
        Ok(None)
    }
}

/// Derives a declaration that has no type. Whether something new was said.
fn advance(
    wanted: &mut Wanted,
    rules: &Rules,
    known: &mut Environment,
    d: usize,
) -> Result<bool, NoMemory>
    requires within { d < length known.old.kinds }
    requires underway { way.IsUnderway (rule_by rules.now known.old) known.old.kinds }
    ensures moves { IfOk result (λ said. way.Moves (rule_by rules.now known.old) known.old.kinds known.new.kinds said) }
    ensures still { IfOk result (λ said. said ≡ false → derived.at known.old.kinds d ≡ None
        → rule_by rules.now known.old known.old.kinds d ≡ None) }
    ensures same { OnOk result (Keeps known.old known.new) }
{
    if kind_at(known, d).is_some() {
        return Ok(false);
    }
    let context = Context {
        alloc: rules.alloc,
        tables: rules.tables,
        classes: rules.classes,
        known: &*known,
    };
    match derive(wanted, &context, rules.origins, d)? {
        None => Ok(false),
        Some(kind) => {
            known.set_kind(d, Some(kind));
            Ok(true)
        }
    }
}

fn either(a: bool, b: bool) -> bool
    ensures { result ≡ (a || b) }
{
    a || b
}

/// Tries all declarations. Whether something new was said.
fn round(wanted: &mut Wanted, rules: &Rules, known: &mut Environment) -> Result<bool, NoMemory>
    requires { way.IsUnderway (rule_by rules.now known.old) known.old.kinds }
    ensures moves { IfOk result (λ said. way.Moves (rule_by rules.now known.old) known.old.kinds known.new.kinds said) }
    ensures still { IfOk result (λ said. said ≡ false
        → way.IsStill (rule_by rules.now known.old) known.new.kinds (length known.new.kinds)) }
    ensures same { OnOk result (Keeps known.old known.new) }
{
    let mut said = false;
    for d in 0..known.kinds().len() {
        let now = advance(wanted, rules, known, d)?;
        said = either(said, now);
    }
    Ok(said)
}

/// Tries all declarations until nothing new is said.
fn rounds(wanted: &mut Wanted, rules: &Rules, known: &mut Environment) -> Result<(), NoMemory>
    requires { way.IsUnderway (rule_by rules.now known.old) known.old.kinds }
    ensures least { OnOk result (derived.IsLeast (rule_by rules.now known.old) known.new.kinds) }
    ensures len { OnOk result (length known.new.kinds ≡ length known.old.kinds) }
    ensures same { OnOk result (Keeps known.old known.new) }
{
    while round(wanted, rules, known)? {}
    Ok(())
}

/// Tries a declaration, if there is one of this number. Whether something new was said.
fn tried(
    wanted: &mut Wanted,
    rules: &Rules,
    known: &mut Environment,
    d: usize,
) -> Result<bool, NoMemory>
    requires { way.IsUnderway (rule_by rules.now known.old) known.old.kinds }
    ensures moves { IfOk result (λ said. way.Moves (rule_by rules.now known.old) known.old.kinds known.new.kinds said) }
    ensures same { OnOk result (Keeps known.old known.new) }
{
    if d < known.kinds().len() {
        advance(wanted, rules, known, d)
    } else {
        Ok(false)
    }
}

/// Goes on with the declaration that was asked for last. Whether something new was said; else it waits for what it asked for.
fn resume(
    rules: &Rules,
    known: &mut Environment,
    work: &mut Work,
    d: usize,
) -> Result<bool, NoMemory>
    requires underway { way.IsUnderway (rule_by rules.now known.old) known.old.kinds }
    requires pending { 1 ≤ length work.old.pending.items }
    ensures moves { IfOk result (λ said. way.Moves (rule_by rules.now known.old) known.old.kinds known.new.kinds said) }
    ensures less { IfOk result (λ said. said ≡ false → effort work.new < effort work.old) }
    ensures same { OnOk result (Keeps known.old known.new) }
{
    let mut wanted = Wanted::each(rules.alloc);
    let said = tried(&mut wanted, rules, known, d)?;
    if said {
        work.answer(rules.alloc, d)?;
    } else {
        work.put_off(d, wanted.noted.as_slice())?;
    }
    Ok(said)
}

/// Goes on with the declaration that was asked for last, else with one that waited for a type that is known now, else with the next one in its turn. Whether something new was said.
fn step(rules: &Rules, known: &mut Environment, work: &mut Work) -> Result<bool, NoMemory>
    requires underway { way.IsUnderway (rule_by rules.now known.old) known.old.kinds }
    requires more { IsOpen work.old }
    ensures moves { IfOk result (λ said. way.Moves (rule_by rules.now known.old) known.old.kinds known.new.kinds said) }
    ensures less { IfOk result (λ said. said ≡ false → effort work.new < effort work.old) }
    ensures same { OnOk result (Keeps known.old known.new) }
{
    match work.last() {
        None => {
            work.go_on()?;
            Ok(false)
        }
        Some(d) => resume(rules, known, work, d),
    }
}

/// Goes on until something new is said, or nothing is left. Whether something was said.
fn until_said(rules: &Rules, known: &mut Environment, work: &mut Work) -> Result<bool, NoMemory>
    requires { way.IsUnderway (rule_by rules.now known.old) known.old.kinds }
    ensures moves { IfOk result (λ said. way.Moves (rule_by rules.now known.old) known.old.kinds known.new.kinds said) }
    ensures same { OnOk result (Keeps known.old known.new) }
{
    while work.is_open() {
        if step(rules, known, work)? {
            return Ok(true);
        }
    }
    Ok(false)
}

/// Derives declarations, those that others ask for before them.
fn in_order(rules: &Rules, known: &mut Environment, work: &mut Work) -> Result<(), NoMemory>
    requires { way.IsUnderway (rule_by rules.now known.old) known.old.kinds }
    ensures underway { OnOk result (way.IsUnderway (rule_by rules.now known.old) known.new.kinds) }
    ensures len { OnOk result (length known.new.kinds ≡ length known.old.kinds) }
    ensures same { OnOk result (Keeps known.old known.new) }
{
    while until_said(rules, known, work)? {}
    Ok(())
}

/// So many declarations without a type.
fn blank(alloc: Global, count: usize) -> Result<Table<Option<StaticType>>, NoMemory>
    ensures none { IfOk result (λ kinds. (d : ℕ) → derived.at kinds d ≡ None) }
    ensures len { IfOk result (λ kinds. length kinds ≡ count) }
{
    let mut kinds = Table::new(alloc);
    for _ in 0..count {
        kinds.push(None)?;
    }
    Ok(kinds)
}

/// Derives the types of all declarations from nothing.
fn derive_all(
    alloc: Global,
    classes: &ByNumber,
    tables: &Tables,
    known: &mut Environment,
    origins: &[Origin],
) -> Result<(), NoMemory>
    ensures least { OnOk result (derived.IsLeast
        (derived.rule tables.now (value_at classes.now.values.items) known.old (sources origins.now)) known.new.kinds) }
    ensures len { OnOk result (length known.new.kinds ≡ length known.old.entries) }
    ensures same { OnOk result (Keeps known.old known.new) }
{
    let count = known.entries().len();
    let kinds = blank(alloc, count)?;
    known.set_kinds(kinds);
    let mut work = Work::of(alloc, count)?;
    let rules = Rules {
        alloc,
        tables,
        classes,
        origins,
    };
    in_order(&rules, known, &mut work)?;
    let mut wanted = Wanted::nothing(alloc);
    rounds(&mut wanted, &rules, known)?;
    Ok(())
}

/// Derives the types of all declarations of a library and a text: the least table in which each has the type that its rule gives from the others'.
///
/// Want of memory is the only refusal. A declaration that asks for itself, by whatever way, has no type.
pub fn solve(
    alloc: Global,
    library: &Unit,
    text: &Unit,
    tables: &Tables,
    declared: &mut Declared,
) -> Result<(), NoMemory>
    requires { IsDeclared (program library.now) (program text.now) declared.old }
    ensures { OnOk result (IsSolved tables.now (program library.now) (program text.now) declared.new) }
{
    // (32 bits count the classes of what is declared, and so those of both programs)
    let _classes = declared.known.classes();
    let origins = origins_of(alloc, &declared.classes, library, text)?;
    derive_all(
        alloc,
        &declared.classes,
        tables,
        &mut declared.known,
        &origins,
    )?;
    Ok(())
}
