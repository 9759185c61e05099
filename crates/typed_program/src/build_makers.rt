// Constructors. Each calls its base's first, then come the initialisers of its class's fields, then its own statements.
ghost use Rattle.std.specs.Prelude.{◌≡◌, suc, ◌+◌, ◌^◌, ◌<◌, ◌∷◌, [], ◌++◌, length, Some, IfOk, OnOk};
ghost use Rattle.sts_syntax.specs.Types as value;
ghost use Rattle.sts_syntax.specs.Types.{value_types};
ghost use Rattle.sts_syntax.specs.TypedViews.{typed_trees, typed_routine, typed_routines, typed_statement, typed_statements};
ghost use Rattle.sts_syntax.specs.Views.{statements, routine};
ghost use Rattle.sts_scope.specs.Kinds as kind;
ghost use Rattle.sts_scope.specs.Lookup.{base_of as base};
ghost use Rattle.typed_laws.specs.Programs.{passed_on as passes};
ghost use Rattle.text_sizes.specs.Numbered as numbered;
ghost use Rattle.typed_trees.specs.Fits.{RoutineFits};
ghost use Rattle.typed_trees.specs.Sites as s;
ghost use Rattle.typed_trees.specs.Sites.{IsPlan};
ghost use Rattle.typed_trees.specs.Steps.{IsBuilt};
ghost use Rattle.typed_trees.specs.Functions as functions;
ghost use Rattle.typed_program.specs.Numbered.{AreNumbered};
ghost use Rattle.typed_program.specs.Wholes as w;

use crate::build_initials::{add_initials, add_statement};
use crate::build_parts::ClassParts;
use std::alloc::Global;
use sts_base::{NoMemory, Seq};
use sts_scope::{Base, StaticType, This, flat};
use sts_syntax::{Body, Param, Spot, Stmt, Ty, TypedBody, TypedExpr, TypedNode, TypedStmt};
use type_derive::head_of;
use typed_numbers::base_of;
use typed_trees::{
    Accumulator, Builder, Function, Plan, Site, add, add_types, build_given, build_statement,
    function_site, maker_number, nothing_built, one_more, type_of_values,
};

/// Parameters of some types that are passed on, from one on.
pub fn passed_on(
    alloc: Global,
    first: u32,
    takes: &[StaticType],
) -> Result<Seq<TypedExpr>, NoMemory>
    requires { first + length takes.now < 2 ^ 32 }
    ensures { IfOk result (λ all. typed_trees all ≡ passes first takes.now) }
{
    let mut all = Seq::new(alloc);
    let mut at = first;
    for kind in takes {
        let ty = type_of_values(*kind);
        let node = TypedNode::Name(Spot::Param(at));
        all.push(TypedExpr { ty, node })?;
        at += 1;
    }
    Ok(all)
}

/// The call of a base's constructor.
#[tactic(auto, using(sts_syntax::proofs::Laws::typed_super_call_tree))]
fn super_called(plan: &Plan, base: u32, args: Seq<TypedExpr>) -> TypedStmt
    ensures { typed_statement result ≡ w.super_called plan.now base (typed_trees args) }
{
    TypedStmt::Plain(TypedExpr {
        ty: Ty::object(base),
        node: TypedNode::SuperCall(maker_number(plan.numbers, base), args),
    })
}

/// Statements behind some that are there.
fn add_statements(
    plan: &Plan,
    site: &mut Site,
    builder: &mut Builder,
    made: &mut Seq<TypedStmt>,
    all: &[Stmt],
) -> Result<(), NoMemory>
    requires { IsPlan plan.now }
    ensures { OnOk result (IsBuilt builder.old builder.new
        (w.behind_made plan.now (s.site site.old) (w.typed_list made.old) (statements all.now))
        (typed_statements made.new)) }
{
    for i in 0..all.len() {
        let a = build_statement(plan, site, builder, &all[i])?;
        made.push(a)?;
    }
    Ok(())
}

/// The initialisers of a class's fields, and some statements behind them.
fn build_plain(
    plan: &Plan,
    site: &mut Site,
    builder: &mut Builder,
    parts: &ClassParts,
    all: &[Stmt],
) -> Result<Seq<TypedStmt>, NoMemory>
    requires plan { IsPlan plan.now }
    requires numbered { AreNumbered plan.now parts.now }
    ensures { IfOk result (λ r. IsBuilt builder.old builder.new
        (w.behind_made plan.now (s.site site.old) (w.initials_of plan.now parts.now) (statements all.now))
        (typed_statements r)) }
{
    let mut made = Seq::new(plan.alloc);
    add_initials(plan, &mut made, parts)?;
    add_statements(plan, site, builder, &mut made, all)?;
    Ok(made)
}

/// A statement, the initialisers of a class's fields, and some statements behind them.
fn build_headed(
    plan: &Plan,
    site: &mut Site,
    builder: &mut Builder,
    parts: &ClassParts,
    head: TypedStmt,
    rest: &[Stmt],
) -> Result<Seq<TypedStmt>, NoMemory>
    requires plan { IsPlan plan.now }
    requires numbered { AreNumbered plan.now parts.now }
    ensures { IfOk result (λ r. IsBuilt builder.old builder.new
        (w.behind_made plan.now (s.site site.old) (typed_statement head ∷ w.initials_of plan.now parts.now)
        (statements rest.now)) (typed_statements r)) }
{
    let mut made = Seq::new(plan.alloc);
    add_statement(&mut made, head)?;
    add_initials(plan, &mut made, parts)?;
    add_statements(plan, site, builder, &mut made, rest)?;
    Ok(made)
}

/// The statements of a written constructor of a class with this base.
fn build_derived(
    plan: &Plan,
    site: &mut Site,
    builder: &mut Builder,
    parts: &ClassParts,
    base: u32,
    all: &[Stmt],
) -> Result<Seq<TypedStmt>, NoMemory>
    requires plan { IsPlan plan.now }
    requires numbered { AreNumbered plan.now parts.now }
    ensures { IfOk result (λ r. IsBuilt builder.old builder.new
        (w.maker_statements plan.now (s.site site.old) (Some base) (w.initials_of plan.now parts.now)
        (statements all.now)) (typed_statements r)) }
{
    match all {
        [] => {
            let made = build_plain(plan, site, builder, parts, all)?;
            Ok(made)
        }
        [first, rest @ ..] => match head_of(first) {
            None => {
                let made = build_plain(plan, site, builder, parts, all)?;
                Ok(made)
            }
            Some(head) => {
                let takes = plan.known.maker_takes(base);
                let args = build_given(plan, site, builder, takes, head.args)?;
                let call = super_called(plan, base, args);
                let made = build_headed(plan, site, builder, parts, call, rest)?;
                Ok(made)
            }
        },
    }
}

/// The statements of a written constructor.
#[tactic(auto, using(crate::proofs::Constructors::without_base))]
fn build_made(
    plan: &Plan,
    site: &mut Site,
    builder: &mut Builder,
    parts: &ClassParts,
    all: &[Stmt],
) -> Result<Seq<TypedStmt>, NoMemory>
    requires plan { IsPlan plan.now }
    requires numbered { AreNumbered plan.now parts.now }
    ensures { IfOk result (λ r. IsBuilt builder.old builder.new
        (w.maker_statements plan.now (s.site site.old) (base plan.now.known.now.classes parts.now.class)
        (w.initials_of plan.now parts.now) (statements all.now)) (typed_statements r)) }
{
    match base_of(plan.known, parts.class) {
        None => {
            let made = build_plain(plan, site, builder, parts, all)?;
            Ok(made)
        }
        Some(base) => {
            let made = build_derived(plan, site, builder, parts, base, all)?;
            Ok(made)
        }
    }
}

/// The constructor that takes these, `this` first, whose statements these are, and which is number n.
fn build_constructor(
    plan: &Plan,
    site: &mut Site,
    params: Seq<Ty>,
    parts: &ClassParts,
    n: u32,
    all: &[Stmt],
) -> Result<Function, NoMemory>
    requires plan { IsPlan plan.now }
    requires numbered { AreNumbered plan.now parts.now }
    requires fits { RoutineFits n (functions.routine plan.now (value_types params) (value.Object parts.now.class)
        (w.maker_statements plan.now (s.site site.old) (base plan.now.known.now.classes parts.now.class)
        (w.initials_of plan.now parts.now) (statements all.now)) n) }
    ensures own { IfOk result (λ f. typed_routine f.own
        ≡ (functions.routine plan.now (value_types params) (value.Object parts.now.class)
        (w.maker_statements plan.now (s.site site.old) (base plan.now.known.now.classes parts.now.class)
        (w.initials_of plan.now parts.now) (statements all.now)) n).it) }
    ensures inner { IfOk result (λ f. typed_routines f.inner
        ≡ (functions.routine plan.now (value_types params) (value.Object parts.now.class)
        (w.maker_statements plan.now (s.site site.old) (base plan.now.known.now.classes parts.now.class)
        (w.initials_of plan.now parts.now) (statements all.now)) n).routines) }
{
    let mut builder = nothing_built(plan.alloc, one_more(n));
    let stmts = build_made(plan, site, &mut builder, parts, all)?;
    let Builder {
        locals,
        routines,
        ..
    } = builder;
    let own = TypedBody {
        params,
        locals,
        gives: Ty::object(parts.class),
        stmts,
    };
    Ok(Function {
        own,
        inner: routines,
    })
}

/// `this` of a class, as the first of the types that a function takes.
fn types_of_this(alloc: Global, class: u32) -> Result<Seq<Ty>, NoMemory>
    ensures { IfOk result (λ all. value_types all ≡ value.Object class ∷ []) }
{
    let mut all = Seq::new(alloc);
    all.push(Ty::object(class))?;
    Ok(all)
}

/// What a constructor that is written takes: `this`, then its parameters.
fn written_types(plan: &Plan, class: u32, params: &[Param]) -> Result<Seq<Ty>, NoMemory>
    ensures { IfOk result (λ all. value_types all
        ≡ value.Object class ∷ kind.value_types (w.written_takes plan.now params.now)) }
{
    let mut all = types_of_this(plan.alloc, class)?;
    add_types(plan, &mut all, params)?;
    Ok(all)
}

/// A written constructor, whose number is n, and the functions that stand in it.
pub fn add_constructor(
    plan: &Plan,
    routines: &mut Accumulator<TypedBody>,
    parts: &ClassParts,
    n: u32,
    body: &Body,
) -> Result<(), NoMemory>
    requires plan { IsPlan plan.now }
    requires numbered { AreNumbered plan.now parts.now }
    requires functions { n + suc (suc (numbered.routine_numbered (routine body.now))) < 2 ^ 32 }
    ensures { OnOk result (typed_routines routines.new
        ≡ typed_routines routines.old ++ w.constructor_made plan.now parts.now.class n
        (w.initials_of plan.now parts.now) (routine body.now)) }
{
    let class = parts.class;
    let params = body.params.as_slice();
    let this = This::Object(class);
    let gives = Some(flat(Base::Nothing));
    let mut site = function_site(plan, this, gives, false, 1, params)?;
    let types = written_types(plan, class, params)?;
    let all = body.stmts.as_slice();
    let function = build_constructor(plan, &mut site, types, parts, n, all)?;
    add(routines, function)
}

/// Types of values behind others.
#[tactic(auto, using(crate::proofs::Constructors::value_next))]
fn add_kinds(all: &mut Seq<Ty>, takes: &[StaticType]) -> Result<(), NoMemory>
    ensures { OnOk result (value_types all.new ≡ value_types all.old ++ kind.value_types takes.now) }
{
    for kind in takes {
        all.push(type_of_values(*kind))?;
    }
    Ok(())
}

/// The call of the base's constructor, where there is a base, which passes on what its own takes.
fn add_passed(
    plan: &Plan,
    all: &mut Seq<TypedStmt>,
    base: Option<u32>,
    takes: &[StaticType],
) -> Result<(), NoMemory>
    requires { 1 + length takes.now < 2 ^ 32 }
    ensures { OnOk result (w.typed_list all.new ≡ w.typed_list all.old ++ w.passes_on plan.now base takes.now) }
{
    match base {
        None => Ok(()),
        Some(base) => {
            let args = passed_on(plan.alloc, 1, takes)?;
            add_statement(all, super_called(plan, base, args))
        }
    }
}

/// The constructor of a class in which none is written.
#[tactic(auto, using(crate::proofs::Constructors::list_before))]
fn unwritten_constructor(plan: &Plan, parts: &ClassParts) -> Result<TypedBody, NoMemory>
    requires plan { IsPlan plan.now }
    requires numbered { AreNumbered plan.now parts.now }
    ensures { IfOk result (λ r. typed_routine r
        ≡ w.constructor_unwritten plan.now parts.now.class (w.initials_of plan.now parts.now)) }
{
    let class = parts.class;
    let takes = plan.known.maker_takes(class);
    let mut params = types_of_this(plan.alloc, class)?;
    add_kinds(&mut params, takes)?;
    let mut stmts = Seq::new(plan.alloc);
    add_passed(plan, &mut stmts, base_of(plan.known, class), takes)?;
    add_initials(plan, &mut stmts, parts)?;
    Ok(TypedBody {
        params,
        locals: Seq::new(plan.alloc),
        gives: Ty::object(class),
        stmts,
    })
}

/// The constructors of a class that aren't written: one, or none.
#[tactic(auto, using(typed_trees::proofs::Laws::routines_append))]
pub fn add_unwritten(
    plan: &Plan,
    routines: &mut Accumulator<TypedBody>,
    parts: &ClassParts,
    count: u32,
) -> Result<(), NoMemory>
    requires plan { IsPlan plan.now }
    requires numbered { AreNumbered plan.now parts.now }
    ensures { OnOk result (typed_routines routines.new
        ≡ typed_routines routines.old ++ w.unwritten_made plan.now count parts.now.class
        (w.initials_of plan.now parts.now)) }
{
    if count == 0 {
        return Ok(());
    }
    routines.push(unwritten_constructor(plan, parts)?)
}
