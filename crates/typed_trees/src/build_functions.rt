// Functions and methods of a typed program, each before those that stand in it.
ghost use Rattle.std.specs.Prelude.{◌≡◌, ◌+◌, ◌^◌, ◌<◌, ◌∷◌, ◌++◌, length, IfOk, OnOk};
ghost use Rattle.sts_syntax.specs.Types as value;
ghost use Rattle.sts_syntax.specs.TypedViews.{typed_routine, typed_routines};
ghost use Rattle.sts_syntax.specs.Views.{parameters, statements, routine};
ghost use Rattle.sts_scope.specs.Kinds as kind;
ghost use Rattle.sts_scope.specs.Entries.{parameter_kinds};
ghost use Rattle.type_derive.specs.Functions.{parameter_spots};
ghost use Rattle.typed_trees.specs.Fits.{numbers_taken, RoutineFits};
ghost use Rattle.typed_trees.specs.Sites as s;
ghost use Rattle.typed_trees.specs.Sites.{IsPlan, naming};
ghost use Rattle.typed_trees.specs.Functions as functions;

use crate::accumulator::Accumulator;
use crate::build_forms::nothing_built;
use crate::build_nodes::noted_type;
use crate::build_numbers::one_more;
use crate::build_places::{Builder, Plan, Site};
use crate::build_statements::build_statements;
use crate::spots::Spots;
use sts_base::{NoMemory, Seq};
use sts_scope::{StaticType, This, written_kind};
use sts_syntax::{Body, Param, Spot, Stmt, Ty, TypedBody, TypedStmt};
use type_derive::routine_scope;

/// Where their values are, from a parameter on.
fn parameter_spots(plan: &Plan, first: u32, params: &[Param]) -> Result<Spots, NoMemory>
    requires { first + length params.now < 2 ^ 32 }
    ensures { IfOk result (λ all. all ≡ parameter_spots first (parameters params.now)) }
{
    let mut all = Spots::new(plan.alloc);
    let mut at = first;
    for _param in params {
        all.push(Spot::Param(at))?;
        at += 1;
    }
    Ok(all)
}

/// Their types, behind others.
pub fn add_types(plan: &Plan, all: &mut Seq<Ty>, params: &[Param]) -> Result<(), NoMemory>
    ensures { OnOk result (value.value_types all.new
        ≡ value.value_types all.old ++ kind.value_types (parameter_kinds (naming plan.now) (parameters params.now))) }
{
    for param in params {
        let kind = written_kind(plan.classes, &param.shape);
        all.push(noted_type(kind))?;
    }
    Ok(())
}

/// Where the statements of a function stand, whose parameters are numbered from one on.
pub fn function_site<'a>(
    plan: &Plan,
    this: This,
    gives: Option<StaticType>,
    library: bool,
    first: u32,
    params: &[Param],
) -> Result<Site<'a>, NoMemory>
    requires { first + length params.now < 2 ^ 32 }
    ensures { IfOk result (λ site. s.site site
        ≡ functions.site_of plan.now this gives library first (parameters params.now)) }
{
    let scope = routine_scope(plan.alloc, plan.classes, params, this, gives, library)?;
    let spots = parameter_spots(plan, first, params)?;
    Ok(Site { scope, spots })
}

/// A function, and those that stand in it.
#[derive(Drop)]
pub struct Function {
    pub own: TypedBody,
    pub inner: Accumulator<TypedBody>,
}

/// The function with these parameters and this result whose statements these are, and which is number n.
fn build_function(
    plan: &Plan,
    site: &mut Site,
    params: Seq<Ty>,
    gives: Ty,
    n: u32,
    all: &[Stmt],
) -> Result<Function, NoMemory>
    requires plan { IsPlan plan.now }
    requires fits { RoutineFits n (functions.routine plan.now (value.value_types params) (value.value_type gives)
        (s.statements_made plan.now (s.site site.old) (statements all.now)) n) }
    ensures own { IfOk result (λ f. typed_routine f.own
        ≡ (functions.routine plan.now (value.value_types params) (value.value_type gives)
        (s.statements_made plan.now (s.site site.old) (statements all.now)) n).it) }
    ensures inner { IfOk result (λ f. typed_routines f.inner
        ≡ (functions.routine plan.now (value.value_types params) (value.value_type gives)
        (s.statements_made plan.now (s.site site.old) (statements all.now)) n).routines) }
{
    let mut builder = nothing_built(plan.alloc, one_more(n));
    let stmts = build_statements(plan, site, &mut builder, all)?;
    let Builder {
        locals,
        routines,
        ..
    } = builder;
    let own = TypedBody {
        params,
        locals,
        gives,
        stmts,
    };
    Ok(Function {
        own,
        inner: routines,
    })
}

/// A function behind others, and those that stand in it behind it.
pub fn add(routines: &mut Accumulator<TypedBody>, function: Function) -> Result<(), NoMemory>
    ensures { OnOk result (typed_routines routines.new
        ≡ typed_routines routines.old ++ (typed_routine function.own ∷ typed_routines function.inner)) }
{
    routines.push(function.own)?;
    routines.append(function.inner)
}

/// A function of the whole text, whose number is n, and those that stand in it.
pub fn add_function(
    plan: &Plan,
    routines: &mut Accumulator<TypedBody>,
    library: bool,
    n: u32,
    gives: Option<StaticType>,
    body: &Body,
) -> Result<(), NoMemory>
    requires plan { IsPlan plan.now }
    requires fits { n + numbers_taken (functions.function_made plan.now library n gives (routine body.now)) < 2 ^ 32 }
    ensures { OnOk result (typed_routines routines.new
        ≡ typed_routines routines.old ++ functions.function_made plan.now library n gives (routine body.now)) }
{
    let params = body.params.as_slice();
    let mut site = function_site(plan, This::Nowhere, gives, library, 0, params)?;
    let mut types = Seq::new(plan.alloc);
    add_types(plan, &mut types, params)?;
    let gives = noted_type(gives);
    let function = build_function(plan, &mut site, types, gives, n, body.stmts.as_slice())?;
    add(routines, function)
}

/// A method of a class, which takes `this` first, and those that stand in it.
pub fn add_method(
    plan: &Plan,
    routines: &mut Accumulator<TypedBody>,
    class: u32,
    n: u32,
    gives: Option<StaticType>,
    body: &Body,
) -> Result<(), NoMemory>
    requires plan { IsPlan plan.now }
    requires fits { n + numbers_taken (functions.method_made plan.now class n gives (routine body.now)) < 2 ^ 32 }
    ensures { OnOk result (typed_routines routines.new
        ≡ typed_routines routines.old ++ functions.method_made plan.now class n gives (routine body.now)) }
{
    let params = body.params.as_slice();
    let mut site = function_site(plan, This::Object(class), gives, false, 1, params)?;
    let mut types = Seq::new(plan.alloc);
    types.push(Ty::object(class))?;
    add_types(plan, &mut types, params)?;
    let gives = noted_type(gives);
    let function = build_function(plan, &mut site, types, gives, n, body.stmts.as_slice())?;
    add(routines, function)
}
