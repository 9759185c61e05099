// What declared names, tests and results are given.
ghost use Rattle.std.specs.Prelude.{◌≡◌, IfOk, is_some};
ghost use Rattle.sts_syntax.specs.Views.{parameters, optional_annotation};
ghost use Rattle.sts_base.specs.declared.refused.Code.TheVariants as code;
ghost use Rattle.sts_scope.specs.Failures as failure;
ghost use Rattle.sts_scope.specs.Failures.{Finds};
ghost use Rattle.sts_scope.specs.Rules as rule;
ghost use Rattle.sts_scope.specs.Values.{value_at};
ghost use Rattle.type_derive.specs.Nodes as node;
ghost use Rattle.type_derive.specs.Typing as typing;
ghost use Rattle.type_derive.specs.Scopes.{place, naming};
ghost use Rattle.type_check.specs.Bounds as bounds;

use sts_base::{Code, Refused};
use sts_scope::{
    Base, ByNumber, Environment, StaticType, flat, goes, is_array, is_dollar, kind_of, same, unless,
};
use sts_syntax::{Param, Shape};
use text_headings::check_written;
use type_derive::{Context, Role, Scope, is_twice};

/// The types that are written at the parameters of a function expression.
pub fn check_parameter_types(classes: &ByNumber, params: &[Param]) -> Result<(), Refused>
    ensures { Finds result (node.parameter_types_failure (value_at classes.now.values.items) (parameters params.now)) }
{
    for i in 0..params.len() {
        check_written(classes, params[i].at, &params[i].shape)?;
    }
    Ok(())
}

/// Whether it is the type of truth values.
pub fn is_boolean(kind: Option<StaticType>) -> bool
    ensures { result ≡ rule.is_boolean kind }
{
    match kind {
        None => false,
        Some(t) => same(t, flat(Base::Boolean)),
    }
}

/// Whether it is what a function gives that gives nothing.
pub fn is_nothing(kind: Option<StaticType>) -> bool
    ensures { result ≡ rule.is_nothing kind }
{
    match kind {
        None => false,
        Some(t) => same(t, flat(Base::Nothing)),
    }
}

/// Whether it is an array's type.
pub fn is_list(kind: Option<StaticType>) -> bool
    ensures { result ≡ node.is_list kind }
{
    match kind {
        None => false,
        Some(t) => is_array(t),
    }
}

/// A result that is known gives a type to what is returned.
pub fn kind_role(kind: Option<StaticType>) -> Role
    ensures { result ≡ node.kind_role kind }
{
    match kind {
        None => Role::Free,
        Some(_) => Role::Given,
    }
}

/// A type that is written gives one to an initialiser.
pub fn shape_role(shape: &Option<Shape>) -> Role
    ensures { result ≡ node.kind_role (optional_annotation shape.now) }
{
    match shape {
        None => Role::Free,
        Some(_) => Role::Given,
    }
}

/// Whether a value goes where a type is given, both of which are known.
pub fn fits(known: &Environment, s: Option<StaticType>, t: Option<StaticType>) -> bool
    ensures { result ≡ typing.fits known.now s t }
{
    match (s, t) {
        (Some(s), Some(t)) => goes(known, s, t),
        (Some(_), None) => false,
        (None, _) => false,
    }
}

/// A name that is declared in a block begins with no `$` and is no second one.
pub fn check_local(context: &Context, scope: &Scope, x: u32, at: u32) -> Result<(), Refused>
    ensures { Finds result (node.own_local context.now.tables.now
        (place scope.now) x at) }
{
    unless(!is_dollar(context.tables, x), Code::UnknownName, at)?;
    unless(!is_twice(scope, x), Code::TwiceNamed, at)
}

/// The type of a name without a written one.
fn derived(first: Option<StaticType>, at: u32) -> Result<Option<StaticType>, Refused>
    ensures found { Finds result (failure.own first code.NeedsType at) }
    ensures kind { IfOk result (λ kind. kind ≡ first) }
{
    match first {
        Some(_) => Ok(first),
        None => Err(Refused::Program {
            code: Code::NeedsType,
            at,
        }),
    }
}

/// The type of a declared name, by that of its initialiser.
pub fn bound(
    context: &Context,
    shape: &Option<Shape>,
    there: bool,
    first: Option<StaticType>,
    at: u32,
) -> Result<Option<StaticType>, Refused>
    ensures found { Finds result (bounds.bound_failure (naming context.now) context.now.known.now
        (optional_annotation shape.now) there first at) }
    ensures kind { IfOk result (λ kind. kind
        ≡ bounds.bound_kind (naming context.now) (optional_annotation shape.now) first) }
{
    match shape {
        None => derived(first, at),
        Some(shape) => {
            let kind = kind_of(context.classes, shape);
            if there {
                unless(fits(context.known, first, kind), Code::Mismatch, at)?;
            }
            Ok(kind)
        }
    }
}
