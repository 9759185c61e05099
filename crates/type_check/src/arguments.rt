// What the types of arguments and items say of their calls and lists.
ghost use Rattle.std.specs.Prelude.{◌≡◌, map, Some};
ghost use Rattle.sts_syntax.specs.BoardViews.{board_parameter};
ghost use Rattle.sts_syntax.specs.Views.{tree, trees};
ghost use Rattle.type_derive.specs.Nodes as node;
ghost use Rattle.type_derive.specs.Scopes.{place};
ghost use Rattle.type_derive.specs.Shown.{shown};
ghost use Rattle.type_derive.specs.Typing as typing;
ghost use Rattle.type_check.specs.Seen.{fit_all, fit_one, listed_kind, called_kind, kinds_given, lacks_here, fits_place};

use sts_scope::{Base, Environment, StaticType, flat};
use sts_syntax::{BoardParameter, Expr};
use type_derive::{
    Called, Context, Scope, gives_of, goes_some, is_drawing, is_function, listed, takes_of,
};

/// Whether values of types go where types are given, each to each; one without a type doesn't.
pub fn all_go(known: &Environment, ss: &[Option<StaticType>], ts: &[StaticType]) -> bool
    ensures { result ≡ fit_all known.now.classes ss.now ts.now }
{
    if ss.len() != ts.len() {
        return false;
    }
    for i in 0..ss.len() {
        if !goes_some(known, ss[i], ts[i]) {
            return false;
        }
    }
    true
}

/// Whether values of types all go to one; one without a type doesn't.
fn all_go_to(known: &Environment, t: StaticType, ss: &[Option<StaticType>]) -> bool
    ensures { result ≡ fit_one known.now.classes t ss.now }
{
    for i in 0..ss.len() {
        if !goes_some(known, ss[i], t) {
            return false;
        }
    }
    true
}

/// The type of a list literal, by its first item's type and those of the others.
pub fn items_kind(
    known: &Environment,
    t: Option<StaticType>,
    ss: &[Option<StaticType>],
) -> Option<StaticType>
    ensures { result ≡ listed_kind known.now.classes t ss.now }
{
    match t {
        None => None,
        Some(s) => {
            if all_go_to(known, s, ss) {
                listed(t)
            } else {
                None
            }
        }
    }
}

/// The type of a call with arguments of some types.
pub fn call_type(
    known: &Environment,
    called: &Called,
    ss: &[Option<StaticType>],
) -> Option<StaticType>
    ensures { result ≡ called_kind known.now.classes (Some (shown known.now called.now)) ss.now }
{
    if all_go(known, ss, takes_of(known, called)) {
        gives_of(known, *called)
    } else {
        None
    }
}

/// Whether no function stands where a handler is wanted.
fn lacks_here(context: &Context, scope: &Scope, to: BoardParameter, a: &Expr) -> bool
    ensures { result ≡ lacks_here context.now.tables.now context.now.known.now (place scope.now) (board_parameter to)
        (tree a.now) }
{
    match to {
        BoardParameter::Handler => !is_function(context.tables, context.known, scope, a),
        BoardParameter::Number => false,
        BoardParameter::Text => false,
        BoardParameter::Drawing => false,
    }
}

/// Whether at one of some arguments no function stands where a handler is wanted.
pub fn lacks_handler(
    context: &Context,
    scope: &Scope,
    takes: &[BoardParameter],
    args: &[Expr],
) -> bool
    ensures { result ≡ node.lacks_handler context.now.tables.now context.now.known.now (place scope.now)
        (map board_parameter takes.now) (trees args.now) }
{
    for i in 0..takes.len().min(args.len()) {
        if lacks_here(context, scope, takes[i], &args[i]) {
            return true;
        }
    }
    false
}

/// Whether an argument of a type fits its place in a call of the board.
fn fits_place(
    context: &Context,
    scope: &Scope,
    to: BoardParameter,
    kind: Option<StaticType>,
    a: &Expr,
) -> bool
    ensures { result ≡ fits_place context.now.tables.now context.now.known.now (place scope.now)
        (board_parameter to) kind (tree a.now) }
{
    match to {
        BoardParameter::Number => goes_some(context.known, kind, flat(Base::Number)),
        BoardParameter::Text => goes_some(context.known, kind, flat(Base::Text)),
        BoardParameter::Handler => is_function(context.tables, context.known, scope, a),
        BoardParameter::Drawing => is_drawing(context.tables, a),
    }
}

/// Whether there are as many arguments as a call of the board takes, each of which fits.
pub fn are_given(
    context: &Context,
    scope: &Scope,
    takes: &[BoardParameter],
    kinds: &[Option<StaticType>],
    args: &[Expr],
) -> bool
    requires { kinds.now ≡ kinds_given context.now.tables.now context.now.known.now (place scope.now)
        (map board_parameter takes.now) (trees args.now) }
    ensures { result ≡ typing.are_given context.now.tables.now context.now.known.now (place scope.now)
        (map board_parameter takes.now) (trees args.now) }
{
    if takes.len() != args.len() {
        return false;
    }
    for i in 0..args.len() {
        let a = &args[i];
        if !fits_place(context, scope, takes[i], kinds[i], a) {
            return false;
        }
    }
    true
}
