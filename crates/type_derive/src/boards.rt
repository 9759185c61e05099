// What calls of the board take and give, and which expressions are functions.
ghost use Rattle.std.specs.Prelude.{◌≡◌, drop};
ghost use Rattle.std.specs.Option.{option_map};
ghost use Rattle.sts_syntax.specs.Types.{plain_type, value_type};
ghost use Rattle.sts_syntax.specs.Views.{tree};
ghost use Rattle.type_derive.specs.Scopes.{place};
ghost use Rattle.type_derive.specs.Shown.{goes_some, goes_first, row_shown, row_called};
ghost use Rattle.type_derive.specs.Typing as typing;

use crate::callees::board_callee;
use crate::roles::Role;
use crate::scopes::{Scope, name_found};
use sts_base::Tables;
use sts_scope::{Base, Environment, Found, StaticType, flat, goes};
use sts_syntax::{BaseType, BoardParameter, Expr, Node, Ty};

/// Whether a place gives a type.
pub fn is_given(role: Role) -> bool
    ensures { result ≡ typing.is_given role }
{
    match role {
        Role::Given => true,
        Role::Free => false,
        Role::Called => false,
        Role::Served => false,
    }
}

fn plain_kind(base: BaseType) -> StaticType
    ensures { result ≡ typing.board_kind (plain_type base) }
{
    match base {
        BaseType::Number => flat(Base::Number),
        BaseType::Boolean => flat(Base::Boolean),
        BaseType::Text => flat(Base::Text),
        BaseType::Nothing => flat(Base::Nothing),
        BaseType::Class(c) => flat(Base::Class(c)),
        BaseType::Null => flat(Base::Null),
    }
}

/// A type of the board's table.
pub fn board_kind(t: Ty) -> StaticType
    ensures { result ≡ typing.board_kind (value_type t) }
{
    if t.depth == 0 {
        plain_kind(t.base)
    } else {
        flat(Base::Nothing)
    }
}

/// What a call of the board takes and gives.
#[derive(Clone, Copy)]
pub struct BoardTakes {
    /// what stands at its places
    pub takes: &'static [BoardParameter],
    /// the type of what it gives
    pub gives: StaticType,
}

/// What the call of the board takes and gives that is called, if it is one.
pub fn board_takes(
    tables: &Tables,
    known: &Environment,
    scope: &Scope,
    f: &Expr,
) -> Option<BoardTakes>
    ensures { option_map row_shown result ≡ option_map row_called
        (typing.board_callee tables.now known.now (place scope.now) (tree f.now)) }
{
    match board_callee(tables, known, scope, f) {
        None => None,
        Some(call) => Some(BoardTakes {
            takes: call.takes(),
            gives: board_kind(call.gives()),
        }),
    }
}

/// Whether a value goes where a type is given; without a type itself it doesn't.
pub fn goes_some(known: &Environment, s: Option<StaticType>, t: StaticType) -> bool
    ensures { result ≡ goes_some known.now.classes s t }
{
    match s {
        None => false,
        Some(s) => goes(known, s, t),
    }
}

/// Whether it goes where the i-th of some types is given.
pub fn goes_at(known: &Environment, s: Option<StaticType>, ts: &[StaticType], i: usize) -> bool
    ensures { result ≡ goes_first known.now.classes s (drop i ts.now) }
{
    match ts.get(i) {
        None => false,
        Some(t) => goes_some(known, s, *t),
    }
}

/// Whether a name is a function's.
fn names_function(found: Found) -> bool
    ensures { result ≡ typing.names_function found }
{
    match found {
        Found::Function(_) => true,
        Found::Local(_) => false,
        Found::Captured => false,
        Found::Global(_) => false,
        Found::Class(_) => false,
        Found::Unknown => false,
    }
}

/// Whether an expression is a function, by its name or as an expression: what may stand where a handler is wanted.
pub fn is_function(tables: &Tables, known: &Environment, scope: &Scope, e: &Expr) -> bool
    ensures { result ≡ typing.is_routine tables.now known.now (place scope.now) (tree e.now) }
{
    match &e.node {
        Node::Name(x) => names_function(name_found(tables, known, scope, *x)),
        Node::Handler(_) => true,
        _ => false,
    }
}
