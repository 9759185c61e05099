// What a node says for itself once its parts were gone through: its type, or why it has none.
ghost use Rattle.std.specs.Prelude.{◌≡◌, ◌&&◌, Some, None, is_some, map, IfOk, if◌then◌else◌};
ghost use Rattle.sts_syntax.specs.BoardTable.{row_of};
ghost use Rattle.sts_syntax.specs.BoardViews.{board_parameter};
ghost use Rattle.sts_syntax.specs.Trees as t;
ghost use Rattle.sts_syntax.specs.Views.{tree, trees};
ghost use Rattle.sts_base.specs.declared.refused.Code.TheVariants as code;
ghost use Rattle.sts_scope.specs.Failures as failure;
ghost use Rattle.sts_scope.specs.Failures.{Finds};
ghost use Rattle.sts_scope.specs.Kinds as kind;
ghost use Rattle.sts_scope.specs.Rules as rule;
ghost use Rattle.sts_scope.specs.Codes as cause;
ghost use Rattle.type_derive.specs.Nodes as node;
ghost use Rattle.type_derive.specs.declared.roles.Role.TheVariants as role;
ghost use Rattle.type_derive.specs.Scopes.{place, naming};
ghost use Rattle.type_derive.specs.Shown.{shown, all_shown};
ghost use Rattle.type_derive.specs.Typing as typing;
ghost use Rattle.type_derive.specs.Typing.{◌>>=◌ as bind};
ghost use Rattle.type_check.specs.Seen.{is_called, is_served, name_suits, own_name, own_part, own_member, board_cause, plain, part_at, member, kinds_given, listed_kind, called_kind, own_called_kind, super_callee, board_kind_of};

use crate::arguments::{are_given, call_type, items_kind, lacks_handler};
use crate::codes::{why_call, why_make, why_named, why_part, why_super, why_this};
use crate::seen::{Seen, own, plain};
use sts_base::{Code, Refused};
use sts_scope::{Found, Part, StaticType};
use sts_syntax::{BoardCall, BoardParameter, Expr, Node};
use type_derive::{
    Called, Context, Role, Scope, board_kind, constant, gives_of, made, name_fixed, name_found,
    name_kind, named_callee, part_callee, part_kind, part_of, part_settable, serves, super_method,
    this_kind,
};

/// Whether it is the place of what is called.
pub fn is_called(role: Role) -> bool
    ensures { result ≡ is_called role }
{
    match role {
        Role::Called => true,
        Role::Free => false,
        Role::Given => false,
        Role::Served => false,
    }
}

/// Whether it is the place of what serves events.
pub fn is_served(role: Role) -> bool
    ensures { result ≡ is_served role }
{
    match role {
        Role::Served => true,
        Role::Free => false,
        Role::Given => false,
        Role::Called => false,
    }
}

/// What is called by its name.
fn is_routine(found: Found) -> bool
    ensures { (known : _) → result ≡ is_some (typing.named_callee known found) }
{
    match found {
        Found::Function(_) => true,
        Found::Local(_) => false,
        Found::Global(_) => false,
        Found::Class(_) => false,
        Found::Captured => false,
        Found::Unknown => false,
    }
}

/// A name that needs no type: of a function, where one is called, or where a handler is wanted and it serves.
fn name_suits(context: &Context, role: Role, found: Found) -> bool
    ensures { result ≡ name_suits context.now.tables.now context.now.known.now role found }
{
    match role {
        Role::Called => is_routine(found),
        Role::Served => serves(context.known, found),
        Role::Free => false,
        Role::Given => false,
    }
}

/// What a name stands for.
fn found_seen(
    context: &Context,
    scope: &Scope,
    role: Role,
    found: Found,
    at: u32,
) -> Result<Seen, Refused>
    ensures found { Finds result (own_name context.now.tables.now context.now.known.now
        (place scope.now) role found at) }
    ensures seen { IfOk result (λ s. s ≡ plain (rule.name_kind context.now.known.now (place scope.now) found)) }
{
    let kind = name_kind(context.known, scope, found);
    if name_suits(context, role, found) {
        return Ok(plain(kind));
    }
    own(kind, why_named(context.known, role, found), at)
}

/// A name.
pub fn name_seen(
    context: &Context,
    scope: &Scope,
    role: Role,
    x: u32,
    at: u32,
) -> Result<Seen, Refused>
    ensures found { Finds result (node.unsuited context.now.tables.now (naming context.now) context.now.known.now
        (place scope.now) role (t.Name at x) at) }
    ensures seen { IfOk result (λ s. s ≡ plain
        (rule.name_kind context.now.known.now (place scope.now)
        (typing.finds context.now.tables.now context.now.known.now (place scope.now) x))) }
{
    let found = name_found(context.tables, context.known, scope, x);
    found_seen(context, scope, role, found, at)
}

/// `this`.
pub fn this_seen(scope: &Scope, at: u32) -> Result<Seen, Refused>
    ensures found { Finds result (failure.own (rule.this_kind scope.now.this) (cause.why_this scope.now.this) at) }
    ensures seen { IfOk result (λ s. s ≡ plain (rule.this_kind scope.now.this)) }
{
    own(this_kind(scope.this), why_this(scope.this), at)
}

/// What may be called behind a dot, where it is called.
fn is_callee(role: Role, part: Part) -> bool
    ensures { (known : _) → result
        ≡ (is_called role && is_some (typing.part_callee known part)) }
{
    match part {
        Part::Method(_) => is_called(role),
        Part::Push(_) => is_called(role),
        Part::Pop(_) => is_called(role),
        Part::Field(_) => false,
        Part::Length => false,
        Part::Missing => false,
    }
}

/// What stands behind a dot.
fn part_seen(context: &Context, role: Role, part: Part, at: u32) -> Result<Seen, Refused>
    ensures found { Finds result (own_part context.now.tables.now context.now.known.now role part at) }
    ensures seen { IfOk result
        (λ s. s ≡ record { kind = rule.part_kind context.now.known.now part; part = Some part }) }
{
    let kind = part_kind(context.known, part);
    if !is_callee(role, part) {
        own(kind, why_part(part), at)?;
    }
    Ok(Seen {
        kind,
        part: Some(part),
    })
}

/// A member of what has a type, or has none.
pub fn member_seen(
    context: &Context,
    role: Role,
    t: Option<StaticType>,
    m: u32,
    at: u32,
) -> Result<Seen, Refused>
    ensures found { Finds result (own_member context.now.tables.now context.now.known.now role t m at) }
    ensures seen { IfOk result (λ s. s ≡ member context.now.tables.now context.now.known.now t m) }
{
    match t {
        None => own(None, Code::Mismatch, at),
        Some(t) => part_seen(
            context,
            role,
            part_of(context.tables, context.known, t, m),
            at,
        ),
    }
}

/// What is called, by what stands behind its dot.
pub fn callee(context: &Context, scope: &Scope, f: &Expr, part: Option<Part>) -> Option<Called>
    requires { part ≡ part_at context.now.tables.now context.now.known.now (place scope.now) (tree f.now) }
    ensures { all_shown context.now.known.now result
        ≡ typing.callee_of context.now.tables.now context.now.known.now (place scope.now) (tree f.now) }
{
    match &f.node {
        Node::Name(x) => named_callee(name_found(context.tables, context.known, scope, *x)),
        Node::Member(_, _) => match part {
            None => None,
            Some(part) => part_callee(part),
        },
        _ => None,
    }
}

/// Whether a target may be set, by what stands behind its dot.
pub fn settable(context: &Context, scope: &Scope, x: &Expr, part: Option<Part>) -> bool
    requires { part ≡ part_at context.now.tables.now context.now.known.now (place scope.now) (tree x.now) }
    ensures { result ≡ typing.settable context.now.tables.now context.now.known.now (place scope.now) (tree x.now) }
{
    match &x.node {
        Node::Name(x) => !name_fixed(
            context.known,
            scope,
            name_found(context.tables, context.known, scope, *x),
        ),
        Node::Member(a, m) => {
            constant(context.tables, context.known, scope, a, *m).is_none()
                && match part {
                    None => false,
                    Some(part) => part_settable(part),
                }
        }
        Node::Item(_, _) => true,
        _ => false,
    }
}

/// A call of what is no call of the board.
pub fn call_seen(
    context: &Context,
    called: Option<Called>,
    kinds: &[Option<StaticType>],
    at: u32,
) -> Result<Seen, Refused>
    ensures found { Finds result (own_called_kind context.now.known.now
        (all_shown context.now.known.now called) kinds.now at) }
    ensures seen { IfOk result (λ s. s ≡ plain
        (called_kind context.now.known.now.classes (all_shown context.now.known.now called) kinds.now)) }
{
    match called {
        None => Err(Refused::Program {
            code: Code::Mismatch,
            at,
        }),
        Some(called) => own(
            call_type(context.known, &called, kinds),
            why_call(gives_of(context.known, called)),
            at,
        ),
    }
}

/// A call of a base's method.
pub fn super_call_seen(
    context: &Context,
    scope: &Scope,
    m: u32,
    kinds: &[Option<StaticType>],
    at: u32,
) -> Result<Seen, Refused>
    ensures found { Finds result (failure.own (called_kind context.now.known.now.classes
        (super_callee context.now.tables.now context.now.known.now scope.now.this m) kinds.now)
        (node.cause_of context.now.tables.now context.now.known.now (place scope.now) role.Free
        (t.SuperCall at (Some m) t.none)) at) }
    ensures seen { IfOk result (λ s. s ≡ plain
        (called_kind context.now.known.now.classes
        (super_callee context.now.tables.now context.now.known.now scope.now.this m) kinds.now)) }
{
    match super_method(context.known, scope.this, m) {
        None => Err(Refused::Program {
            code: why_super(context.known, scope.this, m),
            at,
        }),
        Some(d) => {
            let called = Called::Routine(d);
            own(
                call_type(context.known, &called, kinds),
                why_call(gives_of(context.known, called)),
                at,
            )
        }
    }
}

/// `new` of a class.
pub fn make_seen(
    context: &Context,
    scope: &Scope,
    x: u32,
    kinds: &[Option<StaticType>],
    at: u32,
) -> Result<Seen, Refused>
    ensures found { let f = typing.finds context.now.tables.now context.now.known.now
        (place scope.now) x in Finds result
        (failure.own (called_kind context.now.known.now.classes
        (typing.made context.now.known.now f) kinds.now) (cause.why_make f) at) }
    ensures seen { let f = typing.finds context.now.tables.now context.now.known.now (place scope.now) x in IfOk result
        (λ s. s ≡ plain (called_kind context.now.known.now.classes
        (typing.made context.now.known.now f) kinds.now)) }
{
    let found = name_found(context.tables, context.known, scope, x);
    match made(found) {
        None => Err(Refused::Program {
            code: why_make(found),
            at,
        }),
        Some(called) => own(call_type(context.known, &called, kinds), Code::Mismatch, at),
    }
}

/// Why arguments don't fit a call of the board.
fn why_board(context: &Context, scope: &Scope, takes: &[BoardParameter], args: &[Expr]) -> Code
    ensures { result ≡ if node.lacks_handler context.now.tables.now context.now.known.now (place scope.now)
        (map board_parameter takes.now) (trees args.now) then code.BadHandler else code.Mismatch }
{
    if lacks_handler(context, scope, takes, args) {
        Code::BadHandler
    } else {
        Code::Mismatch
    }
}

/// A call of the board.
pub fn board_call_seen(
    context: &Context,
    scope: &Scope,
    call: BoardCall,
    kinds: &[Option<StaticType>],
    args: &[Expr],
    at: u32,
) -> Result<Seen, Refused>
    requires { kinds.now ≡ kinds_given context.now.tables.now context.now.known.now (place scope.now)
        (row_of call).takes (trees args.now) }
    ensures found { Finds result (failure.own
        (board_kind_of context.now.tables.now context.now.known.now (place scope.now) call (trees args.now))
        (board_cause context.now.tables.now context.now.known.now (place scope.now) call (trees args.now)) at) }
    ensures seen { IfOk result (λ s. s ≡ plain
        (board_kind_of context.now.tables.now context.now.known.now (place scope.now) call (trees args.now))) }
{
    let takes = call.takes();
    if are_given(context, scope, takes, kinds, args) {
        return Ok(plain(Some(board_kind(call.gives()))));
    }
    own(None, why_board(context, scope, takes, args), at)
}

/// A list literal, by its first item's type and those of the others.
pub fn items_seen(
    context: &Context,
    t: Option<StaticType>,
    kinds: &[Option<StaticType>],
    at: u32,
) -> Result<Seen, Refused>
    ensures found { Finds result (failure.own
        (listed_kind context.now.known.now.classes t kinds.now) code.Mismatch at) }
    ensures seen { IfOk result (λ s. s ≡ plain (listed_kind context.now.known.now.classes t kinds.now)) }
{
    own(items_kind(context.known, t, kinds), Code::Mismatch, at)
}
