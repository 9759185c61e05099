// The type of a node from the types of its parts, where each may have none.
ghost use Rattle.std.specs.Prelude.{◌≡◌, Some, None, IfOk, if◌then◌else◌};
ghost use Rattle.sts_scope.specs.Kinds as kind;
ghost use Rattle.sts_scope.specs.Rules as rule;
ghost use Rattle.type_derive.specs.Typing.{◌>>=◌ as bind};

use sts_scope::{
    Environment, StaticType, array_of, assign, choose, counted, element, joined, operate, prefix,
};

pub fn prefixed(op: u8, s: Option<StaticType>) -> Option<StaticType>
    ensures { result ≡ bind s (λ s. rule.prefix op s) }
{
    match s {
        Some(s) => prefix(op, s),
        None => None,
    }
}

pub fn operated(
    known: &Environment,
    op: u8,
    s: Option<StaticType>,
    t: Option<StaticType>,
) -> Option<StaticType>
    ensures { result ≡ bind s (λ s. bind t (λ t. rule.operate known.now.classes op s t)) }
{
    match (s, t) {
        (Some(s), Some(t)) => operate(known, op, s, t),
        (Some(_), None) => None,
        (None, _) => None,
    }
}

pub fn both(s: Option<StaticType>, t: Option<StaticType>) -> Option<StaticType>
    ensures { result ≡ bind s (λ s. bind t (λ t. rule.joined s t)) }
{
    match (s, t) {
        (Some(s), Some(t)) => joined(s, t),
        (Some(_), None) => None,
        (None, _) => None,
    }
}

pub fn chosen(
    known: &Environment,
    q: Option<StaticType>,
    s: Option<StaticType>,
    t: Option<StaticType>,
) -> Option<StaticType>
    ensures { result ≡ bind q (λ q. bind s (λ s. bind t (λ t. rule.choose known.now.classes q s t))) }
{
    match (q, s, t) {
        (Some(q), Some(s), Some(t)) => choose(known, q, s, t),
        (Some(_), Some(_), None) => None,
        (Some(_), None, _) => None,
        (None, _, _) => None,
    }
}

/// An assignment to a target of a type, where it may be set.
pub fn assigned(
    known: &Environment,
    op: Option<u8>,
    t: Option<StaticType>,
    s: Option<StaticType>,
) -> Option<StaticType>
    ensures { result ≡ bind t (λ t. bind s (λ s. rule.assign known.now.classes op t s)) }
{
    match (t, s) {
        (Some(t), Some(s)) => assign(known, op, t, s),
        (Some(_), None) => None,
        (None, _) => None,
    }
}

pub fn bumped(t: Option<StaticType>) -> Option<StaticType>
    ensures { result ≡ bind t (λ t. rule.counted t) }
{
    match t {
        Some(t) => counted(t),
        None => None,
    }
}

/// The type of an assignment to a target, where it may be set.
pub fn set_kind(
    known: &Environment,
    op: Option<u8>,
    can: bool,
    t: Option<StaticType>,
    s: Option<StaticType>,
) -> Option<StaticType>
    ensures { result ≡ bind t (λ u. bind s (λ v. if can then rule.assign known.now.classes op u v else None)) }
{
    match (t, s) {
        (Some(t), Some(s)) => { if can { assign(known, op, t, s) } else { None } }
        (Some(_), None) => None,
        (None, _) => None,
    }
}

/// The type of `++` or `--` of a target, where it may be set.
pub fn bump_kind(can: bool, t: Option<StaticType>) -> Option<StaticType>
    ensures { result ≡ bind t (λ u. if can then rule.counted u else None) }
{
    match t {
        Some(t) => { if can { counted(t) } else { None } }
        None => None,
    }
}

pub fn indexed(s: Option<StaticType>, t: Option<StaticType>) -> Option<StaticType>
    ensures { result ≡ bind s (λ s. bind t (λ t. rule.element s t)) }
{
    match (s, t) {
        (Some(s), Some(t)) => element(s, t),
        (Some(_), None) => None,
        (None, _) => None,
    }
}

/// The type of a list literal whose items go to the first one's type.
pub fn listed(t: Option<StaticType>) -> Option<StaticType>
    ensures { result ≡ bind t (λ t. kind.array_of t) }
{
    match t {
        None => None,
        Some(t) => array_of(t),
    }
}
