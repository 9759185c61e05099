// Types, and which goes where.
ghost use Rattle.std.specs.Prelude.{◌≡◌, ◌<◌, ◌+◌, length};
ghost use Rattle.sts_scope.specs.Kinds as kind;
ghost use Rattle.sts_scope.specs.Rules as rule;

use crate::environment::Environment;
use crate::kinds::{Base, StaticType};

/// A type without `[]`.
pub fn flat(base: Base) -> StaticType
    ensures { result ≡ kind.flat base }
{
    StaticType { base, depth: 0 }
}

fn same_base(a: Base, b: Base) -> bool
    ensures { result ≡ kind.same_base a b }
{
    match (a, b) {
        (Base::Number, Base::Number) => true,
        (Base::Boolean, Base::Boolean) => true,
        (Base::Text, Base::Text) => true,
        (Base::Nothing, Base::Nothing) => true,
        (Base::Null, Base::Null) => true,
        (Base::Empty, Base::Empty) => true,
        (Base::Class(m), Base::Class(n)) => m == n,
        _ => false,
    }
}

/// Whether two types are the same.
#[tactic(auto, unfolding(crate::specs::Kinds::same))]
pub fn same(s: StaticType, t: StaticType) -> bool
    ensures { result ≡ kind.same s t }
{
    same_base(s.base, t.base) && s.depth == t.depth
}

/// Whether a type is an array's.
#[tactic(auto, unfolding(crate::specs::Kinds::is_array))]
pub fn is_array(t: StaticType) -> bool
    ensures { result ≡ kind.is_array t }
{
    t.depth != 0
}

/// The class of an object.
#[tactic(auto, unfolding(crate::specs::Kinds::class_of))]
pub fn class_of(t: StaticType) -> Option<u32>
    ensures { result ≡ kind.class_of t }
{
    if t.depth == 0 {
        match t.base {
            Base::Class(n) => Some(n),
            _ => None,
        }
    } else {
        None
    }
}

/// Whether null goes to a type.
#[tactic(auto, unfolding(crate::specs::Kinds::takes_null))]
pub fn takes_null(t: StaticType) -> bool
    ensures { result ≡ kind.takes_null t }
{
    is_array(t)
        || match t.base {
            Base::Text => true,
            Base::Class(_) => true,
            _ => false,
        }
}

/// The type of an array's items.
pub fn item(t: StaticType) -> StaticType
    ensures { result ≡ kind.item t }
{
    StaticType {
        base: t.base,
        depth: t.depth.saturating_sub(1),
    }
}

/// The type of an array of items of a type. None exactly where it would have more `[]` than a type may have.
pub fn array_of(t: StaticType) -> Option<StaticType>
    ensures { result ≡ kind.array_of t }
{
    if t.depth < u32::MAX {
        Some(StaticType {
            base: t.base,
            depth: t.depth + 1,
        })
    } else {
        None
    }
}

/// Whether two types are classes of which the second is the first or a base of it.
#[tactic(auto, unfolding(crate::specs::Rules::below))]
pub fn below(known: &Environment, s: StaticType, t: StaticType) -> bool
    ensures { result ≡ rule.below known.now.classes s t }
{
    match class_of(s) {
        None => false,
        Some(m) => match class_of(t) {
            None => false,
            Some(n) => known.reaches(m, n),
        },
    }
}

/// Whether a value of the first type goes where the second is given.
#[tactic(auto, unfolding(crate::specs::Rules::goes))]
pub fn goes(known: &Environment, s: StaticType, t: StaticType) -> bool
    ensures { result ≡ rule.goes known.now.classes s t }
{
    same(s, t)
        || below(known, s, t)
        || (same(s, flat(Base::Null)) && takes_null(t))
        || (same(s, flat(Base::Empty)) && is_array(t))
}
