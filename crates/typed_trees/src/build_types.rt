// Types of values, as the typed tree notes them.
ghost use Rattle.std.specs.Prelude.{◌≡◌};
ghost use Rattle.sts_syntax.specs.Types as value;
ghost use Rattle.sts_scope.specs.Kinds as kind;

use sts_scope::{Base, StaticType};
use sts_syntax::{BaseType, Ty};

/// The type of values of a base. `[]` has the type of its place, so that `Empty` is none.
fn base_type(base: Base) -> BaseType
    ensures { value.plain_type result ≡ kind.base_type base }
{
    match base {
        Base::Number => BaseType::Number,
        Base::Boolean => BaseType::Boolean,
        Base::Text => BaseType::Text,
        Base::Nothing | Base::Empty => BaseType::Nothing,
        Base::Null => BaseType::Null,
        Base::Class(class) => BaseType::Class(class),
    }
}

/// The type of values that a type is.
pub fn type_of_values(of: StaticType) -> Ty
    ensures { value.value_type result ≡ kind.value_type of }
{
    Ty {
        base: base_type(of.base),
        depth: u64::from(of.depth),
    }
}

/// The type of arrays of values that a type is.
pub fn list_of_values(of: StaticType) -> Ty
    ensures { value.value_type result ≡ value.ListOf (kind.value_type of) }
{
    Ty {
        base: base_type(of.base),
        depth: u64::from(of.depth) + 1,
    }
}
