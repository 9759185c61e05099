// Types of values.
ghost use Rattle.std.specs.Prelude.{◌≡◌};
ghost use Rattle.sts_syntax.specs.Types.{value_type, Object};

/// What stands before the `[]` of a type.
#[derive(Clone, Copy)]
pub enum BaseType {
    /// a whole number of 32 bits
    Number,
    /// true or false
    Boolean,
    /// a text
    Text,
    /// no value, as a function without a result gives
    Nothing,
    /// An object of the class with this number, a place in `Typed::classes`, or of a class below it; or null.
    Class(u32),
    /// what `null` alone has
    Null,
}

/// The type of a value: a base, and how many `[]` stand behind it. With each of them it is an array of items of the type
/// without, or null.
#[derive(Clone, Copy)]
pub struct Ty {
    /// what stands before the `[]`
    pub base: BaseType,
    /// how many `[]` there are
    pub depth: u64,
}

impl Ty {
    /// a whole number of 32 bits
    pub const NUMBER: Ty = Ty {
        base: BaseType::Number,
        depth: 0,
    };

    /// true or false
    pub const BOOLEAN: Ty = Ty {
        base: BaseType::Boolean,
        depth: 0,
    };

    /// a text
    pub const TEXT: Ty = Ty {
        base: BaseType::Text,
        depth: 0,
    };

    /// no value
    pub const NOTHING: Ty = Ty {
        base: BaseType::Nothing,
        depth: 0,
    };

    /// what `null` alone has
    pub const NULL: Ty = Ty {
        base: BaseType::Null,
        depth: 0,
    };

    /// An object of the class with this number, or of a class below it; or null.
    pub fn object(class: u32) -> Ty
        ensures { value_type result ≡ Object class }
    {
        Ty {
            base: BaseType::Class(class),
            depth: 0,
        }
    }
}
