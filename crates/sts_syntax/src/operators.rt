//! The numbers of operators, as trees have them.
ghost use Rattle.std.specs.Prelude.{◌≡◌, [], ◌∷◌};

/// `-a`
pub const NEGATE: u8 = 1;
/// `+a`
pub const PLUS: u8 = 2;
/// `!a`
pub const NOT: u8 = 3;
/// `~a`
pub const COMPLEMENT: u8 = 4;

/// `a | b`
pub const BIT_OR: u8 = 1;
/// `a ^ b`
pub const BIT_XOR: u8 = 2;
/// `a & b`
pub const BIT_AND: u8 = 3;
/// `a == b` and `a === b`
pub const EQUAL: u8 = 4;
/// `a != b` and `a !== b`
pub const UNEQUAL: u8 = 5;
/// `a < b`
pub const LESS: u8 = 6;
/// `a > b`
pub const GREATER: u8 = 7;
/// `a <= b`
pub const AT_MOST: u8 = 8;
/// `a >= b`
pub const AT_LEAST: u8 = 9;
/// `a << b`
pub const SHIFT_LEFT: u8 = 10;
/// `a >> b`, which keeps the sign
pub const SHIFT_RIGHT: u8 = 11;
/// `a >>> b`, which fills with zeros
pub const SHIFT_RIGHT_UNSIGNED: u8 = 12;
/// `a + b`
pub const ADD: u8 = 13;
/// `a - b`
pub const SUBTRACT: u8 = 14;
/// `a * b`
pub const MULTIPLY: u8 = 15;
/// `a / b`
pub const DIVIDE: u8 = 16;
/// `a % b`
pub const REMAINDER: u8 = 17;

/// Prefix operators have the numbers 1 to 4. Operators between two operands have 1 to 17: those that bind more loosely come
/// first.
pub fn operators_are_numbered()
    ensures prefix { NEGATE ∷ PLUS ∷ NOT ∷ COMPLEMENT ∷ [] ≡ 1 ∷ 2 ∷ 3 ∷ 4 ∷ [] }
    ensures bits { BIT_OR ∷ BIT_XOR ∷ BIT_AND ∷ [] ≡ 1 ∷ 2 ∷ 3 ∷ [] }
    ensures compares { EQUAL ∷ UNEQUAL ∷ LESS ∷ GREATER ∷ AT_MOST ∷ AT_LEAST ∷ [] ≡ 4 ∷ 5 ∷ 6 ∷ 7 ∷ 8 ∷ 9 ∷ [] }
    ensures shifts { SHIFT_LEFT ∷ SHIFT_RIGHT ∷ SHIFT_RIGHT_UNSIGNED ∷ [] ≡ 10 ∷ 11 ∷ 12 ∷ [] }
    ensures sums { ADD ∷ SUBTRACT ∷ [] ≡ 13 ∷ 14 ∷ [] }
    ensures products { MULTIPLY ∷ DIVIDE ∷ REMAINDER ∷ [] ≡ 15 ∷ 16 ∷ 17 ∷ [] }
{}
