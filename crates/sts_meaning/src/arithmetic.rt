//! Operators between two numbers.

ghost use Rattle.std.specs.Prelude.{◌≡◌, Some};
ghost use Rattle.sts_syntax.specs.TypeRules.{IsOneOf, arithmetic_operators};
ghost use Rattle.sts_meaning.specs.Values.{arithmetic, quotient, remainder};

use sts_syntax::operators::{
    ADD, BIT_AND, BIT_OR, BIT_XOR, DIVIDE, MULTIPLY, SHIFT_LEFT, SHIFT_RIGHT, SHIFT_RIGHT_UNSIGNED,
    SUBTRACT,
};

/// What an operator makes of two numbers, by its number among `sts_syntax`'s operators: one of arithmetic, of shifts or of bits. The
/// answer is that of whole numbers without bound, and then ToInt32 (ECMA-262, 6.1.6.1 and 7.1.6). A divisor of 0 gives 0, and a
/// shift's count is taken modulo 32.
pub fn apply(op: u8, left: i32, right: i32) -> i32
    requires { IsOneOf op arithmetic_operators }
    ensures { arithmetic op left right ≡ Some result }
{
    let count = right.cast_unsigned() % 32;
    match op {
        BIT_OR => left | right,
        BIT_XOR => left ^ right,
        BIT_AND => left & right,
        SHIFT_LEFT => left << count,
        SHIFT_RIGHT => left >> count,
        SHIFT_RIGHT_UNSIGNED => (left.cast_unsigned() >> count).cast_signed(),
        ADD => left.wrapping_add(right),
        SUBTRACT => left.wrapping_sub(right),
        MULTIPLY => left.wrapping_mul(right),
        DIVIDE => quotient_of(left, right),
        _ => remainder_of(left, right),
    }
}

/// The quotient, truncated toward zero; `-2147483648 / -1` is `-2147483648`.
fn quotient_of(left: i32, right: i32) -> i32
    ensures { result ≡ quotient left right }
{
    if right == 0 {
        0
    } else {
        left.wrapping_div(right)
    }
}

/// The remainder, with the sign of the left number.
fn remainder_of(left: i32, right: i32) -> i32
    ensures { result ≡ remainder left right }
{
    if right == 0 {
        0
    } else {
        left.wrapping_rem(right)
    }
}
