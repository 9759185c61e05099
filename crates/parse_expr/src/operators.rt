// Operators: their numbers, and how tightly they bind.
ghost use Rattle.std.specs.Prelude.{◌≡◌, ◌<◌};
ghost use Rattle.sts_grammar.specs.Operators as spec;
ghost use Rattle.sts_grammar.specs.Precedence.{prefix_level};

use sts_lexer::Mark;
use sts_syntax::operators as op;

/// How tightly `=` and its like, and `?:`, hold together (ECMA-262, sections 13.14 and 13.15): any expression holds as tightly.
pub const ASSIGNMENT_LEVEL: u8 = 1;

/// How tightly `||` holds together (section 13.13).
pub const EITHER_LEVEL: u8 = 2;

/// How tightly `&&` holds together (section 13.13). Operators between two operands have the levels up to that of prefix operators.
pub const BOTH_LEVEL: u8 = 3;

/// How tightly a prefix operator holds its operand (section 13.5).
pub const PREFIX_LEVEL: u8 = 12;

/// How tightly `++` or `--` behind its target holds together (section 13.4).
pub const POSTFIX_LEVEL: u8 = 13;

/// How tightly primaries, and what stands behind one, hold together (sections 13.2 and 13.3).
pub const PRIMARY_LEVEL: u8 = 14;

/// The number of the operator between two operands that a mark is.
pub fn infix_number(mark: Mark) -> Option<u8>
    ensures { result ≡ spec.infix_number mark }
{
    match mark {
        Mark::Bar => Some(op::BIT_OR),
        Mark::Caret => Some(op::BIT_XOR),
        Mark::Ampersand => Some(op::BIT_AND),
        Mark::Equal => Some(op::EQUAL),
        Mark::StrictEqual => Some(op::EQUAL),
        Mark::NotEqual => Some(op::UNEQUAL),
        Mark::StrictNotEqual => Some(op::UNEQUAL),
        Mark::Less => Some(op::LESS),
        Mark::Greater => Some(op::GREATER),
        Mark::LessEqual => Some(op::AT_MOST),
        Mark::GreaterEqual => Some(op::AT_LEAST),
        Mark::ShiftLeft => Some(op::SHIFT_LEFT),
        Mark::ShiftRight => Some(op::SHIFT_RIGHT),
        Mark::UnsignedShiftRight => Some(op::SHIFT_RIGHT_UNSIGNED),
        Mark::Plus => Some(op::ADD),
        Mark::Minus => Some(op::SUBTRACT),
        Mark::Star => Some(op::MULTIPLY),
        Mark::Slash => Some(op::DIVIDE),
        Mark::Percent => Some(op::REMAINDER),
        _ => None,
    }
}

/// How tightly operators between two operands bind, by their numbers.
const LEVELS: [u8; 18] = [0, 4, 5, 6, 7, 7, 8, 8, 8, 8, 9, 9, 9, 10, 10, 11, 11, 11];

/// How tightly an operator between two operands binds.
pub fn infix_level(op: u8) -> u8
    ensures value { result ≡ spec.infix_level op }
    ensures small { result < prefix_level }
{
    if (op as usize) < LEVELS.len() {
        LEVELS[op as usize]
    } else {
        0
    }
}

/// The number of the prefix operator that a mark is.
pub fn prefix_number(mark: Mark) -> Option<u8>
    ensures { result ≡ spec.prefix_number mark }
{
    match mark {
        Mark::Minus => Some(op::NEGATE),
        Mark::Plus => Some(op::PLUS),
        Mark::Exclamation => Some(op::NOT),
        Mark::Tilde => Some(op::COMPLEMENT),
        _ => None,
    }
}

/// What `++` and `--` add.
pub fn bump_by(mark: Mark) -> Option<i32>
    ensures { result ≡ spec.bump_by mark }
{
    match mark {
        Mark::PlusPlus => Some(1),
        Mark::MinusMinus => Some(-1),
        _ => None,
    }
}

/// The operator of an assignment mark, which `=` lacks.
pub fn assignment(mark: Mark) -> Option<Option<u8>>
    ensures { result ≡ spec.assignment mark }
{
    match mark {
        Mark::Assign => Some(None),
        Mark::PlusAssign => Some(Some(op::ADD)),
        Mark::MinusAssign => Some(Some(op::SUBTRACT)),
        Mark::StarAssign => Some(Some(op::MULTIPLY)),
        Mark::SlashAssign => Some(Some(op::DIVIDE)),
        Mark::PercentAssign => Some(Some(op::REMAINDER)),
        Mark::AmpersandAssign => Some(Some(op::BIT_AND)),
        Mark::BarAssign => Some(Some(op::BIT_OR)),
        Mark::CaretAssign => Some(Some(op::BIT_XOR)),
        Mark::ShiftLeftAssign => Some(Some(op::SHIFT_LEFT)),
        Mark::ShiftRightAssign => Some(Some(op::SHIFT_RIGHT)),
        Mark::UnsignedShiftRightAssign => Some(Some(op::SHIFT_RIGHT_UNSIGNED)),
        _ => None,
    }
}
