// The type of a node from the types of its parts.
ghost use Rattle.std.specs.Prelude.{◌≡◌, ◌<◌, ◌+◌, length};
ghost use Rattle.sts_scope.specs.Kinds as kind;
ghost use Rattle.sts_scope.specs.Rules as rule;

use crate::environment::Environment;
use crate::kind_rules::{below, flat, goes, is_array, item, same, takes_null};
use crate::kinds::{Base, StaticType};
use sts_syntax::operators::{
    ADD, AT_LEAST, AT_MOST, BIT_AND, BIT_OR, BIT_XOR, COMPLEMENT, DIVIDE, EQUAL, GREATER, LESS,
    MULTIPLY, NEGATE, NOT, PLUS, REMAINDER, SHIFT_LEFT, SHIFT_RIGHT, SHIFT_RIGHT_UNSIGNED,
    SUBTRACT, UNEQUAL,
};

/// Whether values of types go where types are given, each to each.
#[tactic(auto, unfolding(crate::specs::Rules::all_go))]
pub fn all_go(known: &Environment, ss: &[StaticType], ts: &[StaticType]) -> bool
    ensures { result ≡ rule.all_go known.now.classes ss.now ts.now }
{
    if ss.len() != ts.len() {
        return false;
    }
    for i in 0..ss.len() {
        if !goes(known, ss[i], ts[i]) {
            return false;
        }
    }
    true
}

/// Whether values of types all go to one.
#[tactic(auto, unfolding(crate::specs::Rules::all_go_to))]
pub fn all_go_to(known: &Environment, t: StaticType, ss: &[StaticType]) -> bool
    ensures { result ≡ rule.all_go_to known.now.classes t ss.now }
{
    for i in 0..ss.len() {
        if !goes(known, ss[i], t) {
            return false;
        }
    }
    true
}

/// What `==` takes.
#[tactic(auto, unfolding(crate::specs::Rules::comparable))]
fn comparable(known: &Environment, s: StaticType, t: StaticType) -> bool
    ensures { result ≡ rule.comparable known.now.classes s t }
{
    (same(s, t) && !same(s, flat(Base::Nothing)))
        || below(known, s, t)
        || below(known, t, s)
        || (same(s, flat(Base::Null)) && takes_null(t))
        || (same(t, flat(Base::Null)) && takes_null(s))
}

fn is_arithmetic(op: u8) -> bool
    ensures { result ≡ rule.is_arithmetic op }
{
    op == BIT_OR
        || op == BIT_XOR
        || op == BIT_AND
        || op == SHIFT_LEFT
        || op == SHIFT_RIGHT
        || op == SHIFT_RIGHT_UNSIGNED
        || op == ADD
        || op == SUBTRACT
        || op == MULTIPLY
        || op == DIVIDE
        || op == REMAINDER
}

fn is_equality(op: u8) -> bool
    ensures { result ≡ rule.is_equality op }
{
    op == EQUAL || op == UNEQUAL
}

fn is_order(op: u8) -> bool
    ensures { result ≡ rule.is_order op }
{
    op == LESS || op == GREATER || op == AT_MOST || op == AT_LEAST
}

/// An operator between two operands.
#[tactic(auto, unfolding(crate::specs::Rules::operate))]
pub fn operate(known: &Environment, op: u8, s: StaticType, t: StaticType) -> Option<StaticType>
    ensures { result ≡ rule.operate known.now.classes op s t }
{
    if is_equality(op) {
        return if comparable(known, s, t) {
            Some(flat(Base::Boolean))
        } else {
            None
        };
    }
    if same(s, flat(Base::Number)) && same(t, flat(Base::Number)) {
        if is_arithmetic(op) {
            Some(flat(Base::Number))
        } else if is_order(op) {
            Some(flat(Base::Boolean))
        } else {
            None
        }
    } else {
        None
    }
}

/// A prefix operator.
#[tactic(auto, unfolding(crate::specs::Rules::prefix))]
pub fn prefix(op: u8, s: StaticType) -> Option<StaticType>
    ensures { result ≡ rule.prefix op s }
{
    if op == NOT {
        if same(s, flat(Base::Boolean)) {
            Some(flat(Base::Boolean))
        } else {
            None
        }
    } else if (op == NEGATE || op == PLUS || op == COMPLEMENT) && same(s, flat(Base::Number)) {
        Some(flat(Base::Number))
    } else {
        None
    }
}

/// `&&` and `||`.
#[tactic(auto, unfolding(crate::specs::Rules::joined))]
pub fn joined(s: StaticType, t: StaticType) -> Option<StaticType>
    ensures { result ≡ rule.joined s t }
{
    let boolean = flat(Base::Boolean);
    if same(s, boolean) && same(t, boolean) {
        Some(boolean)
    } else {
        None
    }
}

/// The type of which two types' values are.
#[tactic(auto, unfolding(crate::specs::Rules::common))]
fn common(known: &Environment, s: StaticType, t: StaticType) -> Option<StaticType>
    ensures { result ≡ rule.common known.now.classes s t }
{
    let null = flat(Base::Null);
    if same(s, t) || below(known, t, s) || (same(t, null) && takes_null(s)) {
        Some(s)
    } else if below(known, s, t) || (same(s, null) && takes_null(t)) {
        Some(t)
    } else {
        None
    }
}

/// `?:`.
#[tactic(auto, unfolding(crate::specs::Rules::choose))]
pub fn choose(
    known: &Environment,
    q: StaticType,
    s: StaticType,
    t: StaticType,
) -> Option<StaticType>
    ensures { result ≡ rule.choose known.now.classes q s t }
{
    if same(q, flat(Base::Boolean)) {
        common(known, s, t)
    } else {
        None
    }
}

/// An assignment to a target of the first type.
#[tactic(auto, unfolding(crate::specs::Rules::assign))]
pub fn assign(
    known: &Environment,
    op: Option<u8>,
    t: StaticType,
    s: StaticType,
) -> Option<StaticType>
    ensures { result ≡ rule.assign known.now.classes op t s }
{
    match op {
        None => { if goes(known, s, t) { Some(t) } else { None } }
        Some(op) => match operate(known, op, t, s) {
            None => None,
            Some(u) => { if same(u, t) { Some(t) } else { None } }
        },
    }
}

/// `++` and `--`.
#[tactic(auto, unfolding(crate::specs::Rules::counted))]
pub fn counted(t: StaticType) -> Option<StaticType>
    ensures { result ≡ rule.counted t }
{
    if same(t, flat(Base::Number)) {
        Some(flat(Base::Number))
    } else {
        None
    }
}

/// An item of an array.
#[tactic(auto, unfolding(crate::specs::Rules::element))]
pub fn element(a: StaticType, i: StaticType) -> Option<StaticType>
    ensures { result ≡ rule.element a i }
{
    if is_array(a) && same(i, flat(Base::Number)) {
        Some(item(a))
    } else {
        None
    }
}
