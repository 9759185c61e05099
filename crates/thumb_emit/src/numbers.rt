//! Pieces of numbers and operators.
ghost use Rattle.std.specs.Prelude.{◌≡◌, ℕ, ◌+◌, ◌*◌, ◌^◌, ◌<◌, ◌++◌, length, OnOk};
ghost use Rattle.thumb_code.specs.declared.instructions.Instr.{Instr};
ghost use Rattle.thumb_code.specs.declared.instructions.Instr.TheVariants as i;
ghost use Rattle.flat_ir.specs.declared.ops.Op.TheVariants as o;
ghost use Rattle.flat_ir.specs.WellFormed.{temporaries};
ghost use Rattle.sts_syntax.specs.declared.operators.TheConstants.{BIT_OR, BIT_XOR, BIT_AND, SHIFT_LEFT, SHIFT_RIGHT, SHIFT_RIGHT_UNSIGNED, MULTIPLY};
ghost use Rattle.thumb_emit.specs.Emit.{decides, beside, compares, combines, shifts, divides, unary, binary};
ghost use Rattle.thumb_emit.specs.Ready.{IsReady, IsOpTold, IsJoinTold, pieces_of};

use crate::frame::{bring, get, idle_piece, keep, made_in, moved, place_of, register, to_place};
use crate::pieces::{At, EQ, GE, GT, LE, LT, NE, add};
use flat_ir::INCREMENT;
use register_assign::{Place, Placed};
use sts_base::{NoMemory, Seq};
use sts_syntax::operators::{
    ADD, AT_LEAST, AT_MOST, BIT_AND, BIT_OR, BIT_XOR, COMPLEMENT, DIVIDE, EQUAL, GREATER, LESS,
    MULTIPLY, NEGATE, NOT, PLUS, SHIFT_LEFT, SHIFT_RIGHT, SHIFT_RIGHT_UNSIGNED, SUBTRACT, UNEQUAL,
};
use thumb_code::Instr;
use thumb_layout::Piece;

/// The function number that names the division routine.
const DIVISION: u32 = 4_294_967_295;

/// A number.
pub(crate) fn constant(
    out: &mut Seq<Piece>,
    placed: &Placed,
    at: At,
    to: u32,
    value: i32,
) -> Result<(), NoMemory>
    requires ready { IsReady placed.now }
    requires told { IsOpTold placed.now at }
    requires to { to < temporaries placed.now.function }
    requires labels { 3 * length placed.now.function.ops + 1 < 2 ^ 32 }
    ensures { OnOk result (out.new ≡ out.old ++ pieces_of placed.now at.k (o.Const to value)) }
{
    let value = value.cast_unsigned();
    let rd = made_in(placed, at, to);
    add(out, &[Piece::Number { rd, value }, keep(placed, at, to)])
}

/// A further copy.
pub(crate) fn copy(
    out: &mut Seq<Piece>,
    placed: &Placed,
    at: At,
    to: u32,
    from: u32,
) -> Result<(), NoMemory>
    requires ready { IsReady placed.now }
    requires told { IsOpTold placed.now at }
    requires to { to < temporaries placed.now.function }
    requires from { from < temporaries placed.now.function }
    requires labels { 3 * length placed.now.function.ops + 1 < 2 ^ 32 }
    ensures { OnOk result (out.new ≡ out.old ++ pieces_of placed.now at.k (o.Copy to from)) }
{
    if at.unread {
        return add(out, &[get(placed, 0, from), idle_piece(placed)]);
    }
    match place_of(placed, to) {
        Place::Reg(r) => add(out, &[get(placed, r, from), idle_piece(placed)]),
        place => {
            let rs = register(placed, 0, from);
            add(out, &[bring(placed, 0, from), to_place(placed, rs, place)])
        }
    }
}

/// A result's register, or a scratch register where that is an operand's.
fn beside(scratch: u8, rd: u8, operand: u8) -> u8
    ensures { result ≡ beside scratch rd operand }
{
    if rd == operand { scratch } else { rd }
}

/// A comparison, the condition that is looked at behind it, and the label behind what is done where that doesn't hold.
#[derive(Clone, Copy, Drop)]
struct Test {
    compared: Instr,
    cond: u8,
    label: u32,
}

/// A register becomes 1 where the condition holds behind a comparison, and else 0, by way of another one.
fn decide(out: &mut Seq<Piece>, placed: &Placed, rd: u8, by: u8, test: Test) -> Result<(), NoMemory>
    requires labels { 3 * length placed.now.function.ops + 1 < 2 ^ 32 }
    ensures { OnOk result (out.new ≡ out.old ++ decides placed.now.function rd by test.compared test.cond test.label) }
{
    let Test {
        compared,
        cond,
        label,
    } = test;
    add(
        out,
        &[
            Piece::Plain(Instr::MovImm { rd: by, imm: 1 }),
            Piece::Plain(compared),
            Piece::Go { cond, label },
            Piece::Plain(Instr::MovImm { rd: by, imm: 0 }),
            Piece::Label(label),
            moved(placed, rd, by),
        ],
    )
}

/// A prefix operator.
fn put_prefix(
    out: &mut Seq<Piece>,
    placed: &Placed,
    rd: u8,
    from: u8,
    op: u8,
    label: u32,
) -> Result<(), NoMemory>
    requires labels { 3 * length placed.now.function.ops + 1 < 2 ^ 32 }
    ensures { OnOk result (out.new ≡ out.old ++ unary placed.now.function rd from op label) }
{
    let instr = match op {
        NEGATE => Instr::Rsb { rdn: rd, rm: from },
        PLUS => Instr::MovHigh { rd, rm: from },
        NOT => {
            let test = Test {
                compared: Instr::CmpImm { rd: from, imm: 0 },
                cond: EQ,
                label,
            };
            return decide(out, placed, rd, beside(1, rd, from), test);
        }
        COMPLEMENT => Instr::Mvn { rdn: rd, rm: from },
        INCREMENT => Instr::AddImm3 {
            rd,
            rn: from,
            imm: 1,
        },
        _ => Instr::SubImm3 {
            rd,
            rn: from,
            imm: 1,
        },
    };
    add(out, &[Piece::Plain(instr)])
}

/// The registers of an operator's result and operands.
#[derive(Clone, Copy, Drop)]
struct Three {
    rd: u8,
    left: u8,
    right: u8,
}

/// A register becomes 1 where the condition holds of one against another, and else 0.
fn compare(
    out: &mut Seq<Piece>,
    placed: &Placed,
    r: Three,
    cond: u8,
    label: u32,
) -> Result<(), NoMemory>
    requires labels { 3 * length placed.now.function.ops + 1 < 2 ^ 32 }
    ensures { OnOk result (out.new ≡ out.old ++ compares placed.now.function r.rd r.left r.right cond label) }
{
    let by = beside(2, beside(2, r.rd, r.left), r.right);
    let compared = Instr::CmpReg {
        rdn: r.left,
        rm: r.right,
    };
    let test = Test {
        compared,
        cond,
        label,
    };
    decide(out, placed, r.rd, by, test)
}

/// An instruction whose target is its first operand: `|`, `^`, `&`, and else `*`.
fn combine(out: &mut Seq<Piece>, placed: &Placed, r: Three, op: u8) -> Result<(), NoMemory>
    requires labels { 3 * length placed.now.function.ops + 1 < 2 ^ 32 }
    ensures bit_or { op ≡ BIT_OR
        → OnOk result (out.new ≡ out.old ++ combines placed.now.function r.rd r.left r.right i.Orr) }
    ensures bit_xor { op ≡ BIT_XOR
        → OnOk result (out.new ≡ out.old ++ combines placed.now.function r.rd r.left r.right i.Eor) }
    ensures bit_and { op ≡ BIT_AND
        → OnOk result (out.new ≡ out.old ++ combines placed.now.function r.rd r.left r.right i.And) }
    ensures multiply { op ≡ MULTIPLY
        → OnOk result (out.new ≡ out.old ++ combines placed.now.function r.rd r.left r.right i.Mul) }
{
    let rdn = beside(2, r.rd, r.right);
    let rm = r.right;
    let instr = match op {
        BIT_OR => Instr::Orr { rdn, rm },
        BIT_XOR => Instr::Eor { rdn, rm },
        BIT_AND => Instr::And { rdn, rm },
        _ => Instr::Mul { rdn, rm },
    };
    add(
        out,
        &[
            moved(placed, rdn, r.left),
            Piece::Plain(instr),
            moved(placed, r.rd, rdn),
        ],
    )
}

/// One register shifted by another modulo 32: `<<`, `>>`, and else `>>>`.
fn shift(out: &mut Seq<Piece>, placed: &Placed, r: Three, op: u8) -> Result<(), NoMemory>
    requires labels { 3 * length placed.now.function.ops + 1 < 2 ^ 32 }
    ensures left { op ≡ SHIFT_LEFT
        → OnOk result (out.new ≡ out.old ++ shifts placed.now.function r.rd r.left r.right i.LslReg) }
    ensures right { op ≡ SHIFT_RIGHT
        → OnOk result (out.new ≡ out.old ++ shifts placed.now.function r.rd r.left r.right i.AsrReg) }
    ensures unsigned { op ≡ SHIFT_RIGHT_UNSIGNED
        → OnOk result (out.new ≡ out.old ++ shifts placed.now.function r.rd r.left r.right i.LsrReg) }
{
    let rdn = r.rd;
    let instr = match op {
        SHIFT_LEFT => Instr::LslReg { rdn, rm: 2 },
        SHIFT_RIGHT => Instr::AsrReg { rdn, rm: 2 },
        _ => Instr::LsrReg { rdn, rm: 2 },
    };
    add(
        out,
        &[
            Piece::Plain(Instr::MovImm { rd: 2, imm: 31 }),
            Piece::Plain(Instr::And {
                rdn: 2,
                rm: r.right,
            }),
            moved(placed, rdn, r.left),
            Piece::Plain(instr),
        ],
    )
}

/// A call of the division routine, of whose answers the quotient comes in r0 and the remainder in r1.
fn divide(out: &mut Seq<Piece>, placed: &Placed, r: Three, answer: u8) -> Result<(), NoMemory>
    requires labels { 3 * length placed.now.function.ops + 1 < 2 ^ 32 }
    ensures { OnOk result (out.new ≡ out.old ++ divides placed.now.function r.rd r.left r.right answer) }
{
    add(
        out,
        &[
            moved(placed, 0, r.left),
            moved(placed, 1, r.right),
            Piece::CallTo { function: DIVISION },
            moved(placed, r.rd, answer),
        ],
    )
}

/// An operator.
fn put_operator(
    out: &mut Seq<Piece>,
    placed: &Placed,
    r: Three,
    op: u8,
    label: u32,
) -> Result<(), NoMemory>
    requires labels { 3 * length placed.now.function.ops + 1 < 2 ^ 32 }
    ensures { OnOk result (out.new ≡ out.old ++ binary placed.now.function r.rd r.left r.right op label) }
{
    match op {
        BIT_OR | BIT_XOR | BIT_AND | MULTIPLY => combine(out, placed, r, op),
        EQUAL => compare(out, placed, r, EQ, label),
        UNEQUAL => compare(out, placed, r, NE, label),
        LESS => compare(out, placed, r, LT, label),
        GREATER => compare(out, placed, r, GT, label),
        AT_MOST => compare(out, placed, r, LE, label),
        AT_LEAST => compare(out, placed, r, GE, label),
        SHIFT_LEFT | SHIFT_RIGHT | SHIFT_RIGHT_UNSIGNED => shift(out, placed, r, op),
        ADD => out.push(Piece::Plain(Instr::AddReg {
            rd: r.rd,
            rn: r.left,
            rm: r.right,
        })),
        SUBTRACT => out.push(Piece::Plain(Instr::SubReg {
            rd: r.rd,
            rn: r.left,
            rm: r.right,
        })),
        DIVIDE => divide(out, placed, r, 0),
        _ => divide(out, placed, r, 1),
    }
}

/// A prefix operator.
pub(crate) fn unary(
    out: &mut Seq<Piece>,
    placed: &Placed,
    at: At,
    to: u32,
    op: u8,
    from: u32,
) -> Result<(), NoMemory>
    requires ready { IsReady placed.now }
    requires told { IsOpTold placed.now at }
    requires joins { IsJoinTold placed.now at }
    requires to { to < temporaries placed.now.function }
    requires from { from < temporaries placed.now.function }
    requires label { 3 * at.k + 1 < 2 ^ 32 }
    requires labels { 3 * length placed.now.function.ops + 1 < 2 ^ 32 }
    ensures { OnOk result (out.new ≡ out.old ++ pieces_of placed.now at.k (o.Unary to op from)) }
{
    out.push(bring(placed, 0, from))?;
    let rs = register(placed, 0, from);
    if at.next.is_some() {
        return out.push(Piece::Plain(Instr::CmpImm { rd: rs, imm: 0 }));
    }
    put_prefix(out, placed, made_in(placed, at, to), rs, op, 3 * at.k + 1)?;
    out.push(keep(placed, at, to))
}

/// The temporaries of an operator's operands.
#[derive(Clone, Copy, Drop)]
pub(crate) struct Operands {
    pub left: u32,
    pub right: u32,
}

/// An operator between two operands.
pub(crate) fn binary(
    out: &mut Seq<Piece>,
    placed: &Placed,
    at: At,
    to: u32,
    op: u8,
    operands: Operands,
) -> Result<(), NoMemory>
    requires ready { IsReady placed.now }
    requires told { IsOpTold placed.now at }
    requires joins { IsJoinTold placed.now at }
    requires to { to < temporaries placed.now.function }
    requires left { operands.left < temporaries placed.now.function }
    requires right { operands.right < temporaries placed.now.function }
    requires label { 3 * at.k + 1 < 2 ^ 32 }
    requires labels { 3 * length placed.now.function.ops + 1 < 2 ^ 32 }
    ensures { OnOk result
        (out.new ≡ out.old ++ pieces_of placed.now at.k (o.Binary to op operands.left operands.right)) }
{
    let Operands { left, right } = operands;
    out.push(bring(placed, 0, left))?;
    out.push(bring(placed, 1, right))?;
    let registers = Three {
        rd: made_in(placed, at, to),
        left: register(placed, 0, left),
        right: register(placed, 1, right),
    };
    if at.next.is_some() {
        let (rdn, rm) = (registers.left, registers.right);
        return out.push(Piece::Plain(Instr::CmpReg { rdn, rm }));
    }
    put_operator(out, placed, registers, op, 3 * at.k + 1)?;
    out.push(keep(placed, at, to))
}
