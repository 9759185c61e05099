//! From an instruction to its halfwords.
//!
//! Each helper puts together the parts of rows of one form, from high to low bits.
ghost use Rattle.std.specs.Prelude.{◌≡◌, ◌+◌, ◌*◌, ◌/◌, ◌%◌, ◌^◌, ◌<◌};
ghost use Rattle.std.specs.Int.{from_bool};
ghost use Rattle.thumb_code.specs.Table.{Fits, half, IsOffset, bits_from};
ghost use Rattle.thumb_code.specs.declared.instructions.Instr.TheVariants.{Bl};

use crate::halfwords::Half;
use crate::instructions::Instr;

/// The halfwords that spell the instruction.
pub fn encode(instr: Instr) -> Half
    requires { Fits instr }
    ensures { result ≡ half instr }
{
    match instr {
        Instr::LslImm { rd, rm, imm } => with_imm5(0b00000, imm, rm, rd),
        Instr::LsrImm { rd, rm, imm } => with_imm5(0b00001, imm, rm, rd),
        Instr::AsrImm { rd, rm, imm } => with_imm5(0b00010, imm, rm, rd),
        Instr::AddReg { rd, rn, rm } => with_three(0b0001100, rm, rn, rd),
        Instr::SubReg { rd, rn, rm } => with_three(0b0001101, rm, rn, rd),
        Instr::AddImm3 { rd, rn, imm } => with_three(0b0001110, imm, rn, rd),
        Instr::SubImm3 { rd, rn, imm } => with_three(0b0001111, imm, rn, rd),
        Instr::MovImm { rd, imm } => with_imm8(0b00100, rd, imm),
        Instr::CmpImm { rd, imm } => with_imm8(0b00101, rd, imm),
        Instr::AddImm8 { rd, imm } => with_imm8(0b00110, rd, imm),
        Instr::SubImm8 { rd, imm } => with_imm8(0b00111, rd, imm),
        Instr::And { rdn, rm } => with_two(0b0100000000, rm, rdn),
        Instr::Eor { rdn, rm } => with_two(0b0100000001, rm, rdn),
        Instr::LslReg { rdn, rm } => with_two(0b0100000010, rm, rdn),
        Instr::LsrReg { rdn, rm } => with_two(0b0100000011, rm, rdn),
        Instr::AsrReg { rdn, rm } => with_two(0b0100000100, rm, rdn),
        Instr::Adc { rdn, rm } => with_two(0b0100000101, rm, rdn),
        Instr::Sbc { rdn, rm } => with_two(0b0100000110, rm, rdn),
        Instr::Ror { rdn, rm } => with_two(0b0100000111, rm, rdn),
        Instr::Tst { rdn, rm } => with_two(0b0100001000, rm, rdn),
        Instr::Rsb { rdn, rm } => with_two(0b0100001001, rm, rdn),
        Instr::CmpReg { rdn, rm } => with_two(0b0100001010, rm, rdn),
        Instr::Cmn { rdn, rm } => with_two(0b0100001011, rm, rdn),
        Instr::Orr { rdn, rm } => with_two(0b0100001100, rm, rdn),
        Instr::Mul { rdn, rm } => with_two(0b0100001101, rm, rdn),
        Instr::Bic { rdn, rm } => with_two(0b0100001110, rm, rdn),
        Instr::Mvn { rdn, rm } => with_two(0b0100001111, rm, rdn),
        Instr::AddHigh { rd, rm } => with_high(0b01000100, rd, rm),
        Instr::CmpHigh { rd, rm } => with_high(0b01000101, rd, rm),
        Instr::MovHigh { rd, rm } => with_high(0b01000110, rd, rm),
        Instr::Bx { rm } => with_target(0b010001110, rm),
        Instr::Blx { rm } => with_target(0b010001111, rm),
        Instr::LdrPc { rt, imm } => with_imm8(0b01001, rt, imm),
        Instr::StrReg { rt, rn, rm } => with_three(0b0101000, rm, rn, rt),
        Instr::StrhReg { rt, rn, rm } => with_three(0b0101001, rm, rn, rt),
        Instr::StrbReg { rt, rn, rm } => with_three(0b0101010, rm, rn, rt),
        Instr::Ldrsb { rt, rn, rm } => with_three(0b0101011, rm, rn, rt),
        Instr::LdrReg { rt, rn, rm } => with_three(0b0101100, rm, rn, rt),
        Instr::LdrhReg { rt, rn, rm } => with_three(0b0101101, rm, rn, rt),
        Instr::LdrbReg { rt, rn, rm } => with_three(0b0101110, rm, rn, rt),
        Instr::Ldrsh { rt, rn, rm } => with_three(0b0101111, rm, rn, rt),
        Instr::StrImm { rt, rn, imm } => with_imm5(0b01100, imm, rn, rt),
        Instr::LdrImm { rt, rn, imm } => with_imm5(0b01101, imm, rn, rt),
        Instr::StrbImm { rt, rn, imm } => with_imm5(0b01110, imm, rn, rt),
        Instr::LdrbImm { rt, rn, imm } => with_imm5(0b01111, imm, rn, rt),
        Instr::StrhImm { rt, rn, imm } => with_imm5(0b10000, imm, rn, rt),
        Instr::LdrhImm { rt, rn, imm } => with_imm5(0b10001, imm, rn, rt),
        Instr::StrSp { rt, imm } => with_imm8(0b10010, rt, imm),
        Instr::LdrSp { rt, imm } => with_imm8(0b10011, rt, imm),
        Instr::Adr { rd, imm } => with_imm8(0b10100, rd, imm),
        Instr::AddSp { rd, imm } => with_imm8(0b10101, rd, imm),
        Instr::AddSpImm { imm } => Half::One(0b101100000 << 7 | u16::from(imm)),
        Instr::SubSpImm { imm } => Half::One(0b101100001 << 7 | u16::from(imm)),
        Instr::Sxth { rd, rm } => with_two(0b1011001000, rm, rd),
        Instr::Sxtb { rd, rm } => with_two(0b1011001001, rm, rd),
        Instr::Uxth { rd, rm } => with_two(0b1011001010, rm, rd),
        Instr::Uxtb { rd, rm } => with_two(0b1011001011, rm, rd),
        Instr::Push { list, m } => with_list(0b1011010, m, list),
        Instr::Pop { list, p } => with_list(0b1011110, p, list),
        Instr::Rev { rd, rm } => with_two(0b1011101000, rm, rd),
        Instr::Rev16 { rd, rm } => with_two(0b1011101001, rm, rd),
        Instr::Revsh { rd, rm } => with_two(0b1011101011, rm, rd),
        Instr::Bkpt { imm } => Half::One(0b10111110 << 8 | u16::from(imm)),
        Instr::Nop => Half::One(0b10111111_0000_0000),
        Instr::Yield => Half::One(0b10111111_0001_0000),
        Instr::Wfe => Half::One(0b10111111_0010_0000),
        Instr::Wfi => Half::One(0b10111111_0011_0000),
        Instr::Sev => Half::One(0b10111111_0100_0000),
        Instr::Stm { rn, list } => with_imm8(0b11000, rn, list),
        Instr::Ldm { rn, list } => with_imm8(0b11001, rn, list),
        Instr::BCond { cond, offset } => Half::One(
            (0b1101 << 4 | u16::from(cond)) << 8 | bits(offset, 1, 8),
        ),
        Instr::Udf { imm } => Half::One(0b11011110 << 8 | u16::from(imm)),
        Instr::Svc { imm } => Half::One(0b11011111 << 8 | u16::from(imm)),
        Instr::B { offset } => Half::One(0b11100 << 11 | bits(offset, 1, 11)),
        Instr::Bl { offset } => long_branch(offset),
    }
}

fn with_imm5(op: u16, imm: u8, rm: u8, rd: u8) -> Half
    requires { (op < 2 ^ 5) × (imm < 2 ^ 5) × (rm < 8) × (rd < 8) }
    ensures { result ≡ Half.One (((op * 2 ^ 5 + imm) * 8 + rm) * 8 + rd) }
{
    Half::One(((op << 5 | u16::from(imm)) << 3 | u16::from(rm)) << 3 | u16::from(rd))
}

fn with_three(op: u16, rm: u8, rn: u8, rd: u8) -> Half
    requires { (op < 2 ^ 7) × (rm < 8) × (rn < 8) × (rd < 8) }
    ensures { result ≡ Half.One (((op * 8 + rm) * 8 + rn) * 8 + rd) }
{
    Half::One(((op << 3 | u16::from(rm)) << 3 | u16::from(rn)) << 3 | u16::from(rd))
}

fn with_two(op: u16, rm: u8, rd: u8) -> Half
    requires { (op < 2 ^ 10) × (rm < 8) × (rd < 8) }
    ensures { result ≡ Half.One ((op * 8 + rm) * 8 + rd) }
{
    Half::One((op << 3 | u16::from(rm)) << 3 | u16::from(rd))
}

fn with_imm8(op: u16, rd: u8, imm: u8) -> Half
    requires { (op < 2 ^ 5) × (rd < 8) }
    ensures { result ≡ Half.One ((op * 8 + rd) * 2 ^ 8 + imm) }
{
    Half::One((op << 3 | u16::from(rd)) << 8 | u16::from(imm))
}

fn with_high(op: u16, rd: u8, rm: u8) -> Half
    requires { (op < 2 ^ 8) × (rd < 16) × (rm < 16) }
    ensures { result ≡ Half.One (((op * 2 + rd / 8) * 16 + rm) * 8 + rd % 8) }
{
    Half::One(((op << 1 | u16::from(rd >> 3)) << 4 | u16::from(rm)) << 3 | u16::from(rd & 7))
}

fn with_target(op: u16, rm: u8) -> Half
    requires { (op < 2 ^ 9) × (rm < 16) }
    ensures { result ≡ Half.One ((op * 16 + rm) * 8) }
{
    Half::One((op << 4 | u16::from(rm)) << 3)
}

fn with_list(op: u16, extra: bool, list: u8) -> Half
    requires { op < 2 ^ 7 }
    ensures { result ≡ Half.One ((op * 2 + from_bool extra) * 2 ^ 8 + list) }
{
    Half::One((op << 1 | u16::from(extra)) << 8 | u16::from(list))
}

/// The bits of an offset, so many from one up.
fn bits(offset: i32, from: u32, width: u32) -> u16
    requires { (from < 32) × (width < 16) }
    ensures { result ≡ bits_from from width offset }
{
    (offset.cast_unsigned() / (1 << from) % (1 << width)) as u16
}

fn long_branch(offset: i32) -> Half
    requires { IsOffset 25 offset }
    ensures { result ≡ half (Bl offset) }
{
    let s = bits(offset, 24, 1);
    let j1 = (bits(offset, 23, 1) + s + 1) % 2;
    let j2 = (bits(offset, 22, 1) + s + 1) % 2;
    Half::Two(
        (0b11110 << 1 | s) << 10 | bits(offset, 12, 10),
        (((0b11 << 1 | j1) << 1 | 1) << 1 | j2) << 11 | bits(offset, 1, 11),
    )
}
