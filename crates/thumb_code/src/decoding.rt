//! From halfwords to an instruction.
//!
//! Each private function reads one group of the manual's encodings: what it gives is that group's
//! reading, and what it finds is spelled so.
ghost use Rattle.std.specs.Prelude.{◌≡◌, ◌/◌, ◌%◌, ◌*◌, ◌^◌, ◌<◌, ◌≤◌, Some, IfSome, IsTrue, ◌↔◌, nat_lt};
ghost use Rattle.thumb_code.specs.Reading.{data_processing, special_data, add_subtract, load_store_register, reading, miscellaneous, extends, reversals, hints, load_store_multiple, conditional_branch, two_halfwords, extended, reading_of, Reads};
ghost use Rattle.thumb_code.specs.Table.{IsSpelling, half, Fits, is_two};
ghost use Rattle.thumb_code.specs.declared.instructions.Instr.TheVariants.{B};
ghost use Rattle.thumb_code.specs.declared.halfwords.Half.TheVariants.{Two};
ghost use Rattle.thumb_code.specs.declared.instructions.Instr.{Instr};

use crate::instructions::Instr;

/// The instruction that the halfwords spell, and None where no row spells them. The second is looked at
/// only where the first is one of two.
pub fn decode(first: u16, second: u16) -> Option<Instr>
    ensures same { result ≡ reading_of first second }

    // What is found is in its row's range, and is spelled so.
    ensures found { IfSome result (λ i. Fits i × IsSpelling (half i) first second) }

    // Whatever is spelled so is found. So what is encoded is decoded again, and None says that no row spells this.
    ensures only { (i : Instr) → Fits i → IsSpelling (half i) first second → result ≡ Some i }

    // It is two halfwords exactly where the first is one of two.
    ensures wide { IfSome result (λ i. is_two (half i) ≡ nat_lt 28 (first / 2 ^ 11)) }
{
    if is_wide(first) {
        two_halfwords(first, second)
    } else {
        narrow(first)
    }
}

/// Whether the halfword is the first of two: its high five bits are 11101, 11110 or 11111.
pub fn is_wide(first: u16) -> bool
    ensures { result ≡ nat_lt 0b11100 (first / 2 ^ 11) }
{
    first >> 11 > 0b11100
}

fn narrow(first: u16) -> Option<Instr>
    requires { first / 2 ^ 11 < 29 }
    ensures same { result ≡ reading first }
    ensures found { IfSome result (λ i. Reads first i) }
{
    let r0 = (first % 8) as u8;
    let r3 = ((first >> 3) % 8) as u8;
    let imm5 = ((first >> 6) % 32) as u8;
    let r8 = ((first >> 8) % 8) as u8;
    let imm8 = (first % 256) as u8;
    match first >> 11 {
        0b00000 => Some(Instr::LslImm {
            rd: r0,
            rm: r3,
            imm: imm5,
        }),
        0b00001 => Some(Instr::LsrImm {
            rd: r0,
            rm: r3,
            imm: imm5,
        }),
        0b00010 => Some(Instr::AsrImm {
            rd: r0,
            rm: r3,
            imm: imm5,
        }),
        0b00011 => Some(add_subtract(first)),
        0b00100 => Some(Instr::MovImm { rd: r8, imm: imm8 }),
        0b00101 => Some(Instr::CmpImm { rd: r8, imm: imm8 }),
        0b00110 => Some(Instr::AddImm8 { rd: r8, imm: imm8 }),
        0b00111 => Some(Instr::SubImm8 { rd: r8, imm: imm8 }),
        0b01000 if (first >> 10) % 2 == 0 => Some(data_processing(first)),
        0b01000 => special_data(first),
        0b01001 => Some(Instr::LdrPc { rt: r8, imm: imm8 }),
        0b01010 | 0b01011 => Some(load_store_register(first)),
        0b01100 => Some(Instr::StrImm {
            rt: r0,
            rn: r3,
            imm: imm5,
        }),
        0b01101 => Some(Instr::LdrImm {
            rt: r0,
            rn: r3,
            imm: imm5,
        }),
        0b01110 => Some(Instr::StrbImm {
            rt: r0,
            rn: r3,
            imm: imm5,
        }),
        0b01111 => Some(Instr::LdrbImm {
            rt: r0,
            rn: r3,
            imm: imm5,
        }),
        0b10000 => Some(Instr::StrhImm {
            rt: r0,
            rn: r3,
            imm: imm5,
        }),
        0b10001 => Some(Instr::LdrhImm {
            rt: r0,
            rn: r3,
            imm: imm5,
        }),
        0b10010 => Some(Instr::StrSp { rt: r8, imm: imm8 }),
        0b10011 => Some(Instr::LdrSp { rt: r8, imm: imm8 }),
        0b10100 => Some(Instr::Adr { rd: r8, imm: imm8 }),
        0b10101 => Some(Instr::AddSp { rd: r8, imm: imm8 }),
        0b10110 | 0b10111 => miscellaneous(first),
        0b11000 | 0b11001 => load_store_multiple(first),
        0b11010 | 0b11011 => Some(conditional_branch(first)),
        _ => Some(branch(first)),
    }
}

fn add_subtract(first: u16) -> Instr
    requires { first / 2 ^ 11 ≡ 0b00011 }
    ensures same { Some result ≡ add_subtract first }
    ensures found { Reads first result }
{
    let rd = (first % 8) as u8;
    let rn = ((first >> 3) % 8) as u8;
    let third = ((first >> 6) % 8) as u8;
    match (first >> 9) % 4 {
        0b00 => Instr::AddReg { rd, rn, rm: third },
        0b01 => Instr::SubReg { rd, rn, rm: third },
        0b10 => Instr::AddImm3 { rd, rn, imm: third },
        _ => Instr::SubImm3 { rd, rn, imm: third },
    }
}

fn data_processing(first: u16) -> Instr
    requires { first / 2 ^ 10 ≡ 0b010000 }
    ensures same { Some result ≡ data_processing first }
    ensures found { Reads first result }
{
    let rdn = (first % 8) as u8;
    let rm = ((first >> 3) % 8) as u8;
    match (first >> 6) % 16 {
        0b0000 => Instr::And { rdn, rm },
        0b0001 => Instr::Eor { rdn, rm },
        0b0010 => Instr::LslReg { rdn, rm },
        0b0011 => Instr::LsrReg { rdn, rm },
        0b0100 => Instr::AsrReg { rdn, rm },
        0b0101 => Instr::Adc { rdn, rm },
        0b0110 => Instr::Sbc { rdn, rm },
        0b0111 => Instr::Ror { rdn, rm },
        0b1000 => Instr::Tst { rdn, rm },
        0b1001 => Instr::Rsb { rdn, rm },
        0b1010 => Instr::CmpReg { rdn, rm },
        0b1011 => Instr::Cmn { rdn, rm },
        0b1100 => Instr::Orr { rdn, rm },
        0b1101 => Instr::Mul { rdn, rm },
        0b1110 => Instr::Bic { rdn, rm },
        _ => Instr::Mvn { rdn, rm },
    }
}

fn special_data(first: u16) -> Option<Instr>
    requires { first / 2 ^ 10 ≡ 0b010001 }
    ensures same { result ≡ special_data first }
    ensures found { IfSome result (λ i. Reads first i) }
{
    let rd = (((first >> 7) % 2) * 8 + (first % 8)) as u8;
    let rm = ((first >> 3) % 16) as u8;
    match (first >> 8) % 4 {
        0b00 if rd.min(rm) < 15 => Some(Instr::AddHigh { rd, rm }),
        0b01 if (rd > 7 || rm > 7) && rd < 15 && rm < 15 => Some(Instr::CmpHigh { rd, rm }),
        0b10 => Some(Instr::MovHigh { rd, rm }),
        0b11 if first % 8 == 0 && rm < 15 => {
            if (first >> 7) % 2 == 0 {
                Some(Instr::Bx { rm })
            } else {
                Some(Instr::Blx { rm })
            }
        }
        _ => None,
    }
}

fn load_store_register(first: u16) -> Instr
    requires { first / 2 ^ 12 ≡ 0b0101 }
    ensures same { Some result ≡ load_store_register first }
    ensures found { Reads first result }
{
    let rt = (first % 8) as u8;
    let rn = ((first >> 3) % 8) as u8;
    let rm = ((first >> 6) % 8) as u8;
    match (first >> 9) % 8 {
        0b000 => Instr::StrReg { rt, rn, rm },
        0b001 => Instr::StrhReg { rt, rn, rm },
        0b010 => Instr::StrbReg { rt, rn, rm },
        0b011 => Instr::Ldrsb { rt, rn, rm },
        0b100 => Instr::LdrReg { rt, rn, rm },
        0b101 => Instr::LdrhReg { rt, rn, rm },
        0b110 => Instr::LdrbReg { rt, rn, rm },
        _ => Instr::Ldrsh { rt, rn, rm },
    }
}

fn miscellaneous(first: u16) -> Option<Instr>
    requires { first / 2 ^ 12 ≡ 0b1011 }
    ensures same { result ≡ miscellaneous first }
    ensures found { IfSome result (λ i. Reads first i) }
{
    let low = (first % 256) as u8;
    match (first >> 8) % 16 {
        0b0000 if low < 128 => Some(Instr::AddSpImm { imm: low }),
        0b0000 => Some(Instr::SubSpImm { imm: low - 128 }),
        0b0010 => Some(extends(first)),
        0b0100 if low > 0 => Some(Instr::Push {
            list: low,
            m: false,
        }),
        0b0101 => Some(Instr::Push { list: low, m: true }),
        0b1010 => reversals(first),
        0b1100 if low > 0 => Some(Instr::Pop {
            list: low,
            p: false,
        }),
        0b1101 => Some(Instr::Pop { list: low, p: true }),
        0b1110 => Some(Instr::Bkpt { imm: low }),
        0b1111 => hints(first),
        _ => None,
    }
}

fn extends(first: u16) -> Instr
    requires { first / 2 ^ 8 ≡ 0b10110010 }
    ensures same { Some result ≡ extends first }
    ensures found { Reads first result }
{
    let rd = (first % 8) as u8;
    let rm = ((first >> 3) % 8) as u8;
    match (first >> 6) % 4 {
        0b00 => Instr::Sxth { rd, rm },
        0b01 => Instr::Sxtb { rd, rm },
        0b10 => Instr::Uxth { rd, rm },
        _ => Instr::Uxtb { rd, rm },
    }
}

fn reversals(first: u16) -> Option<Instr>
    requires { first / 2 ^ 8 ≡ 0b10111010 }
    ensures same { result ≡ reversals first }
    ensures found { IfSome result (λ i. Reads first i) }
{
    let rd = (first % 8) as u8;
    let rm = ((first >> 3) % 8) as u8;
    match (first >> 6) % 4 {
        0b00 => Some(Instr::Rev { rd, rm }),
        0b01 => Some(Instr::Rev16 { rd, rm }),
        0b11 => Some(Instr::Revsh { rd, rm }),
        _ => None,
    }
}

fn hints(first: u16) -> Option<Instr>
    requires { first / 2 ^ 8 ≡ 0b10111111 }
    ensures same { result ≡ hints first }
    ensures found { IfSome result (λ i. Reads first i) }
{
    match first % 256 {
        0b0000_0000 => Some(Instr::Nop),
        0b0001_0000 => Some(Instr::Yield),
        0b0010_0000 => Some(Instr::Wfe),
        0b0011_0000 => Some(Instr::Wfi),
        0b0100_0000 => Some(Instr::Sev),
        _ => None,
    }
}

fn load_store_multiple(first: u16) -> Option<Instr>
    requires { first / 2 ^ 12 ≡ 0b1100 }
    ensures same { result ≡ load_store_multiple first }
    ensures found { IfSome result (λ i. Reads first i) }
{
    let rn = ((first >> 8) % 8) as u8;
    let list = (first % 256) as u8;
    if list == 0 {
        None
    } else if (first >> 11) % 2 == 1 {
        Some(Instr::Ldm { rn, list })
    } else if (list >> rn) % 2 == 0 || list % (1 << rn) == 0 {
        Some(Instr::Stm { rn, list })
    } else {
        None
    }
}

fn conditional_branch(first: u16) -> Instr
    requires { first / 2 ^ 12 ≡ 0b1101 }
    ensures same { Some result ≡ conditional_branch first }
    ensures found { Reads first result }
{
    let low = (first % 256) as u8;
    match (first >> 8) % 16 {
        0b1110 => Instr::Udf { imm: low },
        0b1111 => Instr::Svc { imm: low },
        cond => Instr::BCond {
            cond: cond as u8,
            offset: extended(u32::from(low) * 2, 1 << 9),
        },
    }
}

fn branch(first: u16) -> Instr
    requires { first / 2 ^ 11 ≡ 0b11100 }
    ensures same { result ≡ B (extended (2 ^ 12) (first % 2 ^ 11 * 2)) }
    ensures found { Reads first result }
{
    Instr::B {
        offset: extended(u32::from(first % 0x800) * 2, 1 << 12),
    }
}

/// BL, the one instruction of two halfwords.
fn two_halfwords(first: u16, second: u16) -> Option<Instr>
    requires { 28 < first / 2 ^ 11 }
    ensures same { result ≡ two_halfwords first second }
    ensures found { IfSome result (λ i. Fits i × (half i ≡ Two first second)) }
{
    if first >> 11 != 0b11110 || second >> 14 != 0b11 || (second >> 12) % 2 != 1 {
        return None;
    }
    let s = u32::from((first >> 10) % 2);
    let i1 = (u32::from((second >> 13) % 2) + s + 1) % 2;
    let i2 = (u32::from((second >> 11) % 2) + s + 1) % 2;
    let low = u32::from(first % 0x400) * (1 << 12) + u32::from(second % 0x800) * 2;
    Some(Instr::Bl {
        offset: extended(
            s * (1 << 24) + i1 * (1 << 23) + i2 * (1 << 22) + low,
            1 << 25,
        ),
    })
}

/// A number below m, read with a sign.
fn extended(x: u32, m: u32) -> i32
    requires { (x < m) × (m ≤ 2 ^ 25) }
    ensures { result ≡ extended m x }
{
    if x < m / 2 {
        x as i32
    } else {
        x as i32 - m as i32
    }
}
