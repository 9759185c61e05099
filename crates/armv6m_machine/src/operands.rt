//! What instructions read: registers, addresses and numbers.
ghost use Rattle.std.specs.Prelude.{◌≡◌, ◌+◌, ◌*◌, ◌%◌, ◌^◌, ◌<◌, ◌≤◌};
ghost use Rattle.thumb_code.specs.RegisterFile.{word, low as low_of, pc_read as pc_read_of, reg as reg_of};
ghost use Rattle.thumb_code.specs.Arithmetic.{carry as carry_of, or_32 as or_32_of, inverted as inverted_of};
ghost use Rattle.thumb_code.specs.Forms.{target as target_of};

use thumb_code::Registers;

/// One of R0 to R12.
pub fn low(registers: &Registers, k: u8) -> u32
    requires { k < 13 }
    ensures { result ≡ low_of registers.now k }
{
    registers.r[k as usize]
}

/// PC as an instruction reads it.
pub fn pc_read(registers: &Registers) -> u32
    ensures { result ≡ pc_read_of registers.now }
{
    registers.pc.wrapping_add(4)
}

/// One of R0 to R15.
pub fn reg(registers: &Registers, k: u8) -> u32
    requires { k < 16 }
    ensures { result ≡ reg_of registers.now k }
{
    match k {
        13 => registers.sp,
        14 => registers.lr,
        15 => pc_read(registers),
        _ => registers.r[k as usize],
    }
}

/// Where a branch by an offset goes.
pub fn target(registers: &Registers, offset: i32) -> u32
    ensures { result ≡ target_of registers.now offset }
{
    pc_read(registers).wrapping_add(offset.cast_unsigned())
}

/// The address so many times a size above another.
pub fn scaled(start: u32, imm: u8, size: u32) -> u32
    requires { size ≤ 4 }
    ensures { result ≡ word (start + imm * size) }
{
    start.wrapping_add(u32::from(imm) * size)
}

/// The address that two low registers give.
pub fn sum(registers: &Registers, rn: u8, rm: u8) -> u32
    requires { (rn < 13) × (rm < 13) }
    ensures { result ≡ word (low_of registers.now rn + low_of registers.now rm) }
{
    low(registers, rn).wrapping_add(low(registers, rm))
}

/// The low byte of a low register.
pub fn low_byte(registers: &Registers, k: u8) -> u8
    requires { k < 13 }
    ensures { result ≡ low_of registers.now k % 256 }
{
    (low(registers, k) % 256) as u8
}

/// C.
pub fn carry(registers: &Registers) -> u32
    ensures value { result ≡ carry_of registers.now.flags }
    ensures bit { result < 2 }
{
    u32::from(registers.flags / 2 % 2)
}

/// An immediate shift to the right by 0 is by 32.
pub fn or_32(imm: u8) -> u8
    ensures { result ≡ or_32_of imm }
{
    if imm == 0 { 32 } else { imm }
}

/// The low halfword of a low register.
pub fn low_half(registers: &Registers, k: u8) -> u32
    requires { k < 13 }
    ensures value { result ≡ low_of registers.now k % 2 ^ 16 }
    ensures half { result < 2 ^ 16 }
{
    low(registers, k) % (1 << 16)
}

/// NOT of a low register.
pub fn inverted(registers: &Registers, k: u8) -> u32
    requires { k < 13 }
    ensures { result ≡ inverted_of (low_of registers.now k) }
{
    u32::MAX - low(registers, k)
}
