//! Sums and shifts with the flags that they set, and conditions (ARM DDI 0419, A2.2.1 and A6.3).
ghost use Rattle.std.specs.Prelude.{◌≡◌, ◌==◌, ◌+◌, ◌*◌, ◌/◌, ◌%◌, ◌^◌, ◌<◌, ◌≤◌, ℕ, nat_lt};
ghost use Rattle.thumb_code.specs.Arithmetic.{sum_of, sum_flags, nz as flags_of_word, nzc as flags_of_shift, lsl as lsl_of, lsr as lsr_of, asr as asr_of, ror as ror_of, signed as extended, swapped as exchanged, shifted, holds as condition_holds};

/// A sum with a carry in, and its flags.
#[inline(always)]
pub fn add_with_carry(x: u32, y: u32, c: u32) -> (u32, u8)
    requires { c < 2 }
    ensures value { result.0 ≡ sum_of x y c }
    ensures flags { result.1 ≡ sum_flags x y c }
    ensures bits { result.1 < 16 }
{
    let sum = u64::from(x) + u64::from(y) + u64::from(c);
    let value = (sum % (1 << 32)) as u32;
    let sign = value >> 31;
    let zero = u8::from(value == 0);
    let carry = (sum >> 32) as u8;
    let overflow = u8::from(x >> 31 == y >> 31 && x >> 31 != sign);
    (value, (sign * 8) as u8 + zero * 4 + carry * 2 + overflow)
}

/// The flags with N and Z of a word.
#[inline(always)]
pub fn nz(flags: u8, value: u32) -> u8
    ensures value { result ≡ flags_of_word flags value }
    ensures bits { result < 16 }
{
    ((value >> 31) * 8) as u8 + if value == 0 { 4 } else { 0 } + flags % 4
}

/// The flags with N and Z of a word, and C.
fn nzc(flags: u8, value: u32, c: u8) -> u8
    requires { c < 2 }
    ensures value { result ≡ flags_of_shift flags value c }
    ensures bits { result < 16 }
{
    ((value >> 31) * 8) as u8 + if value == 0 { 4 } else { 0 } + c * 2 + flags % 2
}

/// A word shifted to the left, and the flags.
pub fn lsl(flags: u8, v: u32, n: u8) -> (u32, u8)
    ensures value { result.0 ≡ (shifted flags lsl_of v n).0 }
    ensures flags { result.1 ≡ (shifted flags lsl_of v n).1 }
    ensures bits { result.1 < 16 }
{
    if n == 0 {
        return (v, nz(flags, v));
    }
    let (value, carry) = shifted_left(v, n);
    (value, nzc(flags, value, carry))
}

/// A word shifted to the right with zeros, and the flags.
pub fn lsr(flags: u8, v: u32, n: u8) -> (u32, u8)
    ensures value { result.0 ≡ (shifted flags lsr_of v n).0 }
    ensures flags { result.1 ≡ (shifted flags lsr_of v n).1 }
    ensures bits { result.1 < 16 }
{
    if n == 0 {
        return (v, nz(flags, v));
    }
    let (value, carry) = shifted_right(v, n);
    (value, nzc(flags, value, carry))
}

/// A word shifted to the right with its sign, and the flags.
pub fn asr(flags: u8, v: u32, n: u8) -> (u32, u8)
    ensures value { result.0 ≡ (shifted flags asr_of v n).0 }
    ensures flags { result.1 ≡ (shifted flags asr_of v n).1 }
    ensures bits { result.1 < 16 }
{
    if n == 0 {
        return (v, nz(flags, v));
    }
    let (value, carry) = shifted_with_sign(v, n.min(32));
    (value, nzc(flags, value, carry))
}

/// A word rotated to the right, and the flags.
pub fn ror(flags: u8, v: u32, n: u8) -> (u32, u8)
    ensures value { result.0 ≡ (shifted flags ror_of v n).0 }
    ensures flags { result.1 ≡ (shifted flags ror_of v n).1 }
    ensures bits { result.1 < 16 }
{
    if n == 0 {
        return (v, nz(flags, v));
    }
    let value = rotated(v, n % 32);
    (value, nzc(flags, value, (value >> 31) as u8))
}

/// A shift gives the bit that was shifted out last too.
fn shifted_left(v: u32, n: u8) -> (u32, u8)
    requires { 0 < n }
    ensures value { result.0 ≡ (lsl_of v n).0 }
    ensures carry { result.1 ≡ (lsl_of v n).1 }
    ensures bit { result.1 < 2 }
{
    if n > 32 {
        return (0, 0);
    }
    let wide = u64::from(v) << n;
    ((wide % (1 << 32)) as u32, ((wide >> 32) % 2) as u8)
}

fn shifted_right(v: u32, n: u8) -> (u32, u8)
    requires { 0 < n }
    ensures value { result.0 ≡ (lsr_of v n).0 }
    ensures carry { result.1 ≡ (lsr_of v n).1 }
    ensures bit { result.1 < 2 }
{
    if n > 32 {
        return (0, 0);
    }
    let wide = u64::from(v);
    ((wide >> n) as u32, ((wide >> (n - 1)) % 2) as u8)
}

fn shifted_with_sign(v: u32, n: u8) -> (u32, u8)
    requires { (0 < n) × (n ≤ 32) }
    ensures value { result.0 ≡ (asr_of v n).0 }
    ensures carry { result.1 ≡ (asr_of v n).1 }
    ensures bit { result.1 < 2 }
{
    let wide = u64::from(v);
    let signs = if v >> 31 == 1 {
        (1 << 32) - (1u64 << (32 - n))
    } else {
        0
    };
    (((wide >> n) + signs) as u32, ((wide >> (n - 1)) % 2) as u8)
}

fn rotated(v: u32, r: u8) -> u32
    requires { r < 32 }
    ensures { result ≡ (ror_of v r).0 }
{
    let wide = u64::from(v);
    ((wide >> r) + (wide << (32 - r)) % (1 << 32)) as u32
}

/// A byte with its sign extended to a word.
pub fn signed_byte(v: u32) -> u32
    requires { v < 2 ^ 8 }
    ensures { result ≡ extended 8 v }
{
    if v < 0x80 { v } else { v + 0xffff_ff00 }
}

/// A halfword with its sign extended to a word.
pub fn signed_half(v: u32) -> u32
    requires { v < 2 ^ 16 }
    ensures { result ≡ extended 16 v }
{
    if v < 0x8000 { v } else { v + 0xffff_0000 }
}

/// The two bytes of a halfword, exchanged.
pub fn swapped(v: u32) -> u32
    requires { v < 2 ^ 16 }
    ensures value { result ≡ exchanged v }
    ensures half { result < 2 ^ 16 }
{
    v % 256 * 256 + v / 256
}

/// The four bytes of a word, the other way round.
pub fn reversed(v: u32) -> u32
    ensures { result ≡ exchanged (v % 2 ^ 16) * 2 ^ 16 + exchanged (v / 2 ^ 16) }
{
    swapped(v % (1 << 16)) * (1 << 16) + swapped(v / (1 << 16))
}

/// The two bytes of each halfword of a word, exchanged.
pub fn reversed_in_halves(v: u32) -> u32
    ensures { result ≡ exchanged (v / 2 ^ 16) * 2 ^ 16 + exchanged (v % 2 ^ 16) }
{
    swapped(v / (1 << 16)) * (1 << 16) + swapped(v % (1 << 16))
}

/// Whether a condition holds.
#[inline(always)]
pub fn holds(flags: u8, cond: u8) -> bool
    requires { cond < 14 }
    ensures { result ≡ condition_holds flags cond }
{
    (flags_for(cond) >> (flags % 16)) % 2 == 1
}

/// The flags with which a condition holds: bit k is 1 where it holds with the flags k.
#[inline(always)]
fn flags_for(cond: u8) -> u16
    requires { cond < 14 }
    ensures { (k : ℕ) → k < 16 → (result / 2 ^ k % 2 == 1) ≡ condition_holds k cond }
{
    match cond {
        0 => 0xf0f0,
        1 => 0x0f0f,
        2 => 0xcccc,
        3 => 0x3333,
        4 => 0xff00,
        5 => 0x00ff,
        6 => 0xaaaa,
        7 => 0x5555,
        8 => 0x0c0c,
        9 => 0xf3f3,
        10 => 0xaa55,
        11 => 0x55aa,
        12 => 0x0a05,
        _ => 0xf5fa,
    }
}
