// The first halfwords of the held bytes, read once.
ghost use Rattle.std.specs.Prelude.{◌≡◌, ◌%◌, ◌<◌, ◌^◌, ◌/◌, ◌*◌, ◌≤◌, ℕ, List, IfSome, length};
ghost use Rattle.thumb_code.specs.Forms.{Access};
ghost use Rattle.thumb_code.specs.Map.{flash_word};
ghost use Rattle.thumb_switch.specs.Space.{part_of, half_access};
ghost use Rattle.thumb_switch.specs.ReadOnce.{TellsFetch, AreRead};

use crate::desk::code_word;
use crate::parts::part;
use thumb_code::{Instr, decode, is_wide};

/// How many are read.
pub const COUNT: usize = 16;

/// What stands at a place of the bytes, and whether it is two halfwords.
pub type Slot = Option<(Instr, bool)>;

/// The halfword at an address of the bytes.
fn half(code: &[u8], at: u32) -> u16
    requires even { at % 2 ≡ 0 }
    requires low { at < 2 ^ 31 }
    ensures { result ≡ part_of (half_access at) (flash_word code.now (at / 4 * 4)) }
{
    let word = code_word(code, at / 4 * 4);
    part(word, at, 2) as u16
}

/// Reads the instruction at an address. None where there is none, or where it doesn't end within the bytes.
fn read(code: &[u8], at: u32) -> Slot
    requires even { at % 2 ≡ 0 }
    requires low { at < 64 }
    ensures { TellsFetch code.now at result }
{
    if at as usize + 2 > code.len() {
        return None;
    }
    let first = half(code, at);
    let wide = is_wide(first);
    if wide && at as usize + 4 > code.len() {
        return None;
    }
    let second = if wide { half(code, at + 2) } else { 0 };
    match decode(first, second) {
        Some(instr) => Some((instr, wide)),
        None => None,
    }
}

/// Reads what stands at the first places.
pub fn slots_of(code: &[u8]) -> [Slot; COUNT]
    ensures { AreRead code.now result }
{
    let mut slots: [Slot; COUNT] = [None; COUNT];
    for place in 0..COUNT {
        slots[place] = read(code, 2 * place as u32);
    }
    slots
}
