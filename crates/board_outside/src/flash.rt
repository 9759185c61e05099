// Bytes of flash.
ghost use Rattle.std.specs.Prelude.{◌≡◌, ◌+◌, ◌-◌, ◌^◌, ◌<◌, ◌≤◌, ◌++◌, ◌⊎◌, length, take, drop};
ghost use Rattle.thumb_code.specs.Map.{flash_byte, flash_word};
ghost use Rattle.bank_model.specs.Texts.{flash_bytes};

use armv6m_machine::Machine;

/// The byte of flash at an address; past its end all are 0xFF.
pub fn flash_byte(machine: &Machine, at: u64) -> u8
    ensures { result ≡ flash_byte machine.now.memory.flash at }
{
    match machine.flash().get(at as usize) {
        Some(byte) => *byte,
        None => 0xFF,
    }
}

/// The number that four bytes of flash are, the low one first.
pub fn flash_number(machine: &Machine, at: u64) -> u32
    requires small { at < 2 ^ 32 }
    ensures { result ≡ flash_word machine.now.memory.flash at }
{
    let low = u32::from(flash_byte(machine, at)) + u32::from(flash_byte(machine, at + 1)) * 0x100;
    let high = u32::from(flash_byte(machine, at + 2))
        + u32::from(flash_byte(machine, at + 3)) * 0x100;
    low + high * 0x1_0000
}

/// So many bytes of flash from an address on, as far as the image has them.
pub fn image_bytes(machine: &Machine, at: u64, count: u32) -> &[u8]
    ensures within { length result.now ≤ count }
    ensures bytes { result.now ≡ flash_bytes machine.now.memory.flash (length result.now) at }
{
    let flash = machine.flash();
    let from = flash.len().min(at as usize);
    let there = (count as usize).min(flash.len() - from);
    &flash[from..from + there]
}
