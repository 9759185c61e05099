// Bytes and halfwords of a word, low byte first (ARM DDI 0419, A3.3).
ghost use Rattle.std.specs.Prelude.{◌≡◌, ◌%◌, ◌<◌, ◌^◌};
ghost use Rattle.armv6m_machine.specs.Answers.{IsSize};
ghost use Rattle.thumb_switch.specs.Space.{part_of, merged_in};

/// The bytes at an address in the word that holds them.
pub fn part(word: u32, at: u32, bytes: u8) -> u32
    requires size { IsSize bytes }
    requires aligned { at % bytes ≡ 0 }
    ensures value { result ≡ part_of (record { at = at; bytes = bytes }) word }
    ensures zeros_above { result < 256 ^ bytes }
{
    match (bytes, at % 4) {
        (1, 0) => word % 0x100,
        (1, 1) => word / 0x100 % 0x100,
        (1, 2) => word / 0x1_0000 % 0x100,
        (1, _) => word / 0x100_0000,
        (2, 0) => word % 0x1_0000,
        (2, _) => word / 0x1_0000,
        _ => word,
    }
}

/// The word with the bytes at an address replaced by the low bytes of the value.
pub fn merged(word: u32, at: u32, bytes: u8, value: u32) -> u32
    requires size { IsSize bytes }
    requires aligned { at % bytes ≡ 0 }
    ensures { result ≡ merged_in (record { at = at; bytes = bytes }) value word }
{
    match (bytes, at % 4) {
        (1, 0) => word / 0x100 * 0x100 + value % 0x100,
        (1, 1) => word / 0x1_0000 * 0x1_0000 + value % 0x100 * 0x100 + word % 0x100,
        (1, 2) => word / 0x100_0000 * 0x100_0000 + value % 0x100 * 0x1_0000 + word % 0x1_0000,
        (1, _) => value % 0x100 * 0x100_0000 + word % 0x100_0000,
        (2, 0) => word / 0x1_0000 * 0x1_0000 + value % 0x1_0000,
        (2, _) => value % 0x1_0000 * 0x1_0000 + word % 0x1_0000,
        _ => value,
    }
}
