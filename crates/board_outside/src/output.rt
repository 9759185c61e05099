//! What an instruction shows.

/// What an instruction showed to the outside.
#[derive(Clone, Copy, Drop)]
pub enum Output {
    Nothing,
    /// Another frame.
    Frame(u32),
    /// The decimal text of a number, at the serial port.
    Number(i32),
    /// The text at an address of flash, at the serial port.
    Text(u32),
    /// A pin and its level.
    Pin(u8, u8),
    /// A number that was sent by radio.
    Radio(i32),
}
