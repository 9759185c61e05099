//! The registers of one fiber.

/// The registers R0 to R12, SP, LR and PC, and the flags: bit 3 is N, 2 is Z, 1 is C, 0 is V.
/// PC is the address of the instruction that comes next.
#[derive(Clone, Copy, PartialEq, Eq, Debug, Drop)]
pub struct Registers {
    pub r: [u32; 13],
    pub sp: u32,
    pub lr: u32,
    pub pc: u32,
    pub flags: u8,
}
