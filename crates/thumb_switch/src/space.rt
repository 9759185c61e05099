// Where the parts of the memory of three parts begin, and where an execution returns to.

/// The stack region.
pub const STACK: u32 = 0x2000_3000;

/// Its end.
pub const RAM_END: u32 = 0x2000_4000;

/// The words of one record.
pub const RECORD: u32 = 0x3000_0000;

/// Where an execution returns to, which is in none of the parts.
pub const BACK: u32 = 0x4000_0000;
