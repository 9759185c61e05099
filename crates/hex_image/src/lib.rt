//! Intel HEX: an image of the board's flash as a text of records, and back.
//!
//! Contracts see a text and an image as lists of bytes. `specs/Spells.antt` says which image a text spells and
//! which rule a text breaks first; `specs/Writing.antt` has the one text that is written.
#![tactic(auto)]

mod flash;
mod line;
mod reading;
mod record;
mod refused;
mod theorems;
mod writing;

pub use reading::read_hex;
pub use refused::{HexCode, HexRefused};
pub use theorems::{one_reading, round_trip};
pub use writing::write_hex;
