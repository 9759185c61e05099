//! The instructions of ARMv6-M that a program without privilege can use (ARM DDI 0419): one value for each, its halfwords, and both ways
//! between them.
//!
//! The definitions in specs/ are the model that other crates stand on: the table of spellings, what
//! each instruction does over any memory, the map of addresses, the machine with one RAM, and its steps.
#![tactic(auto)]

mod decoding;
mod encoding;
mod halfwords;
mod instructions;
mod overflow;
mod register_file;
mod services;

pub use decoding::{decode, is_wide};
pub use encoding::encode;
pub use halfwords::Half;
pub use instructions::Instr;
pub use overflow::sums_overflow_where_signed_ones_do;
pub use register_file::Registers;
pub use services::services_change_pc_alone;
