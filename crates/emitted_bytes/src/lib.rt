//! Bytes of emitted code: a lowered function's laid code has at most 52 bytes for each unit of its weight.
#![tactic(auto)]

mod theorems;

pub use theorems::laid_code_keeps_its_weight;
