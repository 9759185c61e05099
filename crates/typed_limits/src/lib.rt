//! The counted limits of a typed program.
#![tactic(auto)]

mod limits;
mod text_bytes;
mod uses;

pub use limits::program_fits;
