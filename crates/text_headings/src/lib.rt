//! The first failure of a text's names, bases and headings, in code.
#![tactic(auto)]

mod heading_checks;
mod names;
mod numbers;
mod resolution;

pub use heading_checks::check_written;
pub use numbers::{class_at, globals_in};
pub use resolution::{Scopes, headings, resolve};
