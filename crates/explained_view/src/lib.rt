//! The view of a transcript as a text, where the first refusal in it is explained by the program's text.
#![tactic(auto)]

mod refusal;
mod text;

pub use refusal::{Refusal, first_refusal};
pub use text::{view_below, view_explained, view_plain};
