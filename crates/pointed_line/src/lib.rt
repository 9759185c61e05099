//! What a refusal means, as a text: a sentence, the line in which its place is, as a terminal shows it, a caret under the place, and an example.
#![tactic(auto)]

mod line;
mod telling;

pub use telling::{explained, explained_meant};
