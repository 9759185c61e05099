//! A class of boards that are stepped moment by moment: what is known of them between two moments, and what they have written. No code but laws.
#![tactic(auto)]

mod stepping;
mod texts;

pub use stepping::{boards_in_a_moment_begin_a_text, boards_that_wait_have_ended};
pub use texts::one_class_text;
