//! What a view of a transcript is, and how its lines are read back: definitions, their laws, and the sentences that are said of lines. It has no code that
//! runs.
#![tactic(auto)]

mod below;
mod laws;
mod notes;

pub use below::Below;
pub use laws::{
    joined_texts_are_whole, lines_come_back, pages_tell_all, transcripts_are_no_markup,
    what_is_left_out_is_counted,
};
pub use notes::{NOTES, Note};
