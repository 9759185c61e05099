//! The typed program of a text, or the reason for which it has none.
#![tactic(auto)]

mod accepted_programs;
mod accepting;
mod build_classes;
mod build_globals;
mod build_initials;
mod build_makers;
mod build_parts;
mod build_program;
mod checking;
mod elaborated_texts;
mod refused_places;

pub use accepted_programs::{
    accepted_programs_are_buildable, one_answer, texts_have_one_answer,
    texts_with_tokens_have_an_answer,
};
pub use accepting::accept;
pub use checking::check;
pub use elaborated_texts::{
    elaboration_agrees_on_texts, read_texts_are_elaborated, rows_of_elaborated_texts,
    rows_of_failing_texts,
};
pub use refused_places::refusals_stand_in_their_texts;
