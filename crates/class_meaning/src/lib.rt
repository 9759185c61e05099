//! What a class of boards writes whose kinds implement others: it is what the class of those others writes. No code but a law.
#![tactic(auto)]

mod meaning;

pub use meaning::classes_write_what_others_write;
