//! The top call: what the words ask for, done over a folder and a sink.
#![tactic(auto)]

mod arrivals;
mod big;
mod build;
mod check;
mod class;
mod class_boards;
mod classes;
mod commands;
mod ending;
mod fetched;
mod images;
mod laws;
mod posted;
mod run;
mod run_at;
mod run_hex;
mod said;
mod script;

pub use big::big_text;
pub use commands::sts_main;
pub use ending::{Ending, Status};
pub use images::texts_have_one_image;
pub use laws::{
    built_texts_are_read_back, runs_end_with_what_is_built, statuses_of_programs,
    statuses_of_run_hex,
};
pub use posted::run_posted;
