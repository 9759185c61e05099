//! The bank machine, as a person reads it first: the board's world with a fiber for each activity, where each fiber has a bank of
//! its own. There is no copying and no record, and one list of free words.
//!
//! It stands on `thumb_code`'s effects over any memory and on `board_world`'s world over any kind of activity. What is here is
//! definitions, and laws on functions without a body.
#![tactic(auto)]

mod bank;
mod fibers;
mod images;
mod runs;
mod standing;
mod worked;

pub use bank::{
    bank_follows_ram, bank_follows_ram_at_one_instruction, bank_follows_ram_at_one_step,
};
pub use fibers::{main_begins_at_reset, one_fiber_steps_alone};
pub use images::{
    rows_of_allocation, rows_of_bad_arrays, rows_of_board, rows_of_fibers, rows_of_glyphs,
    rows_of_limits, rows_of_listeners, rows_of_numbers, rows_of_overlaps, rows_of_pushes,
    rows_of_raisers, rows_of_raising_now, rows_of_seats, rows_of_texts, rows_of_time,
    rows_of_watching,
};
pub use runs::{runs_without_free_words_are_the_same, used_words_are_counted};
pub use standing::{a_step_is_the_turn_of_who_stands_there, a_step_keeps_what_is_above_the_base};
pub use worked::{rows_of_banks, rows_of_division, rows_of_faults, rows_of_services};
