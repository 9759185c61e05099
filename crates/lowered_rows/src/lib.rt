//! The flat code of small programs, op by op, beside code that was written by hand; and what flat code does, computed by the definitions: the same as its source.
#![tactic(auto)]

mod codes;
mod rows;

pub use codes::{code_of_a_game, code_of_calls, code_of_handlers, ops_of_tight_forms};
pub use rows::{
    rows_of_activities, rows_of_assignments, rows_of_busy_listeners, rows_of_limits,
    rows_of_numbers, rows_of_orders, rows_of_raising_at_once, rows_of_texts,
};
