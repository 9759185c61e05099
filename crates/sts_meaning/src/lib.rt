//! What a program means: values, the step of an activity, and the run of a program's source in the board's world.
//!
//! `specs/` has the definitions. The one call is the table of the operators between two numbers; the rest are worked rows.
#![tactic(auto)]

mod arithmetic;
mod rows;

pub use arithmetic::apply;
pub use rows::{
    counted_steps_of_expressions, counted_steps_of_statements, rows_of_activities,
    rows_of_assignments, rows_of_busy_listeners, rows_of_limits, rows_of_measures, rows_of_numbers,
    rows_of_orders, rows_of_raising_at_once, rows_of_texts,
};
