//! Small kinds of activity and small programs of them: the worked rows of the board's world, computed by its
//! definitions, and what the laws of simulations come to at kinds that exist. No code.
#![tactic(auto)]

mod careful;
mod rows;
mod slow;
mod workers;

pub use careful::{careful_programs_make_no_fault, hasty_programs_make_a_fault};
pub use rows::{
    rows_of_activities, rows_of_busy_listeners, rows_of_buttons, rows_of_devices, rows_of_limits,
    rows_of_raising_at_once, rows_of_the_clock,
};
pub use slow::slowed_kinds_compose;
pub use workers::operations_do_what_requests_do;
