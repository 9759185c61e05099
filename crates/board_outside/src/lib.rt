//! What a board does to its outside: the lines of a transcript, and the words that devices are sent, as a run goes on.
#![tactic(auto)]

mod flash;
mod lines;
mod order;
mod output;
mod sending;
mod showing;

pub use lines::{
    then_put_budget, then_put_fault, then_put_panic, then_put_quiet, then_put_script,
    then_put_serial,
};
pub use order::runs_meet_in_order;
pub use output::Output;
pub use showing::show;
