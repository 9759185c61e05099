//! The three lists of fibers that aren't running: the ready ones, the sleepers with their wake times, the waiters with
//! their events. Contracts see them as lists of keys, and say what a call does in the words of the board's world.
#![tactic(auto)]

mod meanings;
mod queues;
mod search;

pub use meanings::{
    keys_are_chosen_alike, keys_stand_for_activities, moves_are_calls, wakings_add_up,
    woken_keys_have_the_value,
};
pub use queues::Queues;
