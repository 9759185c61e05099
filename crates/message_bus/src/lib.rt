//! The message bus: listeners in the order of registration, with the events that each holds while it is busy, and the
//! queue of events that wait to be dispatched. Contracts see it as these lists and say what the board's world says.
#![tactic(auto)]

mod agreement;
mod bus;
mod held;
mod registration;
mod worked;

pub use agreement::{
    bits_are_the_numbers, handlers_stay, hearing_is_the_worlds, moves_agree, other_moves_agree,
    raises_are_the_worlds,
};
pub use bus::{Bus, ListenersFull, Raised};
pub use worked::{rows_of_busy_listeners, rows_of_ends};
