//! The division routine: what `/` and `%` of compiled code call. `specs/Routine.antt` has its instructions, `specs/Divides.antt` what a call does.
#![tactic(auto)]

mod bytes;
mod theorems;

pub use bytes::routine;
pub use theorems::the_routine_divides;
