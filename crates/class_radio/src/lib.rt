//! A class of boards that hear one another by radio, run together over one sink.
#![tactic(auto)]

mod closing;
mod hearing;
mod losses;
mod mounting;
mod player;
mod run;
mod stepping;
mod turns;

pub use run::{ClassEnd, run_class};
