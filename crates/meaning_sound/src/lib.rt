//! A well-typed program makes no fault, whatever happens to the board.
#![tactic(auto)]

mod soundness;

pub use soundness::{
    typed_programs_make_no_fault, typed_steps_stay_typed, worked_programs_are_well_typed,
};
