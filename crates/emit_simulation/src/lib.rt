//! The theorem of emission: what flat code does in an op, a fiber over a flash that shows the code does in so many instructions.
//!
//! `specs/` has what ties an activity to a fiber, and what a step may take; the theorem is the clause of `images_do_what_flat_code_does`.
#![tactic(auto)]

mod emission;

pub use emission::images_do_what_flat_code_does;
