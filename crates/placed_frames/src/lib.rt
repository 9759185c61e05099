//! What a fiber's instructions do to what it sees, and the frames of an activity in its bank and in r4 to r7.
//!
//! Definitions and lemmas alone: `specs/` has how frames stand there, `proofs/` what a fiber sees, and what keeps them so.
#![tactic(auto)]
