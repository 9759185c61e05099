//! Values and words, and the words that show a heap.
//!
//! `specs/` has the relations. What the words show of each operation on a heap, and the laws, are in `proofs/`; there is no code.
#![tactic(auto)]
