//! The words of a command line: which lists of words are taken, and what they ask for.
//!
//! `specs/Words.antt` says which lists are taken; `read_words` reads exactly these.
#![tactic(auto)]

mod numbers;
mod order;
mod reading;
mod said;
mod theorems;

pub use order::Order;
pub use reading::{asked_by, read_words};
pub use said::{Given, Names};
pub use theorems::words_ask_for_one_thing;
