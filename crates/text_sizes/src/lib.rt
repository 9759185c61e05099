//! How many tokens a text has, and how many functions, parameters, locals and declarations they spell.
#![tactic(auto)]

mod theorems;

pub use theorems::{programs_have_few_parts, texts_have_few_tokens};
