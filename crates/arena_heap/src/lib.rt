//! The arena: words that are handed out and never taken back, and arrays in it that grow.
//!
//! What it does to the machine's memory is said by `bank_model`'s definitions of the services.
#![tactic(auto)]

mod arena;
mod arrays;
mod service;
mod words;

pub use arena::{Arena, Pushed};
pub use service::a_push_is_the_service;
