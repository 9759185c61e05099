//! What a request of the page of `play` asks for.
//!
//! `specs/Requests.antt` says it of each request; `Site::wanted` gives it.
#![tactic(auto)]

mod numbers;
mod secrets;
mod wanted;

pub use numbers::Budget;
pub use wanted::{Site, Wanted, Which};
