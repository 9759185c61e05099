//! What the requests of the page of `play` are answered with, over whatever runs a program's text.
//!
//! `specs/Answers.antt` says it of each request; `answer_all` answers those of a connection.
#![tactic(auto)]

mod answer;
mod files;
mod page;
mod policy;
mod serve;

pub use answer::{Named, Play, Runs};
pub use serve::answer_all;
