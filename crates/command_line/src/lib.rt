//! The words of a command line, tested by hand and read by `clap`.
//!
//! `sts_words` says which lists of words are taken; `specs/Tool.antt` is the command line as `clap` sees it; `read_command_line` reads by it what
//! is taken.
#![tactic(auto)]

mod matches;
mod reading;
mod tool;

pub use reading::read_command_line;
