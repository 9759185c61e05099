//! A stream behind a buffer, so that many small pieces are few writes.
#![tactic(auto)]

mod stream;
mod writing;

pub use stream::{BufferedStream, ROOM};
