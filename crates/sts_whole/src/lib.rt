//! The image of a typed program; and an image, run on a board.
#![tactic(auto)]

mod board;
mod building;
mod compiled;
mod reaching;

pub use board::run_image;
pub use building::compile;
pub use compiled::{compiled_images_implement_their_programs, images_are_one};
pub use reaching::runs_reach_their_sources;
