//! Runs of a board in parts, between which somebody outside acts: the bank machine's run with arrivals, over a sink and devices; and the law that joins
//! such parts and acts to one run.
#![tactic(auto)]

mod image;
mod run;
mod sources;
mod theorems;

pub use image::run_image_at;
pub use run::run_arrivals;
pub use sources::sources_meet_arrivals;
pub use theorems::{arrivals_are_applied, parts_are_one_run};
