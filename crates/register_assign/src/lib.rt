//! Where the temporaries of a function of flat code stand: in registers r4 to r7, in slots of its frame, or where its arguments come in.
#![tactic(auto)]

mod assignment;
mod checks;
mod copies;
mod intervals;
mod liveness;
mod ops;
mod places;
mod unread;
mod uses;

pub use assignment::assign;
pub use checks::check_places;
pub use places::{Place, Placed};
pub use unread::{unread_results, unread_results_are_dead};
