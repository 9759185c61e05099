//! Arrivals: what comes to a board between two instructions of its run, and behind how many. They are a JSON object
//! (RFC 8259); `docs/FORMATS.md` has its form. Contracts say which bytes are which arrivals, and for which others each
//! code stands.
#![tactic(auto)]

mod arrival;
mod form;
mod shapes;
mod verdict;

pub use arrival::{ARRIVAL_LIMIT, Arrival, ArrivalCode, ArrivalRefused};
pub use shapes::{counts_are_limited, members_are_exact, rows_are_arrivals, worked_arrivals};
pub use verdict::read_arrivals;
