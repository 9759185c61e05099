//! The numbers of functions, constructors, fields, slots and globals in a typed program.
#![tactic(auto)]

mod counts;
mod handler_counts;
mod member_names;
mod routine_numbers;

pub use counts::counts_fit;
pub use handler_counts::{declared_handlers, routine_handlers, statement_handlers};
pub use member_names::{Members, Names, base_of, class_names, is_global, names_of, place_among};
pub use routine_numbers::{Numbers, behind_member, numbering, unwritten};
