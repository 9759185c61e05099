//! The file of a class: which boards play together, on which programs and scripts, and what is lost between them. It is
//! a JSON object (RFC 8259); `docs/FORMATS.md` has its form. Contracts say which bytes are which class, and for which
//! others each code stands.
#![tactic(auto)]

mod class;
mod form;
mod shapes;
mod verdict;

pub use class::{BOARD_LIMIT, ClassCode, ClassFile, ClassRefused, LOSS_LIMIT, Loss, Names};
pub use shapes::{counts_are_limited, members_are_exact, parts_are_classes, worked_classes};
pub use verdict::read_class;
