//! A transcript of `sts` for people: as a text with pictures and sentences, and as a page.
#![tactic(auto)]

mod below;
mod notes;
mod page;
mod parts;
mod pictures;
mod short;
mod shown;
mod text;

pub use page::{page_text, view_page};
pub use short::{joined, shortened};
pub use text::{ViewFault, view_text, viewed};
