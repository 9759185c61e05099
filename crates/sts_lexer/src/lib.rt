//! The tokens of a program text.
//!
//! Which tokens a text has is a relation over the whole text (`specs/Tokens.antt`), and where it has none, a relation
//! names the first place at fault (`specs/Refusals.antt`). `tokens` gives exactly these.
#![tactic(auto)]

mod bytes;
mod entries;
mod kinds;
mod lexer;
mod marks;
mod numbers;
mod quotes;
mod spaces;
mod theorems;
mod token;
mod words;

pub use lexer::tokens;
pub use marks::Mark;
pub use theorems::{one_numbering, one_reading, spellings_stay, texts_are_read_or_refused};
pub use token::{Token, TokenKind};
pub use words::Word;
