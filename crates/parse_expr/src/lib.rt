//! The parser of expressions and statements: the reader over tokens, the rules of headings, lists, declarations, operands, operators and
//! statements, and the two readers that call each other through them. A rule takes the readers of the expressions and statements that a
//! node holds as values, so that each is proved by itself.
#![tactic(auto)]

mod declarations;
mod ends;
mod for_loops;
mod grammar;
mod headings;
mod lists;
mod operands;
mod operators;
mod parse;
mod reader;
mod readers;
mod statements;
mod steps;

pub use headings::Heading;
pub use parse::{MOST_NESTING, block, initialiser, parse_expr, parse_stmt, refusal};
pub use reader::{Read, Reader, Unread};
pub use readers::{expression, statement};
