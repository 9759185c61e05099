//! What a text declares by name, what a name stands for, and the type of a node from those of its parts.
//! Definitions speak of trees without pointers, of the library's behind which the text's stand.
#![tactic(auto)]

mod build;
mod by_number;
mod collect;
mod entries;
mod environment;
mod failures;
mod kind_rules;
mod kinds;
mod known;
mod lines;
mod lookup;
mod numbers;
mod rows;
mod rules;
mod symbol_table;
mod table;

pub use build::{kind_of, written_kind};
pub use by_number::ByNumber;
pub use collect::{Declared, declarations_of};
pub use entries::{ClassHead, DeclarationKind, Entry, Owner};
pub use environment::Environment;
pub use failures::{or_no_memory, unless};
pub use kind_rules::{array_of, below, class_of, flat, goes, is_array, item, same, takes_null};
pub use kinds::{Base, StaticType};
pub use known::{Found, Known, Local, Part, This};
pub use lookup::{is_dollar, is_spelled, sort_of};
pub use rows::{rows_of_bases, rows_of_headings, rows_of_names};
pub use rules::{all_go, all_go_to, assign, choose, counted, element, joined, operate, prefix};
pub use symbol_table::SymbolTable;
pub use table::Table;
