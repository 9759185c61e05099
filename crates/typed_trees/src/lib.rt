//! The typed trees of expressions and statements, in code: what is built of each node, and which locals and functions it leaves.
#![tactic(auto)]

mod accumulator;
mod build_arguments;
mod build_blocks;
mod build_calls;
mod build_forms;
mod build_functions;
mod build_heads;
mod build_locals;
mod build_members;
mod build_nodes;
mod build_numbers;
mod build_operators;
mod build_places;
mod build_routines;
mod build_spots;
mod build_statements;
mod build_targets;
mod build_trees;
mod build_types;
mod spots;

pub use accumulator::Accumulator;
pub use build_forms::{beside, nothing_built};
pub use build_functions::{Function, add, add_function, add_method, add_types, function_site};
pub use build_locals::build_first;
pub use build_nodes::{boxed, noted_type};
pub use build_numbers::{maker_number, names_at, one_more, routine_number};
pub use build_places::{Builder, Plan, Site};
pub use build_spots::{field_number, global_number};
pub use build_statements::build_statement;
pub use build_trees::build_given;
pub use build_types::type_of_values;
pub use spots::Spots;
