//! The trees of a program: the tree that its tokens spell, and the typed tree that names and types make of it.
//! Contracts speak of trees without pointers (specs/Trees.antt, specs/TypedTrees.antt), to which a tree in memory
//! is mapped by `tree`, `statement`, `unit_of`, `typed_tree` and their like.
#![tactic(auto)]

mod board_calls;
mod board_rows;
mod board_table;
pub mod build;
mod frames;
mod library_laws;
mod measures;
pub mod operators;
mod shapes;
mod trees;
mod typed;
mod types;
mod units;

pub use board_calls::BoardCall;
pub use board_rows::{BoardAction, BoardParameter, ServicePlace, board_call, board_constant};
pub use board_table::board_calls_are_named;
pub use frames::{frame_words, outgoing_words, pending_words, weight};
pub use library_laws::library_is_light;
pub use shapes::Shape;
pub use trees::{Binding, Body, Expr, Form, Node, Param, Stmt};
pub use typed::{
    Callee, Spot, Typed, TypedBinding, TypedBody, TypedClass, TypedExpr, TypedNode, TypedStmt,
};
pub use types::{BaseType, Ty};
pub use units::{Item, Member, Unit};
