// What is known where the parts of a program are built, and what is built.
use crate::accumulator::Accumulator;
use crate::spots::Spots;
use std::alloc::Global;
use sts_base::{Seq, Tables};
use sts_scope::{ByNumber, Environment, StaticType};
use sts_syntax::{Ty, TypedBody, TypedExpr};
use type_derive::Scope;
use typed_numbers::{Names, Numbers};

/// What is known of a library and a text, wherever a part stands.
#[derive(Clone, Copy)]
pub struct Plan<'a> {
    pub alloc: Global,
    /// the names and texts
    pub tables: &'a Tables,
    /// the numbers of the classes, by their names
    pub classes: &'a ByNumber,
    /// all declarations with their types
    pub known: &'a Environment,
    /// the numbers of functions
    pub numbers: &'a Numbers,
    /// the names of fields and slots, and the numbers of globals
    pub names: &'a Names,
}

/// Where something stands, and where the values of the function's locals are.
#[derive(Drop)]
pub struct Site<'a> {
    pub scope: Scope<'a>,
    /// where the value of each local of the function in scope is
    pub spots: Spots,
}

/// What is built of a function, and the functions that stand in it.
#[derive(Drop)]
pub struct Builder {
    /// the types of the function's locals
    pub locals: Seq<Ty>,
    /// the functions
    pub routines: Accumulator<TypedBody>,
    /// the number of the next local
    pub local: u32,
    /// the number of the next function
    pub function: u32,
}

/// A typed expression, and its type where it stands.
#[derive(Drop)]
pub struct Noted {
    pub tree: TypedExpr,
    /// its type, if it has one
    pub kind: Option<StaticType>,
}
