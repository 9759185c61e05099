// Classes, functions and whole texts.

use crate::{Binding, Body, Stmt};
use sts_base::Seq;

/// A member of a class. `public`, `private` and `protected` leave no trace.
#[derive(Drop)]
pub enum Member {
    /// a field, with its type and initialiser
    Field(Binding),
    /// a method
    Method {
        /// the name's number in `Tables::names`
        name: u32,
        /// the rest of it; its place is the name's
        body: Body,
    },
    /// The constructor. Its place is the word's.
    Constructor(Body),
}

/// A part of a text.
#[derive(Drop)]
pub enum Item {
    /// a class
    Class {
        /// the place of the name
        at: u32,
        /// the name's number in `Tables::names`
        name: u32,
        /// the number of the base's name, where there is a base
        base: Option<u32>,
        /// the place of the base's name; 0 without a base
        base_at: u32,
        /// the members, in their order
        members: Seq<Member>,
    },
    /// a function
    Function {
        /// the name's number in `Tables::names`
        name: u32,
        /// the rest of it; its place is the name's
        body: Body,
    },
    /// a statement of the main program
    Stmt(Stmt),
}

/// A whole text.
#[derive(Drop)]
pub struct Unit {
    /// its parts, in their order
    pub items: Seq<Item>,
}
