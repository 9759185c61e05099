// What a program declares by name.
use crate::StaticType;
use sts_base::Seq;

/// What a declaration belongs to.
#[derive(Clone, Copy)]
pub enum Owner {
    /// the whole text
    Whole,
    /// the class of this number
    Class(u32),
}

/// What a declaration is.
#[derive(Clone, Copy)]
pub enum DeclarationKind {
    /// a global
    Global {
        /// whether it is `const`
        fixed: bool,
    },
    /// a function
    Function,
    /// the class of this number
    Class(u32),
    /// a field of a class
    Field,
    /// a method of a class
    Method,
}

/// A declaration.
#[derive(Drop)]
pub struct Entry {
    /// the place of its name
    pub at: u32,
    /// what it belongs to
    pub owner: Owner,
    /// the name's number in `Tables::names`
    pub name: u32,
    /// what it is
    pub sort: DeclarationKind,
    /// what a function or method takes; empty for the others
    pub takes: Seq<StaticType>,
}

/// The head of a class.
#[derive(Drop)]
pub struct ClassHead {
    /// the place of its name
    pub at: u32,
    /// the number of its base's name, where a base is written
    pub base_name: Option<u32>,
    /// the place of the base's name; 0 without a base
    pub base_at: u32,
    /// the number of its base, where there is a class of that name
    pub base: Option<u32>,
    /// what its written constructor takes, where there is one
    pub takes: Option<Seq<StaticType>>,
}
