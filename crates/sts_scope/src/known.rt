// What is known of a program, and what a name stands for.
use crate::{ClassHead, StaticType, SymbolTable, Table};
use sts_base::Seq;

/// All declarations of a library and a text, the library's first.
#[derive(Drop)]
pub struct Known {
    /// the declarations, in text order
    pub entries: SymbolTable,
    /// the classes, in text order
    pub classes: Seq<ClassHead>,
    /// The type of each declaration: a global's and a field's own, a function's and method's result. None for a class, and where none is known.
    pub kinds: Table<Option<StaticType>>,
    /// how many declarations are the library's
    pub library: usize,
}

/// A parameter or local in scope.
#[derive(Clone, Copy)]
pub struct Local {
    /// its name's number in `Tables::names`
    pub name: u32,
    /// its type, where one is known
    pub kind: Option<StaticType>,
    /// whether it is `const`
    pub fixed: bool,
}

/// What `this` is.
#[derive(Clone, Copy)]
pub enum This {
    /// an object of the class of this number
    Object(u32),
    /// an object of this class, which a handler can't see
    Hidden(u32),
    /// nothing
    Nowhere,
}

/// What a name stands for.
#[derive(Clone, Copy)]
pub enum Found {
    /// a parameter or local of this function, by its place among those of it that are in scope
    Local(usize),
    /// a parameter or local of a function around this one
    Captured,
    /// a global, by its number among the declarations
    Global(usize),
    /// a function, by its number among the declarations
    Function(usize),
    /// a class, by its number
    Class(u32),
    /// nothing
    Unknown,
}

/// What stands behind the dot.
#[derive(Clone, Copy)]
pub enum Part {
    /// a field, by its number among the declarations
    Field(usize),
    /// a method, by its number among the declarations
    Method(usize),
    /// the length of an array
    Length,
    /// `push` of an array of items of this type
    Push(StaticType),
    /// `pop` of an array of items of this type
    Pop(StaticType),
    /// nothing of that name
    Missing,
}
