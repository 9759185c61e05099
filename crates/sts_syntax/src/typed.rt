// Typed trees: each expression has its type, and each name, call, member and handler the number of what it stands for.
// Numbers are given in text order, the library first.

use crate::{BoardCall, Ty};
use sts_base::Seq;

/// A typed program, with the library.
#[derive(Drop)]
pub struct Typed {
    /// the classes, by their number
    pub classes: Seq<TypedClass>,
    /// functions, methods, constructors, handlers and the main program, by their number
    pub functions: Seq<TypedBody>,
    /// the types of the globals, by their number
    pub globals: Seq<Ty>,
    /// the number of the main program among the functions
    pub main: u32,
}

/// A class.
#[derive(Drop)]
pub struct TypedClass {
    /// the number of its base among the classes
    pub base: Option<u32>,
    /// the types of its fields by their number, the base's first
    pub fields: Seq<Ty>,
    /// By the number of a slot, the base's first, the number of the method that stands in it, among the functions.
    pub slots: Seq<u32>,
    /// the number of its constructor among the functions, written or not
    pub maker: u32,
}

/// A function, method, constructor, handler or the main program.
#[derive(Drop)]
pub struct TypedBody {
    /// the types of the parameters; of a method or constructor the first is the type of `this`
    pub params: Seq<Ty>,
    /// the types of the locals, by their number
    pub locals: Seq<Ty>,
    /// the type of the result
    pub gives: Ty,
    /// the statements
    pub stmts: Seq<TypedStmt>,
}

/// Where a name's value is.
#[derive(Clone, Copy)]
pub enum Spot {
    /// a parameter of the function, by its place in `params`
    Param(u32),
    /// a local of the function, by its place in `locals`
    Local(u32),
    /// a global, by its place in `Typed::globals`
    Global(u32),
}

/// What is called. With `Slot`, `Push` and `Pop` the receiver is the first argument.
#[derive(Clone, Copy)]
pub enum Callee {
    /// a function, by its number
    Function(u32),
    /// a method, by the number of its slot in the receiver's class
    Slot(u32),
    /// `a.push(v)`
    Push,
    /// `a.pop()`
    Pop,
    /// a call of the board's interface
    Board(BoardCall),
}

/// A declared name with its initialiser.
#[derive(Drop)]
pub struct TypedBinding {
    /// where its value is
    pub name: Spot,
    /// the initialiser, where there is one
    pub first: Option<TypedExpr>,
}

/// A statement, as in `Form`.
#[derive(Drop)]
pub enum TypedStmt {
    /// `{ .. }`
    Block(Seq<TypedStmt>),
    /// `let` and `const`
    Let {
        /// whether it is `const`
        fixed: bool,
        /// the names, in their order
        each: Seq<TypedBinding>,
    },
    /// `if`, with the branch after `else` where there is one
    If(TypedExpr, Box<TypedStmt>, Option<Box<TypedStmt>>),
    /// `while (e) s`
    While(TypedExpr, Box<TypedStmt>),
    /// `do s while (e)`
    DoWhile(Box<TypedStmt>, TypedExpr),
    /// `for (first; test; step) s`
    For(Option<Box<TypedStmt>>, Option<TypedExpr>, Option<TypedExpr>, Box<TypedStmt>),
    /// `for (let x of e) s`
    ForOf {
        /// whether it is `const`
        fixed: bool,
        /// where the item is
        name: Spot,
        /// the array that is gone through
        list: TypedExpr,
        /// what is done for each item
        body: Box<TypedStmt>,
    },
    /// `return`, with a value or without
    Return(Option<TypedExpr>),
    /// `break`
    Break,
    /// `continue`
    Continue,
    /// an expression as a statement
    Plain(TypedExpr),
    /// `;` alone
    Empty,
}

/// An expression with its type.
#[cycle(typed)]
#[derive(Drop)]
pub struct TypedExpr {
    /// its type
    pub ty: Ty,
    /// what it is
    pub node: TypedNode,
}

/// What an expression is, as in `Node`. The numbers of operators are those of `operators`.
#[cycle(typed)]
#[derive(Drop)]
pub enum TypedNode {
    /// a number; a constant of the board's interface is one too
    Num(i32),
    /// a text, by its number in `Tables::texts`
    Text(u32),
    /// `true` or `false`
    Truth(bool),
    /// `null`
    Null,
    /// `this`
    This,
    /// a name, by where its value is
    Name(Spot),
    /// A prefix operator, by its number, and its operand.
    Unary(u8, Box<TypedExpr>),
    /// An operator between two operands, by its number.
    Binary(u8, Box<TypedExpr>, Box<TypedExpr>),
    /// `a && b`
    Both(Box<TypedExpr>, Box<TypedExpr>),
    /// `a || b`
    Either(Box<TypedExpr>, Box<TypedExpr>),
    /// `a ? b : c`
    Choice(Box<TypedExpr>, Box<TypedExpr>, Box<TypedExpr>),
    /// An assignment to a name, a field or an item, with the binary operator's number where it is `+=` or its like.
    Set(Option<u8>, Box<TypedExpr>, Box<TypedExpr>),
    /// `++` and `--`, before or after their target.
    Bump {
        /// a name, a field or an item
        target: Box<TypedExpr>,
        /// 1 for `++`, -1 for `--`
        by: i32,
        /// whether it stands after the target, so that its value is the one from before
        late: bool,
    },
    /// a field of an object, by its number in `TypedClass::fields`
    Field(Box<TypedExpr>, u32),
    /// `a.length`
    Length(Box<TypedExpr>),
    /// `a[i]`
    Item(Box<TypedExpr>, Box<TypedExpr>),
    /// A call, with the receiver as first argument where there is one.
    Call(Callee, Seq<TypedExpr>),
    /// A call of a base's constructor or method, by its number among the functions, with the written arguments alone.
    SuperCall(u32, Seq<TypedExpr>),
    /// `new`, with the number of the class and the written arguments alone
    Make(u32, Seq<TypedExpr>),
    /// `[a, b]`
    Items(Seq<TypedExpr>),
    /// a handler, by its number among the functions
    Handler(u32),
}
