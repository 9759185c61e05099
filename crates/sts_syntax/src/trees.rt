// Expressions, statements, and what functions, methods and handlers have in common.
// A place is counted in bytes from the start of the text. The place of an expression, a statement and a type name is its
// first token's. Parentheses make no node: an expression inside them keeps its own place, and a larger one that begins
// with their `(` has the place of that `(`.

use crate::Shape;
use sts_base::Seq;

/// An expression.
#[cycle(tree)]
#[derive(Drop)]
pub struct Expr {
    /// the place of its first token
    pub at: u32,
    /// what it is
    pub node: Node,
}

/// What an expression is. The numbers of operators are those of `operators`.
#[cycle(tree)]
#[derive(Drop)]
pub enum Node {
    /// a number
    Num(i32),
    /// a text, by its number in `Tables::texts`
    Text(u32),
    /// `true` or `false`
    Truth(bool),
    /// `null`
    Null,
    /// `this`
    This,
    /// a name, by its number in `Tables::names`
    Name(u32),
    /// A prefix operator, by its number, and its operand.
    Unary(u8, Box<Expr>),
    /// An operator between two operands, by its number. `&&` and `||` are none of these.
    Binary(u8, Box<Expr>, Box<Expr>),
    /// `a && b`
    Both(Box<Expr>, Box<Expr>),
    /// `a || b`
    Either(Box<Expr>, Box<Expr>),
    /// `a ? b : c`
    Choice(Box<Expr>, Box<Expr>, Box<Expr>),
    /// An assignment to a name, a member or an item. `a = r` has no number; `a += r` and its like have the binary
    /// operator's.
    Set(Option<u8>, Box<Expr>, Box<Expr>),
    /// `++` and `--`, before or after their target.
    Bump {
        /// a name, a member or an item
        target: Box<Expr>,
        /// 1 for `++`, -1 for `--`
        by: i32,
        /// whether it stands after the target, so that its value is the one from before
        late: bool,
    },
    /// `a.m`, with the number of the name `m` in `Tables::names`
    Member(Box<Expr>, u32),
    /// `a[i]`
    Item(Box<Expr>, Box<Expr>),
    /// `f(a, b)`, with the callee first; a method call has a `Member` as callee
    Call(Box<Expr>, Seq<Expr>),
    /// `super(a, b)`, or `super.m(a, b)` with the number of the name `m`
    SuperCall(Option<u32>, Seq<Expr>),
    /// `new C(a, b)`, with the number of the name `C`
    Make(u32, Seq<Expr>),
    /// `[a, b]`
    Items(Seq<Expr>),
    /// A function expression or an arrow.
    Handler(Box<Body>),
}

/// A statement.
#[cycle(tree)]
#[derive(Drop)]
pub struct Stmt {
    /// the place of its first token
    pub at: u32,
    /// what it is
    pub form: Form,
}

/// What a statement is.
#[cycle(tree)]
#[derive(Drop)]
pub enum Form {
    /// `{ .. }`
    Block(Seq<Stmt>),
    /// `let` and `const`
    Let {
        /// whether it is `const`
        fixed: bool,
        /// the names, in their order
        each: Seq<Binding>,
    },
    /// `if`, with the branch after `else` where there is one
    If(Expr, Box<Stmt>, Option<Box<Stmt>>),
    /// `while (e) s`
    While(Expr, Box<Stmt>),
    /// `do s while (e)`
    DoWhile(Box<Stmt>, Expr),
    /// `for (first; test; step) s`. What stands first is a `Let` or a `Plain` statement.
    For(Option<Box<Stmt>>, Option<Expr>, Option<Expr>, Box<Stmt>),
    /// `for (let x of e) s`
    ForOf {
        /// whether it is `const`
        fixed: bool,
        /// the name's number in `Tables::names`
        name: u32,
        /// the array that is gone through
        list: Expr,
        /// what is done for each item
        body: Box<Stmt>,
    },
    /// `return`, with a value or without
    Return(Option<Expr>),
    /// `break`
    Break,
    /// `continue`
    Continue,
    /// an expression as a statement
    Plain(Expr),
    /// `;` alone
    Empty,
}

/// A name that `let`, `const` or a field declares.
#[cycle(tree)]
#[derive(Drop)]
pub struct Binding {
    /// the place of the name
    pub at: u32,
    /// its number in `Tables::names`
    pub name: u32,
    /// the type, where one is written
    pub shape: Option<Shape>,
    /// the initialiser, where there is one
    pub first: Option<Expr>,
}

/// A parameter.
#[derive(Drop)]
pub struct Param {
    /// the place of the name
    pub at: u32,
    /// its number in `Tables::names`
    pub name: u32,
    /// the type, where one is written
    pub shape: Option<Shape>,
}

/// What functions, methods, constructors and handlers have in common.
#[cycle(tree)]
#[derive(Drop)]
pub struct Body {
    /// The place of the name of a function or method, of the word `constructor`, or of a handler's first token.
    pub at: u32,
    /// the parameters, in their order
    pub params: Seq<Param>,
    /// the result type, where one is written
    pub gives: Option<Shape>,
    /// the statements of its block
    pub stmts: Seq<Stmt>,
    /// whether it is written with `=>`
    pub arrow: bool,
}
