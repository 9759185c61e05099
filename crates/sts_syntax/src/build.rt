// Trees from their parts: a function for each form of expression and statement, and for declared names, routines and types of lists.
// `at` is the node's place in the text, in bytes. What allocates answers `NoMemory` where memory ran out, and has no other refusal.
// Where memory runs out between two parts, the other one is given up by a generic function: written out for a tree, its drop would
// take a step for each form of tree, here and in each proof.
ghost use Rattle.std.specs.Prelude.{◌≡◌, IfOk, Some, None, true, false};
ghost use Rattle.sts_syntax.specs.Annotations.{annotation};
ghost use Rattle.sts_syntax.specs.Annotations as a;
ghost use Rattle.sts_syntax.specs.Trees as t;
ghost use Rattle.sts_syntax.specs.Views.{tree, trees, statement, statements, declaration, declarations, optional_annotation, optional_expression, optional_written, parameters, routine};

use crate::{Binding, Body, Expr, Form, Node, Param, Shape, Stmt};
use std::alloc::Global;
use sts_base::{NoMemory, Seq};

/// A value in a box of its own.
pub fn boxed<T: Drop>(alloc: Global, value: T) -> Result<Box<T>, NoMemory>
    ensures { IfOk result (λ b. b.value ≡ value) }
{
    match Box::new(alloc, value) {
        Ok(held) => Ok(held),
        Err(_) => Err(NoMemory),
    }
}

/// A value in a box of its own, and what is given up where there is no room for it.
fn boxed_beside<T: Drop, K: Drop>(alloc: Global, value: T, kept: K) -> Result<(Box<T>, K), NoMemory>
    ensures value { IfOk result (λ r. r.0.value ≡ value) }
    ensures kept { IfOk result (λ r. r.1 ≡ kept) }
{
    Ok((boxed(alloc, value)?, kept))
}

/// Two values in boxes of their own.
fn boxed_both<T: Drop, U: Drop>(
    alloc: Global,
    first: T,
    second: U,
) -> Result<(Box<T>, Box<U>), NoMemory>
    ensures first { IfOk result (λ r. r.0.value ≡ first) }
    ensures second { IfOk result (λ r. r.1.value ≡ second) }
{
    let (first, second) = boxed_beside(alloc, first, second)?;
    Ok((first, boxed(alloc, second)?))
}

/// Two values in boxes of their own, and what is given up where there is no room for them.
fn boxed_both_beside<T: Drop, U: Drop, K: Drop>(
    alloc: Global,
    first: T,
    second: U,
    kept: K,
) -> Result<(Box<T>, Box<U>, K), NoMemory>
    ensures first { IfOk result (λ r. r.0.value ≡ first) }
    ensures second { IfOk result (λ r. r.1.value ≡ second) }
    ensures kept { IfOk result (λ r. r.2 ≡ kept) }
{
    let (first, second) = boxed_both(alloc, first, second)?;
    Ok((first, second, kept))
}

/// The type of lists of an item, `T[]`.
pub fn list_of(alloc: Global, item: Shape) -> Result<Shape, NoMemory>
    ensures { IfOk result (λ r. annotation r ≡ a.ListOf (annotation item)) }
{
    Ok(Shape::List(boxed(alloc, item)?))
}

/// `-a`, `+a`, `!a` or `~a`, by the number of the operator.
pub fn unary(alloc: Global, at: u32, op: u8, a: Expr) -> Result<Expr, NoMemory>
    ensures { IfOk result (λ e. tree e ≡ t.Unary at op (tree a)) }
{
    Ok(Expr {
        at,
        node: Node::Unary(op, boxed(alloc, a)?),
    })
}

/// An operator between two operands, by its number.
pub fn binary(alloc: Global, at: u32, op: u8, a: Expr, b: Expr) -> Result<Expr, NoMemory>
    ensures { IfOk result (λ e. tree e ≡ t.Binary at op (tree a) (tree b)) }
{
    let (a, b) = boxed_both(alloc, a, b)?;
    Ok(Expr {
        at,
        node: Node::Binary(op, a, b),
    })
}

/// `a && b`
pub fn both(alloc: Global, at: u32, a: Expr, b: Expr) -> Result<Expr, NoMemory>
    ensures { IfOk result (λ e. tree e ≡ t.Both at (tree a) (tree b)) }
{
    let (a, b) = boxed_both(alloc, a, b)?;
    Ok(Expr {
        at,
        node: Node::Both(a, b),
    })
}

/// `a || b`
pub fn either(alloc: Global, at: u32, a: Expr, b: Expr) -> Result<Expr, NoMemory>
    ensures { IfOk result (λ e. tree e ≡ t.Either at (tree a) (tree b)) }
{
    let (a, b) = boxed_both(alloc, a, b)?;
    Ok(Expr {
        at,
        node: Node::Either(a, b),
    })
}

/// `test ? a : b`
pub fn choice(alloc: Global, at: u32, test: Expr, a: Expr, b: Expr) -> Result<Expr, NoMemory>
    ensures { IfOk result (λ e. tree e ≡ t.Choice at (tree test) (tree a) (tree b)) }
{
    let (a, b, test) = boxed_both_beside(alloc, a, b, test)?;
    Ok(Expr {
        at,
        node: Node::Choice(boxed(alloc, test)?, a, b),
    })
}

/// `target = a`, or with the number of an operator `target += a` and its like.
pub fn set(alloc: Global, at: u32, op: Option<u8>, target: Expr, a: Expr) -> Result<Expr, NoMemory>
    ensures { IfOk result (λ e. tree e ≡ t.Set at op (tree target) (tree a)) }
{
    let (target, a) = boxed_both(alloc, target, a)?;
    Ok(Expr {
        at,
        node: Node::Set(op, target, a),
    })
}

/// `++` or `--`: what it adds to the target, and whether it stands behind it.
pub fn bump(alloc: Global, at: u32, target: Expr, by: i32, late: bool) -> Result<Expr, NoMemory>
    ensures { IfOk result (λ e. tree e ≡ t.Bump at (tree target) by late) }
{
    Ok(Expr {
        at,
        node: Node::Bump {
            target: boxed(alloc, target)?,
            by,
            late,
        },
    })
}

/// `a.name`
pub fn member(alloc: Global, at: u32, a: Expr, name: u32) -> Result<Expr, NoMemory>
    ensures { IfOk result (λ e. tree e ≡ t.Member at (tree a) name) }
{
    Ok(Expr {
        at,
        node: Node::Member(boxed(alloc, a)?, name),
    })
}

/// `a[index]`
pub fn item(alloc: Global, at: u32, a: Expr, index: Expr) -> Result<Expr, NoMemory>
    ensures { IfOk result (λ e. tree e ≡ t.Item at (tree a) (tree index)) }
{
    let (a, index) = boxed_both(alloc, a, index)?;
    Ok(Expr {
        at,
        node: Node::Item(a, index),
    })
}

/// `callee(args)`
pub fn call(alloc: Global, at: u32, callee: Expr, args: Seq<Expr>) -> Result<Expr, NoMemory>
    ensures { IfOk result (λ e. tree e ≡ t.Call at (tree callee) (trees args)) }
{
    let (callee, args) = boxed_beside(alloc, callee, args)?;
    Ok(Expr {
        at,
        node: Node::Call(callee, args),
    })
}

/// `super(args)`, or with the name of a method `super.method(args)`.
pub fn super_call(at: u32, method: Option<u32>, args: Seq<Expr>) -> Expr
    ensures { tree result ≡ t.SuperCall at method (trees args) }
{
    Expr {
        at,
        node: Node::SuperCall(method, args),
    }
}

/// `new class(args)`
pub fn make(at: u32, class: u32, args: Seq<Expr>) -> Expr
    ensures { tree result ≡ t.Make at class (trees args) }
{
    Expr {
        at,
        node: Node::Make(class, args),
    }
}

/// `[a, b]`
pub fn items(at: u32, all: Seq<Expr>) -> Expr
    ensures { tree result ≡ t.Items at (trees all) }
{
    Expr {
        at,
        node: Node::Items(all),
    }
}

/// What a routine does: its parameters, the type of its result where one is written, its statements, and whether it is an arrow.
pub fn body(
    at: u32,
    params: Seq<Param>,
    gives: Option<Shape>,
    stmts: Seq<Stmt>,
    arrow: bool,
) -> Body
    ensures { routine result ≡ t.Does at (parameters params) (optional_annotation gives) (statements stmts) arrow }
{
    Body {
        at,
        params,
        gives,
        stmts,
        arrow,
    }
}

/// A declared name, with its type and its first value where they are written.
pub fn binding(at: u32, name: u32, shape: Option<Shape>, first: Option<Expr>) -> Binding
    ensures { declaration result ≡ t.Declare at name (optional_annotation shape) (optional_expression first) }
{
    Binding {
        at,
        name,
        shape,
        first,
    }
}

/// A function expression or an arrow.
pub fn handler(alloc: Global, at: u32, body: Body) -> Result<Expr, NoMemory>
    ensures { IfOk result (λ e. tree e ≡ t.Handler at (routine body)) }
{
    Ok(Expr {
        at,
        node: Node::Handler(boxed(alloc, body)?),
    })
}

/// `{ a b }`
pub fn block(at: u32, all: Seq<Stmt>) -> Stmt
    ensures { statement result ≡ t.Block at (statements all) }
{
    Stmt {
        at,
        form: Form::Block(all),
    }
}

/// `let`, or `const` where the names are fixed.
pub fn declaring(at: u32, fixed: bool, each: Seq<Binding>) -> Stmt
    ensures { statement result ≡ t.Let at fixed (declarations each) }
{
    Stmt {
        at,
        form: Form::Let { fixed, each },
    }
}

/// `if (test) a`
pub fn if_only(alloc: Global, at: u32, test: Expr, a: Stmt) -> Result<Stmt, NoMemory>
    ensures { IfOk result (λ s. statement s ≡ t.IfOnly at (tree test) (statement a)) }
{
    let (a, test) = boxed_beside(alloc, a, test)?;
    Ok(Stmt {
        at,
        form: Form::If(test, a, None),
    })
}

/// `if (test) a else b`
pub fn if_else(alloc: Global, at: u32, test: Expr, a: Stmt, b: Stmt) -> Result<Stmt, NoMemory>
    ensures { IfOk result (λ s. statement s ≡ t.IfElse at (tree test) (statement a) (statement b)) }
{
    let (a, b, test) = boxed_both_beside(alloc, a, b, test)?;
    Ok(Stmt {
        at,
        form: Form::If(test, a, Some(b)),
    })
}

/// `while (test) a`
pub fn while_loop(alloc: Global, at: u32, test: Expr, a: Stmt) -> Result<Stmt, NoMemory>
    ensures { IfOk result (λ s. statement s ≡ t.While at (tree test) (statement a)) }
{
    let (a, test) = boxed_beside(alloc, a, test)?;
    Ok(Stmt {
        at,
        form: Form::While(test, a),
    })
}

/// `do a while (test)`
pub fn do_while(alloc: Global, at: u32, a: Stmt, test: Expr) -> Result<Stmt, NoMemory>
    ensures { IfOk result (λ s. statement s ≡ t.DoWhile at (statement a) (tree test)) }
{
    let (a, test) = boxed_beside(alloc, a, test)?;
    Ok(Stmt {
        at,
        form: Form::DoWhile(a, test),
    })
}

/// `for (first; test; step) a`, with what stands first.
fn for_first(
    alloc: Global,
    at: u32,
    first: Stmt,
    test: Option<Expr>,
    step: Option<Expr>,
    a: Stmt,
) -> Result<Stmt, NoMemory>
    ensures { IfOk result (λ s. statement s
        ≡ t.For at (t.written (statement first)) (optional_expression test) (optional_expression step) (statement a)) }
{
    let (first, a, (test, step)) = boxed_both_beside(alloc, first, a, (test, step))?;
    Ok(Stmt {
        at,
        form: Form::For(Some(first), test, step, a),
    })
}

/// `for (; test; step) a`
fn for_rest(
    alloc: Global,
    at: u32,
    test: Option<Expr>,
    step: Option<Expr>,
    a: Stmt,
) -> Result<Stmt, NoMemory>
    ensures { IfOk result
        (λ s. statement s ≡ t.For at t.omitted (optional_expression test) (optional_expression step) (statement a)) }
{
    let (a, (test, step)) = boxed_beside(alloc, a, (test, step))?;
    Ok(Stmt {
        at,
        form: Form::For(None, test, step, a),
    })
}

/// `for (first; test; step) a`
pub fn for_loop(
    alloc: Global,
    at: u32,
    first: Option<Stmt>,
    test: Option<Expr>,
    step: Option<Expr>,
    a: Stmt,
) -> Result<Stmt, NoMemory>
    ensures { IfOk result (λ s. statement s
        ≡ t.For at (optional_written first) (optional_expression test) (optional_expression step) (statement a)) }
{
    match first {
        Some(first) => for_first(alloc, at, first, test, step, a),
        None => for_rest(alloc, at, test, step, a),
    }
}

/// `for (let name of list) a`, with `const` where the name is fixed.
pub fn for_of(
    alloc: Global,
    at: u32,
    fixed: bool,
    name: u32,
    list: Expr,
    a: Stmt,
) -> Result<Stmt, NoMemory>
    ensures { IfOk result (λ s. statement s ≡ t.ForOf at fixed name (tree list) (statement a)) }
{
    let (body, list) = boxed_beside(alloc, a, list)?;
    Ok(Stmt {
        at,
        form: Form::ForOf {
            fixed,
            name,
            list,
            body,
        },
    })
}

/// `return`, with a value where one is written.
pub fn returning(at: u32, value: Option<Expr>) -> Stmt
    ensures { statement result ≡ t.Return at (optional_expression value) }
{
    Stmt {
        at,
        form: Form::Return(value),
    }
}

/// An expression as a statement.
pub fn plain(at: u32, a: Expr) -> Stmt
    ensures { statement result ≡ t.Plain at (tree a) }
{
    Stmt {
        at,
        form: Form::Plain(a),
    }
}
