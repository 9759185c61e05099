// What is left to lower in a function, piece by piece.
ghost use Rattle.std.specs.Prelude.{◌≡◌, ◌∷◌, [], OnOk, MatchOption};

use flat_ir::Op;
use std::alloc::Global;
use std::marker::Model;
use sts_base::NoMemory;
use sts_syntax::{ServicePlace, TypedBinding, TypedExpr, TypedStmt};

/// Where the ops of an expression stand.
#[derive(Clone, Copy)]
pub(crate) struct Site {
    /// how many operands are pending before its value
    pub(crate) d: u32,
    /// the place of the first
    pub(crate) at: u32,
    /// where it goes on behind them
    pub(crate) next: u32,
}

impl Site {
    /// The same with another first place.
    pub(crate) fn beginning(self, at: u32) -> Site
        ensures { result ≡ record self { at = at } }
    {
        Site { at, ..self }
    }
}

/// Where the ops of a statement stand.
#[derive(Clone, Copy)]
pub(crate) struct Course {
    /// the place of the first
    pub(crate) at: u32,
    /// where it goes on behind them
    pub(crate) next: u32,
    /// where it goes on behind `break`
    pub(crate) out: u32,
    /// where it goes on behind `continue`
    pub(crate) again: u32,
}

impl Course {
    /// The same with another first place.
    pub(crate) fn beginning(self, at: u32) -> Course
        ensures { result ≡ record self { at = at } }
    {
        Course { at, ..self }
    }

    /// The same where it goes on at another place.
    pub(crate) fn ending(self, next: u32) -> Course
        ensures { result ≡ record self { next = next } }
    {
        Course { next, ..self }
    }
}

/// A piece of work. `at` is the place of its first op, and `d` is how many operands are pending.
#[derive(Drop)]
pub(crate) enum Work<'a> {
    /// an op
    Put(Op),
    /// an expression, whose value becomes the next operand
    Value(&'a TypedExpr, Site),
    /// what is evaluated of a target before anything is read from it or stored in it
    Reach {
        target: &'a TypedExpr,
        d: u32,
        at: u32,
    },
    /// arguments of a call, with what stands at their places
    Arguments {
        places: &'static [ServicePlace],
        args: &'a [TypedExpr],
        d: u32,
        at: u32,
    },
    /// items that go into the array that is the latest operand
    Elements {
        items: &'a [TypedExpr],
        d: u32,
        at: u32,
    },
    /// a statement
    Expand(&'a TypedStmt, Course),
    /// some statements
    ExpandAll(&'a [TypedStmt], Course),
    /// declared names
    ExpandDeclarations {
        each: &'a [TypedBinding],
        at: u32,
    },
}

/// Pieces of work, the next one on top. Contracts see them as a list that begins with the next one.
#[derive(Drop)]
pub(crate) struct Stack<'a> {
    items: Vec<Work<'a>>,
}

impl<'a> Model for Stack<'a> {
    ghost use Rattle.std.specs.Prelude.{List, reverse};
    ghost use Rattle.sts_lower.specs.declared.work.Work.{Work as Piece};
    ghost use Rattle.sts_syntax.specs.contracts.types.Ty as ty;
    ghost use Rattle.sts_syntax.specs.contracts.typed.TypedExpr as expr;
    ghost use Rattle.sts_syntax.specs.contracts.typed.TypedNode as node;
    ghost use Rattle.sts_syntax.specs.contracts.typed.TypedStmt as stmt;
    ghost use Rattle.sts_lower.specs.contracts.work.Course as course;
    ghost use Rattle.sts_lower.specs.contracts.work.Site as site;
    ghost use Rattle.std.specs.Coded.{codes};

    ghost Value = { List Piece };

    ghost coded = { Prim.hlevel (codes, ty.the_row.coded, expr.the_row.coded, node.the_row.coded, stmt.the_row.coded, site.the_row.coded, course.the_row.coded) };

    ghost view = { λ stack. reverse stack.items.items };
}

impl<'a> Stack<'a> {
    pub(crate) fn new(alloc: Global) -> Stack<'a>
        ensures { result ≡ [] }
    {
        Stack {
            items: Vec::new(alloc),
        }
    }

    /// Puts a piece on top. After `NoMemory` the stack is unchanged and the piece is dropped.
    pub(crate) fn push(&mut self, work: Work<'a>) -> Result<(), NoMemory>
        ensures { OnOk result (self.new ≡ work.entry ∷ self.old) }
    {
        match self.items.push(work) {
            Ok(()) => Ok(()),
            Err(_) => Err(NoMemory),
        }
    }

    /// Takes the piece on top.
    pub(crate) fn pop(&mut self) -> Option<Work<'a>>
        ensures { MatchOption result (self.old ≡ []) (λ work. self.old ≡ work ∷ self.new) }
    {
        self.items.pop()
    }
}
