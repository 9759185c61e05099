// The rules take the readers of what a node holds as parameters, so that each is proved by itself.
ghost use Rattle.std.specs.Prelude.{◌≡◌, ◌<◌, ◌≤◌, ◌+◌, IfOk};
ghost use Rattle.sts_syntax.specs.Nesting.{nesting, statement_nesting};
ghost use Rattle.sts_syntax.specs.Views.{tree, statement};
ghost use Rattle.sts_grammar.specs.Reading as reading;
ghost use Rattle.parse_expr.specs.Gives.{source, Gives, read_of};
ghost use Rattle.parse_expr.specs.Nests.{Nests};

use crate::reader::{Read, Reader, Unread};
use sts_syntax::{Expr, Stmt};

/// What reads a node: the readers of the expressions and of the statements that it holds.
#[derive(Clone, Copy)]
pub struct Grammar<'a, E, S> {
    pub reader: Reader<'a>,
    /// the nesting that what a node holds may have
    pub room: usize,
    pub expr: E,
    pub stmt: S,
}

impl<
    'a,
    E: Fn(Reader<'a>, usize, u8, usize) -> Result<Read<Expr>, Unread>,
    S: Fn(Reader<'a>, usize, bool, bool, usize) -> Result<Read<Stmt>, Unread>,
> Grammar<'a, E, S> {
    /// An expression that holds at least so tightly together.
    pub fn expression(&self, level: u8, at: usize) -> Result<Read<Expr>, Unread>
        requires { Nests self.now E.pre E.post S.pre S.post }
        ensures reads { Gives (read_of tree) result
            (reading.expression (source self.now.reader) self.now.reader.upto self.now.room level at) }
        ensures nesting { IfOk result (λ r. r.nesting ≡ nesting (tree r.item)) }
        ensures fits { IfOk result (λ r. r.nesting ≤ self.now.room) }
    {
        (self.expr)(self.reader, self.room, level, at)
    }

    /// A statement.
    pub fn statement(
        &self,
        in_function: bool,
        in_loop: bool,
        at: usize,
    ) -> Result<Read<Stmt>, Unread>
        requires { Nests self.now E.pre E.post S.pre S.post }
        ensures reads { Gives (read_of statement) result
            (reading.statement (source self.now.reader) self.now.room in_function in_loop at) }
        ensures nesting { IfOk result (λ r. r.nesting ≡ statement_nesting (statement r.item)) }
        ensures fits { IfOk result (λ r. r.nesting ≤ self.now.room) }
    {
        (self.stmt)(self.reader, self.room, in_function, in_loop, at)
    }
}
