// The readers of expressions and statements, which call each other.
ghost use Rattle.std.specs.Prelude.{◌≡◌, ◌≤◌, IfOk};
ghost use Rattle.sts_syntax.specs.Nesting.{nesting, statement_nesting};
ghost use Rattle.sts_syntax.specs.Views.{tree, statement};
ghost use Rattle.sts_grammar.specs.Reading as reading;
ghost use Rattle.parse_expr.specs.Gives.{source, Gives, read_of};

use crate::grammar::Grammar;
use crate::reader::{Read, Reader, Unread};
use sts_syntax::{Expr, Stmt};

/// An expression of at most this nesting that holds at least so tightly together.
#[cycle(grammar)]
pub fn expression<'a>(
    reader: Reader<'a>,
    room: usize,
    level: u8,
    at: usize,
) -> Result<Read<Expr>, Unread>
    ensures reads { Gives (read_of tree) result
        (reading.expression (source reader.entry) reader.entry.upto room level at) }
    ensures nesting { IfOk result (λ r. r.nesting ≡ nesting (tree r.item)) }
    ensures fits { IfOk result (λ r. r.nesting ≤ room) }
{
    if room == 0 {
        return Err(Unread::Syntax(at));
    }
    Grammar {
        reader,
        room: room - 1,
        expr: expression,
        stmt: statement,
    }
    .operand(level, at)
}

/// A statement of at most this nesting.
#[cycle(grammar)]
pub fn statement<'a>(
    reader: Reader<'a>,
    room: usize,
    in_function: bool,
    in_loop: bool,
    at: usize,
) -> Result<Read<Stmt>, Unread>
    ensures reads { Gives (read_of statement) result
        (reading.statement (source reader.entry) room in_function in_loop at) }
    ensures nesting { IfOk result (λ r. r.nesting ≡ statement_nesting (statement r.item)) }
    ensures fits { IfOk result (λ r. r.nesting ≤ room) }
{
    if room == 0 {
        return Err(Unread::Syntax(at));
    }
    Grammar {
        reader: reader.whole(),
        room: room - 1,
        expr: expression,
        stmt: statement,
    }
    .any_statement(in_function, in_loop, at)
}
