// The public calls.
ghost use Rattle.std.specs.Prelude.{◌≡◌, ◌<◌, ◌≤◌, ℕ, Some, length, IfOk, IfErr};
ghost use Rattle.sts_syntax.specs.Trees.{Tree};
ghost use Rattle.sts_syntax.specs.Nesting.{nesting, optional_nesting, deepest_statement};
ghost use Rattle.sts_syntax.specs.Views.{tree, statement, statements, optional_expression};
ghost use Rattle.sts_grammar.specs.Source as source;
ghost use Rattle.sts_grammar.specs.Texts as texts;
ghost use Rattle.sts_grammar.specs.Limits.{most_nesting};
ghost use Rattle.sts_grammar.specs.Spells.{IsExpression};
ghost use Rattle.sts_grammar.specs.Longest.{IsLongestExpression, NoExpression, IsLongestStatement, NoStatement};
ghost use Rattle.sts_grammar.specs.ReadExpressions.{read_block};
ghost use Rattle.sts_grammar.specs.ReadStatements.{read_initialiser};
ghost use Rattle.sts_grammar.specs.Reading as reading;
ghost use Rattle.parse_expr.specs.Answers.{RefusedFor, IsRefusal, UnreadFor};
ghost use Rattle.sts_grammar.specs.Precedence.{assignment_level};
ghost use Rattle.parse_expr.specs.Gives.{source, Gives, read_of};
ghost use Rattle.parse_expr.specs.Lasts.{may_be_last};

use crate::grammar::Grammar;
use crate::operators::ASSIGNMENT_LEVEL;
use crate::reader::{Read, Reader, Unread};
use crate::readers::{expression, statement};
use std::alloc::Global;
use sts_base::{Code, Refused, Seq, Tables};
use sts_lexer::{Mark, Token, TokenKind};
use sts_syntax::{Expr, Stmt};

/// The nesting that a tree, and a whole text, may have.
pub const MOST_NESTING: usize = 256;

/// The refusal where nothing was read: `Syntax` at the place of a token, or want of memory.
pub fn refusal(reader: Reader<'_>, unread: Unread) -> Refused
    ensures { IsRefusal (source reader.entry) unread result }
{
    match unread {
        Unread::NoMemory => Refused::NoMemory,
        Unread::Syntax(at) => {
            let last = reader.count().saturating_sub(1);
            Refused::Program {
                code: Code::Syntax,
                at: reader.place(at.min(last)),
            }
        }
    }
}

/// Whether an expression may have a token as its last.
fn may_be_last(kind: TokenKind) -> bool
    ensures { result ≡ may_be_last kind }
{
    match kind {
        TokenKind::Num(_) => true,
        TokenKind::Text(_) => true,
        TokenKind::Name(_) => true,
        TokenKind::Word(_, _) => true,
        TokenKind::Mark(Mark::CloseParenthesis) => true,
        TokenKind::Mark(Mark::CloseBracket) => true,
        TokenKind::Mark(Mark::CloseBrace) => true,
        TokenKind::Mark(Mark::PlusPlus) => true,
        TokenKind::Mark(Mark::MinusMinus) => true,
        _ => false,
    }
}

/// The expression that is read up to a bound, where one may end there.
#[tactic(auto, using(crate::proofs::Longest::none_by_last, crate::proofs::Longest::none_by_reading))]
fn bounded(
    alloc: Global,
    tokens: &Seq<Token>,
    tables: &Tables,
    upto: usize,
    from: usize,
) -> Result<Read<Expr>, Unread>
    requires { 0 < upto }
    ensures found { IfOk result (λ r. reading.expression
        (texts.source tokens.now tables.now) upto most_nesting assignment_level from ≡ Some (tree r.item, r.end)) }
    ensures none { IfErr result (UnreadFor ((e : Tree) → IsExpression (texts.source tokens.now tables.now) e from upto
        → nesting e ≤ most_nesting → ⊥)) }
{
    let reader = Reader {
        alloc,
        tokens,
        tables,
        upto,
    };
    if !may_be_last(reader.kind(upto - 1)) {
        return Err(Unread::Syntax(from));
    }
    expression(reader, MOST_NESTING, ASSIGNMENT_LEVEL, from)
}

/// The longest expression that begins at a token, and the number of the token behind it. `Syntax`, at the place of a token,
/// exactly where no expression of nesting at most 256 begins there. Its time grows with the square of the number of tokens
/// where the expression is followed by tokens that might belong to it.
#[tactic(auto, using(crate::proofs::Longest::one_less, crate::proofs::Longest::is_longest))]
pub fn parse_expr(
    alloc: Global,
    tokens: &Seq<Token>,
    tables: &Tables,
    from: usize,
) -> Result<(Expr, usize), Refused>
    requires { from < length tokens.now }
    ensures longest { IfOk result (λ r. IsLongestExpression (texts.source tokens.now tables.now) from (tree r.0) r.1) }
    ensures refused { IfErr result
        (RefusedFor (texts.source tokens.now tables.now) (NoExpression (texts.source tokens.now tables.now) from)) }
{
    let mut upto = tokens.len();
    while upto > from {
        match bounded(alloc, tokens, tables, upto, from) {
            Ok(e) => return Ok((e.item, e.end)),
            Err(Unread::NoMemory) => return Err(Refused::NoMemory),
            Err(Unread::Syntax(_)) => {}
        }
        upto -= 1;
    }
    let reader = Reader {
        alloc,
        tokens,
        tables,
        upto,
    };
    Err(refusal(reader, Unread::Syntax(from)))
}

/// The longest statement that begins at a token, and the number of the token behind it. `return` may stand in it where it is in
/// a function or handler, `break` and `continue` where it is in a loop. `Syntax`, at the place of a token, exactly where no
/// such statement of nesting at most 256 begins there.
#[tactic(auto, using(crate::proofs::Longest::is_longest_statement, sts_grammar::proofs::Laws::no_statement))]
pub fn parse_stmt(
    alloc: Global,
    tokens: &Seq<Token>,
    tables: &Tables,
    from: usize,
    in_function: bool,
    in_loop: bool,
) -> Result<(Stmt, usize), Refused>
    requires { from < length tokens.now }
    ensures longest { IfOk result
        (λ r. IsLongestStatement (texts.source tokens.now tables.now) in_function in_loop from (statement r.0) r.1) }
    ensures refused { IfErr result (RefusedFor (texts.source tokens.now tables.now)
        (NoStatement (texts.source tokens.now tables.now) in_function in_loop from)) }
{
    let reader = Reader {
        alloc,
        tokens,
        tables,
        upto: tokens.len(),
    };
    match statement(reader, MOST_NESTING, in_function, in_loop, from) {
        Ok(a) => Ok((a.item, a.end)),
        Err(unread) => Err(refusal(reader, unread)),
    }
}

/// `{`, statements of at most a nesting, and `}`.
pub fn block(
    reader: Reader<'_>,
    room: usize,
    in_function: bool,
    in_loop: bool,
    at: usize,
) -> Result<Read<Seq<Stmt>>, Unread>
    requires { room < usize.MAX }
    ensures reads { Gives (read_of statements) result
        (read_block (source reader.entry) (reading.statement (source reader.entry) room in_function in_loop) at) }
    ensures nesting { IfOk result (λ r. r.nesting ≡ deepest_statement (statements r.item)) }
    ensures fits { IfOk result (λ r. r.nesting ≤ room) }
{
    Grammar {
        reader: reader.whole(),
        room,
        expr: expression,
        stmt: statement,
    }
    .block(in_function, in_loop, at)
}

/// `=` and an initialiser of at most a nesting, which a name that isn't `const` may lack.
pub fn initialiser(
    reader: Reader<'_>,
    room: usize,
    fixed: bool,
    at: usize,
) -> Result<Read<Option<Expr>>, Unread>
    requires { room < usize.MAX }
    ensures reads { Gives (read_of optional_expression) result
        (read_initialiser (reading.expression (source reader.entry) (length reader.entry.tokens.now) room
        assignment_level) fixed (source.is_mark Mark.Assign (source.kind (source reader.entry) at)) at) }
    ensures nesting { IfOk result (λ r. r.nesting ≡ optional_nesting (optional_expression r.item)) }
    ensures fits { IfOk result (λ r. r.nesting ≤ room) }
{
    Grammar {
        reader: reader.whole(),
        room,
        expr: expression,
        stmt: statement,
    }
    .initialiser(fixed, at)
}
