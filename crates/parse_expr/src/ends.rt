// How tightly a token binds to the expression before it, and where a statement may end.
ghost use Rattle.std.specs.Prelude.{◌≡◌, ◌≤◌, ◌<◌, Some, None, IfSome, false};
ghost use Rattle.sts_grammar.specs.Ends as spec;
ghost use Rattle.sts_grammar.specs.ReadExpressions.{binds_before};
ghost use Rattle.sts_grammar.specs.ReadStatements.{read_end, skip_semicolon};
ghost use Rattle.parse_expr.specs.Gives.{source, Gives};

use crate::operators::{
    ASSIGNMENT_LEVEL, BOTH_LEVEL, EITHER_LEVEL, POSTFIX_LEVEL, PRIMARY_LEVEL, assignment, bump_by,
    infix_level, infix_number,
};
use crate::reader::{Reader, Unread};
use sts_lexer::{Mark, TokenKind};

/// Whether a token is `++` or `--`.
fn is_bump(kind: TokenKind) -> bool
    ensures { result ≡ spec.is_bump kind }
{
    match kind {
        TokenKind::Mark(mark) => bump_by(mark).is_some(),
        _ => false,
    }
}

/// How tightly an operator between two operands binds, and an assignment; 0 for what is neither.
fn operator_binds(number: Option<u8>, assigned: Option<Option<u8>>) -> u8
    ensures { result ≡ spec.operator_binds number assigned }
{
    match (number, assigned) {
        (Some(op), _) => infix_level(op),
        (None, Some(_)) => ASSIGNMENT_LEVEL,
        (None, None) => 0,
    }
}

/// How tightly a mark binds to the expression before it, 0 where it doesn't go on with one.
fn mark_binds(before: TokenKind, new_line: bool, mark: Mark) -> u8
    ensures { result ≡ spec.mark_binds before new_line mark }
{
    match mark {
        Mark::Question => ASSIGNMENT_LEVEL,
        Mark::BarBar => EITHER_LEVEL,
        Mark::AmpersandAmpersand => BOTH_LEVEL,
        Mark::PlusPlus | Mark::MinusMinus => { if new_line { 0 } else { POSTFIX_LEVEL } }
        Mark::Dot | Mark::OpenBracket | Mark::OpenParenthesis => {
            if is_bump(before) { 0 } else { PRIMARY_LEVEL }
        }
        _ => operator_binds(infix_number(mark), assignment(mark)),
    }
}

/// A statement may end before such a token without a `;`.
fn may_end(kind: TokenKind, new_line: bool) -> bool
    ensures { result ≡ spec.may_end kind new_line false }
{
    match kind {
        TokenKind::Mark(Mark::Semicolon) => false,
        TokenKind::Mark(Mark::CloseBrace) => true,
        TokenKind::Finish => true,
        _ => new_line,
    }
}

impl<'a> Reader<'a> {
    /// How tightly a token binds to the expression that ends before it, 0 from the bound on.
    pub fn binds(&self, at: usize) -> u8
        ensures { result ≡ binds_before (source self.now) self.now.upto at }
    {
        if at >= self.upto {
            return 0;
        }
        match self.kind(at) {
            TokenKind::Mark(mark) => {
                mark_binds(self.kind(at.saturating_sub(1)), self.is_broken(at), mark)
            }
            _ => 0,
        }
    }

    /// The token behind the end of a statement that is whole there.
    #[tactic(auto, unfolding(sts_grammar::specs::ReadStatements::read_end))]
    pub fn end_of(&self, at: usize) -> Option<usize>
        ensures { result ≡ read_end (source self.now) at }
    {
        if self.is_mark(at, Mark::Semicolon) {
            return Some(at + 1);
        }
        if may_end(self.kind(at), self.is_broken(at)) {
            return Some(at);
        }
        None
    }

    /// The same, where a statement has to end.
    pub fn ended(&self, at: usize) -> Result<usize, Unread>
        ensures { Gives (λ j. j) result (read_end (source self.now) at) }
    {
        match self.end_of(at) {
            Some(end) => Ok(end),
            None => Err(Unread::Syntax(at)),
        }
    }

    /// The token behind a `;`, where one stands.
    pub fn behind_semicolon(&self, at: usize) -> usize
        ensures { result ≡ skip_semicolon (source self.now) at }
    {
        if self.is_mark(at, Mark::Semicolon) {
            at + 1
        } else {
            at
        }
    }
}
