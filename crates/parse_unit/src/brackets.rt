// Brackets that are open.
ghost use Rattle.std.specs.Prelude.{◌≡◌, ◌≤◌, ◌<◌, IfSome, IfNone, length};
ghost use Rattle.sts_grammar.specs.Limits.{most_open};
ghost use Rattle.sts_grammar.specs.Brackets.{open_behind};
ghost use Rattle.sts_grammar.specs.Deep.{NoneDeep, IsFirstDeep};

use sts_base::Seq;
use sts_lexer::{Mark, Token, TokenKind};

/// The most brackets that may be open at a token.
const MOST_OPEN: usize = 64;

/// How many brackets are open behind a token, where so many were open before it. A closing one closes the latest that is
/// open, of whatever kind.
fn open_behind(count: usize, kind: TokenKind) -> usize
    requires { count ≤ most_open }
    ensures { result ≡ open_behind count kind }
{
    match kind {
        TokenKind::Mark(Mark::OpenParenthesis) => count + 1,
        TokenKind::Mark(Mark::OpenBracket) => count + 1,
        TokenKind::Mark(Mark::OpenBrace) => count + 1,
        TokenKind::Mark(Mark::CloseParenthesis) => count.saturating_sub(1),
        TokenKind::Mark(Mark::CloseBracket) => count.saturating_sub(1),
        TokenKind::Mark(Mark::CloseBrace) => count.saturating_sub(1),
        _ => count,
    }
}

/// The place in the text of the first token at which more than `MOST_OPEN` brackets are open, if there is one.
pub fn first_deep(tokens: &Seq<Token>) -> Option<u32>
    ensures some { IfSome result (λ place. IsFirstDeep tokens.now place) }
    ensures none { IfNone result (NoneDeep tokens.now) }
{
    let mut count = 0;
    for token in tokens.as_slice() {
        count = open_behind(count, token.kind);
        if count > MOST_OPEN {
            return Some(token.span.from);
        }
    }
    None
}
