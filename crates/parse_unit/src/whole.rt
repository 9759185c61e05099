// Whole texts.
ghost use Rattle.std.specs.Prelude.{◌≡◌, ◌<◌, length};
ghost use Rattle.sts_grammar.specs.Texts.{source, BeginsToken};
ghost use Rattle.parse_unit.specs.Answers.{Answers};

use crate::brackets::first_deep;
use crate::parts::read_parts;
use parse_expr::{MOST_NESTING, Reader, Unread};
use std::alloc::Global;
use sts_base::{Code, Refused, Seq, Tables};
use sts_lexer::Token;
use sts_syntax::Unit;

/// The nesting that the parts of a text may have: the text is a level of its own.
const PART_NESTING: usize = MOST_NESTING - 1;

/// The place of a token, or of the last one where there are not so many.
fn place_of(tokens: &Seq<Token>, at: usize) -> u32
    requires { 0 < length tokens.now }
    ensures { BeginsToken tokens.now result }
{
    let last = tokens.len() - 1;
    tokens.as_slice()[at.min(last)].span.from
}

/// The program that the tokens of a whole text spell, of which the last is Finish.
///
/// Refused with `TooDeep` exactly where more than 64 brackets are open at some token, at the first such token; else with
/// `Syntax` exactly where the tokens spell no program with a nesting of at most 256, at some token.
pub fn parse(alloc: Global, tokens: &Seq<Token>, tables: &Tables) -> Result<Unit, Refused>
    requires { 0 < length tokens.now }
    ensures { Answers (source tokens.now tables.now) result }
{
    if let Some(at) = first_deep(tokens) {
        return Err(Refused::Program {
            code: Code::TooDeep,
            at,
        });
    }
    let reader = Reader {
        alloc,
        tokens,
        tables,
        upto: tokens.len(),
    };
    match read_parts(reader, PART_NESTING) {
        Ok(items) => Ok(Unit { items }),
        Err(Unread::NoMemory) => Err(Refused::NoMemory),
        Err(Unread::Syntax(at)) => Err(Refused::Program {
            code: Code::Syntax,
            at: place_of(tokens, at),
        }),
    }
}
