//! Texts and their typed programs.
ghost use Rattle.std.specs.Prelude.{ℕ, List, ◌+◌, ◌<◌, ◌≤◌, length, IfOk, IfErr};
ghost use Rattle.sts_lexer.specs.Bytes.{most_bytes};
ghost use Rattle.sts_syntax.specs.Programs.{program};
ghost use Rattle.sts_syntax.specs.TypedViews.{typed_program};
ghost use Rattle.typed_program.specs.Accepting.{ReadsText, Accepts, RefusesText};
ghost use Rattle.typed_program.specs.Few.{HasFewParts};

use crate::accepted_programs::filled_programs_are_typed;
use crate::checking::check;
use parse_unit::parse;
use std::alloc::Global;
use sts_base::{NoMemory, Refused, Seq, Tables};
use sts_lexer::{Token, tokens};
use sts_prelude::library;
use sts_syntax::{Typed, Unit};

/// The typed program of tokens, behind the library.
fn accept_tokens(
    alloc: Global,
    library: &Unit,
    tokens: &Seq<Token>,
    tables: &Tables,
) -> Result<Typed, Refused>
    requires there { 0 < length tokens.now }
    requires few { length tokens.now ≤ most_bytes + 1 }
    requires library { HasFewParts (program library.now) }
    ensures accepted { IfOk result (λ typed. (text : List ℕ)
        → ReadsText text tables.now (program library.now) tokens.now → Accepts text tables.now (typed_program typed)) }
    ensures refused { IfErr result (λ why. (text : List ℕ) → ReadsText text tables.now (program library.now) tokens.now
        → RefusesText text why) }
{
    let text = parse(alloc, tokens, tables)?;
    filled_programs_are_typed();
    check(alloc, library, &text, tables)
}

/// The typed program of a text behind the library of the board's interface, and the tables in which its names and texts stand by their numbers, the library's first.
///
/// Refused by the first of the stages that fails: tokens, brackets, trees, names, types and limits, with that stage's code and place.
pub fn accept(alloc: Global, text: &[u8]) -> Result<(Typed, Tables), Refused>
    ensures accepted { IfOk result (λ both. Accepts text.now both.1 (typed_program both.0)) }
    ensures refused { IfErr result (RefusesText text.now) }
{
    let mut tables = Tables {
        names: Seq::new(alloc),
        texts: Seq::new(alloc),
    };
    let library = match library(alloc, &mut tables) {
        Ok(library) => library,
        Err(NoMemory) => return Err(Refused::NoMemory),
    };
    let tokens = tokens(alloc, text, &mut tables)?;
    match accept_tokens(alloc, &library, &tokens, &tables) {
        Ok(typed) => Ok((typed, tables)),
        Err(why) => Err(why),
    }
}
