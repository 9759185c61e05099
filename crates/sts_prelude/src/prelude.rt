// The library, in the tables of a program.
ghost use Rattle.std.specs.Prelude.{◌≡◌, ◌+◌, ◌<◌, ◌≤◌, ◌^◌, length, IfOk};
ghost use Rattle.sts_base.specs.Distinct.{IsDistinct};
ghost use Rattle.sts_lexer.specs.Bytes.{most_bytes};
ghost use Rattle.sts_lexer.specs.Tables.{Extends};
ghost use Rattle.sts_prelude.specs.Spelled.{IsLibraryTree};
ghost use Rattle.sts_syntax.specs.Programs.{program};

use crate::functions::library_of;
use crate::text::LIBRARY;
use std::alloc::Global;
use sts_base::{NoMemory, Refused, Tables};
use sts_lexer::tokens;
use sts_syntax::Unit;

/// The tree of the library's text. The names and texts that the tables lack are taken up at their ends, in the order in which they first
/// appear, as `tokens` does. Refused for want of memory alone; the tables have their old entries then, and may have more behind them.
pub fn library(alloc: Global, tables: &mut Tables) -> Result<Unit, NoMemory>
    requires distinct_names { IsDistinct tables.old.names }
    requires distinct_texts { IsDistinct tables.old.texts }
    requires few_names { length tables.old.names < 2 ^ 31 }
    requires few_texts { length tables.old.texts < 2 ^ 31 }
    ensures library { IfOk result (λ unit. IsLibraryTree tables.old tables.new (program unit)) }
    ensures names_extended { Extends tables.old.names tables.new.names }
    ensures texts_extended { Extends tables.old.texts tables.new.texts }
    ensures names_distinct { IsDistinct tables.new.names }
    ensures texts_distinct { IsDistinct tables.new.texts }
    ensures names_added { length tables.new.names ≤ length tables.old.names + most_bytes }
    ensures texts_added { length tables.new.texts ≤ length tables.old.texts + most_bytes }
{
    match tokens(alloc, LIBRARY, tables) {
        Ok(all) => library_of(alloc, &all),
        Err(Refused::NoMemory) => Err(NoMemory),
        Err(Refused::Program { .. }) => unreachable!(),
    }
}
