// The words, read.
ghost use Rattle.std.specs.Prelude.{◌≡◌, IfOk, IfErr, IfSome, IsOk, None, true, map, string_bytes};
ghost use Rattle.std.specs.Option.{option_map};
ghost use Rattle.clap.specs.Words.{HasMatchesOf, takes, kind_of};
ghost use Rattle.sts_words.specs.Orders.{order_view, IsInRange};
ghost use Rattle.sts_words.specs.Words.{IsAskedBy};
ghost use Rattle.command_line.specs.Tool.{tool_app};

use crate::matches::order_in;
use crate::tool::tool;
use clap::error::ErrorKind;
use clap::{ArgMatches, Error};
use std::alloc::Global;
use sts_base::NoMemory;
use sts_words::{Order, read_words};

/// The matches of the words. Where `clap` takes these words only memory can be wanting.
fn matches_of<'a>(alloc: Global, words: &'a [String]) -> Result<ArgMatches<'a>, Error>
    ensures matches { IfOk result (HasMatchesOf tool_app (map string_bytes words.entry.now)) }
    ensures memory { IfErr result
        (λ e. takes tool_app (map string_bytes words.entry.now) ≡ true → kind_of e ≡ ErrorKind.OutOfMemory) }
{
    let command = tool(alloc)?;
    command.try_get_matches_from(words)
}

/// The want of memory that an error tells.
fn no_memory(error: Error) -> NoMemory
    requires { kind_of error ≡ ErrorKind.OutOfMemory }
{
    let _ = error;
    NoMemory
}

/// What the words ask for, those behind the program's name, if they are taken. They are tested by hand; those that are taken are read by
/// `clap`, and ask for the same. `NoMemory` comes only for words that are taken.
pub fn read_command_line<'a>(
    alloc: Global,
    words: &'a [String],
) -> Result<Option<Order<'a>>, NoMemory>
    ensures order { IfOk result (λ order. IsAskedBy (map string_bytes words.entry.now) (option_map order_view order)) }
    ensures range { IfOk result (λ order. IfSome order IsInRange) }
    ensures refused { IsAskedBy (map string_bytes words.entry.now) None → IsOk result }
{
    if read_words(words).is_none() {
        return Ok(None);
    }
    match matches_of(alloc, words) {
        Ok(matches) => Ok(order_in(&matches)),
        Err(error) => Err(no_memory(error)),
    }
}
