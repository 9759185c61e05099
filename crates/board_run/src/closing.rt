// The closing line, and what is answered about a run's end.
ghost use Rattle.std.specs.Prelude.{◌≡◌, ℕ, List};
ghost use Rattle.std.specs.Option.{option_map};
ghost use Rattle.tool_io.specs.Putting.{PutsTo};
ghost use Rattle.board_world.specs.Transcript.{closing_line};
ghost use Rattle.board_run.specs.Represents.{end_of};
ghost use Rattle.board_run.specs.Ran.{told};

use crate::end::{End, Stop};
use board_outside::{
    then_put_budget, then_put_fault, then_put_panic, then_put_quiet, then_put_script,
};
use tool_io::{PutFailed, Sink};

/// Puts the closing line of a run that ended so at a moment, or whose budget ended first.
pub fn put_closing<K: Sink>(out: &mut K, now: u32, end: Option<Stop>) -> Result<(), PutFailed>
    ensures { PutsTo K.taken K.faults out.old out.new (closing_line now (option_map end_of end)) result }
{
    match end {
        None => then_put_budget(Ok(()), out, now),
        Some(Stop::Quiet) => then_put_quiet(Ok(()), out, now),
        Some(Stop::Script) => then_put_script(Ok(()), out, now),
        Some(Stop::Panic(code)) => then_put_panic(Ok(()), out, now, code),
        Some(Stop::Fault(fault, address)) => then_put_fault(Ok(()), out, now, fault, address),
    }
}

/// The answer that tells this end, or that the budget ended first.
pub fn told(end: Option<Stop>) -> End
    ensures { result ≡ told end }
{
    match end {
        None => End::Budget,
        Some(Stop::Quiet) => End::Quiet,
        Some(Stop::Script) => End::Script,
        Some(Stop::Panic(code)) => End::Panic(code),
        Some(Stop::Fault(fault, address)) => End::Fault(fault, address),
    }
}
