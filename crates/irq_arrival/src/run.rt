//! A mounted board's run with arrivals.
ghost use Rattle.std.specs.Prelude.{◌≡◌, ◌+◌, ◌-◌, ◌<◌, ◌≤◌, ◌⊎◌, ◌^◌, ℕ, List, None, IfOk, IfErr, IfNone, drop};
ghost use Rattle.board_world.specs.Runs.{Arrival as WorldArrival};
ghost use Rattle.event_script.specs.declared.script.Script.{Script as EventScript};
ghost use Rattle.arrival_file.specs.World.{world_arrivals};
ghost use Rattle.arrival_file.specs.Sound.{IsSound};
ghost use Rattle.board_run.specs.Advancing.{IsWhole, IsSettled};
ghost use Rattle.board_run.specs.Outside.{over_sink};
ghost use Rattle.board_run.specs.Ran.{Parted, IsMounted};
ghost use Rattle.irq_arrival.specs.Along.{NoneBefore};
ghost use Rattle.irq_arrival.specs.Underway.{Stands};
ghost use Rattle.irq_arrival.specs.RanWith.{RanWith};

use arrival_file::Arrival;
use board_outside::then_put_budget;
use board_ports::Device;
use board_run::{Board, End};
use sts_base::Seq;
use tool_io::{PutFailed, Sink};

/// Runs on from so many executed instructions to so many. None exactly where these were executed and the run isn't over.
fn run_up_to<D: Device, K: Sink>(
    board: &mut Board<D>,
    done: u32,
    to: u32,
    out: &mut K,
) -> Option<End>
    requires whole { IsWhole board.old.engine board.old.instructions }
    requires settled { done ≡ to → IsSettled board.old.engine }
    requires going { board.old.engine.end ≡ None }
    requires early { board.old.instructions < 2 ^ 49 }
    requires onward { done ≤ to }
    ensures parted { Parted D.account (to - done) (over_sink K.taken K.faults board.old out.old)
        (over_sink K.taken K.faults board.new out.new) result }
    ensures whole { IfNone result (IsWhole board.new.engine board.new.instructions) }
    ensures settled { IfNone result (IsSettled board.new.engine) }
    ensures later { K.faults out.old ≤ K.faults out.new }
{
    if to > done {
        board.part(to - done, out)
    } else {
        None
    }
}

/// Runs on to each arrival whose number the budget reaches, and applies it there. It answers how many instructions were executed then, or how the
/// run ended before.
fn serve_arrivals<D: Device, K: Sink>(
    board: &mut Board<D>,
    arrivals: &[Arrival],
    budget: u32,
    out: &mut K,
) -> Result<u32, End>
    requires fresh { (image : List ℕ) × (script : EventScript) × IsMounted image script board.old.engine }
    requires counted { board.old.instructions ≡ 0 }
    requires sound { IsSound arrivals.now }
    requires most { budget ≤ 2147483648 }
    ensures served { IfOk result (λ done. (left : List WorldArrival) × NoneBefore (budget + 1) left
        × Stands D.account (world_arrivals arrivals.now) budget (over_sink K.taken K.faults board.old out.old)
        (over_sink K.taken K.faults board.new out.new) left done) }
    ensures ended { IfErr result (RanWith D.account (world_arrivals arrivals.now) budget
        (over_sink K.taken K.faults board.old out.old) (over_sink K.taken K.faults board.new out.new)) }
    ensures later { K.faults out.old ≤ K.faults out.new }
{
    let mut done = 0;
    for arrival in arrivals {
        if arrival.after > budget {
            return Ok(done);
        }
        match run_up_to(board, done, arrival.after, out) {
            Some(end) => return Err(end),
            None => {
                done = arrival.after;
                board.arrive(arrival.act);
            }
        }
    }
    Ok(done)
}

/// Runs the board with arrivals for at most `budget` instructions, and writes the transcript of the run up to its closing line. The board is as
/// `mount` gave it, and the arrivals are as `read_arrivals` gives them: each comes behind the instruction of its number and the idle moves that
/// follow it. One that the run doesn't reach, since it has ended or the budget ends first, is never applied.
///
/// The answer is how the run ended; `Budget` exactly where it hasn't ended within the budget. `SinkFault` comes only where the sink's count of faults
/// rose in this call: then a part of the transcript was written, and the devices are as the run had left them before the line that was cut. No
/// memory is taken.
pub fn run_arrivals<D: Device, K: Sink>(
    board: &mut Board<D>,
    arrivals: &Seq<Arrival>,
    budget: u32,
    out: &mut K,
) -> End
    requires fresh { (image : List ℕ) × (script : EventScript) × IsMounted image script board.old.engine }
    requires counted { board.old.instructions ≡ 0 }
    requires sound { IsSound arrivals.now }
    requires least { 1 ≤ budget }
    requires most { budget ≤ 2147483648 }
    ensures ran { RanWith D.account (world_arrivals arrivals.now) budget (over_sink K.taken K.faults board.old out.old)
        (over_sink K.taken K.faults board.new out.new) result }
    ensures later { K.faults out.old ≤ K.faults out.new }
{
    match serve_arrivals(board, arrivals.as_slice(), budget, out) {
        Err(end) => end,
        Ok(done) => match run_up_to(board, done, budget, out) {
            Some(end) => end,
            None => {
                let now = board.clock();
                match then_put_budget(Ok(()), out, now) {
                    Ok(()) => End::Budget,
                    Err(PutFailed) => End::SinkFault,
                }
            }
        },
    }
}
