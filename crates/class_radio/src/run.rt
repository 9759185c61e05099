//! The run of a class of boards over a sink.
ghost use Rattle.std.specs.Prelude.{◌≡◌, ◌≤◌, ◌<◌, List, All, IfOk, OnErr, length, vec_len};
ghost use Rattle.thumb_code.specs.Map.{flash_end};
ghost use Rattle.event_script.specs.Sound.{IsSound};
ghost use Rattle.event_script.specs.declared.script.Script.{Script as EventScript};
ghost use Rattle.board_world.specs.Observations.{Observation};
ghost use Rattle.class_radio.specs.Outcome.{setups_of, RanClass};
ghost use Rattle.class_radio.specs.Closing.{AreLed};
ghost use Rattle.class_radio.specs.Stopping.{ClosesAll};

use crate::closing::{how_many, put_ends};
use crate::losses::Losses;
use crate::mounting::mount_all;
use crate::player::{Player, Standing};
use crate::stepping::step_all;
use class_file::Loss;
use event_script::Script;
use std::alloc::Global;
use sts_base::{NoMemory, Seq};
use tool_io::{PutFailed, Sink};

/// How a class's run over a sink ended.
#[derive(Clone, Copy, Debug, PartialEq, Eq, Drop)]
pub enum ClassEnd {
    /// Each board's run ended: so many by a panic, so many by a fault, and the others by the clock.
    Done { panics: u32, faults: u32 },
    /// The board of this number had executed its budget, and somebody would go on there.
    Budget(u32),
    /// The sink failed.
    SinkFault,
}

/// Puts the closing lines of boards that have come behind the class's end.
fn close_all<K: Sink>(players: &[Player], end: u32, out: &mut K) -> ClassEnd
    requires few { length players.now < 4294967296 }
    requires led { AreLed 0 players.now }
    ensures closes { (seen : List (List Observation)) → ClosesAll seen end players.now (K.taken out.old)
        (K.taken out.new) (K.faults out.old) (K.faults out.new) result }
    ensures later { K.faults out.old ≤ K.faults out.new }
{
    match put_ends(players, end, out) {
        Err(PutFailed) => ClassEnd::SinkFault,
        Ok(()) => ClassEnd::Done {
            panics: how_many(players, Standing::Panicked),
            faults: how_many(players, Standing::Faulted),
        },
    }
}

/// Runs a class of boards over a sink: to each board its image, its script and the budget, numbered from 0 in their order. Each board's lines stand behind its number, moment by moment,
/// and closing lines come last for the boards that didn't stop before. All memory is taken before the first line; want of it is the only refusal, and then nothing was written.
///
/// `Done` comes exactly where each board's run ended within the budget, with the numbers of those that ended by a panic and by a fault; `Budget` where a board had executed its budget and
/// somebody would go on there; `SinkFault` only where the sink's count of faults rose in this call: a part was taken of what the class writes within the budget.
pub fn run_class<K: Sink>(
    alloc: Global,
    images: Vec<Vec<u8>>,
    scripts: Vec<Script>,
    lose: Seq<Loss>,
    end: u32,
    budget: u32,
    out: &mut K,
) -> Result<ClassEnd, NoMemory>
    requires some { 1 ≤ vec_len images }
    requires few { vec_len images ≤ 8 }
    requires each { All (λ image. vec_len image ≤ flash_end) images.items }
    requires scripts { vec_len scripts ≡ vec_len images }
    requires sound { All IsSound scripts.items }
    requires ends { All (λ (s : EventScript). s.end ≡ end) scripts.items }
    requires least { 1 ≤ budget }
    requires most { budget ≤ 2147483648 }
    ensures ran { IfOk result (RanClass (setups_of images.items scripts.items) lose end budget (K.taken out.old)
        (K.taken out.new) (K.faults out.old) (K.faults out.new)) }
    ensures nothing { OnErr result (K.taken out.new ≡ K.taken out.old) }
    ensures later { K.faults out.old ≤ K.faults out.new }
{
    let losses = Losses::new(alloc, lose)?;
    let mut players = mount_all(alloc, images, scripts, budget)?;
    match step_all(&mut players, &losses, end, out) {
        Err(ended) => Ok(ended),
        Ok(()) => Ok(close_all(players.as_slice(), end, out)),
    }
}
