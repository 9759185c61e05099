// An image, run on a board.
ghost use Rattle.std.specs.Prelude.{◌≡◌, ◌≤◌, [], IfOk, OnErr, vec_len};
ghost use Rattle.thumb_code.specs.Map.{flash_end};
ghost use Rattle.tool_io.specs.Putting.{Took};
ghost use Rattle.event_script.specs.Sound.{IsSound};
ghost use Rattle.board_run.specs.Outside.{outside_of};
ghost use Rattle.sts_whole.specs.Runs.{RunsImage};

use board_ports::Device;
use board_run::{Board, End, NotMounted, Stats};
use event_script::Script;
use std::alloc::Global;
use std::mem::replace;
use sts_base::NoMemory;
use tool_io::Sink;

/// Runs an image on a board with this script and these devices, for at most `budget` instructions, and writes the transcript up to its closing
/// line. How the run ended, and what was counted.
///
/// `Budget` comes exactly where the run hasn't ended within the budget. `SinkFault` comes only where the sink's count of faults rose in this call;
/// a part of the transcript was taken then, and the devices are as the run had left them before the line that was cut. Whatever the end, no more
/// instructions were counted than the budget. After `NoMemory` nothing was written, and the devices are unchanged.
pub fn run_image<K: Sink, D: Device>(
    alloc: Global,
    image: Vec<u8>,
    script: Script,
    places: &mut Vec<Option<D>>,
    budget: u32,
    out: &mut K,
) -> Result<(End, Stats), NoMemory>
    requires size { vec_len image ≤ flash_end }
    requires script { IsSound script }
    requires least { 1 ≤ budget }
    requires most { budget ≤ 2147483648 }
    ensures ran { IfOk result (λ r. RunsImage D.account image.items script budget
        (outside_of K.taken K.faults out.old places.old.items)
        (outside_of K.taken K.faults out.new places.new.items) r.0 r.1) }
    ensures counted { IfOk result (λ r. r.1.instructions ≤ budget) }
    ensures nothing { OnErr result (Took (K.taken out.old) (K.taken out.new) []) }
    ensures unchanged { OnErr result (places.new.items ≡ places.old.items) }
    ensures later { K.faults out.old ≤ K.faults out.new }
{
    let given = replace(places, Vec::new(alloc));
    match Board::mount(alloc, image, script, given) {
        Ok(mut board) => {
            let end = board.run(budget, out);
            let stats = board.stats();
            *places = board.close();
            Ok((end, stats))
        }
        Err(NotMounted { places: back }) => {
            *places = back;
            Err(NoMemory)
        }
    }
}
