//! An image, run on a board with arrivals.
ghost use Rattle.std.specs.Prelude.{◌≡◌, ◌≤◌, [], List, ℕ, IfOk, OnErr, vec_len};
ghost use Rattle.thumb_code.specs.Map.{flash_end};
ghost use Rattle.tool_io.specs.Putting.{Took};
ghost use Rattle.board_world.specs.Observations.{ByteList};
ghost use Rattle.sts_syntax.specs.TypedTrees.{TypedProgram};
ghost use Rattle.sts_implements.specs.Images.{ImageImplements};
ghost use Rattle.event_script.specs.Sound as script_sound;
ghost use Rattle.arrival_file.specs.World.{world_arrivals};
ghost use Rattle.arrival_file.specs.Sound.{IsSound};
ghost use Rattle.board_run.specs.Outside.{outside_of};
ghost use Rattle.irq_arrival.specs.ImageRuns.{RunsImageAt};
ghost use Rattle.irq_arrival.specs.SourceRuns.{RunsSourceAt};

use crate::run::run_arrivals;
use arrival_file::Arrival;
use board_ports::Device;
use board_run::{Board, End, NotMounted};
use event_script::Script;
use std::alloc::Global;
use std::mem::replace;
use sts_base::{NoMemory, Seq};
use tool_io::Sink;

/// Runs an image on a board with this script, these arrivals and these devices, for at most `budget` instructions, and writes the transcript up
/// to its closing line. How the run ended.
///
/// `Budget` comes exactly where the run hasn't ended within the budget. `SinkFault` comes only where the sink's count of faults rose in this call;
/// a part of the transcript was taken then, and the devices are as the run had left them before the line that was cut. After `NoMemory` nothing
/// was written, and the devices are unchanged. An image that implements a program is so its source's run, with the arrivals at counted steps of
/// the source's own.
pub fn run_image_at<K: Sink, D: Device>(
    alloc: Global,
    image: Vec<u8>,
    script: Script,
    arrivals: &Seq<Arrival>,
    places: &mut Vec<Option<D>>,
    budget: u32,
    out: &mut K,
) -> Result<End, NoMemory>
    requires size { vec_len image ≤ flash_end }
    requires script { script_sound.IsSound script }
    requires arrivals { IsSound arrivals.now }
    requires least { 1 ≤ budget }
    requires most { budget ≤ 2147483648 }
    ensures ran { IfOk result (λ end. RunsImageAt D.account image.items script (world_arrivals arrivals.now) budget
        (outside_of K.taken K.faults out.old places.old.items)
        (outside_of K.taken K.faults out.new places.new.items) end) }
    ensures source { (P : TypedProgram) (texts : List ByteList) → ImageImplements P texts image.items
        → IfOk result (λ end. RunsSourceAt D.account P texts image.items script (world_arrivals arrivals.now) budget
        (outside_of K.taken K.faults out.old places.old.items)
        (outside_of K.taken K.faults out.new places.new.items) end) }
    ensures nothing { OnErr result (Took (K.taken out.old) (K.taken out.new) []) }
    ensures unchanged { OnErr result (places.new.items ≡ places.old.items) }
    ensures later { K.faults out.old ≤ K.faults out.new }
{
    let given = replace(places, Vec::new(alloc));
    match Board::mount(alloc, image, script, given) {
        Ok(mut board) => {
            let end = run_arrivals(&mut board, arrivals, budget, out);
            *places = board.close();
            Ok(end)
        }
        Err(NotMounted { places: back }) => {
            *places = back;
            Err(NoMemory)
        }
    }
}
