//! A program's source runs with arrivals at steps of its own, as its image runs with them between instructions.
ghost use Rattle.std.specs.Prelude.{ℕ, List};
ghost use Rattle.board_world.specs.Observations.{ByteList};
ghost use Rattle.board_world.specs.Board.{Entry};
ghost use Rattle.board_world.specs.Runs.{Arrival, Rises};
ghost use Rattle.board_world.specs.Implements.{EndsByNoFault};
ghost use Rattle.board_run.specs.Ran.{IsExecuted};
ghost use Rattle.sts_syntax.specs.TypedTrees.{TypedProgram};
ghost use Rattle.sts_implements.specs.Images.{ImageImplements};
ghost use Rattle.irq_arrival.specs.Along.{world_with};
ghost use Rattle.irq_arrival.specs.ReachesWith.{ReachesWith};

/// The run with arrivals of an image that implements a program reaches its source with these arrivals at steps of the source's own, and never faults.
pub fn sources_meet_arrivals()
    ensures reaches { (P : TypedProgram) (texts : List ByteList) (image : List ℕ) (until : ℕ) (script : List Entry)
        (arrivals : List Arrival) (budget executed : ℕ) (free : List ℕ)
        → ImageImplements P texts image → Rises 0 arrivals
        → IsExecuted (world_with image until script arrivals free) budget executed
        → (steps : ℕ) × (places : List Arrival)
        × ReachesWith P texts image until script arrivals budget free executed steps places }
    ensures faultless { (P : TypedProgram) (texts : List ByteList) (image : List ℕ) (until : ℕ) (script : List Entry)
        (arrivals : List Arrival) (executed : ℕ) (free : List ℕ)
        → ImageImplements P texts image → Rises 0 arrivals
        → EndsByNoFault (world_with image until script arrivals free executed).board.end }
{}
