//! The law of lowering, of the whole world.

ghost use Rattle.std.specs.Prelude.{◌≡◌, ℕ, List, length};
ghost use Rattle.board_world.specs.Observations.{ByteList};
ghost use Rattle.board_world.specs.Board.{Entry};
ghost use Rattle.board_world.specs.Implements.{Implements, boards_from};
ghost use Rattle.board_world.specs.World.{start};
ghost use Rattle.sts_syntax.specs.TypedTrees.{TypedProgram};
ghost use Rattle.sts_syntax.specs.WellTypedPrograms.{IsWellTyped};
ghost use Rattle.sts_meaning.specs.Steps.{source, empty};
ghost use Rattle.sts_implements.specs.Forgotten.{forget};
ghost use Rattle.flat_meaning.specs.Steps.{flat, flat_empty, flat_run};
ghost use Rattle.sts_lower.specs.Lowered.{lowered};
ghost use Rattle.lower_simulation.specs.Limits.{ops_of_a_step};

/// The flat code of a well-typed program, run from its own start, does in the whole world what the program's source does: on each script and whatever arrives, each counted
/// step in one op at least and 21 at most, and without a fault. So it starts as the other laws of lowering say.
pub fn flat_code_implements_its_program()
    ensures implements { (P : TypedProgram) (texts : List ByteList) → IsWellTyped P
        → Implements ops_of_a_step (boards_from (source P texts) P.main (empty P texts))
        (boards_from (flat (lowered P) texts) (lowered P).main (flat_empty (lowered P) texts (length P.globals))) }
    ensures starts { (P : TypedProgram) (texts : List ByteList) (until : ℕ) (script : List Entry)
        → flat_run (lowered P) texts (length P.globals) until script 0
        ≡ start (flat (lowered P) texts) P.main (forget (empty P texts)) until script }
{}
