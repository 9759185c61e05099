//! A kind of activity that makes faults, and its programs that make none.

ghost use Rattle.std.specs.Prelude.{◌≡◌, ℕ, pos, List, [], Some, None};
ghost use Rattle.board_world.specs.Observations.{Faulted};
ghost use Rattle.board_world.specs.Board.{Entry};
ghost use Rattle.board_world.specs.World.{start};
ghost use Rattle.board_world.specs.Runs.{Arrival, Rises, run_with, run};
ghost use Rattle.board_world.specs.Implements.{EndsByNoFault, Implements, boards_from};
ghost use Rattle.world_rows.specs.Clerks.{Routine, clerks};
ghost use Rattle.world_rows.specs.Careful.{tellers, AreCareful};
ghost use Rattle.world_rows.specs.Programs.{hasty};

/// Where nothing is told before there is an answer, no run ends by a fault, whatever arrives, and a kind that owes nothing at
/// faults implements this one.
pub fn careful_programs_make_no_fault()
    ensures no_fault { (program : List Routine) → AreCareful program
        → (until : ℕ) (script : List Entry) (arrivals : List Arrival) → Rises 0 arrivals → (m : ℕ)
        → EndsByNoFault
        (run_with (tellers program) arrivals m (start (tellers program) 0 (pos 0) until script)).board.end }
    ensures implemented { (program : List Routine) → AreCareful program
        → Implements 1 (boards_from (tellers program) 0 (pos 0)) (boards_from (clerks program) 0 (pos 0)) }
{}

/// Elsewhere there is a fault, and the lower kind does what it will.
pub fn hasty_programs_make_a_fault()
    ensures fault { (run (tellers hasty) 1 (start (tellers hasty) 0 (pos 0) 1000 [])).board.end ≡ Some (Faulted 0 0) }
    ensures below { (run (clerks hasty) 1 (start (clerks hasty) 0 (pos 0) 1000 [])).board.end ≡ None }
{}
