//! Two small kinds of activity, of which one does what the other does.

ghost use Rattle.std.specs.Prelude.{ℕ, pos, List};
ghost use Rattle.board_world.specs.Board.{Entry};
ghost use Rattle.board_world.specs.Runs.{Arrival, Rises, Keeps};
ghost use Rattle.board_world.specs.Implements.{boards_from};
ghost use Rattle.world_rows.specs.Clerks.{Routine, clerks};
ghost use Rattle.world_rows.specs.Workers.{workers, linked, address};

/// Operations at places do what a list of requests does, in at most three steps for one, whatever arrives.
pub fn operations_do_what_requests_do()
    ensures { (program : List Routine) (until : ℕ) (script : List Entry) (arrivals : List Arrival) (m : ℕ) →
        Rises 0 arrivals →
        Keeps 3 (boards_from (clerks program) 0 (pos 0) until script)
        (boards_from (workers (linked program)) (address program 0) (pos 0) until script) arrivals m }
{}
