// Kinds of activity that make a silent step behind each of their own: what simulations of the world's kinds come to at kinds that exist.
ghost use Rattle.std.specs.Prelude.{ℕ, List};
ghost use Rattle.board_world.specs.Board.{Entry};
ghost use Rattle.board_world.specs.Runs.{Arrival, Rises, Keeps};
ghost use Rattle.board_world.specs.Implements.{boards_from};
ghost use Rattle.board_world.specs.Kinds.{Kind};
ghost use Rattle.board_world.specs.Simulation.{Simulation, one, always};
ghost use Rattle.board_world.specs.Composed.{joined};
ghost use Rattle.world_rows.specs.Slow.{slow, Anything, IsItself, IsNumber, its_own};

/// A kind that is slowed twice does what the kind does, in at most four steps for one: two simulations, one behind the
/// other, where the weight of a middle step is the bound of the lower simulation. So do their worlds, whatever arrives.
pub fn slowed_kinds_compose<A, S>()
    ensures simulation { (K : Kind A S)
        → Simulation K (slow (slow K)) (joined Anything IsItself IsNumber its_own) one (always 4) }
    ensures runs { (K : Kind A S) (main : ℕ) (shared : S) (until : ℕ) (script : List Entry) (arrivals : List Arrival)
        (m : ℕ) → Rises 0 arrivals →
        Keeps 4 (boards_from K main shared until script)
        (boards_from (slow (slow K)) main shared until script) arrivals m }
{}
