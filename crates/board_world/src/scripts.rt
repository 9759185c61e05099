//! Laws of scripts.

ghost use Rattle.std.specs.Prelude.{◌≡◌, ℕ, ◌+◌, ◌≤◌, ◌<◌, false, List, ◌++◌};
ghost use Rattle.std.specs.List.Sorted.{IsNonDecreasingBy};
ghost use Rattle.board_world.specs.Board.{Entry};
ghost use Rattle.board_world.specs.Kinds.{Kind};
ghost use Rattle.board_world.specs.Activities.{World};
ghost use Rattle.board_world.specs.World.{start};
ghost use Rattle.board_world.specs.Runs.{run};
ghost use Rattle.board_world.specs.Simulation.{IsSettled};
ghost use Rattle.board_world.specs.Before.{IsFrom, then_later, is_by_clock, idled_before, run_before};

/// What a run does before a moment doesn't hang on the script's entries from that moment on.
///
/// A run that is stopped before the moment is the same with such entries behind its script. It is the whole run where somebody
/// is ready or the run is over, and behind its last step it goes on to a later moment with the idle moves that are left. A run
/// that the clock hasn't ended, and whose clock stays below the moment, is the same with these entries.
pub fn later_entries_wait<A, S>()
    ensures before { (K : Kind A S) (t n : ℕ) (later : List Entry) (w : World A S) → IsFrom t later
        → run_before K t n (then_later later w) ≡ then_later later (run_before K t n w) }
    ensures whole { (K : Kind A S) (t n : ℕ) (w : World A S) → IsSettled (run_before K t n w)
        → run_before K t n w ≡ run K n w }
    ensures onwards { (K : Kind A S) (t u n : ℕ) (w : World A S) → t ≤ u → IsSettled (run_before K t n w)
        → run_before K u (n + 1) w ≡ idled_before K u (run_before K t (n + 1) w) }
    ensures same { (K : Kind A S) (main : ℕ) (shared : S) (until : ℕ) (script later : List Entry) (t n : ℕ)
        → IsNonDecreasingBy (λ (e : Entry). e.at) script → IsFrom t later
        → (run K n (start K main shared until script)).board.clock < t
        → is_by_clock (run K n (start K main shared until script)).board.end ≡ false
        → run K n (start K main shared until (script ++ later))
        ≡ then_later later (run K n (start K main shared until script)) }
{}
