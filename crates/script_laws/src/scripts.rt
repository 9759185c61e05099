//! A law of runs on two scripts.
ghost use Rattle.std.specs.Prelude.{◌≡◌, ℕ, ◌≤◌, List};
ghost use Rattle.board_world.specs.Board.{Entry};
ghost use Rattle.board_world.specs.Kinds.{Kind};
ghost use Rattle.board_world.specs.World.{start};
ghost use Rattle.board_world.specs.Runs.{run};
ghost use Rattle.board_world.specs.Before.{IsRisingFrom};
ghost use Rattle.class_world.specs.Hearing.{before};
ghost use Rattle.class_world.specs.Classes.{Passes};
ghost use Rattle.script_laws.specs.Scripts.{entries_before};

/// Runs on two scripts, in order, of which the entries before a moment are the same, and which end then or later, show the same before that moment, once both have come to it or have ended. So an entry that is
/// added at a moment, or one that is taken away, and an end that is moved to a later one, change nothing that was shown before.
pub fn scripts_agree_so_far<A, S>()
    ensures { (K : Kind A S) (main : ℕ) (shared : S) (t m n end end' : ℕ) (script script' : List Entry)
        → IsRisingFrom 0 script → IsRisingFrom 0 script' → t ≤ end → t ≤ end'
        → entries_before t script ≡ entries_before t script'
        → Passes t (run K m (start K main shared end script))
        → Passes t (run K n (start K main shared end' script'))
        → before t (run K m (start K main shared end script)).board.seen
        ≡ before t (run K n (start K main shared end' script')).board.seen }
{}
