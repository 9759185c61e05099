//! What is proved of runs of the bank machine.
ghost use Rattle.std.specs.Prelude.{◌≡◌, ℕ, List, Some};
ghost use Rattle.board_world.specs.Observations.{Faulted};
ghost use Rattle.board_world.specs.Board.{Entry};
ghost use Rattle.bank_model.specs.BoardMachine.{bank_run};
ghost use Rattle.bank_model.specs.Runs.{unsteady, watched_run};

/// What all fibers share counts the used words of the arena as the board does.
pub fn used_words_are_counted()
    ensures { (image : List ℕ) (until : ℕ) (script : List Entry) (free : List ℕ) (n : ℕ)
        → let w = bank_run image until script free n in w.shared.used ≡ w.board.used }
{}

/// A run that loads no free word, and lowers SP only as it stores, is the same for each list of free words: one in which the machine
/// that stops at any other instruction doesn't stop so.
pub fn runs_without_free_words_are_the_same()
    ensures { (image : List ℕ) (until : ℕ) (script : List Entry) (free other : List ℕ) (n : ℕ)
        → ((at : ℕ) → ¬ ((watched_run image until script free n).board.end ≡ Some (Faulted unsteady at)))
        → (bank_run image until script other n).board ≡ (bank_run image until script free n).board }
{}
