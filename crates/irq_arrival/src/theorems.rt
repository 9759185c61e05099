//! Parts of a run, and acts between them, are one run with arrivals.
ghost use Rattle.std.specs.Prelude.{◌≡◌, ℕ, ◌+◌, ◌<◌, ◌≤◌, ◌⊎◌, ◌++◌, ◌∷◌, List, [], Some, None, true, false, length, slice_get};
ghost use Rattle.board_world.specs.Board.{Act, Entry, over};
ghost use Rattle.board_world.specs.Activities.{World};
ghost use Rattle.board_world.specs.Runs.{Arrival, Rises, applied};
ghost use Rattle.bank_model.specs.Fibers.{Fiber, Shared};
ghost use Rattle.bank_model.specs.BoardMachine.{fibers, bank_start};
ghost use Rattle.board_outside.specs.Moves.{Move, HasMet};
ghost use Rattle.board_run.specs.Represents.{BoardState, Represents};
ghost use Rattle.board_run.specs.Advancing.{of_run, ComesBy};
ghost use Rattle.board_run.specs.Ran.{IsExecuted, MayArrive, Arrives};
ghost use Rattle.irq_arrival.specs.Along.{world_with, NoneBefore, Along, IsStill};

/// A run with arrivals begins where a board is mounted; it goes on by parts that nothing arrives in, and by acts between them; and where all
/// that may arrive has arrived, or the run is over, the board shows its world.
pub fn parts_are_one_run()
    ensures begins { (image : List ℕ) (until : ℕ) (script : List Entry) (arrivals : List Arrival) (b : BoardState)
        → Rises 0 arrivals
        → ((free : List ℕ) → Represents image b (bank_start image until script free))
        → Along image (world_with image until script arrivals) arrivals 0 [] [] b }
    ensures goes { (image : List ℕ) (course : List ℕ → ℕ → World Fiber Shared) (left : List Arrival) (n count : ℕ)
        (used : List ℕ) (met moves : List Move) (b c : BoardState)
        → Along image course left n used met b → ComesBy of_run image count moves b c → IsStill image c
        → NoneBefore (n + count) left
        → (further : List ℕ) × Along image course left (n + count) (used ++ further) (met ++ moves) c }
    ensures arrives { (image : List ℕ) (course : List ℕ → ℕ → World Fiber Shared) (a : Arrival) (left : List Arrival)
        (n : ℕ) (used : List ℕ) (met : List Move) (b c : BoardState)
        → Along image course (a ∷ left) n used met b → a.count ≡ n → MayArrive a.act → b.plain.end ≡ None
        → Arrives a.act b c → IsStill image c → Along image course left n used met c }
    ensures shows { (image : List ℕ) (course : List ℕ → ℕ → World Fiber Shared) (left : List Arrival) (n : ℕ)
        (used : List ℕ) (met : List Move) (b : BoardState)
        → (h : Along image course left n used met b)
        → ((rest : List ℕ) → over (h.at rest).board ≡ true) ⊎ NoneBefore (n + 1) left
        → (rest : List ℕ) → Represents image b (course (used ++ rest) n) × HasMet met (course (used ++ rest) n).board }
{}

/// Each arrival whose number is below the budget is applied, unless the run with those before it is over within that number of instructions; and a run
/// executes a least number of instructions within each budget.
pub fn arrivals_are_applied()
    ensures applies { (image : List ℕ) (until : ℕ) (script : List Entry) (arrivals : List Arrival) (free : List ℕ)
        (budget executed i : ℕ) (a : Arrival)
        → Rises 0 arrivals → IsExecuted (world_with image until script arrivals free) budget executed
        → slice_get arrivals i ≡ Some a → a.count < budget
        → (i < length (applied (λ n. (world_with image until script arrivals free n).board) arrivals executed))
        ⊎ ((over (world_with image until script arrivals free executed).board ≡ true) × (executed ≤ a.count)) }
    ensures executes { (image : List ℕ) (until : ℕ) (script : List Entry) (arrivals : List Arrival) (free : List ℕ)
        (budget : ℕ) → (executed : ℕ) × IsExecuted (world_with image until script arrivals free) budget executed }
{}
