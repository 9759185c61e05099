//! Laws of what the outside meets: each stands in the contract of a call that does nothing.

ghost use Rattle.std.specs.Prelude.{ℕ, List, ◌++◌};
ghost use Rattle.board_world.specs.Board.{Board};
ghost use Rattle.board_world.specs.Kinds.{Kind};
ghost use Rattle.board_world.specs.Activities.{World};
ghost use Rattle.board_world.specs.Runs.{run};
ghost use Rattle.board_outside.specs.Moves.{Move, HasMet, Meets};

/// What a run has met stands in one order, and what it goes on to meet comes behind it, whatever the kind of activity does.
pub fn runs_meet_in_order<A, S>()
    ensures further { (K : Kind A S) (met : List Move) (n : ℕ) (w : World A S) → HasMet met w.board
        → (more : List Move) × HasMet (met ++ more) (run K n w).board }
    ensures behind { (met moves : List Move) (b c : Board) → HasMet met b → Meets moves b c → HasMet (met ++ moves) c }
{}
