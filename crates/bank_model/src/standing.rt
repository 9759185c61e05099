//! What is proved of a fiber that stands on the machine's stack region.
ghost use Rattle.std.specs.Prelude.{◌≡◌, ℕ, List};
ghost use Rattle.thumb_code.specs.Machine.{State, step};
ghost use Rattle.bank_model.specs.Standing.{Stands, StepKeepsAbove, IsItsTurn};

/// A step of the machine with one RAM keeps flash, the base, and the stack region from the base on.
pub fn a_step_keeps_what_is_above_the_base()
    ensures { (s : State) → StepKeepsAbove s.memory (step s) }
{}

/// A step of the machine with one RAM is the turn of the fiber that stands there, service included, with some free words, which
/// the step alone determines, and whatever is left behind them. Behind it the fiber stands inside.
pub fn a_step_is_the_turn_of_who_stands_there()
    ensures { (image : List ℕ) (used : ℕ) (s : State) → s.memory.flash ≡ image → Stands s → IsItsTurn image used s }
{}
