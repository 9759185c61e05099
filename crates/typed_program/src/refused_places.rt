//! The law of the places of refusals.
ghost use Rattle.std.specs.Prelude.{ℕ, List, ◌<◌, ◌≤◌, length};
ghost use Rattle.sts_base.specs.declared.refused.Code.{Code};
ghost use Rattle.typed_program.specs.Accepting.{IsRefusedFor};

use crate::elaborated_texts::read_texts_are_elaborated;

/// The place of a refusal is one of the text, or its end; and it is small enough for its line and column to be numbers of 32 bits.
pub fn refusals_stand_in_their_texts()
    ensures { (text : List ℕ) (code : Code) (at : ℕ) → IsRefusedFor text code at
        → (at ≤ length text) × (at < 4294967295) }
{
    read_texts_are_elaborated();
}
