//! The law of laid code.

ghost use Rattle.std.specs.Prelude.{ℕ, List};
ghost use Rattle.thumb_code.specs.Run.{Executor};
ghost use Rattle.thumb_code.specs.Step.{fetched};
ghost use Rattle.thumb_layout.specs.declared.pieces.What.{What};
ghost use Rattle.thumb_layout.specs.declared.pieces.Piece.{Piece};
ghost use Rattle.thumb_layout.specs.Flash.{places};
ghost use Rattle.thumb_layout.specs.Holds.{Reads};
ghost use Rattle.laid_meaning.specs.Meaning.{StandInFlash, MeanTheirEffects};

/// A memory from which a flash can be read: which of its states belong to an SP.
pub trait FlashReader {
    type State;

    ghost belongs: { ℕ → Self.State → Type 0 };
}

/// Laid code means its pieces: where a flash has the code of sound pieces, with what was open in it, a machine that is at a piece's place does the piece's effect, over any
/// memory that reads this flash, and comes to the next piece, or to the label that is gone to.
pub fn laid_code_means_its_pieces<M: FlashReader>()
    ensures { (over : Executor M.State) (flash : List ℕ) (base stack_base : ℕ) (entry : ℕ → ℕ) (word_of : What → ℕ)
        (xs : List Piece)
        → Reads over flash M.belongs → StandInFlash flash base stack_base entry word_of xs
        → MeanTheirEffects over M.belongs (fetched flash stack_base) (places base entry word_of xs) xs }
{}
