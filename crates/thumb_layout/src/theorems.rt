//! What holds of every layout.
ghost use Rattle.std.specs.Prelude.{◌≡◌, ℕ, ◌+◌, ◌%◌, ◌≤◌, List, length, true, false};
ghost use Rattle.thumb_code.specs.declared.instructions.Instr.{Instr};
ghost use Rattle.thumb_code.specs.Table.{Fits};
ghost use Rattle.thumb_code.specs.Map.{is_base, flash_end};
ghost use Rattle.thumb_code.specs.Step.{fetched};
ghost use Rattle.thumb_layout.specs.declared.pieces.What.{What};
ghost use Rattle.thumb_layout.specs.declared.pieces.Piece.{Piece};
ghost use Rattle.thumb_layout.specs.Soundness.{IsSound, HasWords, is_bound_to_place};
ghost use Rattle.thumb_layout.specs.Layout.{label_at};
ghost use Rattle.thumb_layout.specs.Rounds.{round, forms, layout, bytes_of, total_most, AllFit, PoolsReach};
ghost use Rattle.thumb_layout.specs.Cells.{laid};
ghost use Rattle.thumb_layout.specs.Openings.{called, named, callees, addressed, StandApart};
ghost use Rattle.thumb_layout.specs.Holds.{Holds, IgnoresPc};
ghost use Rattle.thumb_layout.specs.Flash.{HasCode, places};

/// The rounds come to an end at which nothing changes: every branch then fits, and no entry of a pool is past 1020 bytes from where its
/// load counts. Where the pieces are sound, what they take is what is written, and it is at most so many bytes a piece.
pub fn layout_settles()
    ensures fixed { (xs : List Piece) → round xs (forms xs) ≡ forms xs }
    ensures branches { (xs : List Piece) → AllFit (label_at xs (layout xs)) xs (layout xs) (forms xs) }
    ensures pools { (xs : List Piece) → PoolsReach (layout xs) }
    ensures length { (xs : List Piece) → IsSound xs → length (laid xs).bytes ≡ bytes_of xs }
    ensures most { (xs : List Piece) → IsSound xs → length (laid xs).bytes ≤ total_most xs }
{}

/// The fixes are what the pieces leave open and nothing else: the BLs are the calls in their order, each of a function, and the words are
/// the addresses in their order. Each is at an even place and wholly within the bytes, and none overlaps another.
pub fn fixes_are_what_is_open()
    ensures calls { (xs : List Piece) → callees (laid xs).fixes ≡ called xs }
    ensures addresses { (xs : List Piece) → addressed (laid xs).fixes ≡ named xs }
    ensures apart { (xs : List Piece) → StandApart 0 (laid xs).fixes (length (laid xs).bytes) }
{}

/// A flash that has the code of sound pieces from a multiple of 4 on, with what was open in it, holds the pieces: what each then does
/// over any memory that reads this flash is in `proofs/Laws.antt`. A sound instruction does the same wherever it stands.
pub fn laid_code_holds()
    ensures holds { (flash : List ℕ) (base stack_base : ℕ) (entry : ℕ → ℕ) (word_of : What → ℕ) (xs : List Piece)
        → IsSound xs → HasWords xs → is_base stack_base ≡ true → base % 4 ≡ 0
        → base + length (laid xs).bytes ≤ flash_end → HasCode flash base entry word_of (laid xs)
        → Holds (fetched flash stack_base) flash (places base entry word_of xs) xs }
    ensures anywhere { (instr : Instr) → Fits instr → is_bound_to_place instr ≡ false → IgnoresPc instr }
{}
