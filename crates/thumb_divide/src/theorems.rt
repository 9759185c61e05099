//! What holds of the routine.
ghost use Rattle.std.specs.Prelude.{◌≡◌, ℕ, ◌+◌, ◌%◌, ◌<◌, ◌≤◌, List, slice_index, true};
ghost use Rattle.thumb_code.specs.Map.{flash_byte, flash_end, is_base};
ghost use Rattle.thumb_code.specs.Step.{fetched};
ghost use Rattle.thumb_code.specs.Run.{over_moving};
ghost use Rattle.bank_model.specs.Bank.{Bank, bank_sp, bank_memory, bank_move};
ghost use Rattle.thumb_divide.specs.Routine.{routine_bytes, routine_length, HasRoutine, HoldsRoutine};
ghost use Rattle.thumb_divide.specs.Divides.{Divides};
ghost use Rattle.thumb_divide.specs.Banked.{IsInRegion};

/// A flash that has the routine's bytes from an even address on has the routine, and each of its instructions is fetched from it. Over a fiber's bank
/// it then divides, in at most 231 instructions, and no word of the bank or of shared memory changes. That it does so over any memory that reads
/// such a flash is in `proofs/Laws.antt`.
pub fn the_routine_divides()
    ensures bytes { (flash : List ℕ) (at : ℕ) → at % 2 ≡ 0 → at + routine_length ≤ flash_end
        → ((k : ℕ) → k < routine_length → flash_byte flash (at + k) ≡ slice_index routine_bytes k)
        → HasRoutine flash at }
    ensures fetched { (flash : List ℕ) (base at : ℕ) → is_base base ≡ true → HasRoutine flash at
        → HoldsRoutine (fetched flash base) at }
    ensures divides { (flash : List ℕ) (b : Bank) (free : List ℕ) (base at : ℕ) → is_base base ≡ true → IsInRegion b
        → HasRoutine flash at
        → Divides (over_moving bank_memory bank_move) (fetched flash base) (b, free) (bank_sp b) at }
{}
