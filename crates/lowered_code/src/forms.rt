//! The form of code.

ghost use Rattle.std.specs.Prelude.{◌≡◌, ℕ, ◌+◌, List};
ghost use Rattle.flat_ir.specs.WellFormed.{IsWellFormed};
ghost use Rattle.sts_syntax.specs.TypedTrees.{TypedRoutine, TypedProgram};
ghost use Rattle.sts_syntax.specs.Measures.{frame_words};
ghost use Rattle.sts_syntax.specs.WellTypedPrograms.{IsWellTyped, IsProgramWithinLimits};
ghost use Rattle.sts_lower.specs.Lowered.{lowered_routine, lowered};

/// The flat code of a well-typed program within its limits is well formed, and the words of a function's frame are those of the measures.
pub fn code_is_well_formed()
    ensures formed { (P : TypedProgram) (texts : List (List ℕ)) → IsWellTyped P → IsProgramWithinLimits P texts
        → IsWellFormed (lowered P) }
    ensures frames { (P : TypedProgram) (f : ℕ) (r : TypedRoutine)
        → 5 + (lowered_routine P f r).locals + (lowered_routine P f r).operands + (lowered_routine P f r).outgoing
        ≡ frame_words r }
{}
