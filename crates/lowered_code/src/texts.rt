//! The texts that code names, and its numbers.

ghost use Rattle.std.specs.Prelude.{FitsSigned};
ghost use Rattle.std.specs.Int.{w32};
ghost use Rattle.std.specs.List.{AllByRecursion};
ghost use Rattle.sts_syntax.specs.TypedTrees.{TypedProgram};
ghost use Rattle.sts_syntax.specs.Nodes.{program_texts};
ghost use Rattle.sts_syntax.specs.WellTypedPrograms.{IsWellTyped};
ghost use Rattle.sts_lower.specs.Lowered.{lowered};
ghost use Rattle.lowered_code.specs.Texts.{NamesOnly, AllHave};

/// Each text that an op of a program's flat code names is one of those that the program's trees name.
pub fn names_only_its_texts()
    ensures { (P : TypedProgram) → AllByRecursion (NamesOnly (program_texts P)) (lowered P).functions }
{}

/// Each number that an op of a well-typed program's flat code gives has 32 bits with a sign.
pub fn its_numbers_have_32_bits()
    ensures { (P : TypedProgram) → IsWellTyped P
        → AllByRecursion (AllHave (λ n. FitsSigned w32 n) (λ n. Unit {0})) (lowered P).functions }
{}
