//! What lowering needs of a program.

ghost use Rattle.sts_syntax.specs.TypedTrees.{TypedProgram};
ghost use Rattle.sts_syntax.specs.WellTypedPrograms.{IsWellTyped};
ghost use Rattle.lowered_code.specs.Fine.{IsFine};

/// The names in a well-typed program are there, handlers stand only where the board takes them, each function that `forever` starts is one of those that are numbered
/// behind the program's, and a constructor has its object as a parameter.
pub fn well_typed_programs_are_fine()
    ensures { (P : TypedProgram) → IsWellTyped P → IsFine P }
{}
