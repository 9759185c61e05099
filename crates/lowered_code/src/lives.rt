//! What is live where a function begins.

ghost use Rattle.std.specs.List.{AllByRecursion};
ghost use Rattle.flat_ir.specs.Liveness.{OnlyParametersAreLive};
ghost use Rattle.sts_syntax.specs.TypedTrees.{TypedProgram};
ghost use Rattle.sts_syntax.specs.WellTypedPrograms.{IsWellTyped};
ghost use Rattle.sts_lower.specs.Lowered.{lowered};

/// Where a function of a well-typed program's flat code begins, no temporary but a parameter is live: each other one is written before it is read, on every path of ops.
pub fn only_parameters_are_live_at_entry()
    ensures { (P : TypedProgram) → IsWellTyped P → AllByRecursion OnlyParametersAreLive (lowered P).functions }
{}
