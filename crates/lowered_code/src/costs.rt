//! What code costs.

ghost use Rattle.std.specs.Prelude.{ℕ, ◌+◌, ◌*◌, ◌≤◌, length};
ghost use Rattle.flat_ir.specs.declared.ops.Op.{Op};
ghost use Rattle.sts_syntax.specs.TypedTrees.{TypedRoutine, TypedProgram};
ghost use Rattle.sts_syntax.specs.Weights.{weight, repeating_weight};
ghost use Rattle.sts_lower.specs.Lowered.{routine_ops, repeating_ops};
ghost use Rattle.lowered_code.specs.Costs.{cost, Costs, EntryCosts};

/// By any measure of ops that keeps the bounds of one node, the ops of a function cost at most so much for each unit of its weight, with the function's entry; and so do
/// those of a function that `forever` starts.
pub fn code_costs_at_most_its_weight()
    ensures routines { (c : Op → ℕ) (k room entry : ℕ) → Costs c k room → EntryCosts c k entry
        → (P : TypedProgram) (f : ℕ) (r : TypedRoutine) → cost c (routine_ops P f r) + entry ≤ k * weight r }
    ensures repeating { (c : Op → ℕ) (k room entry : ℕ) → Costs c k room → EntryCosts c k entry → (f : ℕ)
        → cost c (repeating_ops f) + entry ≤ k * repeating_weight }
{}

/// A function has at most three ops for each unit of its weight, and so has one that `forever` starts.
pub fn code_has_few_ops()
    ensures routines { (P : TypedProgram) (f : ℕ) (r : TypedRoutine) → length (routine_ops P f r) ≤ 3 * weight r }
    ensures repeating { (f : ℕ) → length (repeating_ops f) ≤ 3 * repeating_weight }
{}
