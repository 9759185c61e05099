//! The law of lowering.

ghost use Rattle.std.specs.Prelude.{◌≡◌, ℕ, List};
ghost use Rattle.board_world.specs.Observations.{ByteList};
ghost use Rattle.board_world.specs.Board.{Entry};
ghost use Rattle.board_world.specs.Runs.{Arrival, Rises, run_with};
ghost use Rattle.board_world.specs.Implements.{EndsByNoFault};
ghost use Rattle.board_world.specs.World.{start};
ghost use Rattle.sts_syntax.specs.TypedTrees.{TypedRoutine, TypedProgram};
ghost use Rattle.sts_syntax.specs.Measures.{frame_words};
ghost use Rattle.sts_syntax.specs.TypeRules.{HasRoutine};
ghost use Rattle.sts_syntax.specs.WellTypedPrograms.{IsWellTyped};
ghost use Rattle.sts_meaning.specs.Steps.{empty};
ghost use Rattle.sts_meaning.specs.Heaps.{FlatHeap};
ghost use Rattle.sts_implements.specs.Forgotten.{forget};
ghost use Rattle.sts_implements.specs.Passes.{Lowers};
ghost use Rattle.flat_meaning.specs.Frames.{FlatActivity, words};
ghost use Rattle.flat_meaning.specs.Steps.{flat};
ghost use Rattle.sts_lower.specs.Lowered.{lowered};
ghost use Rattle.lower_simulation.specs.Tied.{CodeTied, Tied};
ghost use Rattle.lower_simulation.specs.Limits.{IsLight};

/// The flat code of a well-typed program does what its source does: what a counted step does, some ops do, and at least one; and whatever the ops weigh within their
/// list of bounds, those of a counted step weigh at most 512 together. Main and the functions of the program keep their numbers, and a function that `forever` starts has
/// one for each call, behind them. The frames of functions have the words of the measures.
pub fn lowered_code_does_what_the_source_does()
    ensures keeps { (P : TypedProgram) (texts : List ByteList) → IsWellTyped P → (weight : FlatActivity → FlatHeap → ℕ)
        → IsLight (lowered P) weight
        → Lowers P texts (flat (lowered P) texts) (λ h a b. Tied P texts a b) (CodeTied P texts) weight }
    ensures frames { (P : TypedProgram) (f : ℕ) (r : TypedRoutine) → HasRoutine P f r
        → words (lowered P) f ≡ frame_words r }
{}

/// The flat code of a well-typed program makes no fault, whatever its texts, its script, and what arrives between two ops: wherever a run of it stands, it has a next step.
pub fn lowered_code_makes_no_fault()
    ensures { (P : TypedProgram) (texts : List ByteList) → IsWellTyped P
        → (until : ℕ) (script : List Entry) (arrivals : List Arrival) → Rises 0 arrivals → (m : ℕ)
        → EndsByNoFault (run_with (flat (lowered P) texts) arrivals m
        (start (flat (lowered P) texts) P.main (forget (empty P texts)) until script)).board.end }
{}
