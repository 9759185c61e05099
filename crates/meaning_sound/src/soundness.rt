//! Laws of well-typed programs.

ghost use Rattle.std.specs.Prelude.{ℕ, List};
ghost use Rattle.board_world.specs.Observations.{ByteList};
ghost use Rattle.board_world.specs.Board.{Entry};
ghost use Rattle.board_world.specs.Runs.{Arrival, Rises, run_with};
ghost use Rattle.board_world.specs.Implements.{EndsByNoFault};
ghost use Rattle.board_world.specs.Sound.{Sound};
ghost use Rattle.sts_syntax.specs.TypedTrees.{TypedProgram};
ghost use Rattle.sts_syntax.specs.WellTypedPrograms.{IsWellTyped};
ghost use Rattle.sts_meaning.specs.Steps.{source, source_start, source_run};
ghost use Rattle.sts_meaning.specs.Programs.{blinking};
ghost use Rattle.sts_meaning.specs.Orders.{growing_list, methods};
ghost use Rattle.meaning_sound.specs.Kept.{typed};

/// No run of a well-typed program ends by a fault, whatever its texts, its script, and what arrives between two counted steps.
pub fn typed_programs_make_no_fault()
    ensures alone { (P : TypedProgram) (texts : List ByteList) → IsWellTyped P
        → (until : ℕ) (script : List Entry) (n : ℕ)
        → EndsByNoFault (source_run P texts until script n).board.end }
    ensures under_arrivals { (P : TypedProgram) (texts : List ByteList) → IsWellTyped P
        → (until : ℕ) (script : List Entry) (arrivals : List Arrival) → Rises 0 arrivals → (n : ℕ)
        → EndsByNoFault
        (run_with (source P texts) arrivals n (source_start P texts until script)).board.end }
{}

/// Each step of a typed activity of a well-typed program is no fault and leaves all typed.
pub fn typed_steps_stay_typed()
    ensures { (P : TypedProgram) (texts : List ByteList) → IsWellTyped P → Sound (source P texts) (typed P) }
{}

/// Worked programs are well typed: one with two classes, a method that is overridden and calls its base's, constructors, objects and
/// null; one with a list, a `for of` and a push; and one with a handler and `forever`.
pub fn worked_programs_are_well_typed()
    ensures methods { IsWellTyped methods }
    ensures lists { IsWellTyped growing_list }
    ensures handlers { IsWellTyped blinking }
{}
