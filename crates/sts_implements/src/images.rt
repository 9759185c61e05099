//! What an image that implements a program does.

ghost use Rattle.std.specs.Prelude.{◌≡◌, ℕ, ◌*◌, true, List};
ghost use Rattle.board_world.specs.Observations.{ByteList};
ghost use Rattle.board_world.specs.Board.{Entry, over};
ghost use Rattle.board_world.specs.Implements.{EndsByNoFault};
ghost use Rattle.sts_syntax.specs.TypedTrees.{TypedProgram};
ghost use Rattle.sts_meaning.specs.Steps.{source_run};
ghost use Rattle.bank_model.specs.BoardMachine.{bank_run};
ghost use Rattle.sts_implements.specs.Images.{instructions_of_a_step, ImageImplements, IsAfter};

/// An image that implements a program, run on a script with any free words, looks after each number of instructions as the program's
/// source does after some number of counted steps, never ends by a fault, and has ended in time where the source's run ends.
pub fn images_do_what_programs_do()
    ensures follows { (P : TypedProgram) (texts : List ByteList) (image : List ℕ) → ImageImplements P texts image
        → (until : ℕ) (script : List Entry) (free : List ℕ) (m : ℕ)
        → (k : ℕ) × IsAfter P texts image until script free m k }
    ensures no_fault { (P : TypedProgram) (texts : List ByteList) (image : List ℕ) → ImageImplements P texts image
        → (until : ℕ) (script : List Entry) (free : List ℕ) (m : ℕ)
        → EndsByNoFault (bank_run image until script free m).board.end }
    ensures ends { (P : TypedProgram) (texts : List ByteList) (image : List ℕ) → ImageImplements P texts image
        → (until : ℕ) (script : List Entry) (free : List ℕ) (s : ℕ)
        → over (source_run P texts until script s).board ≡ true
        → over (bank_run image until script free (instructions_of_a_step * s)).board ≡ true }
{}
