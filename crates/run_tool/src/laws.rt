// Laws of answers.
ghost use Rattle.std.specs.Prelude.{ℕ, List, true};
ghost use Rattle.board_world.specs.Observations.{ByteList};
ghost use Rattle.sts_syntax.specs.TypedTrees.{TypedProgram};
ghost use Rattle.run_tool.specs.Answers.{Answer};
ghost use Rattle.event_script.specs.declared.script.Script.{Script};
ghost use Rattle.run_tool.specs.Programs.{WritesImage};
ghost use Rattle.run_tool.specs.Run.{RunsProgram};
ghost use Rattle.run_tool.specs.Files.{Telling};
ghost use Rattle.run_tool.specs.Laws.{HexStatuses, ProgramStatuses, WritesReadable, EndsWithBuilt};

use hex_image::round_trip;
use sts_whole::images_are_one;
use typed_program::one_answer;

/// The status of an answer of `run-hex` where nothing fails is 0, 3, 4 or 13 where the text spells an image and no script is named, and 12
/// where it spells none.
pub fn statuses_of_run_hex()
    ensures { (told : Telling) (budget : ℕ) (text : List ℕ) → HexStatuses told budget text }
{}

/// The status of an answer of `check` and `build` is 0 where the text is accepted, and of `run` without a script 0, 3 or 4; it is 10 where the text isn't accepted. The program of
/// `big` is such a text.
pub fn statuses_of_programs()
    ensures { (told : Telling) (text : List ℕ) → ProgramStatuses told text }
{
    one_answer();
}

/// What `build` writes of a program spells the image that is built of the program, and no other: so `read_hex`, which gives the image that a text spells, reads it back.
pub fn built_texts_are_read_back()
    ensures { (P : TypedProgram) (texts : List ByteList) (answer : Answer)
        → WritesImage P texts answer → WritesReadable P texts answer }
{
    round_trip();
}

/// What `run` writes with `--stats --image` ends with what `build` writes of the same program: the image that it ran is the one that is built.
pub fn runs_end_with_what_is_built()
    ensures { (P : TypedProgram) (texts : List ByteList) (script : Script) (budget : ℕ) (answer built : Answer)
        → RunsProgram P texts script budget true true answer → WritesImage P texts built → EndsWithBuilt answer built }
{
    images_are_one();
}
