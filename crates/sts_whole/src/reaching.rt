//! How far a program comes while its image runs.
ghost use Rattle.std.specs.Prelude.{ℕ, List};
ghost use Rattle.board_world.specs.Observations.{ByteList};
ghost use Rattle.board_world.specs.Implements.{EndsByNoFault};
ghost use Rattle.sts_syntax.specs.TypedTrees.{TypedProgram};
ghost use Rattle.sts_implements.specs.Images.{ImageImplements};
ghost use Rattle.event_script.specs.declared.script.Script.{Script};
ghost use Rattle.board_run.specs.Ran.{world_after, IsExecuted};
ghost use Rattle.sts_whole.specs.Programs.{ImageReaches, Met};

/// A run of an image that implements a program, on a script, within a budget and with any free words, reaches its program's source after some counted steps: at most as many as the
/// budget has instructions, and one at least for each 512 of them where the source hasn't ended. It never ends by a fault. And for each budget there is such a run.
pub fn runs_reach_their_sources()
    ensures reaches { (P : TypedProgram) (texts : List ByteList) (image : List ℕ) → ImageImplements P texts image
        → (script : Script) (budget : ℕ) (free : List ℕ) (executed : ℕ)
        → IsExecuted (world_after image script free) budget executed
        → (steps : ℕ) × ImageReaches P texts image script budget free executed steps }
    ensures faultless { (P : TypedProgram) (texts : List ByteList) (image : List ℕ) → ImageImplements P texts image
        → (script : Script) (free : List ℕ) (n : ℕ)
        → EndsByNoFault (world_after image script free n).board.end }
    ensures exists { (P : TypedProgram) (texts : List ByteList) (image : List ℕ) → ImageImplements P texts image
        → (script : Script) (budget : ℕ) (free : List ℕ)
        → Met P texts image script budget free }
{}
