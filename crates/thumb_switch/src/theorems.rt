// What holds of the routine, and of a switch that holds it.
ghost use Rattle.std.specs.Prelude.{◌≡◌, ℕ, ◌+◌, ◌*◌, ◌<◌, ◌≤◌, ◌^◌, length};
ghost use Rattle.bank_model.specs.Standing.{IsInside};
ghost use Rattle.fiber_pool.specs.Kept.{record_limit};
ghost use Rattle.fiber_runtime.specs.declared.turning.Turning.{Turning};
ghost use Rattle.fiber_runtime.specs.declared.blocking.Why.{Why};
ghost use Rattle.fiber_runtime.specs.State.{State};
ghost use Rattle.fiber_runtime.specs.Moves.{Blocked, Resumed};
ghost use Rattle.thumb_switch.specs.Routine.{routine_bytes, routine_steps};
ghost use Rattle.thumb_switch.specs.Space.{Space};
ghost use Rattle.thumb_switch.specs.Copies.{AreRanges, Copies};
ghost use Rattle.thumb_switch.specs.Switching.{Held, counted, depth, BlockedBy, ResumedBy};

/// Over every memory of three parts whose bytes are the routine's, it copies words between ranges that don't overlap, changes no other word, and returns without a
/// fault, after four instructions for each five words and for each word that is left, and five more.
pub fn the_routine_copies()
    ensures { (source target count : ℕ) (t : Space) → t.code ≡ routine_bytes → length t.stack ≡ 1024
        → length t.words ≤ record_limit → AreRanges t source target count → Copies source target count t }
{}

/// A switch that holds the routine's bytes blocks and resumes as a runtime does, and counts the routine's instructions.
pub fn the_routine_switches()
    ensures blocks { (key now : ℕ) (t : Turning) (why : Why) (h h' : Held) (old new : State) → h.bytes ≡ routine_bytes
        → length old.machine.memory.stack ≡ 1024
        → IsInside old.machine.registers.sp old.machine.memory.base → BlockedBy key t why now h h' old new
        → Blocked key t why now old new }
    ensures block_counts { (key now : ℕ) (t : Turning) (why : Why) (h h' : Held) (old new : State)
        → h.bytes ≡ routine_bytes → length old.machine.memory.stack ≡ 1024
        → IsInside old.machine.registers.sp old.machine.memory.base → BlockedBy key t why now h h' old new
        → h' ≡ counted h (routine_steps (depth old.machine)) }
    ensures resumes { (h h' : Held) (old new : State) → h.bytes ≡ routine_bytes → length old.machine.memory.stack ≡ 1024
        → ResumedBy h h' old new → Resumed old new }
    ensures resume_counts { (h h' : Held) (old new : State) → h.bytes ≡ routine_bytes → length old.machine.memory.stack
        ≡ 1024 → (by : ResumedBy h h' old new) → h' ≡ counted h (routine_steps (length by.kept.words)) }
{}
