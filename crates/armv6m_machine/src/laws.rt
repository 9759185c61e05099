//! What holds of every step.
ghost use Rattle.std.specs.Prelude.{◌≡◌, ◌%◌, ◌⊎◌};
ghost use Rattle.thumb_code.specs.Machine.{State, step};
ghost use Rattle.armv6m_machine.specs.Steps.{OnGoing, IsStackPointer};

/// Behind a step that went on or asks for a service SP is in range and a multiple of 4, where it was one before or was the base, as
/// it is at reset.
pub fn steps_keep_the_stack_pointer()
    ensures { (s : State) → (s.registers.sp % 4 ≡ 0) ⊎ (s.registers.sp ≡ s.memory.base)
        → OnGoing (step s) IsStackPointer }
{}
