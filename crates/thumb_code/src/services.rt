//! What holds of asking for a service.
ghost use Rattle.std.specs.Prelude.{ℕ};
ghost use Rattle.thumb_code.specs.declared.instructions.Instr.{Instr};
ghost use Rattle.thumb_code.specs.declared.register_file.Registers.{Registers};
ghost use Rattle.thumb_code.specs.Effect.{effect};
ghost use Rattle.thumb_code.specs.Memory.{execute};
ghost use Rattle.thumb_code.specs.Machine.{State, step, Ram, ram_memory};
ghost use Rattle.thumb_code.specs.Step.{AsksOnly, ServesOnly};

/// Where a service is asked for, PC alone has changed: by an instruction, and by a step of the machine with one RAM.
pub fn services_change_pc_alone()
    ensures instruction { (i : Instr) (next : ℕ) (s : Registers) (m : Ram)
        → AsksOnly s m (execute ram_memory m (effect next s i)) }
    ensures step { (s : State) → ServesOnly s.registers s.memory (step s) }
{}
