//! What is proved of the bank.
ghost use Rattle.std.specs.Prelude.{◌≡◌, ◌%◌, ℕ, List, ◌++◌};
ghost use Rattle.thumb_code.specs.declared.instructions.Instr.{Instr};
ghost use Rattle.thumb_code.specs.declared.register_file.Registers.{Registers};
ghost use Rattle.thumb_code.specs.Effect.{effect};
ghost use Rattle.thumb_code.specs.Memory.{execute, execute_moving};
ghost use Rattle.thumb_code.specs.Machine.{State, step, Ram, ram_memory};
ghost use Rattle.thumb_code.specs.Run.{DoesTheSame, RunsTheSame};
ghost use Rattle.bank_model.specs.Bank.{Bank, bank_memory, bank_move, bank_step};
ghost use Rattle.bank_model.specs.Standing.{ram_steps, bank_steps, FollowsStep, Shows, AgreesWithBank};

/// What an instruction does over one RAM, it does over the bank that the RAM shows, with some list of free words and whatever
/// stands behind it, which stays.
pub fn bank_follows_ram_at_one_instruction()
    ensures { (i : Instr) (next : ℕ) (s : Registers) (m : Ram) (b : Bank) → Shows s.sp m b
        → (used : List ℕ) × DoesTheSame Shows (execute ram_memory m (effect next s i))
        (λ rest. execute_moving bank_memory bank_move (b, used ++ rest) s.sp (effect next s i)) }
{}

/// What a fiber does over one RAM in one step, fetch and faults included, it does over a bank that agrees, with some list of free
/// words and whatever stands behind it, which stays.
pub fn bank_follows_ram_at_one_step()
    ensures { (image : List ℕ) (s : State) (b : Bank) → AgreesWithBank image s.registers.sp s.memory b
        → (used : List ℕ)
        × FollowsStep (AgreesWithBank image) (step s) (λ rest. bank_step s.registers (b, used ++ rest)) }
{}

/// What a fiber does over one RAM in so many steps, it does over the bank that the RAM shows, with some list of free words and
/// whatever stands behind it, which stays.
pub fn bank_follows_ram()
    ensures { (n : ℕ) (s : State) (b : Bank) → Shows s.registers.sp s.memory b
        → (used : List ℕ) × RunsTheSame Shows (ram_steps n s) (λ rest. bank_steps n s.registers (b, used ++ rest)) }
{}
