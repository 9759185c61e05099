// One instruction of the running fiber.
ghost use Rattle.std.specs.Prelude.{◌≡◌, ◌+◌, ◌^◌, ◌<◌, ◌≤◌, ℕ, List, None, All, IsSome};
ghost use Rattle.board_world.specs.Limits.{end_limit};
ghost use Rattle.board_run.specs.Represents.{IsShown, state_of};
ghost use Rattle.board_run.specs.Run.{Comes};
ghost use Rattle.board_outside.specs.Outputs.{moves_of};
ghost use Rattle.board_run.specs.Serving.{Steps};

use crate::end::Stop;
use crate::engine::{Engine, Served};
use armv6m_machine::Turn;
use board_outside::Output;
use fiber_runtime::Runtime;

/// Puts the running fiber back to the instruction at an address.
fn put_back(runtime: &mut Runtime, at: u32)
    ensures { runtime.new ≡ record runtime.old { machine = record runtime.old.machine { registers = record runtime.old.machine.registers { pc = at } } } }
{
    let mut registers = runtime.registers();
    registers.pc = at;
    runtime.set_registers(registers);
}

impl Engine {
    /// One instruction of the running fiber, with the service that it asks for. A fault or a panic ends the run, and leaves the fiber before
    /// its instruction.
    #[inline(always)]
    pub fn instruct(&mut self) -> Output
        requires runs { IsSome self.old.runtime.running }
        requires shown { IsShown (state_of self.old) }
        requires going { self.old.end ≡ None }
        requires early { self.old.clock ≤ end_limit }
        requires bytes { All (λ b. b < 256) self.old.runtime.machine.memory.flash }
        requires spawned { self.old.counts.spawned + 1 < 2 ^ 64 }
        requires blocked { self.old.counts.blocked + 1 < 2 ^ 64 }
        requires words { self.old.counts.words + 1024 < 2 ^ 64 }
        ensures comes { (image : List ℕ)
            → Comes image 1 (moves_of self.old.runtime.machine.memory.flash self.old.clock result) (state_of self.old)
            (state_of self.new) }
        ensures steps { Steps self.old self.new }
    {
        let at = self.runtime.registers().pc;
        match self.runtime.step() {
            Turn::Went => Output::Nothing,
            Turn::Service(number) => match self.serve(number, at) {
                Served::Goes(output) => output,
                Served::Stops(stop) => {
                    put_back(&mut self.runtime, at);
                    self.end = Some(stop);
                    Output::Nothing
                }
            },
            Turn::Fault(fault, address) => {
                self.end = Some(Stop::Fault(fault, address));
                Output::Nothing
            }
        }
    }
}
