// What a fiber hands to a service, and the answer that it gets.
ghost use Rattle.std.specs.Prelude.{◌≡◌, ◌<◌};
ghost use Rattle.thumb_code.specs.RegisterFile.{low, put_low};
ghost use Rattle.bank_model.specs.Standing.{fiber_on};
ghost use Rattle.bank_model.specs.AllServices.{word_argument, argument, asked_event};

use board_world::Event;
use fiber_runtime::Runtime;

/// One of R0 to R3.
pub fn word(runtime: &Runtime, k: usize) -> u32
    requires { k < 4 }
    ensures { result ≡ word_argument (fiber_on runtime.now.machine) k }
{
    runtime.registers().r[k]
}

/// One of R0 to R3 as a signed number.
pub fn number(runtime: &Runtime, k: usize) -> i32
    requires { k < 4 }
    ensures { result ≡ argument (fiber_on runtime.now.machine) k }
{
    word(runtime, k).cast_signed()
}

/// The event of R0 and R1.
pub fn asked_event(runtime: &Runtime) -> Event
    ensures { result ≡ asked_event (fiber_on runtime.now.machine) }
{
    Event {
        source: number(runtime, 0),
        value: number(runtime, 1),
    }
}

/// An answer comes in R0.
pub fn answer(runtime: &mut Runtime, word: u32)
    ensures { runtime.new ≡ record runtime.old { machine = record runtime.old.machine { registers = put_low runtime.old.machine.registers 0 word } } }
{
    let mut registers = runtime.registers();
    registers.r[0] = word;
    runtime.set_registers(registers);
}
