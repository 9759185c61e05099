// All services, by their numbers.
ghost use Rattle.std.specs.Prelude.{◌≡◌, ◌≢◌, ◌+◌, ◌%◌, ◌^◌, ◌<◌, ◌≤◌, ℕ, All, IsSome};
ghost use Rattle.board_world.specs.Limits.{end_limit};
ghost use Rattle.bank_model.specs.AllServices.{service as service_of, word_argument};
ghost use Rattle.bank_model.specs.Standing.{IsInside, fiber_on};
ghost use Rattle.board_run.specs.declared.end.Stop.TheVariants.{Panic};
ghost use Rattle.board_run.specs.declared.engine.Served.TheVariants.{Stops};
ghost use Rattle.board_run.specs.Represents.{IsShown, state_of};
ghost use Rattle.board_run.specs.Serving.{IsServed, Keeps};

use crate::arguments::{asked_event, number, word};
use crate::end::Stop;
use crate::engine::{Engine, Served};
use armv6m_machine::Fault;
use board_services::{
    ALLOCATE, BUTTON, DIVIDE, END, EVENT_VALUE, LISTEN, LISTEN_IN_MODE, NUMBER_GLYPH, PANIC, PAUSE,
    PLOT, PUSH, RAISE, RAISE_NOW, REMAINDER, SEND, SHOW, SPAWN, TEXT_GLYPH, TIME, WAIT,
    WRITE_NUMBER, WRITE_PIN, WRITE_TEXT,
};
use board_world::QUEUES_IF_BUSY;
use fiber_runtime::{Runtime, Why};

/// Service 1: a panic with the code of R0.
fn panics(runtime: &Runtime) -> Served
    ensures { result ≡ Stops (Panic (word_argument (fiber_on runtime.now.machine) 0 % 256)) }
{
    Served::Stops(Stop::Panic((word(runtime, 0) % 256) as u8))
}

impl Engine {
    /// Does the service of a number, for which the instruction at an address has asked. Where it ends the run, nothing has changed.
    #[inline(never)]
    pub fn serve(&mut self, service: u8, at: u32) -> Served
        requires runs { IsSome self.old.runtime.running }
        requires shown { IsShown (state_of self.old) }
        requires inside { IsInside self.old.runtime.machine.registers.sp self.old.runtime.machine.memory.base }
        requires early { self.old.clock ≤ end_limit }
        requires bytes { All (λ b. b < 256) self.old.runtime.machine.memory.flash }
        requires spawned { self.old.counts.spawned + 1 < 2 ^ 64 }
        requires blocked { self.old.counts.blocked + 1 < 2 ^ 64 }
        requires words { self.old.counts.words + 1024 < 2 ^ 64 }
        ensures served { IsServed (λ image. service_of image at service) result self.old self.new }
        ensures keeps { Keeps self.old self.new }
    {
        match service {
            END => self.end_fiber(),
            PANIC => panics(&self.runtime),
            PAUSE => {
                let time = number(&self.runtime, 0);
                self.block(Why::Pause(time))
            }
            WAIT => {
                let event = asked_event(&self.runtime);
                self.block(Why::Wait(event))
            }
            SPAWN => self.spawn(at),
            LISTEN => self.listen(QUEUES_IF_BUSY, at),
            LISTEN_IN_MODE => {
                let mode = number(&self.runtime, 3);
                self.listen(mode, at)
            }
            RAISE_NOW => self.raise_now(),
            _ => self.serve_board(service, at),
        }
    }

    /// The services that ask the board for something, or tell it something.
    fn serve_board(&mut self, service: u8, at: u32) -> Served
        requires high { RAISE ≤ service }
        requires not_listen { service ≢ LISTEN_IN_MODE }
        requires not_raise { service ≢ RAISE_NOW }
        requires runs { IsSome self.old.runtime.running }
        requires bytes { All (λ b. b < 256) self.old.runtime.machine.memory.flash }
        ensures served { IsServed (λ image. service_of image at service) result self.old self.new }
        ensures keeps { Keeps self.old self.new }
    {
        match service {
            RAISE => self.raise(),
            TIME => self.time(),
            EVENT_VALUE => self.value(),
            BUTTON => self.pressed(),
            PLOT => self.plot(at),
            SHOW => self.show(),
            WRITE_NUMBER => self.write_number(),
            WRITE_TEXT => self.write_text(at),
            WRITE_PIN => self.set_pin(),
            SEND => self.send(),
            _ => self.serve_value(service, at),
        }
    }

    /// The services that reckon, and those of the arena. There are no others.
    fn serve_value(&mut self, service: u8, at: u32) -> Served
        requires high { TEXT_GLYPH ≤ service }
        requires not_listen { service ≢ LISTEN_IN_MODE }
        requires not_raise { service ≢ RAISE_NOW }
        requires bytes { All (λ b. b < 256) self.old.runtime.machine.memory.flash }
        ensures served { IsServed (λ image. service_of image at service) result self.old self.new }
        ensures keeps { Keeps self.old self.new }
    {
        match service {
            TEXT_GLYPH => self.text_glyph(at),
            NUMBER_GLYPH => self.number_glyph(),
            ALLOCATE => self.allocate(at),
            PUSH => self.push(at),
            DIVIDE => self.divide(),
            REMAINDER => self.take_remainder(),
            _ => Served::Stops(Stop::Fault(Fault::BadService, at)),
        }
    }
}
