// Services by which a fiber ends, or raises an event at once.
ghost use Rattle.std.specs.Prelude.{◌≡◌, ◌<◌, ℕ, Some, None, IsSome, MatchOption, length};
ghost use Rattle.board_world.specs.Waiting.{handler_of};
ghost use Rattle.message_bus.specs.Agreement.{hearings};
ghost use Rattle.fiber_runtime.specs.declared.turning.Turning.{Turning};
ghost use Rattle.fiber_runtime.specs.Moves.{Ended, restarted};
ghost use Rattle.board_services.specs.declared.numbers.TheConstants.{END, RAISE_NOW};
ghost use Rattle.bank_model.specs.AllServices.{service};
ghost use Rattle.bank_model.specs.Standing.{IsInside};
ghost use Rattle.board_run.specs.Represents.{IsShown, state_of};
ghost use Rattle.board_run.specs.Serving.{IsServed, Keeps};

use crate::arguments::asked_event;
use crate::end::Stop;
use crate::engine::{Engine, Served};
use crate::place::place_for;
use board_outside::Output;
use board_world::{Event, RAISER_PANIC};
use fiber_runtime::Runtime;
use fork_on_block::{again, leave, nest};
use message_bus::Bus;

/// The running fiber ends: its record, where it has one, is free.
fn end(runtime: &mut Runtime)
    requires { IsSome runtime.old.running }
    ensures { (t : Turning) → runtime.old.running ≡ Some t → MatchOption t.key
        (runtime.new ≡ record runtime.old { running = None }) (λ key. Ended key runtime.old runtime.new) }
{
    if runtime.running().is_none() {
        leave(runtime);
    } else {
        runtime.end();
    }
}

/// The running handler begins again with an event that its listener held.
fn begin_again(runtime: &mut Runtime, bus: &Bus, at: u32, event: Event)
    requires runs { IsSome runtime.old.running }
    requires stands { at < length bus.now.listeners }
    ensures { (t : Turning) → runtime.old.running ≡ Some t → runtime.new
        ≡ restarted (handler_of at (hearings bus.now.listeners)) (record t { value = event.value }) runtime.old }
{
    match bus.listener(at as usize) {
        Some(listener) => again(runtime, listener.handler, event),
        None => unreachable!(),
    }
}

impl Engine {
    /// Service 0: the fiber ends, and its record is free. A handler whose listener holds an event begins again instead.
    pub fn end_fiber(&mut self) -> Served
        requires runs { IsSome self.old.runtime.running }
        requires shown { IsShown (state_of self.old) }
        ensures served { (at : ℕ) → IsServed (λ image. service image at END) result self.old self.new }
        ensures keeps { Keeps self.old self.new }
    {
        match self.runtime.listener() {
            None => end(&mut self.runtime),
            Some(at) => match self.bus.again(at as usize) {
                None => end(&mut self.runtime),
                Some(event) => begin_again(&mut self.runtime, &self.bus, at, event),
            },
        }
        Served::Goes(Output::Nothing)
    }

    /// Service 23: the handlers of an event begin on top of the fiber, which goes on behind them.
    pub fn raise_now(&mut self) -> Served
        requires runs { IsSome self.old.runtime.running }
        requires inside { IsInside self.old.runtime.machine.registers.sp self.old.runtime.machine.memory.base }
        requires shown { IsShown (state_of self.old) }
        ensures served { (at : ℕ) → IsServed (λ image. service image at RAISE_NOW) result self.old self.new }
        ensures keeps { Keeps self.old self.new }
    {
        let event = asked_event(&self.runtime);
        if self.bus.begins(event) {
            return match nest(&mut self.runtime) {
                Err(_) => Served::Stops(Stop::Panic(RAISER_PANIC)),
                Ok(()) => {
                    let place = place_for(&mut self.bus, event);
                    self.places.push(place);
                    self.runtime.wake_waiters(event);
                    Served::Goes(Output::Nothing)
                }
            };
        }
        let _ = self.bus.dispatch(event);
        self.runtime.wake_waiters(event);
        Served::Goes(Output::Nothing)
    }
}
