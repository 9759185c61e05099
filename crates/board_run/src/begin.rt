// How the next fiber is put into the machine.
ghost use Rattle.std.specs.Prelude.{◌≡◌, ◌<◌, [], ℕ, List, None, IsSome, length};
ghost use Rattle.std.specs.Bool.{OnTrue, OnFalse};
ghost use Rattle.board_world.specs.Waiting.{handler_of};
ghost use Rattle.message_bus.specs.Agreement.{hearings};
ghost use Rattle.fiber_runtime.specs.Moves.{started};
ghost use Rattle.fork_on_block.specs.Handlers.{base_for};
ghost use Rattle.board_run.specs.Shown.{handler_turning};
ghost use Rattle.board_run.specs.Represents.{IsShown, IsEmpty, state_of};
ghost use Rattle.board_run.specs.Run.{Comes};
ghost use Rattle.board_run.specs.Serving.{IsCopiedIn};

use crate::engine::Engine;
use board_world::Event;
use fiber_runtime::Runtime;
use fork_on_block::{invoke, unnest};
use message_bus::Bus;

/// The handler of a listener begins: on the innermost raiser's SP, or on word 0 of flash.
fn begin_handler(runtime: &mut Runtime, bus: &Bus, event: Event, at: u32)
    requires idle { runtime.old.running ≡ None }
    requires stands { at < length bus.now.listeners }
    ensures { runtime.new ≡ started (handler_of at (hearings bus.now.listeners))
        (base_for runtime.old.machine.memory.flash runtime.old.raisers) (handler_turning event at) runtime.old }
{
    match bus.listener(at as usize) {
        Some(listener) => {
            invoke(runtime, listener.handler, event);
            runtime.set_listener(at);
        }
        None => unreachable!(),
    }
}

impl Engine {
    /// The next handler begins, or the innermost raiser goes on, or the first ready fiber is copied in by the switch. False exactly where none of them
    /// is there; then nothing changes.
    pub fn begin(&mut self) -> bool
        requires idle { self.old.runtime.running ≡ None }
        requires shown { IsShown (state_of self.old) }
        ensures comes { (image : List ℕ) → Comes image 0 [] (state_of self.old) (state_of self.new) }
        ensures stays { self.new
            ≡ record self.old { runtime = self.new.runtime; switch = self.new.switch; places = self.new.places } }
        ensures runs { OnTrue result (IsSome self.new.runtime.running) }
        ensures same { OnFalse result (self.new ≡ self.old) }
        ensures nobody { OnFalse result (IsEmpty (state_of self.old)) }
        ensures copied { OnTrue result (IsCopiedIn self.old self.new) }
    {
        match self.places.take_next() {
            Some((event, at)) => {
                begin_handler(&mut self.runtime, &self.bus, event, at);
                true
            }
            None => {
                if unnest(&mut self.runtime) {
                    self.places.pop();
                    true
                } else {
                    self.switch.resume(&mut self.runtime)
                }
            }
        }
    }
}
