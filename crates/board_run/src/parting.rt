//! A board that is run in parts, between which somebody outside acts.
ghost use Rattle.std.specs.Prelude.{◌≡◌, ◌+◌, ◌<◌, ◌≤◌, ◌⊎◌, ◌^◌, [], None, IfNone, IsSome};
ghost use Rattle.board_world.specs.Board.{IsSoundAct};
ghost use Rattle.event_script.specs.World.{world_act};
ghost use Rattle.board_run.specs.Advancing.{IsWhole, IsSettled};
ghost use Rattle.board_run.specs.Outside.{PortsMeet, over_sink};
ghost use Rattle.board_run.specs.Ran.{Parted, MayArrive, Arrives};
ghost use Rattle.board_run.specs.Represents.{state_of};

use crate::board::Board;
use crate::end::End;
use crate::idle::apply;
use board_ports::Device;
use event_script::Act;
use tool_io::{PutFailed, Sink};

impl<D: Device> Board<D> {
    /// The clock of the world that the board shows, in milliseconds.
    pub fn clock(&self) -> u32
        ensures { result ≡ self.now.engine.clock }
    {
        self.engine.clock
    }

    /// Runs on for so many instructions. None exactly where all of them were executed and the run hasn't ended; else how it ended, which is
    /// never `Budget`. It writes the lines of what was seen in this call, and behind them the closing line where the run ended.
    ///
    /// The board is as `mount`, `part` or `arrive` left it. `SinkFault` comes only where the sink's count of faults rose in this call: then
    /// one line was cut, and the devices are as the run had left them before it. No memory is taken.
    pub fn part<K: Sink>(&mut self, instructions: u32, out: &mut K) -> Option<End>
        requires whole { IsWhole self.old.engine self.old.instructions }
        requires going { self.old.engine.end ≡ None }
        requires early { self.old.instructions < 2 ^ 49 }
        requires some { 1 ≤ instructions }
        ensures parted { Parted D.account instructions (over_sink K.taken K.faults self.old out.old)
            (over_sink K.taken K.faults self.new out.new) result }
        ensures whole { IfNone result (IsWhole self.new.engine self.new.instructions) }
        ensures settled { IfNone result (IsSettled self.new.engine) }
        ensures later { K.faults out.old ≤ K.faults out.new }
    {
        self.engine.settle(&mut self.plugs);
        match self.execute(instructions, out) {
            Ok(()) => {
                if self.engine.end.is_some() {
                    Some(self.finish(out))
                } else {
                    None
                }
            }
            Err(PutFailed) => Some(End::SinkFault),
        }
    }

    /// Somebody outside acts between two instructions, at the moment that the board's clock shows. The act is no unplug, and `part` answered
    /// None last.
    pub fn arrive(&mut self, act: Act)
        requires whole { IsWhole self.old.engine self.old.instructions }
        requires settled { IsSettled self.old.engine }
        requires going { self.old.engine.end ≡ None }
        requires sound { IsSoundAct (world_act act) }
        requires stays_plugged { MayArrive (world_act act) }
        ensures arrives { Arrives (world_act act) (state_of self.old.engine) (state_of self.new.engine) }
        ensures stays { self.new.engine
            ≡ record self.old.engine { bus = self.new.engine.bus; buttons = self.new.engine.buttons } }
        ensures ports { PortsMeet D.account [] self.old.plugs self.new.plugs }
        ensures whole { IsWhole self.new.engine self.new.instructions }
        ensures settled { IsSettled self.new.engine }
        ensures counted { self.new.instructions ≡ self.old.instructions }
    {
        let now = self.engine.clock;
        apply(
            act,
            now,
            &mut self.engine.buttons,
            &mut self.engine.bus,
            &mut self.plugs,
        );
    }
}
