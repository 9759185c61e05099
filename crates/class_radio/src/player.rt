//! A board of a class, between its moments and through one.
ghost use Rattle.std.specs.Prelude.{◌≡◌, ◌<◌, ◌≤◌, [], ℕ, List, Some, IfOk, vec_len, codes, ◌++◌};
ghost use Rattle.thumb_code.specs.Map.{flash_end};
ghost use Rattle.board_world.specs.Board.{Entry};
ghost use Rattle.board_world.specs.Observations.{Observation};
ghost use Rattle.event_script.specs.Sound.{IsSound};
ghost use Rattle.event_script.specs.declared.script.Script.{Script as EventScript};
ghost use Rattle.class_radio.specs.Playing.{Setup, IsNumbered, IsFresh, hearing, said};
ghost use Rattle.class_radio.specs.Stepping.{MayGoOn, PlayedOn, IsTaken, noting, step_told};

use board_ports::SureDevice;
use board_run::{Board, End, Gone};
use board_world::Event;
use event_script::Script;
use std::alloc::Global;
use sts_base::NoMemory;
use tool_io::Sink;

/// The source of the events that numbers heard by radio are.
const RADIO_SOURCE: i32 = 200;

/// Whether a board of a class still plays.
#[derive(Clone, Copy, Debug, PartialEq, Eq, Drop)]
pub enum Standing {
    /// It goes on, or waits.
    Plays,
    /// Its run ended by a panic.
    Panicked,
    /// Its run ended by a fault of the machine.
    Faulted,
}

/// What became of a board that went through a moment of its class.
#[derive(Clone, Copy, Debug, PartialEq, Eq, Drop)]
pub enum Step {
    /// It has gone through the moment, or has ended in it.
    Through,
    /// Its budget was executed, and somebody would still go on.
    Budget,
    /// The sink failed.
    SinkFault,
}

/// A board of a class.
#[derive(Drop)]
pub struct Player {
    board: Board<SureDevice>,
    /// Its number and a space.
    lead: [u8; 2],
    /// What is left of its budget of instructions.
    left: u32,
    /// When something comes to it next.
    due: Option<u32>,
    standing: Standing,
}

impl Player {
    /// A board with this number, image, script and budget, which goes first at moment 0. All memory of its run is taken here.
    pub fn mount(
        alloc: Global,
        number: u8,
        image: Vec<u8>,
        script: Script,
        budget: u32,
    ) -> Result<Player, NoMemory>
        requires size { vec_len image ≤ flash_end }
        requires script { IsSound script }
        requires digit { number < 10 }
        requires most { budget ≤ 2147483648 }
        ensures fresh { IfOk result (IsFresh (record { image = image.items; script = script })) }
        ensures numbered { IfOk result (IsNumbered number budget) }
    {
        match Board::mount(alloc, image, script, Vec::new(alloc)) {
            Ok(board) => Ok(Player {
                board,
                lead: [b'0' + number, b' '],
                left: budget,
                due: Some(0),
                standing: Standing::Plays,
            }),
            Err(_) => Err(NoMemory),
        }
    }

    /// When something comes to it next, in milliseconds. None where nothing is left to come, or its run has ended.
    pub fn due(&self) -> Option<u32>
        ensures { result ≡ self.now.due }
    {
        self.due
    }

    /// Whether it still plays.
    pub fn standing(&self) -> Standing
        ensures { result ≡ self.now.standing }
    {
        self.standing
    }

    /// The moment that it went through last.
    pub fn clock(&self) -> u32
        ensures { result ≡ self.now.board.engine.clock }
    {
        self.board.clock()
    }

    /// What stands before its lines: its number and a space.
    pub fn lead(&self) -> &[u8]
        ensures { result.now ≡ self.now.lead }
    {
        &self.lead
    }

    /// The first 32 numbers that it sent at a moment.
    pub fn sent_at(&self, moment: u32) -> &[i32]
        ensures { result.now ≡ said moment self.now }
    {
        let sent = self.board.sent();
        if self.board.clock() == moment {
            sent
        } else {
            &sent[..0]
        }
    }

    /// It hears a number, which is raised at this moment. Where its run has ended nothing happens.
    pub fn hear(&mut self, moment: u32, number: i32)
        ensures { self.new ≡ hearing moment number self.old }
    {
        match self.standing {
            Standing::Plays => {
                let event = Event {
                    source: RADIO_SOURCE,
                    value: number,
                };
                self.board.deliver(event);
                self.due = Some(moment);
            }
            Standing::Panicked => {}
            Standing::Faulted => {}
        }
    }

    /// It goes through a moment, for what is left of its budget, and puts its lines of it, with the closing line where its run ends by a panic or a fault.
    ///
    /// `Budget` comes exactly where its whole budget was executed and somebody would still go on; no closing line is put then. `SinkFault` comes only
    /// where the sink's count of faults rose in this call. No memory is taken.
    pub fn go<K: Sink>(&mut self, moment: u32, out: &mut K) -> Step
        requires may { (number budget : ℕ) × (setup : Setup) × (script : List Entry) × (used : List ℕ)
            × (seen : List Observation) × MayGoOn number budget setup script moment used seen self.old }
        ensures stepped { (number budget : ℕ) (setup : Setup) (script : List Entry) (used : List ℕ)
            (seen : List Observation) → MayGoOn number budget setup script moment used seen self.old
            → PlayedOn number budget setup script moment seen self.new (K.taken out.old) (K.taken out.new)
            (K.faults out.old) (K.faults out.new) result }
        ensures lead { self.new.lead ≡ self.old.lead }
        ensures later { K.faults out.old ≤ K.faults out.new }
    {
        let gone = self.board.go_led(moment, self.left, &self.lead, out);
        self.note(gone)
    }

    /// Notes what became of its board, and tells it.
    fn note(&mut self, gone: Gone) -> Step
        requires { IsTaken self.old.left gone }
        ensures noting { self.new ≡ noting gone self.old }
        ensures answer { result ≡ step_told gone }
    {
        match gone {
            Gone::Idle { used } => {
                self.left -= used;
                self.due = self.board.next_moment();
                Step::Through
            }
            Gone::Ended(End::Panic(_)) => {
                self.standing = Standing::Panicked;
                self.due = None;
                Step::Through
            }
            Gone::Ended(End::Fault(_, _)) => {
                self.standing = Standing::Faulted;
                self.due = None;
                Step::Through
            }
            Gone::Ended(End::SinkFault) => Step::SinkFault,
            Gone::Ended(End::Budget) => Step::Budget,
            Gone::Ended(End::Quiet) => Step::Budget,
            Gone::Ended(End::Script) => Step::Budget,
        }
    }
}
