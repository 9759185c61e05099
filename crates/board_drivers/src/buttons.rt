// The buttons.
ghost use Rattle.std.specs.Prelude.{◌≡◌, ◌<◌, ◌≤◌, ℕ, ◌⊎◌, Option, Some, None, pos};
ghost use Rattle.board_world.specs.Board.{Board, Down, Up, arrive, held_since};
ghost use Rattle.board_world.specs.Kinds.{flag, pressed};
ghost use Rattle.message_bus.specs.BusState.{BusState};
ghost use Rattle.board_drivers.specs.Buttons.{all_up, since_of, with_since, queue_down, queue_up, is_down_at, HasButtons};

use board_world::{CLICK_LIMIT, Event};
use message_bus::Bus;
use std::marker::Model;

/// Button A, which is 1, and button B, which is 2: for each that is down, since when.
#[derive(Drop)]
pub struct Buttons {
    a: Option<u32>,
    b: Option<u32>,
}

impl Model for Buttons {
    ghost use Rattle.board_drivers.specs.Buttons.{Since};

    ghost Value = { Since };

    ghost view = { λ s. record { a_since = s.a; b_since = s.b } };
}

/// A press of a button that is up raises value 1.
fn press(since: &mut Option<u32>, button: u8, now: u32, bus: &mut Bus)
    ensures since { since.new ≡ held_since now since.old }
    ensures bus { bus.new ≡ record bus.old { queue = queue_down button since.old bus.old.queue } }
{
    if since.is_none() {
        *since = Some(now);
        let _ = bus.raise(Event {
            source: i32::from(button),
            value: 1,
        });
    }
}

/// The release of a button that is down raises value 2, then 3 for a click and 4 for a long click.
fn release(since: &mut Option<u32>, button: u8, now: u32, bus: &mut Bus)
    ensures since { since.new ≡ None }
    ensures bus { bus.new ≡ record bus.old { queue = queue_up now button since.old bus.old.queue } }
{
    if let Some(from) = *since {
        *since = None;
        let source = i32::from(button);
        let _ = bus.raise(Event { source, value: 2 });
        let value = if now.saturating_sub(from) < CLICK_LIMIT {
            3
        } else {
            4
        };
        let _ = bus.raise(Event { source, value });
    }
}

impl Buttons {
    /// Both are up.
    pub fn new() -> Buttons
        ensures { result ≡ all_up }
    {
        Buttons { a: None, b: None }
    }

    /// The button goes down at this moment, in milliseconds. Where it was up, the event of its number and value 1 is raised
    /// on the bus, which drops it where its queue is full; where it was down, nothing changes.
    pub fn down(&mut self, button: u8, now: u32, bus: &mut Bus)
        requires { (button ≡ 1) ⊎ (button ≡ 2) }
        ensures since { self.new ≡ with_since button (held_since now (since_of button self.old)) self.old }
        ensures bus { bus.new ≡ record bus.old { queue = queue_down button (since_of button self.old) bus.old.queue } }
        ensures board { (b : Board) → HasButtons now self.old bus.old b
            → HasButtons now self.new bus.new (arrive (Down button) b) }
    {
        if button == 1 {
            press(&mut self.a, button, now, bus);
        } else {
            press(&mut self.b, button, now, bus);
        }
    }

    /// The button goes up at this moment, in milliseconds. Where it was down, value 2 is raised, and then 3 where it was
    /// held for less than `CLICK_LIMIT` milliseconds, else 4; where it was up, nothing changes.
    pub fn up(&mut self, button: u8, now: u32, bus: &mut Bus)
        requires { (button ≡ 1) ⊎ (button ≡ 2) }
        ensures since { self.new ≡ with_since button None self.old }
        ensures bus { bus.new
            ≡ record bus.old { queue = queue_up now button (since_of button self.old) bus.old.queue } }
        ensures board { (b : Board) → HasButtons now self.old bus.old b
            → HasButtons now self.new bus.new (arrive (Up button) b) }
    {
        if button == 1 {
            release(&mut self.a, button, now, bus);
        } else {
            release(&mut self.b, button, now, bus);
        }
    }

    /// Whether the button is down. There are 1 and 2; every other number is no button, and not down.
    pub fn is_down(&self, button: i32) -> bool
        ensures down { result ≡ is_down_at button self.now }
        ensures board { (now : ℕ) (bus : BusState) (b : Board) → HasButtons now self.now bus b
            → pressed button b ≡ flag result }
    {
        match button {
            1 => self.a.is_some(),
            2 => self.b.is_some(),
            _ => false,
        }
    }
}
