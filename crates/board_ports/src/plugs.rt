// Devices in their places, and a mark for each port whose device has failed.
ghost use Rattle.std.specs.Prelude.{◌≡◌, ◌<◌, ◌∷◌, ◌++◌, [], ◌↔◌, ◌⊎◌, Bool, List, ℕ, None, true, false, length};
ghost use Rattle.std.specs.declared.option.Option.{Option};
ghost use Rattle.board_ports.specs.Logs.{at_moment};
ghost use Rattle.board_ports.specs.Plugged.{Sends, SendsAll, Settles};

use crate::{Device, Sent};
use std::marker::Model;

/// The devices that are plugged in during a run. The place in the list is the port, and a board has the ports 0 to 3.
/// A port whose device has failed is marked, and its device gets nothing more.
#[derive(Drop)]
pub struct Plugs<D> {
    places: Vec<Option<D>>,
    marks: [bool; 4],
}

impl<D> Model for Plugs<D> {
    ghost use Rattle.board_ports.specs.Plugged.{Plugged, plugged_code};

    ghost Value = { Plugged D };

    ghost coded = { plugged_code D.code };

    ghost view = { λ p. record { places = p.places.items; marks = p.marks } };
}

/// Sends a word to the device in a place, unless the place's mark stands.
fn deliver<D: Device>(place: &mut Option<D>, mark: &mut bool, now: u32, word: u32) -> Sent
    ensures { Sends D.account (now, word) place.old mark.old place.new mark.new result }
{
    if *mark {
        return Sent::Nobody;
    }
    match place {
        None => Sent::Nobody,
        Some(device) => {
            if device.write(now, word) {
                Sent::Went
            } else {
                *mark = true;
                Sent::Lost
            }
        }
    }
}

/// Sends bytes to the device in a place, a word for each until one fails, unless the place's mark stands.
fn deliver_bytes<D: Device>(place: &mut Option<D>, mark: &mut bool, now: u32, bytes: &[u8])
    ensures { SendsAll D.account (at_moment now bytes.now) place.old mark.old place.new mark.new }
{
    match place {
        Some(device) if !*mark => *mark = !device.write_bytes(now, bytes),
        _ => {}
    }
}

/// Lets the device in a place hear that no more words come, unless the place's mark stands.
fn settle_place<D: Device>(place: &mut Option<D>, mark: &mut bool)
    ensures { Settles D.settled D.account place.old mark.old place.new mark.new }
{
    match place {
        Some(device) if !*mark => *mark = !device.settle(),
        _ => {}
    }
}

impl<D: Device> Plugs<D> {
    ghost use Rattle.board_ports.specs.Logs.{at_moment};
    ghost use Rattle.board_ports.specs.Plugged.{OthersStay, SendsAt, SendsAllAt, SettlesAt, SettlesAll, device_at, mark_at};
    ghost use Rattle.board_ports.specs.History.{PortMove, Word, Unplug, words_sent, FollowsMoves, PlacesAfter, entries_at, unplugged_at};

    /// These places, and no mark. It is what no move has changed yet.
    pub fn new(places: Vec<Option<D>>) -> Plugs<D>
        ensures places { result.places ≡ places.items }
        ensures unmarked { (k : ℕ) → mark_at result.marks k ≡ false }
        ensures begins { FollowsMoves D.account [] places.items result }
    {
        Plugs {
            places,
            marks: [false; 4],
        }
    }

    /// Sends a word to the device at a port, at a moment in milliseconds. `Nobody` comes exactly where no device stands
    /// there or where the port is marked, and nothing changes then. `Lost` comes only where the device's count of faults
    /// rose in this call; it stays in its place, and the port is marked. Other ports are untouched.
    pub fn send(&mut self, port: usize, now: u32, word: u32) -> Sent
        requires { port < 4 }
        ensures sends { SendsAt D.account (now, word) port self.old self.new result }
        ensures nobody { (result ≡ Sent.Nobody)
            ↔ ((device_at self.old.places port ≡ None) ⊎ (mark_at self.old.marks port ≡ true)) }
        ensures others { OthersStay port self.old self.new }
        ensures follows { (moves : List PortMove) (start : List (Option D))
            → FollowsMoves D.account moves start self.old
            → FollowsMoves D.account (moves ++ Word port now word ∷ []) start self.new }
    {
        if port >= self.places.len() {
            return Sent::Nobody;
        }
        deliver(&mut self.places[port], &mut self.marks[port], now, word)
    }

    /// Sends bytes to the device at a port, at a moment, a word for each, as `send` does one by one: where one fails the port is marked, and those
    /// behind it are sent to nobody. Other ports are untouched.
    pub fn send_bytes(&mut self, port: usize, now: u32, bytes: &[u8])
        requires { port < 4 }
        ensures sends { SendsAllAt D.account (at_moment now bytes.now) port self.old self.new }
        ensures others { OthersStay port self.old self.new }
        ensures follows { (moves : List PortMove) (start : List (Option D))
            → FollowsMoves D.account moves start self.old
            → FollowsMoves D.account (moves ++ words_sent port now bytes.now) start self.new }
    {
        if port >= self.places.len() {
            return;
        }
        deliver_bytes(&mut self.places[port], &mut self.marks[port], now, bytes);
    }

    /// Lets the device at a port hear that no more words come: it holds none back any more then. If it fails, its count of faults rose in this
    /// call, and the port is marked. Other ports are untouched.
    fn settle(&mut self, port: usize)
        requires { port < 4 }
        ensures settles { SettlesAt D.settled D.account port self.old self.new }
        ensures others { OthersStay port self.old self.new }
        ensures follows { (moves : List PortMove) (start : List (Option D))
            → FollowsMoves D.account moves start self.old
            → FollowsMoves D.account moves start self.new }
    {
        if port >= self.places.len() {
            return;
        }
        settle_place(&mut self.places[port], &mut self.marks[port]);
    }

    /// The places, as the moves from the start on have left them, and as no more words come: the device at each port without a mark has let go
    /// of what it held back, or its count of faults rose.
    pub fn into_places(self) -> Vec<Option<D>>
        ensures settles { SettlesAll D.settled D.account self result.items }
        ensures after { (moves : List PortMove) (start : List (Option D))
            → FollowsMoves D.account moves start self
            → PlacesAfter D.account (entries_at moves) (unplugged_at moves) start result.items }
    {
        let mut plugs = self;
        for port in 0..4 {
            plugs.settle(port);
        }
        let Plugs { places, marks: _ } = plugs;
        places
    }

    /// Takes the device at a port out of its place, if there is one, as no more words come to it: it has let go of what it held back, or its
    /// count of faults rose, and it was not written to; where the port is marked it is as it was. The mark and the other ports are untouched.
    fn take_settled(&mut self, port: usize) -> Option<D>
        requires of_board { port < 4 }
        requires of_list { port < length self.now.places }
        ensures settles { (mark : Bool)
            × Settles D.settled D.account (device_at self.old.places port) (mark_at self.old.marks port) result mark }
        ensures gone { device_at self.new.places port ≡ None }
        ensures marks { self.new.marks ≡ self.old.marks }
        ensures others { OthersStay port self.old self.new }
    {
        let mut place = self.places[port].take();
        let mut mark = self.marks[port];
        settle_place(&mut place, &mut mark);
        place
    }

    /// Drops the device at a port, if there is one, as `take_settled` gives it: it heard before that no more words come, unless the port is
    /// marked. The mark and the other ports are untouched.
    pub fn unplug(&mut self, port: usize)
        requires { port < 4 }
        ensures gone { device_at self.new.places port ≡ None }
        ensures marks { self.new.marks ≡ self.old.marks }
        ensures others { OthersStay port self.old self.new }
        ensures follows { (moves : List PortMove) (start : List (Option D))
            → FollowsMoves D.account moves start self.old
            → FollowsMoves D.account (moves ++ Unplug port ∷ []) start self.new }
    {
        if port < self.places.len() {
            drop(self.take_settled(port));
        }
    }
}
