//! The closing lines of a class, and how many boards stopped.
ghost use Rattle.std.specs.Prelude.{◌≡◌, ◌<◌, ◌++◌, length, max, if◌then◌else◌, ℕ, List, None};
ghost use Rattle.board_world.specs.Observations.{Observation};
ghost use Rattle.board_world.specs.Transcript.{closing_line};
ghost use Rattle.class_world.specs.Lines.{board_lead, closing_lines, numbered};
ghost use Rattle.tool_io.specs.Putting.{PutsTo};
ghost use Rattle.class_steps.specs.Outlook.{last_line, looks};
ghost use Rattle.class_radio.specs.Stepped.{outlooks};
ghost use Rattle.class_radio.specs.Closing.{IsLed, AreLed, some_due, latest_clock, last_line_of, end_line_of, stands_same, how_many_stand};

use crate::player::{Player, Standing};
use board_outside::{then_put_budget, then_put_quiet, then_put_script};
use tool_io::{PutFailed, Sink};

/// Puts the closing line of a board whose budget ended at a moment.
pub fn put_budget<K: Sink>(player: &Player, moment: u32, out: &mut K) -> Result<(), PutFailed>
    ensures { (number : ℕ) → player.now.lead ≡ board_lead number
        → PutsTo K.taken K.faults out.old out.new (numbered number (closing_line moment None)) result }
{
    let put = out.put(player.lead());
    then_put_budget(put, out, moment)
}

/// Whether something is left to come to some board.
fn some_waits(players: &[Player]) -> bool
    ensures { result ≡ some_due players.now }
{
    for player in players {
        if player.due().is_some() {
            return true;
        }
    }
    false
}

/// The later one of two moments.
fn later(first: u32, second: u32) -> u32
    ensures { result ≡ max first second }
{
    if first < second { second } else { first }
}

/// The greatest moment that some board went through.
fn latest(players: &[Player]) -> u32
    ensures { result ≡ latest_clock players.now }
{
    let mut latest = 0;
    for player in players {
        latest = later(latest, player.clock());
    }
    latest
}

/// Puts the closing line of a class behind a board's number: by the script at the class's end, or quiet at a moment.
fn put_last<K: Sink>(
    player: &Player,
    by_script: bool,
    end: u32,
    latest: u32,
    out: &mut K,
) -> Result<(), PutFailed>
    ensures { (number : ℕ) → player.now.lead ≡ board_lead number
        → PutsTo K.taken K.faults out.old out.new (numbered number (last_line_of by_script end latest)) result }
{
    let put = out.put(player.lead());
    if by_script {
        then_put_script(put, out, end)
    } else {
        then_put_quiet(put, out, latest)
    }
}

/// Puts it where the board still plays.
fn put_end<K: Sink>(
    player: &Player,
    by_script: bool,
    end: u32,
    latest: u32,
    out: &mut K,
) -> Result<(), PutFailed>
    ensures { (number : ℕ) → IsLed number player.now
        → PutsTo K.taken K.faults out.old out.new
        (end_line_of player.now.standing number (last_line_of by_script end latest)) result }
{
    match player.standing() {
        Standing::Plays => put_last(player, by_script, end, latest, out),
        Standing::Panicked => Ok(()),
        Standing::Faulted => Ok(()),
    }
}

/// Puts the closing line of each board that still plays: by the script at the class's end where something was left to come to some board; else quiet at
/// the greatest moment that some board went through.
pub fn put_ends<K: Sink>(players: &[Player], end: u32, out: &mut K) -> Result<(), PutFailed>
    ensures { (seen : List (List Observation)) → AreLed 0 players.now
        → PutsTo K.taken K.faults out.old out.new
        (closing_lines (last_line end (outlooks seen players.now)) 0 (looks (outlooks seen players.now))) result }
{
    let by_script = some_waits(players);
    let latest = latest(players);
    for player in players {
        match put_end(player, by_script, end, latest, out) {
            Ok(()) => {}
            Err(failed) => return Err(failed),
        }
    }
    Ok(())
}

/// Whether two boards stand alike.
fn is_so(first: Standing, second: Standing) -> bool
    ensures { result ≡ stands_same first second }
{
    match (first, second) {
        (Standing::Plays, Standing::Plays) => true,
        (Standing::Panicked, Standing::Panicked) => true,
        (Standing::Faulted, Standing::Faulted) => true,
        (Standing::Plays, _) => false,
        (Standing::Panicked, _) => false,
        (Standing::Faulted, _) => false,
    }
}

/// 1 for a board that stands so.
fn one_of(player: &Player, standing: Standing) -> u32
    ensures { result ≡ (if stands_same player.now.standing standing then 1 else 0) }
{
    if is_so(player.standing(), standing) {
        1
    } else {
        0
    }
}

/// How many boards stand so.
pub fn how_many(players: &[Player], standing: Standing) -> u32
    requires few { length players.now < 4294967296 }
    ensures { result ≡ how_many_stand standing players.now }
{
    let mut count = 0;
    for player in players {
        count += one_of(player, standing);
    }
    count
}
