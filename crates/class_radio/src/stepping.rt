//! The boards of a class, stepped together moment by moment.
ghost use Rattle.std.specs.Prelude.{◌≡◌, ◌<◌, ◌≤◌, ℕ, List, Option};
ghost use Rattle.class_radio.specs.Stepped.{ClassPlan, Past};
ghost use Rattle.class_radio.specs.Stopping.{AreAt, AllStepped};
ghost use Rattle.class_radio.specs.Hearing.{IsNextOf, soonest};

use crate::hearing::hear_all;
use crate::losses::Losses;
use crate::player::Player;
use crate::run::ClassEnd;
use crate::turns::go_all;
use tool_io::Sink;

/// The sooner one of two moments, where the second counts only up to the end.
fn sooner(first: Option<u32>, second: Option<u32>, end: u32) -> Option<u32>
    ensures soonest { result ≡ soonest end first second }
{
    match (first, second) {
        (Some(a), Some(b)) => Some(if b < a { b } else { a }),
        (None, Some(b)) => { if b <= end { Some(b) } else { None } }
        (Some(a), None) => Some(a),
        (None, None) => None,
    }
}

/// The next moment up to the end at which something comes to some board.
fn next_moment(players: &[Player], end: u32) -> Option<u32>
    ensures next { IsNextOf end players.now result }
{
    let mut next = None;
    for player in players {
        next = sooner(next, player.due(), end);
    }
    next
}

/// Steps the boards through all moments up to the end. An end is told by the first board whose budget ended, or at which the sink failed.
pub fn step_all<K: Sink>(
    players: &mut Vec<Player>,
    losses: &Losses,
    end: u32,
    out: &mut K,
) -> Result<(), ClassEnd>
    requires may { (plan : ClassPlan) × (pasts : List Past) × (plan.losses ≡ losses.now) × (plan.until ≡ end)
        × AreAt plan (K.taken out.old) 0 pasts players.old.items (K.taken out.old) }
    ensures stepped { (plan : ClassPlan) (pasts : List Past) → plan.losses ≡ losses.now → plan.until ≡ end
        → AreAt plan (K.taken out.old) 0 pasts players.old.items (K.taken out.old)
        → AllStepped plan (K.taken out.old) players.new.items (K.taken out.new) (K.faults out.old)
        (K.faults out.new) result }
    ensures later { K.faults out.old ≤ K.faults out.new }
{
    let mut next = Some(0);
    while let Some(moment) = next {
        match go_all(players, moment, out) {
            Ok(()) => {}
            Err(ended) => return Err(ended),
        }
        if moment < end {
            hear_all(players, losses, moment);
        }
        next = next_moment(players.as_slice(), end);
    }
    Ok(())
}
