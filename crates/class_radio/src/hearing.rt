//! What boards hear of one another.
ghost use Rattle.std.specs.Prelude.{◌≡◌, ◌+◌, ◌<◌, ◌≢◌, map, set, vec_len, slice_index_or};
ghost use Rattle.class_radio.specs.declared.player.Player.{Player as PlayerState};
ghost use Rattle.class_radio.specs.Playing.{hearing_all, said};
ghost use Rattle.class_radio.specs.Losses.{lost_by};
ghost use Rattle.class_radio.specs.Hearing.{told_to, all_hearing};

use crate::losses::Losses;
use crate::player::Player;

/// One board hears what another one sent at a moment, one moment later.
fn hear_one(players: &mut Vec<Player>, from: usize, to: usize, moment: u32)
    requires early { moment < 4294967295 }
    requires from { from < vec_len players.old }
    requires to { to < vec_len players.old }
    requires other { from ≢ to }
    ensures heard { (d : PlayerState) → players.new.items ≡ set players.old.items to
        (hearing_all (moment + 1) (said moment (slice_index_or players.old.items from d))
        (slice_index_or players.old.items to d)) }
    ensures same { vec_len players.new ≡ vec_len players.old }
{
    for at in 0..players[from].sent_at(moment).len() {
        let number = players[from].sent_at(moment)[at];
        players[to].hear(moment + 1, number);
    }
}

/// One board hears what all others sent at a moment, in their order.
fn hear_others(players: &mut Vec<Player>, losses: &Losses, to: usize, moment: u32)
    requires early { moment < 4294967295 }
    requires to { to < vec_len players.old }
    ensures heard { (d : PlayerState) → players.new.items ≡ set players.old.items to
        (hearing_all (moment + 1) (told_to (lost_by losses.now) moment to 0 (map (said moment) players.old.items))
        (slice_index_or players.old.items to d)) }
    ensures same { vec_len players.new ≡ vec_len players.old }
{
    for from in 0..players.len() {
        if from != to && !losses.lost(moment, from, to) {
            hear_one(players, from, to, moment);
        }
    }
}

/// All boards hear what the others sent at a moment, one moment later: in the order of those, and of sending.
pub fn hear_all(players: &mut Vec<Player>, losses: &Losses, moment: u32)
    requires early { moment < 4294967295 }
    ensures heard { players.new.items
        ≡ all_hearing (lost_by losses.now) moment (map (said moment) players.old.items) 0 players.old.items }
{
    for to in 0..players.len() {
        hear_others(players, losses, to, moment);
    }
}
