//! The turns of the boards of a class at a moment.
ghost use Rattle.std.specs.Prelude.{◌≡◌, ◌<◌, ◌≤◌, ℕ, List, Option};
ghost use Rattle.class_radio.specs.Stepped.{ClassPlan, Past};
ghost use Rattle.class_radio.specs.Stopping.{MayTurn, Turned, AreAt, AllTurned};

use crate::closing::put_budget;
use crate::player::{Player, Step};
use crate::run::ClassEnd;
use tool_io::{PutFailed, Sink};

/// A board to which something comes at a moment goes through it.
fn go_now<K: Sink>(
    player: &mut Player,
    number: usize,
    moment: u32,
    out: &mut K,
) -> Result<(), ClassEnd>
    requires few { number < 10 }
    requires may { (budget : ℕ) × (h : Past) × MayTurn budget moment number h player.old }
    requires due { player.old.due ≡ Some moment }
    ensures turned { (budget : ℕ) (h : Past) → MayTurn budget moment number h player.old
        → Turned budget moment number h player.old player.new (K.taken out.old) (K.taken out.new) (K.faults out.old)
        (K.faults out.new) result }
    ensures later { K.faults out.old ≤ K.faults out.new }
{
    match player.go(moment, out) {
        Step::Through => Ok(()),
        Step::Budget => match put_budget(player, moment, out) {
            Ok(()) => Err(ClassEnd::Budget(number as u32)),
            Err(PutFailed) => Err(ClassEnd::SinkFault),
        },
        Step::SinkFault => Err(ClassEnd::SinkFault),
    }
}

/// A board goes through a moment, if something comes to it then. An end is told where its budget ended or the sink failed.
fn go_one<K: Sink>(
    player: &mut Player,
    number: usize,
    moment: u32,
    out: &mut K,
) -> Result<(), ClassEnd>
    requires few { number < 10 }
    requires may { (budget : ℕ) × (h : Past) × MayTurn budget moment number h player.old }
    ensures turned { (budget : ℕ) (h : Past) → MayTurn budget moment number h player.old
        → Turned budget moment number h player.old player.new (K.taken out.old) (K.taken out.new) (K.faults out.old)
        (K.faults out.new) result }
    ensures later { K.faults out.old ≤ K.faults out.new }
{
    match player.due() {
        Some(due) => {
            if due == moment {
                go_now(player, number, moment, out)
            } else {
                Ok(())
            }
        }
        None => Ok(()),
    }
}

/// All boards to which something comes at a moment go through it, in their order. An end is told by the first whose budget ended, or at which the sink failed.
pub fn go_all<K: Sink>(players: &mut Vec<Player>, moment: u32, out: &mut K) -> Result<(), ClassEnd>
    requires may { (plan : ClassPlan) × (began : Option (List ℕ)) × (pasts : List Past)
        × AreAt plan began moment pasts players.old.items (K.taken out.old) }
    ensures turned { (plan : ClassPlan) (began : Option (List ℕ)) (pasts : List Past)
        → AreAt plan began moment pasts players.old.items (K.taken out.old)
        → AllTurned plan began moment players.new.items (K.taken out.new) (K.faults out.old) (K.faults out.new) result }
    ensures later { K.faults out.old ≤ K.faults out.new }
{
    for number in 0..players.len() {
        match go_one(&mut players[number], number, moment, out) {
            Ok(()) => {}
            Err(end) => return Err(end),
        }
    }
    Ok(())
}
