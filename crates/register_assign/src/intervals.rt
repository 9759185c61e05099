// Live intervals.
ghost use Rattle.std.specs.Prelude.{◌≡◌, ◌<◌, ◌≤◌, ◌↔◌, true, length, IsTrue};
ghost use Rattle.register_assign.specs.Marks.{AreMarks};
ghost use Rattle.register_assign.specs.Intervals.{Covers, HasEntry, AreApart, IsFree};
ghost use Rattle.register_assign.specs.Chosen.{busy_interval, are_apart, clashes, is_free};

use crate::liveness::writes;
use crate::places::Place;
use flat_ir::Op;

/// The places of ops from `first` up to but not including `end`.
#[derive(Clone, Copy, Drop)]
pub struct Interval {
    pub first: usize,
    pub end: usize,
}

/// An interval that has every place at which a temporary is live or written; a parameter's has the function's entry.
pub fn interval_of(ops: &[Op], t: usize, marks: &[bool], is_parameter: bool) -> Interval
    requires { AreMarks ops.now t marks.now }
    ensures covers { Covers ops.now t result }
    ensures entry { is_parameter ≡ true → HasEntry result }
    ensures chosen { result ≡ busy_interval ops.now t is_parameter }
{
    let mut first = if is_parameter { 0 } else { ops.len() };
    let mut end = if is_parameter { 1 } else { 0 };
    for (at, op) in ops.iter().enumerate() {
        let busy = marks[at] || writes(op, t);
        if busy {
            first = first.min(at);
            end = at + 1;
        }
    }
    Interval { first, end }
}

/// Whether two intervals have no place in common.
fn are_apart(a: Interval, b: Interval) -> bool
    ensures apart { IsTrue result ↔ AreApart a b }
    ensures chosen { result ≡ are_apart a b }
{
    a.end <= b.first || b.end <= a.first
}

/// Whether a temporary that stands in a place has this register, and is busy in an interval.
fn clashes(register: u8, interval: Interval, place: Place, busy: Interval) -> bool
    ensures { result ≡ clashes register interval place busy }
{
    match place {
        Place::Reg(other) => other == register && !are_apart(busy, interval),
        _ => false,
    }
}

/// Whether no temporary that has a register so far is busy in an interval.
#[tactic(auto, using(crate::proofs::Choosing::free_is, crate::proofs::Choosing::clash_ends))]
pub fn is_free(register: u8, places: &[Place], intervals: &[Interval], interval: Interval) -> bool
    requires { length places.now ≡ length intervals.now }
    ensures chosen { result ≡ is_free register places.now intervals.now interval }
    ensures free { result ≡ true → IsFree register places.now intervals.now interval }
{
    for (u, place) in places.iter().enumerate() {
        if clashes(register, interval, *place, intervals[u]) {
            return false;
        }
    }
    true
}
