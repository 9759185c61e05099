// Places for a function's temporaries.
ghost use Rattle.std.specs.Prelude.{◌≡◌, ◌+◌, ◌<◌, ◌≤◌, length, Some, IfOk, IfSome, OnOk};
ghost use Rattle.flat_ir.specs.declared.ops.Function.{Function};
ghost use Rattle.flat_ir.specs.WellFormed.{IsWellFormedFunction, temporaries};
ghost use Rattle.flat_ir.specs.Liveness.{OnlyParametersAreLive};
ghost use Rattle.register_assign.specs.Sound.{ArePlacesSound};
ghost use Rattle.register_assign.specs.Intervals.{IsHome, IsFree, AreHomes, AreIntervals, AreAssigned, interval_of};
ghost use Rattle.register_assign.specs.Chosen.{firsts, own_place, intervals_to, uses_of, free_register, with_register, serving, served_one, served_to, most_used, chosen_places};

use crate::copies::copied;
use crate::intervals::{Interval, interval_of, is_free};
use crate::liveness::live;
use crate::places::{Place, Placed};
use crate::uses::{most_used, uses, weights};
use flat_ir::Function;
use std::alloc::Global;
use sts_base::{NoMemory, Seq};

/// The slot or incoming word of a temporary's own.
fn own_place(t: u32, params: u32) -> Place
    ensures home { IsHome params t result }
    ensures chosen { result ≡ own_place params t }
{
    if t < params {
        Place::Incoming(t)
    } else {
        Place::Slot(t - params)
    }
}

/// Each temporary's own slot or incoming word.
#[tactic(auto, using(crate::proofs::Assigning::own_first))]
fn own_places(alloc: Global, function: &Function) -> Result<Vec<Place>, NoMemory>
    requires { IsWellFormedFunction function.now }
    ensures homes { IfOk result (λ places. AreHomes function.now places.items (temporaries function.now)) }
    ensures chosen { IfOk result (λ places. places.items ≡ firsts (own_place function.now.params) (temporaries function.now)) }
{
    let mut places = Vec::new(alloc);
    for t in 0..function.params + function.locals + function.operands {
        if places.push(own_place(t, function.params)).is_err() {
            return Err(NoMemory);
        }
    }
    Ok(places)
}

/// The live intervals of a function's temporaries.
#[tactic(auto, using(crate::proofs::Assigning::intervals_first))]
fn intervals_of(alloc: Global, function: &Function) -> Result<Vec<Interval>, NoMemory>
    requires { IsWellFormedFunction function.now }
    ensures intervals { IfOk result (λ intervals. AreIntervals function.now intervals.items (temporaries function.now)) }
    ensures chosen { IfOk result (λ intervals. intervals.items ≡ intervals_to function.now (temporaries function.now)) }
{
    let ops = function.ops.as_slice();
    let mut intervals = Vec::new(alloc);
    for t in 0..function.params + function.locals + function.operands {
        let marks = live(alloc, ops, t as usize)?;
        let interval = interval_of(ops, t as usize, &marks, t < function.params);
        if intervals.push(interval).is_err() {
            return Err(NoMemory);
        }
    }
    Ok(intervals)
}

/// How much each temporary is used; all are left.
fn all_uses(alloc: Global, function: &Function) -> Result<Vec<Option<u64>>, NoMemory>
    requires { IsWellFormedFunction function.now }
    ensures long { IfOk result (λ uses. length uses.items ≡ temporaries function.now) }
    ensures chosen { IfOk result (λ uses. uses.items ≡ firsts (λ t. Some (uses_of function.now.ops t)) (temporaries function.now)) }
{
    let ops = function.ops.as_slice();
    let weights = weights(alloc, ops)?;
    let mut all = Vec::new(alloc);
    for t in 0..function.params + function.locals + function.operands {
        if all.push(Some(uses(ops, t as usize, &weights))).is_err() {
            return Err(NoMemory);
        }
    }
    Ok(all)
}

/// The first register of r4 to r7 that is free in an interval.
fn free_register(places: &[Place], intervals: &[Interval], interval: Interval) -> Option<u8>
    requires { length places.now ≡ length intervals.now }
    ensures free { IfSome result (λ r. (4 ≤ r) × (r ≤ 7) × IsFree r places.now intervals.now interval) }
    ensures chosen { result ≡ free_register places.now intervals.now interval }
{
    if is_free(4, places, intervals, interval) {
        Some(4)
    } else if is_free(5, places, intervals, interval) {
        Some(5)
    } else if is_free(6, places, intervals, interval) {
        Some(6)
    } else if is_free(7, places, intervals, interval) {
        Some(7)
    } else {
        None
    }
}

/// A register for a temporary, if one is free.
fn move_to_register(places: &mut [Place], intervals: &[Interval], t: usize)
    requires long { length places.old ≡ length intervals.now }
    requires known { t < length places.old }
    ensures chosen { places.new ≡ with_register places.old intervals.now t }
    ensures long { length places.new ≡ length places.old }
    ensures assigned { (f : Function) → AreAssigned f places.old intervals.now
        → AreAssigned f places.new intervals.now }
{
    if let Some(r) = free_register(places, intervals, intervals[t]) {
        places[t] = Place::Reg(r);
    }
}

/// A register, if one is free, for the temporary that is used most of those left, which is left no longer.
fn give_next(places: &mut [Place], intervals: &[Interval], left: &mut [Option<u64>])
    requires long { length places.old ≡ length intervals.now }
    requires left { length left.old ≡ length places.old }
    ensures chosen { serving places.new left.new
        ≡ served_one intervals.now (serving places.old left.old) (most_used left.old) }
    ensures long { length places.new ≡ length places.old }
    ensures left { length left.new ≡ length left.old }
    ensures assigned { (f : Function) → AreAssigned f places.old intervals.now
        → AreAssigned f places.new intervals.now }
{
    if let Some(t) = most_used(left) {
        left[t] = None;
        move_to_register(places, intervals, t);
    }
}

/// Registers for temporaries, in the order of how much they are used.
fn give_registers(places: &mut [Place], intervals: &[Interval], left: &mut [Option<u64>])
    requires long { length places.old ≡ length intervals.now }
    requires left { length left.old ≡ length places.old }
    ensures chosen { places.new ≡ (served_to intervals.now (serving places.old left.old) (length left.old)).places }
    ensures assigned { (f : Function) → AreAssigned f places.old intervals.now → AreAssigned f places.new intervals.now }
{
    for _ in 0..left.len() {
        give_next(places, intervals, left);
    }
}

/// The places as a list that keeps its allocator.
fn sequence(alloc: Global, places: &[Place]) -> Result<Seq<Place>, NoMemory>
    ensures { IfOk result (λ list. list ≡ places.now) }
{
    let mut list = Seq::new(alloc);
    for place in places {
        list.push(*place)?;
    }
    Ok(list)
}

/// The temporaries of a function, each in its own place, go to registers as far as these are free.
fn use_registers(alloc: Global, function: &Function, places: &mut [Place]) -> Result<(), NoMemory>
    requires well_formed { IsWellFormedFunction function.now }
    requires entry { OnlyParametersAreLive function.now }
    requires own { AreHomes function.now places.old (temporaries function.now) }
    ensures sound { OnOk result (ArePlacesSound function.now places.new) }
    ensures chosen { OnOk result (places.old ≡ firsts (own_place function.now.params) (temporaries function.now)
        → places.new ≡ chosen_places function.now) }
{
    let intervals = intervals_of(alloc, function)?;
    let mut left = all_uses(alloc, function)?;
    give_registers(places, &intervals, &mut left);
    Ok(())
}

/// Sound places for the temporaries of a function, in the order of their numbers.
fn places_for(alloc: Global, function: &Function) -> Result<Seq<Place>, NoMemory>
    requires well_formed { IsWellFormedFunction function.now }
    requires entry { OnlyParametersAreLive function.now }
    ensures sound { IfOk result (λ places. ArePlacesSound function.now places) }
    ensures chosen { IfOk result (λ places. places ≡ chosen_places function.now) }
{
    let mut places = own_places(alloc, function)?;
    use_registers(alloc, function, &mut places)?;
    sequence(alloc, &places)
}

/// The function with sound places for its temporaries, by their live intervals: in the order of how much they are used, where
/// a use in a loop counts ten times as much for each level, each gets the first register of r4 to r7 that none before it needs
/// while it is live, and else it stays in a slot or incoming word of its own. `NoMemory` comes only for want of memory.
pub fn assign(alloc: Global, function: &Function) -> Result<Placed, NoMemory>
    requires well_formed { IsWellFormedFunction function.now }
    requires entry { OnlyParametersAreLive function.now }
    ensures function { IfOk result (λ placed. placed.function ≡ function.now) }
    ensures places { IfOk result (λ placed. placed.places ≡ chosen_places function.now) }
    ensures sound { IfOk result (λ placed. ArePlacesSound placed.function placed.places) }
{
    let places = places_for(alloc, function)?;
    let function = copied(alloc, function)?;
    Ok(Placed { function, places })
}
