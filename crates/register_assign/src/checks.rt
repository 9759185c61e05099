// Whether places are sound.
ghost use Rattle.std.specs.Prelude.{◌≡◌, ℕ, ◌<◌, ◌≤◌, ◌↔◌, IsTrue, IfOk, length};
ghost use Rattle.std.specs.List.{AllByRecursion};
ghost use Rattle.flat_ir.specs.Ops.{reads};
ghost use Rattle.register_assign.specs.Marks.{AreMarks};
ghost use Rattle.register_assign.specs.Sound.{place_of, IsWithin, ArePlacesSound};
ghost use Rattle.register_assign.specs.Checks.{Stays, IsNew, IsParameterSound, IsShapeSound, IsClear, IsKept, IsTemporarySound, IsDeadStranger, ReadsNoStranger};

use crate::liveness::{is_marked, is_marked_behind, live};
use crate::ops::{Reading, read_by, written};
use crate::places::{Place, Placed, same};
use flat_ir::{Function, Op};
use std::alloc::Global;
use sts_base::NoMemory;

/// Whether a place is one of the function's.
fn is_within(place: &Place, function: &Function) -> bool
    ensures { IsTrue result ↔ IsWithin function.now place.now }
{
    match *place {
        Place::Reg(r) => 4 <= r && r <= 7,
        Place::Slot(j) => (j as u64) < function.locals as u64 + function.operands as u64,
        Place::Incoming(j) => j < function.params,
    }
}

fn are_within(places: &[Place], function: &Function) -> bool
    ensures { IsTrue result ↔ AllByRecursion (IsWithin function.now) places.now }
{
    for place in places {
        if !is_within(place, function) {
            return false;
        }
    }
    true
}

/// Whether a place is no incoming place of another number.
fn stays(place: Place, t: usize) -> bool
    ensures { IsTrue result ↔ Stays place t }
{
    match place {
        Place::Incoming(j) => j as usize == t,
        _ => true,
    }
}

/// Whether no earlier temporary has the place of this one.
fn is_new(places: &[Place], t: usize) -> bool
    requires { t < length places.now }
    ensures { IsTrue result ↔ IsNew places.now t }
{
    for u in 0..t {
        if same(places[u], places[t]) {
            return false;
        }
    }
    true
}

fn is_parameter_sound(places: &[Place], t: usize) -> bool
    requires { t < length places.now }
    ensures { IsTrue result ↔ IsParameterSound places.now t }
{
    stays(places[t], t) && is_new(places, t)
}

fn are_parameters_sound(places: &[Place], params: usize) -> bool
    requires { params ≤ length places.now }
    ensures { IsTrue result ↔ ((t : ℕ) → t < params → IsParameterSound places.now t) }
{
    for t in 0..params {
        if !is_parameter_sound(places, t) {
            return false;
        }
    }
    true
}

/// What can be told without liveness: how many places there are, that each is one of the function's, and those of the parameters.
fn is_shape_sound(function: &Function, places: &[Place]) -> bool
    ensures { IsTrue result ↔ IsShapeSound function.now places.now }
{
    let temporaries = function.params as u64 + function.locals as u64 + function.operands as u64;
    if places.len() as u64 != temporaries {
        return false;
    }
    if !are_within(places, function) {
        return false;
    }
    are_parameters_sound(places, function.params as usize)
}

/// Whether an op at a place leaves alone the place of a temporary that is live behind it.
fn is_clear(op: &Op, at: usize, places: &[Place], u: usize, marks: &[bool]) -> bool
    requires at { at < length marks.now }
    requires u { u < length places.now }
    ensures { IsTrue result ↔ IsClear op.now at places.now u marks.now }
{
    match written(op) {
        None => true,
        Some(to) => {
            let t = to as usize;
            t == u
                || t >= places.len()
                || !same(places[u], places[t])
                || !is_marked_behind(op, at, marks)
        }
    }
}

/// Whether every op leaves alone the place of a temporary that is live behind it.
fn is_kept(ops: &[Op], places: &[Place], u: usize, marks: &[bool]) -> bool
    requires u { u < length places.now }
    requires marks { AreMarks ops.now u marks.now }
    ensures { IsTrue result ↔ IsKept ops.now places.now u }
{
    for (at, op) in ops.iter().enumerate() {
        if !is_clear(op, at, places, u, marks) {
            return false;
        }
    }
    true
}

/// Whether a temporary is sound whose live places are marked.
fn is_sound_by(function: &Function, places: &[Place], u: usize, marks: &[bool]) -> bool
    requires u { u < length places.now }
    requires marks { AreMarks function.now.ops u marks.now }
    ensures { IsTrue result ↔ IsTemporarySound function.now places.now u }
{
    let ops = function.ops.as_slice();
    if u < function.params as usize {
        return is_kept(ops, places, u, marks);
    }
    if is_marked(marks, 0) {
        return false;
    }
    is_kept(ops, places, u, marks)
}

fn is_temporary_sound(
    alloc: Global,
    function: &Function,
    places: &[Place],
    u: usize,
) -> Result<bool, NoMemory>
    requires { u < length places.now }
    ensures { IfOk result (λ sound. IsTrue sound ↔ IsTemporarySound function.now places.now u) }
{
    let marks = live(alloc, function.ops.as_slice(), u)?;
    Ok(is_sound_by(function, places, u, &marks))
}

fn are_temporaries_sound(
    alloc: Global,
    function: &Function,
    places: &[Place],
) -> Result<bool, NoMemory>
    ensures { IfOk result
        (λ sound. IsTrue sound ↔ ((u : ℕ) → u < length places.now → IsTemporarySound function.now places.now u)) }
{
    for u in 0..places.len() {
        if !is_temporary_sound(alloc, function, places, u)? {
            return Ok(false);
        }
    }
    Ok(true)
}

/// Whether a number isn't live at entry, or is one of the function's temporaries.
fn is_dead_stranger(alloc: Global, ops: &[Op], t: u32, known: usize) -> Result<bool, NoMemory>
    ensures { IfOk result (λ dead. IsTrue dead ↔ IsDeadStranger known ops.now t) }
{
    if (t as usize) < known {
        return Ok(true);
    }
    let marks = live(alloc, ops, t as usize)?;
    Ok(!is_marked(&marks, 0))
}

fn are_dead_strangers(
    alloc: Global,
    ops: &[Op],
    numbers: &[u32],
    known: usize,
) -> Result<bool, NoMemory>
    ensures { IfOk result (λ dead. IsTrue dead ↔ AllByRecursion (IsDeadStranger known ops.now) numbers.now) }
{
    for t in numbers {
        if !is_dead_stranger(alloc, ops, *t, known)? {
            return Ok(false);
        }
    }
    Ok(true)
}

/// Whether an op reads no number that is live at entry and none of the function's temporaries. No op of a well-formed function does.
fn reads_no_stranger(alloc: Global, ops: &[Op], op: &Op, known: usize) -> Result<bool, NoMemory>
    ensures { IfOk result (λ dead. IsTrue dead ↔ ReadsNoStranger known ops.now op.now) }
{
    match read_by(op) {
        Reading::Nothing => Ok(true),
        Reading::One(a) => are_dead_strangers(alloc, ops, &[a], known),
        Reading::Two(a, b) => are_dead_strangers(alloc, ops, &[a, b], known),
        Reading::Three(a, b, c) => are_dead_strangers(alloc, ops, &[a, b, c], known),
        Reading::Arguments(args) => are_dead_strangers(alloc, ops, args, known),
    }
}

fn read_no_stranger(alloc: Global, ops: &[Op], known: usize) -> Result<bool, NoMemory>
    ensures { IfOk result (λ dead. IsTrue dead ↔ AllByRecursion (ReadsNoStranger known ops.now) ops.now) }
{
    for op in ops {
        if !reads_no_stranger(alloc, ops, op, known)? {
            return Ok(false);
        }
    }
    Ok(true)
}

/// Whether places are sound for a function.
pub fn are_sound(alloc: Global, function: &Function, places: &[Place]) -> Result<bool, NoMemory>
    ensures { IfOk result (λ sound. IsTrue sound ↔ ArePlacesSound function.now places.now) }
{
    if !is_shape_sound(function, places) {
        return Ok(false);
    }
    if !are_temporaries_sound(alloc, function, places)? {
        return Ok(false);
    }
    read_no_stranger(alloc, function.ops.as_slice(), places.len())
}

/// Whether the places of a function's temporaries are sound: there is one for each temporary, no temporary but a parameter
/// is live at entry, the parameters have distinct places, one in an incoming place has that of its own number, each op's
/// written place is the place of no other temporary that is live after it, registers are r4 to r7, and slots and incoming
/// places are within the frame and the parameters. The function may be any. `NoMemory` comes only for want of memory.
pub fn check_places(alloc: Global, placed: &Placed) -> Result<bool, NoMemory>
    ensures { IfOk result (λ sound. IsTrue sound ↔ ArePlacesSound placed.now.function placed.now.places) }
{
    are_sound(alloc, &placed.function, placed.places.as_slice())
}
