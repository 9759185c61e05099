// The held bytes, executed.
ghost use Rattle.std.specs.Prelude.{◌≡◌, ◌-◌, ◌≤◌, ◌<◌, ◌^◌, true, false, MatchOption, IfSome, IfNone, length};
ghost use Rattle.slab.specs.Slab.{ContainsKey};
ghost use Rattle.thumb_code.specs.Table.{Fits};
ghost use Rattle.thumb_code.specs.Step.{Found, behind};
ghost use Rattle.thumb_switch.specs.Space.{has_half, half_in, fetched_in, executed};
ghost use Rattle.thumb_switch.specs.Desk.{on_desk};
ghost use Rattle.thumb_switch.specs.ReadOnce.{AreRead};
ghost use Rattle.thumb_switch.specs.Running.{IsMissed, IsKnown};

use crate::desk::Desk;
use crate::slots::Slot;
use crate::space::BACK;
use armv6m_machine::{Memory, Turn, execute};
use thumb_code::{Instr, Registers, decode, is_wide};

/// The halfword at an address. None exactly where it isn't in the three parts.
fn half(desk: &mut Desk, at: u32) -> Option<u16>
    ensures value { MatchOption result (has_half (on_desk desk.old) at ≡ false)
        (λ h. (has_half (on_desk desk.old) at ≡ true) × (h ≡ half_in (on_desk desk.old) at)) }
    ensures same { desk.new ≡ desk.old }
{
    match desk.check(at, 2, false) {
        Some(_) => None,
        None => Some(desk.load(at, 2) as u16),
    }
}

/// The instruction at PC, and whether it is two halfwords, read anew. None exactly where there is none.
fn read(desk: &mut Desk, pc: u32) -> Option<(Instr, bool)>
    ensures found { IfSome result (λ x. (fetched_in (on_desk desk.old) pc ≡ Found x.0 (behind pc x.1)) × Fits x.0) }
    ensures missed { IfNone result (IsMissed (fetched_in (on_desk desk.old) pc)) }
    ensures same { desk.new ≡ desk.old }
{
    if pc % 2 == 1 {
        return None;
    }
    if pc >= BACK {
        // A record has at most as many words as the stack region, so nothing stands from BACK on.
        let _count = desk.runtime.words(desk.key);
        return None;
    }
    let first = half(desk, pc)?;
    let wide = is_wide(first);
    let second = if wide { half(desk, pc + 2)? } else { 0 };
    match decode(first, second) {
        Some(instr) => Some((instr, wide)),
        None => None,
    }
}

/// The instruction at PC, and whether it is two halfwords: of the first places what was read of them. None exactly where there is none.
fn fetch(desk: &mut Desk, slots: &[Slot], pc: u32) -> Option<(Instr, bool)>
    requires { AreRead desk.old.code.now slots.now }
    ensures found { IfSome result (λ x. (fetched_in (on_desk desk.old) pc ≡ Found x.0 (behind pc x.1)) × Fits x.0) }
    ensures missed { IfNone result (IsMissed (fetched_in (on_desk desk.old) pc)) }
    ensures same { desk.new ≡ desk.old }
{
    if pc % 2 == 0 {
        if let Some(Some(found)) = slots.get((pc / 2) as usize) {
            return Some(*found);
        }
    }
    read(desk, pc)
}

/// Executes at most so many instructions; how many they were.
pub fn run(desk: &mut Desk, slots: &[Slot], registers: Registers, most: u32) -> u32
    requires read { AreRead desk.old.code.now slots.now }
    requires live { ContainsKey desk.old.runtime.now.pool desk.old.key }
    ensures executes { executed most registers (on_desk desk.old) ≡ (result, on_desk desk.new) }
    ensures known { IsKnown desk.old desk.new }
    ensures region { length (on_desk desk.old).stack ≡ 1024 }
{
    // The stack region has all its words.
    let _region = desk.runtime.stack();
    let mut r = registers;
    for done in 0..most {
        if r.pc == BACK {
            return done;
        }
        match fetch(desk, slots, r.pc) {
            None => return done,
            Some((instr, wide)) => match execute(instr, wide, &mut r, desk) {
                Turn::Went => {}
                _ => return done,
            },
        }
    }
    most
}
