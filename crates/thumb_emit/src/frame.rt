//! A function's frame, and the piece that brings a temporary into a low register or back.
ghost use Rattle.std.specs.Prelude.{◌≡◌, ◌+◌, ◌*◌, ◌^◌, ◌<◌, ◌≤◌, ◌++◌, length, OnOk};
ghost use Rattle.flat_ir.specs.WellFormed.{temporaries};
ghost use Rattle.register_assign.specs.Sound.{IsWithin, place_of};
ghost use Rattle.register_assign.specs.Saving.{registers_to, registers_of_first, saves};
ghost use Rattle.thumb_emit.specs.Frame.{own, words, below_saved, saved_list, from_place, to_place, idle_piece, register_of, brings, result_in, keeps, lands, carries, raises, lowers};
ghost use Rattle.thumb_emit.specs.Ready.{IsReady, IsOpTold, gets, register, brought, result_register, kept, landed};

use crate::pieces::{At, add};
use register_assign::{Place, Placed};
use sts_base::{NoMemory, Seq};
use thumb_code::Instr;
use thumb_layout::Piece;

/// The outgoing words and the slots.
pub(crate) fn own(placed: &Placed) -> u32
    requires { IsReady placed.now }
    ensures own { result ≡ own placed.now.function }
    ensures few { result ≤ 136 }
{
    let function = &placed.function;
    function.outgoing + function.locals + function.operands
}

/// All words of the frame.
pub(crate) fn words(placed: &Placed) -> u32
    requires { IsReady placed.now }
    ensures words { result ≡ words placed.now.function }
    ensures few { result ≤ 141 }
{
    own(placed) + 5
}

/// A place into a low register.
pub(crate) fn from_place(placed: &Placed, rd: u8, place: Place) -> Piece
    requires ready { IsReady placed.now }
    requires within { IsWithin placed.now.function place }
    ensures { result ≡ from_place placed.now.function rd place }
{
    Piece::Plain(match place {
        Place::Reg(r) => Instr::MovHigh { rd, rm: r },
        Place::Slot(j) => Instr::LdrSp {
            rt: rd,
            imm: (placed.function.outgoing + j) as u8,
        },
        Place::Incoming(j) => Instr::LdrSp {
            rt: rd,
            imm: (words(placed) + j) as u8,
        },
    })
}

/// A low register into a place.
pub(crate) fn to_place(placed: &Placed, rs: u8, place: Place) -> Piece
    requires ready { IsReady placed.now }
    requires within { IsWithin placed.now.function place }
    ensures { result ≡ to_place placed.now.function rs place }
{
    Piece::Plain(match place {
        Place::Reg(r) => Instr::MovHigh { rd: r, rm: rs },
        Place::Slot(j) => Instr::StrSp {
            rt: rs,
            imm: (placed.function.outgoing + j) as u8,
        },
        Place::Incoming(j) => Instr::StrSp {
            rt: rs,
            imm: (words(placed) + j) as u8,
        },
    })
}

/// The place of a temporary.
pub(crate) fn place_of(placed: &Placed, t: u32) -> Place
    requires ready { IsReady placed.now }
    requires known { t < temporaries placed.now.function }
    ensures place { result ≡ place_of placed.now.places t }
    ensures within { IsWithin placed.now.function result }
{
    placed.places.as_slice()[t as usize]
}

/// A temporary into a low register.
pub(crate) fn get(placed: &Placed, rd: u8, t: u32) -> Piece
    requires ready { IsReady placed.now }
    requires known { t < temporaries placed.now.function }
    ensures { result ≡ gets placed.now rd t }
{
    from_place(placed, rd, place_of(placed, t))
}

/// How many registers there are from r4 up to a place's.
fn registers_to(place: Place) -> u32
    ensures { result ≡ registers_to place }
{
    match place {
        Place::Reg(r) => (r as u32).saturating_sub(3),
        _ => 0,
    }
}

/// How many registers the function saves: r4 and those behind it, up to the highest in which a temporary stands.
fn saves(placed: &Placed) -> u32
    requires { IsReady placed.now }
    ensures saves { result ≡ saves placed.now.function (place_of placed.now.places) }
    ensures few { result ≤ 4 }
{
    let function = &placed.function;
    let mut most = 0;
    for t in 0..function.params + function.locals + function.operands {
        most = most.max(registers_to(place_of(placed, t)));
    }
    most
}

/// The frame's words below the registers that the function saves.
pub(crate) fn below_saved(placed: &Placed) -> u32
    requires { IsReady placed.now }
    ensures words { result ≡ below_saved placed.now.function (place_of placed.now.places) }
    ensures few { result ≤ 140 }
{
    own(placed) + (4 - saves(placed))
}

/// The registers that the function saves, as the list of PUSH and POP.
pub(crate) fn saved_list(placed: &Placed) -> u8
    requires { IsReady placed.now }
    ensures { result ≡ saved_list placed.now.function (place_of placed.now.places) }
{
    match saves(placed) {
        0 => 0b0000_0000,
        1 => 0b0001_0000,
        2 => 0b0011_0000,
        3 => 0b0111_0000,
        _ => 0b1111_0000,
    }
}

/// A piece that takes nothing: a label to which nobody goes.
pub(crate) fn idle_piece(placed: &Placed) -> Piece
    requires { 3 * length placed.now.function.ops + 1 < 2 ^ 32 }
    ensures { result ≡ idle_piece placed.now.function }
{
    Piece::Label(3 * placed.function.ops.len() as u32 + 1)
}

/// The register in which a temporary is read or written: its own, or a scratch register for it.
pub(crate) fn register(placed: &Placed, scratch: u8, t: u32) -> u8
    requires ready { IsReady placed.now }
    requires known { t < temporaries placed.now.function }
    ensures { result ≡ register placed.now scratch t }
{
    match place_of(placed, t) {
        Place::Reg(r) => r,
        _ => scratch,
    }
}

/// A temporary comes into that register.
pub(crate) fn bring(placed: &Placed, scratch: u8, t: u32) -> Piece
    requires ready { IsReady placed.now }
    requires known { t < temporaries placed.now.function }
    requires labels { 3 * length placed.now.function.ops + 1 < 2 ^ 32 }
    ensures { result ≡ brought placed.now scratch t }
{
    match place_of(placed, t) {
        Place::Reg(_) => idle_piece(placed),
        place => from_place(placed, scratch, place),
    }
}

/// The register in which an op's result is made: its temporary's, where r0 is the scratch register, or r0, where nobody reads it.
pub(crate) fn made_in(placed: &Placed, at: At, t: u32) -> u8
    requires ready { IsReady placed.now }
    requires told { IsOpTold placed.now at }
    requires known { t < temporaries placed.now.function }
    ensures { result ≡ result_register placed.now at.k t }
{
    if at.unread {
        return 0;
    }
    register(placed, 0, t)
}

/// A result goes from there to its place, unless nobody reads it.
pub(crate) fn keep(placed: &Placed, at: At, t: u32) -> Piece
    requires ready { IsReady placed.now }
    requires told { IsOpTold placed.now at }
    requires known { t < temporaries placed.now.function }
    requires labels { 3 * length placed.now.function.ops + 1 < 2 ^ 32 }
    ensures { result ≡ kept placed.now at.k t }
{
    if at.unread {
        return idle_piece(placed);
    }
    match place_of(placed, t) {
        Place::Reg(_) => idle_piece(placed),
        place => to_place(placed, 0, place),
    }
}

/// A result goes from r0 to its place, unless nobody reads it.
pub(crate) fn land(placed: &Placed, at: At, t: u32) -> Piece
    requires ready { IsReady placed.now }
    requires told { IsOpTold placed.now at }
    requires known { t < temporaries placed.now.function }
    requires labels { 3 * length placed.now.function.ops + 1 < 2 ^ 32 }
    ensures { result ≡ landed placed.now at.k t }
{
    if at.unread {
        return idle_piece(placed);
    }
    to_place(placed, 0, place_of(placed, t))
}

/// A word from one low register to another, unless it is there.
pub(crate) fn moved(placed: &Placed, rd: u8, rs: u8) -> Piece
    requires labels { 3 * length placed.now.function.ops + 1 < 2 ^ 32 }
    ensures { result ≡ carries placed.now.function rd rs }
{
    if rd == rs {
        idle_piece(placed)
    } else {
        Piece::Plain(Instr::MovHigh { rd, rm: rs })
    }
}

/// SP goes up by so many words.
pub(crate) fn raise(out: &mut Seq<Piece>, words: u32) -> Result<(), NoMemory>
    requires { words ≤ 140 }
    ensures { OnOk result (out.new ≡ out.old ++ raises words) }
{
    if words > 127 {
        let rest = (words - 127) as u8;
        add(
            out,
            &[
                Piece::Plain(Instr::AddSpImm { imm: 127 }),
                Piece::Plain(Instr::AddSpImm { imm: rest }),
            ],
        )
    } else {
        let imm = words as u8;
        add(out, &[Piece::Plain(Instr::AddSpImm { imm })])
    }
}

/// SP goes down by so many words.
pub(crate) fn lower(out: &mut Seq<Piece>, words: u32) -> Result<(), NoMemory>
    requires { words ≤ 140 }
    ensures { OnOk result (out.new ≡ out.old ++ lowers words) }
{
    if words > 127 {
        let rest = (words - 127) as u8;
        add(
            out,
            &[
                Piece::Plain(Instr::SubSpImm { imm: 127 }),
                Piece::Plain(Instr::SubSpImm { imm: rest }),
            ],
        )
    } else {
        let imm = words as u8;
        add(out, &[Piece::Plain(Instr::SubSpImm { imm })])
    }
}
