//! Pieces of a function's entry.
ghost use Rattle.std.specs.Prelude.{◌≡◌, ◌+◌, ◌*◌, ◌^◌, ◌<◌, ◌≤◌, ◌++◌, length, OnOk};
ghost use Rattle.register_assign.specs.Sound.{place_of, IsWithin};
ghost use Rattle.thumb_emit.specs.Emit.{move_pieces, moves_pieces};
ghost use Rattle.thumb_emit.specs.Ready.{IsReady, entry_of, tests_depth};

use crate::frame::{
    below_saved, from_place, idle_piece, lower, place_of, saved_list, to_place, words,
};
use crate::pieces::{CS, add, unless};
use register_assign::{Place, Placed};
use sts_base::{NoMemory, Seq};
use thumb_code::Instr;
use thumb_layout::Piece;

/// The end of the stack region's words of slack.
const USABLE_STACK: u32 = 0x2000_3080;

/// LR is kept in r3, and it is panic 102 where the frame doesn't fit.
fn test_depth(out: &mut Seq<Piece>, placed: &Placed, label: u32) -> Result<(), NoMemory>
    requires { IsReady placed.now }
    ensures { OnOk result (out.new ≡ out.old ++ tests_depth placed.now label) }
{
    let value = USABLE_STACK + 4 * words(placed);
    add(
        out,
        &[
            Piece::Plain(Instr::MovHigh { rd: 3, rm: 14 }),
            Piece::Plain(Instr::MovHigh { rd: 0, rm: 13 }),
            Piece::Number { rd: 1, value },
            Piece::Plain(Instr::CmpReg { rdn: 0, rm: 1 }),
        ],
    )?;
    unless(out, CS, 102, label)
}

/// A parameter that doesn't stay where it comes in is moved to its place.
fn move_parameter(
    out: &mut Seq<Piece>,
    placed: &Placed,
    place: Place,
    t: u32,
) -> Result<(), NoMemory>
    requires ready { IsReady placed.now }
    requires within { IsWithin placed.now.function place }
    requires parameter { t < placed.now.function.params }
    requires labels { 3 * length placed.now.function.ops + 1 < 2 ^ 32 }
    ensures { OnOk result (out.new ≡ out.old ++ move_pieces placed.now.function (place_of placed.now.places) place t) }
{
    match place {
        Place::Incoming(_) => Ok(()),
        Place::Reg(r) => add(
            out,
            &[
                from_place(placed, r, Place::Incoming(t)),
                idle_piece(placed),
            ],
        ),
        Place::Slot(_) => add(
            out,
            &[
                from_place(placed, 0, Place::Incoming(t)),
                to_place(placed, 0, place),
            ],
        ),
    }
}

/// So are all parameters.
fn move_parameters(out: &mut Seq<Piece>, placed: &Placed) -> Result<(), NoMemory>
    requires ready { IsReady placed.now }
    requires labels { 3 * length placed.now.function.ops + 1 < 2 ^ 32 }
    ensures { OnOk result (out.new
        ≡ out.old ++ moves_pieces placed.now.function (place_of placed.now.places) 0 placed.now.function.params) }
{
    for t in 0..placed.function.params {
        move_parameter(out, placed, place_of(placed, t), t)?;
    }
    Ok(())
}

/// The entry, whose label is 3 times the number of ops.
pub(crate) fn enter(out: &mut Seq<Piece>, placed: &Placed) -> Result<(), NoMemory>
    requires ready { IsReady placed.now }
    requires label { 3 * length placed.now.function.ops + 1 < 2 ^ 32 }
    ensures { OnOk result (out.new ≡ out.old ++ entry_of placed.now) }
{
    test_depth(out, placed, 3 * placed.function.ops.len() as u32)?;
    let list = saved_list(placed);
    add(
        out,
        &[
            Piece::Plain(Instr::MovHigh { rd: 14, rm: 3 }),
            Piece::Plain(Instr::Push { list, m: true }),
        ],
    )?;
    lower(out, below_saved(placed))?;
    move_parameters(out, placed)
}
