//! The layout of pieces.
ghost use Rattle.std.specs.Prelude.{◌≡◌, ◌<◌, ◌≤◌, length, IfOk, IfErr, OnOk};
ghost use Rattle.thumb_layout.specs.Soundness.{IsSound};
ghost use Rattle.thumb_layout.specs.Rounds.{counted};
ghost use Rattle.thumb_layout.specs.Cells.{laid};

use crate::laid::{Laid, LayRefused};
use crate::pieces::Piece;
use crate::rounds::settle;
use crate::targets::targets_of;
use crate::writer::written;
use std::alloc::Global;
use sts_base::Seq;

/// How many bytes laid code may have.
const LIMIT: u32 = 65_536;

/// How many pieces have bytes.
fn counted(pieces: &[Piece]) -> usize
    ensures { result ≡ counted pieces.now }
{
    let mut count = 0;
    for piece in pieces {
        if piece.has_bytes() {
            count += 1;
        }
    }
    count
}

/// The bytes of pieces and the places that are open in them, with branches as short as they can be and pools of the numbers and
/// addresses that are loaded.
///
/// `TooLong` comes exactly where the layout has more than 65,536 bytes. A piece that isn't a label has two bytes at least, so where there
/// are more than 32,768 of these no round is made.
pub fn lay(alloc: Global, pieces: &Seq<Piece>) -> Result<Laid, LayRefused>
    requires { IsSound pieces.now }
    ensures laid { IfOk result (λ code. code ≡ laid pieces.now) }
    ensures fits { OnOk result (length (laid pieces.now).bytes ≤ 65536) }
    ensures too_long { IfErr result (λ why. why ≡ LayRefused.TooLong → 65536 < length (laid pieces.now).bytes) }
{
    let pieces = pieces.as_slice();
    if counted(pieces) > 32_768 {
        return Err(LayRefused::TooLong);
    }
    let targets = targets_of(alloc, pieces)?;
    let settled = settle(alloc, pieces, &targets)?;
    let placed = &settled.placed;
    if placed.end > LIMIT {
        return Err(LayRefused::TooLong);
    }
    Ok(written(
        alloc,
        pieces,
        &targets,
        &settled.forms,
        &placed.places,
        &placed.pools,
    )?)
}
