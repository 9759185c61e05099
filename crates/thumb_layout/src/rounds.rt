//! The forms of branches, in rounds.
ghost use Rattle.std.specs.Prelude.{◌≡◌, ℕ, ◌+◌, ◌<◌, ◌≤◌, ◌^◌, length, map, true, false, IfOk};
ghost use Rattle.thumb_layout.specs.Soundness.{IsSound};
ghost use Rattle.thumb_layout.specs.Layout.{chunks, nowhere};
ghost use Rattle.thumb_layout.specs.Rounds.{is_within, branch_fits, fits, round, short, forms, counted, total};
ghost use Rattle.thumb_layout.specs.Placing.{place_of, targets_of, IsProper, IsPlaced};

use crate::pieces::{ALWAYS, Piece};
use crate::places::{PieceOffsets, Placed, places_of};
use std::alloc::Global;
use sts_base::NoMemory;

/// An offset of so many bytes back, or of fewer forth, leads from an address plus 4 to another.
fn is_within(far: u64, at: u64, to: u64) -> bool
    requires far { far < 2 ^ 32 }
    requires at { at < 2 ^ 33 }
    requires to { to < 2 ^ 33 }
    ensures { result ≡ is_within far at to }
{
    to + far >= at + 4 && to < at + 4 + far
}

/// A branch of this form fits.
fn branch_fits(cond: u8, form: u8, at: u32, to: u32) -> bool
    ensures { result ≡ branch_fits cond form at to }
{
    let at = u64::from(at);
    let to = u64::from(to);
    if cond == ALWAYS {
        form != 0 || is_within(2048, at, to)
    } else if form == 0 {
        is_within(256, at, to)
    } else {
        form != 1 || is_within(2048, at + 2, to)
    }
}

/// A piece at an address, whose branch goes to another, fits in this form.
fn fits(piece: &Piece, form: u8, body: u32, to: u32) -> bool
    ensures { result ≡ fits (λ label. to) piece.now (record nowhere { body = body }) form }
{
    match *piece {
        Piece::Go { cond, .. } => branch_fits(cond, form, body, to),
        _ => true,
    }
}

/// The forms after a round, and whether one of them is new.
#[derive(Drop)]
struct Round {
    forms: Vec<u8>,
    grown: bool,
}

fn next_round(
    alloc: Global,
    pieces: &[Piece],
    targets: &[usize],
    places: &[PieceOffsets],
    forms: &[u8],
) -> Result<Round, NoMemory>
    requires targets { targets.now ≡ targets_of pieces.now }
    requires proper { IsProper pieces.now forms.now }
    requires places { places.now ≡ map place_of (chunks pieces.now forms.now) }
    ensures forms { IfOk result (λ next. next.forms.items ≡ round pieces.now forms.now) }
    ensures grown { IfOk result (λ next. next.grown ≡ true → total forms.now < total next.forms.items) }
    ensures same { IfOk result (λ next. next.grown ≡ false → next.forms.items ≡ forms.now) }
{
    let mut longer = Vec::new(alloc);
    let mut grown = false;
    for (index, piece) in pieces.iter().enumerate() {
        let form = forms[index];
        let fits = fits(piece, form, places[index].body, places[targets[index]].at);
        if !fits {
            grown = true;
        }
        if longer.push(if fits { form } else { form + 1 }).is_err() {
            return Err(NoMemory);
        }
    }
    Ok(Round {
        forms: longer,
        grown,
    })
}

/// The shortest form for each piece.
fn short(alloc: Global, pieces: &[Piece]) -> Result<Vec<u8>, NoMemory>
    ensures { IfOk result (λ forms. forms.items ≡ short pieces.now) }
{
    let mut forms = Vec::new(alloc);
    for _ in pieces {
        if forms.push(0).is_err() {
            return Err(NoMemory);
        }
    }
    Ok(forms)
}

/// The forms at which all branches fit, and where the pieces then stand.
#[derive(Drop)]
pub struct Settled {
    pub forms: Vec<u8>,
    pub placed: Placed,
}

/// Makes rounds until all branches fit.
pub fn settle(alloc: Global, pieces: &[Piece], targets: &[usize]) -> Result<Settled, NoMemory>
    requires targets { targets.now ≡ targets_of pieces.now }
    requires few { counted pieces.now ≤ 32768 }
    ensures forms { IfOk result (λ settled. settled.forms.items ≡ forms pieces.now) }
    ensures placed { IfOk result (λ settled. IsPlaced pieces.now (forms pieces.now) settled.placed) }
{
    let mut forms = short(alloc, pieces)?;
    loop {
        let placed = places_of(alloc, pieces, &forms)?;
        let next = next_round(alloc, pieces, targets, &placed.places, &forms)?;
        if !next.grown {
            return Ok(Settled { forms, placed });
        }
        forms = next.forms;
    }
}
