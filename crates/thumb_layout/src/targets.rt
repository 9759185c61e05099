//! Which piece each branch goes to.
ghost use Rattle.std.specs.Prelude.{◌≡◌, ℕ, ◌≤◌, List, length, IfOk, OnOk};
ghost use Rattle.thumb_layout.specs.Soundness.{IsSound};
ghost use Rattle.thumb_layout.specs.Placing.{targets_of, target_in, Indexes};
ghost use Rattle.thumb_layout.specs.declared.pieces.Piece.{Piece};

use crate::pieces::Piece;
use std::alloc::Global;
use std::collections::BTreeMap;
use sts_base::NoMemory;

/// Which piece each label is. Numbers of labels may be any, so they are kept in order.
type Labels = BTreeMap<u32, usize>;

fn labels_of(alloc: Global, pieces: &[Piece]) -> Result<Labels, NoMemory>
    ensures { IfOk result (λ labels. Indexes labels 0 pieces.now) }
{
    let mut labels: Labels = BTreeMap::new(alloc);
    let mut rest = pieces.len();
    while rest > 0 {
        rest -= 1;
        if let Piece::Label(label) = pieces[rest] {
            if labels.insert(label, rest).is_err() {
                return Err(NoMemory);
            }
        }
    }
    Ok(labels)
}

/// The piece that a branch goes to, and 0 for each other piece.
fn target_of(labels: &Labels, piece: &Piece) -> usize
    ensures { (pieces : List Piece) → Indexes labels.now 0 pieces → result ≡ target_in pieces piece.now }
{
    match piece {
        Piece::Go { label, .. } => labels.get(label).copied().unwrap_or(0),
        _ => 0,
    }
}

/// For each branch the piece that its label is, and 0 for each other piece.
pub fn targets_of(alloc: Global, pieces: &[Piece]) -> Result<Vec<usize>, NoMemory>
    requires { IsSound pieces.now }
    ensures { IfOk result (λ targets. targets.items ≡ targets_of pieces.now) }
{
    let labels = labels_of(alloc, pieces)?;
    let mut targets = Vec::new(alloc);
    for piece in pieces {
        if targets.push(target_of(&labels, piece)).is_err() {
            return Err(NoMemory);
        }
    }
    Ok(targets)
}
