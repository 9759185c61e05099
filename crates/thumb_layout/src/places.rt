//! Where pieces stand, by the forms of their branches.
ghost use Rattle.std.specs.Prelude.{◌≡◌, ℕ, ◌+◌, ◌*◌, ◌<◌, ◌≤◌, ◌^◌, ◌++◌, ◌%◌, List, [], length, map, IfOk, OnOk};
ghost use Rattle.thumb_layout.specs.Layout.{Wait, chunk, chunks, end_of, over_pool, nth};
ghost use Rattle.thumb_layout.specs.Rounds.{counted};
ghost use Rattle.thumb_layout.specs.Cells.{pools, pool_at};
ghost use Rattle.thumb_layout.specs.Placing.{Counts, chunk_pools, pools_before, IsEntered, IsPassed, IsPlaced, IsProper};

use crate::pieces::Piece;
use crate::waits::{Waits, up};
use std::alloc::Global;
use sts_base::NoMemory;

/// Where a piece is entered, and where it stands: behind the pool before it, where there is one.
#[derive(Clone, Copy, Drop)]
pub struct PieceOffsets {
    pub at: u32,
    pub body: u32,
}

/// The places of pieces and of their end, where their pools begin, and the address behind all.
#[derive(Drop)]
pub struct Placed {
    pub places: Vec<PieceOffsets>,
    pub pools: Vec<u32>,
    pub end: u32,
}

/// Where the next piece is entered, and the loads that wait there.
#[derive(Clone, Copy, Drop)]
struct Cursor {
    at: u32,
    waits: Waits,
}

impl Cursor {
    /// Lays the pool of the loads that wait at an address, where there is one, and goes behind it.
    fn lay_pool(&mut self, at: u32, pools: &mut Vec<u32>) -> Result<(), NoMemory>
        requires at { at < 2 ^ 23 }
        requires count { self.old.waits.count < 2 ^ 20 }
        ensures at { (waits : List Wait) → Counts self.old.waits waits
            → OnOk result (self.new.at ≡ over_pool at waits) }
        ensures pools { (waits : List Wait) → Counts self.old.waits waits
            → OnOk result (pools.new.items ≡ pools.old.items ++ pool_at at waits) }
        ensures counts { Counts self.new.waits [] }
        ensures none { self.new.waits.count ≡ 0 }
        ensures latest { self.new.waits.latest_end ≡ 0 }
        ensures near { self.new.at ≤ at + 4 + 4 * self.old.waits.count }
    {
        let count = self.waits.count;
        self.at = at;
        self.waits = Waits::none();
        if count > 0 {
            let start = up(at);
            if pools.push(start).is_err() {
                return Err(NoMemory);
            }
            self.at = start + 4 * count;
        }
        Ok(())
    }

    /// Goes to where a piece stands, with its own load among those that wait: behind their pool, where one behind the piece would put
    /// an entry too far.
    fn enter(&mut self, piece: &Piece, form: u8, pools: &mut Vec<u32>) -> Result<(), NoMemory>
        requires at { self.old.at + 8 * self.old.waits.count < 2 ^ 20 }
        requires latest { self.old.waits.latest_end < 2 ^ 25 }
        ensures entered { (waits : List Wait) → Counts self.old.waits waits
            → OnOk result (IsEntered piece.now form waits self.old.at self.new.at self.new.waits) }
        ensures pools { (waits : List Wait) → Counts self.old.waits waits
            → OnOk result (pools.new.items ≡ pools.old.items ++ pools_before piece.now form waits self.old.at) }
        ensures near { OnOk result (self.new.at ≤ self.old.at + 6 + 4 * self.old.waits.count) }
        ensures few { OnOk result (self.new.waits.count ≤ self.old.waits.count + 1) }
        ensures latest { OnOk result (self.new.waits.latest_end < 2 ^ 25) }
    {
        let at = self.at;
        let behind = at + piece.size(form);
        let start = if piece.goes_on() {
            up(behind + 2)
        } else {
            up(behind)
        };
        let waits = self.waits.and_of(piece, at);
        if waits.reach(start) {
            self.waits = waits;
            return Ok(());
        }
        self.lay_pool(at + 2, pools)?;
        self.waits = self.waits.and_of(piece, self.at);
        Ok(())
    }

    /// Goes over a piece whose branch has this form, and tells where it stands.
    fn pass(
        &mut self,
        piece: &Piece,
        form: u8,
        pools: &mut Vec<u32>,
    ) -> Result<PieceOffsets, NoMemory>
        requires at { self.old.at + 8 * self.old.waits.count < 2 ^ 20 }
        requires latest { self.old.waits.latest_end < 2 ^ 25 }
        ensures passed { (waits : List Wait) → Counts self.old.waits waits → IfOk result
            (λ place. IsPassed (chunk piece.now form waits self.old.at) place self.new.at self.new.waits) }
        ensures pools { (waits : List Wait) → Counts self.old.waits waits
            → OnOk result (pools.new.items ≡ pools.old.items ++ chunk_pools (chunk piece.now form waits self.old.at)) }
        ensures latest { OnOk result (self.new.waits.latest_end < 2 ^ 25) }
    {
        let at = self.at;
        self.enter(piece, form, pools)?;
        let body = self.at;
        let behind = body + piece.size(form);
        self.at = behind;
        if !piece.goes_on() {
            self.lay_pool(behind, pools)?;
        }
        Ok(PieceOffsets { at, body })
    }
}

/// Where pieces stand whose branches have these forms.
pub fn places_of(alloc: Global, pieces: &[Piece], forms: &[u8]) -> Result<Placed, NoMemory>
    requires proper { IsProper pieces.now forms.now }
    requires few { counted pieces.now ≤ 32768 }
    ensures { IfOk result (IsPlaced pieces.now forms.now) }
{
    let mut places = Vec::new(alloc);
    let mut pools = Vec::new(alloc);
    let mut cursor = Cursor {
        at: 0,
        waits: Waits::none(),
    };
    for (index, piece) in pieces.iter().enumerate() {
        let place = cursor.pass(piece, forms[index], &mut pools)?;
        if places.push(place).is_err() {
            return Err(NoMemory);
        }
    }
    let at = cursor.at;
    if places.push(PieceOffsets { at, body: at }).is_err() {
        return Err(NoMemory);
    }
    cursor.lay_pool(at, &mut pools)?;
    Ok(Placed {
        places,
        pools,
        end: cursor.at,
    })
}
