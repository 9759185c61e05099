//! The loads that wait for a pool, as far as its place hangs on them.
ghost use Rattle.std.specs.Prelude.{◌≡◌, ℕ, ◌+◌, ◌*◌, ◌<◌, ◌≤◌, ◌^◌, ◌++◌, List, []};
ghost use Rattle.thumb_layout.specs.Layout.{Wait, loads_at, reaches, up};
ghost use Rattle.thumb_layout.specs.Placing.{Counts};

use crate::pieces::Piece;

/// The next multiple of 4.
pub fn up(n: u32) -> u32
    requires { n < 2 ^ 24 }
    ensures { result ≡ up n }
{
    (n + 3) / 4 * 4
}

/// How many loads wait, and where their pool has to end at the latest so that no entry is past 1020 bytes from where its load counts.
#[derive(Clone, Copy, Drop)]
pub struct Waits {
    pub count: u32,
    pub latest_end: u32,
}

impl Waits {
    /// No load waits.
    pub fn none() -> Waits
        ensures counts { Counts result [] }
        ensures count { result.count ≡ 0 }
        ensures latest { result.latest_end ≡ 0 }
    {
        Waits {
            count: 0,
            latest_end: 0,
        }
    }

    /// These loads and the one that a piece at an address is, where it is one. An entry more lets each of the others end 4 bytes later.
    pub fn and_of(self, piece: &Piece, at: u32) -> Waits
        requires at { at < 2 ^ 24 }
        requires count { self.count < 2 ^ 24 }
        requires latest { self.latest_end < 2 ^ 25 }
        ensures counts { (waits : List Wait) → Counts self waits → Counts result (waits ++ loads_at piece.now at) }
        ensures count { result.count ≤ self.count + 1 }
        ensures latest { result.latest_end < 2 ^ 25 }
    {
        if piece.entry().is_none() {
            return self;
        }
        let own_end = (at + 4) / 4 * 4 + 1024;
        Waits {
            count: self.count + 1,
            latest_end: if self.count == 0 {
                own_end
            } else {
                own_end.min(self.latest_end + 4)
            },
        }
    }

    /// A pool of these loads that begins at an address has no entry too far.
    pub fn reach(self, start: u32) -> bool
        requires start { start < 2 ^ 24 }
        requires count { self.count < 2 ^ 24 }
        ensures { (waits : List Wait) → Counts self waits → result ≡ reaches start waits }
    {
        self.count == 0 || start + 4 * self.count <= self.latest_end
    }
}
