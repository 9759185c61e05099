// Places of temporaries.
ghost use Rattle.std.specs.Prelude.{◌≡◌, ◌↔◌, IsTrue};

use flat_ir::Function;
use sts_base::Seq;

/// Where a temporary stands.
#[derive(Clone, Copy, Drop)]
pub enum Place {
    /// in a register, by its number
    Reg(u8),
    /// in a slot of the function's own frame, counted from 0
    Slot(u32),
    /// in one of the words in which the caller passed its arguments, counted from 0
    Incoming(u32),
}

/// A function, and the place of each of its temporaries by its number.
#[derive(Drop)]
pub struct Placed {
    /// the function
    pub function: Function,
    /// where its temporaries stand
    pub places: Seq<Place>,
}

/// Whether two places are the same.
pub(crate) fn same(a: Place, b: Place) -> bool
    ensures { IsTrue result ↔ (a ≡ b) }
{
    match (a, b) {
        (Place::Reg(x), Place::Reg(y)) => x == y,
        (Place::Slot(x), Place::Slot(y)) | (Place::Incoming(x), Place::Incoming(y)) => x == y,
        _ => false,
    }
}
