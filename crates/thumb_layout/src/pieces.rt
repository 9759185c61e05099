//! Pieces of code, whose branches and pools are not laid yet.

ghost use Rattle.std.specs.Prelude.{◌≡◌, ℕ, option_to_list};
ghost use Rattle.std.specs.Int.{from_bool};
ghost use Rattle.thumb_layout.specs.Pieces.{goes_on, goes_on_instr};
ghost use Rattle.thumb_layout.specs.Layout.{size, loads_at};
ghost use Rattle.thumb_layout.specs.Rounds.{has_bytes};
ghost use Rattle.thumb_layout.specs.Cells.{entries};

use thumb_code::Instr;

/// The condition of a branch that is always taken.
pub const ALWAYS: u8 = 14;

/// Something whose address is known only when the whole image is laid out: a function, a text or a class, by its number.
#[derive(Clone, Copy, Drop)]
pub enum What {
    Function(u32),
    Text(u32),
    Class(u32),
}

/// A piece of a function's code.
#[derive(Clone, Copy, Drop)]
pub enum Piece {
    /// An instruction that does the same wherever it stands.
    Plain(Instr),
    /// A place that is gone to. It has no bytes.
    Label(u32),
    /// A branch to a label where a condition holds (0 to 13 as in the manual's table A6-1), or always (14).
    Go { cond: u8, label: u32 },
    /// A call of a function, by BL.
    CallTo { function: u32 },
    /// A number into a register R0 to R7.
    Number { rd: u8, value: u32 },
    /// The word that stands for a function, a text or a class into a register R0 to R7.
    Address { rd: u8, what: What },
}

/// What a word of a pool is.
#[derive(Clone, Copy, Drop)]
pub enum Entry {
    Value(u32),
    Of(What),
}

impl Piece {
    /// How many bytes the piece has; a branch has form 0, the shortest, 1 or 2.
    pub fn size(&self, form: u8) -> u32
        ensures { result ≡ size self.now form }
    {
        match *self {
            Piece::Plain(_) | Piece::Number { .. } | Piece::Address { .. } => 2,
            Piece::Label(_) => 0,
            Piece::Go { .. } => 2 + 2 * u32::from(form),
            Piece::CallTo { .. } => 4,
        }
    }

    /// The piece has bytes.
    pub fn has_bytes(&self) -> bool
        ensures { from_bool result ≡ has_bytes self.now }
    {
        match *self {
            Piece::Label(_) => false,
            _ => true,
        }
    }

    /// The next piece is gone on at.
    pub fn goes_on(&self) -> bool
        ensures { result ≡ goes_on self.now }
    {
        match *self {
            Piece::Plain(instr) => goes_on_instr(instr),
            Piece::Go { cond, .. } => cond != ALWAYS,
            _ => true,
        }
    }

    /// The word of a pool that the piece loads.
    pub fn entry(&self) -> Option<Entry>
        ensures { (at : ℕ) → option_to_list result ≡ entries (loads_at self.now at) }
    {
        match *self {
            Piece::Number { value, .. } => {
                if value < 256 {
                    None
                } else {
                    Some(Entry::Value(value))
                }
            }
            Piece::Address { what, .. } => Some(Entry::Of(what)),
            _ => None,
        }
    }
}

/// The instruction behind this one is gone on at.
fn goes_on_instr(instr: Instr) -> bool
    ensures { result ≡ goes_on_instr instr }
{
    match instr {
        Instr::Bx { .. } => false,
        Instr::Pop { p, .. } => !p,
        Instr::AddHigh { rd, .. } | Instr::MovHigh { rd, .. } => rd != 15,
        _ => true,
    }
}
