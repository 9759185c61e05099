// From a refusal to its explanation.
ghost use Rattle.std.specs.Prelude.{ℕ, map};
ghost use Rattle.around_place.specs.Telling.{IsFound, Explains};

use crate::own::own_of;
use crate::tables::{Rows, rows_of};
use around_place::{Explanation, explain_by};

/// What there is for a code: its tables, one behind the other, and its own explanation.
#[derive(Clone, Copy, Drop)]
pub struct Hints {
    /// The tables.
    pub tables: Rows,
    /// What is said where no row of them fits.
    pub own: Explanation,
}

impl Hints {
    /// What they say of a line and a column, both from 1, of a text: the first row that fits what stands around the place, else their own
    /// explanation. A line and column that the text hasn't stand for its end.
    pub fn explain(&self, text: &[u8], line: u32, column: u32) -> Explanation
        ensures { (at : ℕ) × (IsFound text.now line column at
            × Explains (map (λ table. table.now) self.now.tables) self.now.own text.now at column result) }
    {
        explain_by(&self.tables, self.own, text, line, column)
    }
}

/// What there is for a code; for what is no code it is said so.
pub fn hints_of(code: u32) -> Hints {
    Hints {
        tables: rows_of(code),
        own: own_of(code),
    }
}
