// A sink of bytes, by what it has taken and by a count of its faults.
ghost use Rattle.std.specs.Prelude.{◌≡◌, List, ℕ};
ghost use Rattle.std.specs.declared.option.Option.{Option};
ghost use Rattle.tool_io.specs.Putting.{Puts};

/// The sink failed.
#[derive(Clone, Copy, Debug, PartialEq, Eq, Drop)]
pub struct PutFailed;

/// A sink that output is put to.
pub trait Sink {
    /// The bytes that it has taken, where it tells.
    ghost taken: { Self → Option (List ℕ) };

    /// How often the sink has failed.
    ghost faults: { Self → ℕ };

    /// Appends a piece. After `PutFailed`, which comes only where the count of faults rose, a prefix of the piece
    /// was appended.
    fn put(&mut self, piece: &[u8]) -> Result<(), PutFailed>
        ensures { Puts (taken self.old) (taken self.new) (faults self.old) (faults self.new) piece.now result };
}
