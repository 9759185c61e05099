//! Laid code.

use crate::pieces::What;
use sts_base::{NoMemory, Seq};

/// A place in laid code at which four bytes are open: at `at`, a multiple of 2, stands a BL to a function where `call` is set,
/// and else the word for `what`.
#[derive(Clone, Copy, Drop)]
pub struct Fix {
    pub at: u32,
    pub what: What,
    pub call: bool,
}

/// The bytes of pieces, and the places in them that are open. At these a BL stands with offset 0, and a word is 0.
#[derive(Drop)]
pub struct Laid {
    pub bytes: Seq<u8>,
    pub fixes: Seq<Fix>,
}

/// Why pieces aren't laid.
#[derive(Clone, Copy, Debug, PartialEq, Eq, Drop)]
pub enum LayRefused {
    /// They take more than 65,536 bytes.
    TooLong,
    NoMemory,
}

impl From<NoMemory> for LayRefused {
    ghost use Rattle.std.specs.Prelude.{◌≡◌};
    ghost use Rattle.thumb_layout.specs.declared.laid.LayRefused.TheVariants as refused;

    ghost from_gives = { λ _ e. e ≡ refused.NoMemory };

    fn from(_: NoMemory) -> LayRefused {
        LayRefused::NoMemory
    }
}
