//! Refusals.

use sts_base::NoMemory;

/// Why code isn't linked.
#[derive(Clone, Copy, Debug, PartialEq, Eq, Drop)]
pub enum LinkRefused {
    /// The image takes more than the 262,144 bytes of flash.
    PastFlash,
    NoMemory,
}

impl From<NoMemory> for LinkRefused {
    ghost use Rattle.std.specs.Prelude.{◌≡◌};
    ghost use Rattle.image_link.specs.declared.refused.LinkRefused.TheVariants as refused;

    ghost from_gives = { λ _ e. e ≡ refused.NoMemory };

    fn from(_: NoMemory) -> LinkRefused {
        LinkRefused::NoMemory
    }
}
