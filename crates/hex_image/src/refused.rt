//! Why a text spells no image.

use std::alloc::AllocError;
use sts_base::NoMemory;

/// The rule that a text breaks first.
#[derive(Clone, Copy)]
pub enum HexCode {
    /// A line is no record: it has no colon, a character that is no hexadecimal digit, an odd count of digits, or
    /// a length that disagrees; or a record's type wants another length of data.
    BadLine,
    /// The bytes of a line don't add up to 0 modulo 256.
    BadSum,
    /// A type above 05.
    BadType,
    /// A data byte at an address that an earlier record gave.
    Overlap,
    /// A data byte at 262,144 or above.
    PastFlash,
    /// The text ends without an end record.
    NoEnd,
    /// A line that isn't empty follows the end record.
    AfterEnd,
}

impl HexCode {
    ghost use Rattle.std.specs.Prelude.{◌≡◌};
    ghost use Rattle.hex_image.specs.Codes.{number_of};

    /// The code's number, from 1 to 7.
    pub fn number(self) -> u8
        ensures { result ≡ number_of self }
    {
        match self {
            HexCode::BadLine => 1,
            HexCode::BadSum => 2,
            HexCode::BadType => 3,
            HexCode::Overlap => 4,
            HexCode::PastFlash => 5,
            HexCode::NoEnd => 6,
            HexCode::AfterEnd => 7,
        }
    }
}

/// Why `read_hex` gave no image.
#[derive(Clone, Copy)]
pub enum HexRefused {
    /// The text spells no image; the code is that of the first rule that it breaks.
    Image(HexCode),
    /// Memory ran out.
    NoMemory,
}

impl From<NoMemory> for HexRefused {
    ghost use Rattle.std.specs.Prelude.{◌≡◌};
    ghost use Rattle.hex_image.specs.declared.refused.HexRefused.TheVariants as refused;

    ghost from_gives = { λ _ e. e ≡ refused.NoMemory };

    fn from(_: NoMemory) -> HexRefused {
        HexRefused::NoMemory
    }
}

impl From<AllocError> for HexRefused {
    ghost use Rattle.std.specs.Prelude.{◌≡◌};
    ghost use Rattle.hex_image.specs.declared.refused.HexRefused.TheVariants as refused;

    ghost from_gives = { λ _ e. e ≡ refused.NoMemory };

    fn from(_: AllocError) -> HexRefused {
        HexRefused::NoMemory
    }
}

impl From<HexCode> for HexRefused {
    ghost use Rattle.std.specs.Prelude.{◌≡◌};
    ghost use Rattle.hex_image.specs.declared.refused.HexRefused.TheVariants as refused;

    ghost from_gives = { λ code e. e ≡ refused.Image code };

    fn from(code: HexCode) -> HexRefused {
        HexRefused::Image(code)
    }
}
