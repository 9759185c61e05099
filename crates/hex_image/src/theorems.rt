//! What holds of every text and every image, whatever runs.

ghost use Rattle.std.specs.Prelude.{ℕ, List};
ghost use Rattle.hex_image.specs.Laws.{IsImage, OneReading, RoundTrip};

/// Each text spells one image, or there is one rule that it breaks first.
pub fn one_reading()
    ensures { (text : List ℕ) → OneReading text }
{}

/// The text that is written for an image of at most 262,144 bytes spells that image and no other.
pub fn round_trip()
    ensures { (image : List ℕ) → IsImage image → RoundTrip image }
{}
