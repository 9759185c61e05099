//! The drivers of what a person sees and presses: the two buttons, the display's frame, and the font.
#![tactic(auto)]

mod buttons;
mod display;
mod font;

pub use buttons::Buttons;
pub use display::Display;
pub use font::glyph;
