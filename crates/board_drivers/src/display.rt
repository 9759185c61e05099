// The display.
ghost use Rattle.std.specs.Prelude.{◌≡◌, ◌≢◌, ◌↔◌, IsTrue};
ghost use Rattle.board_world.specs.Board.{Board};
ghost use Rattle.board_world.specs.Kinds.{showed};
ghost use Rattle.board_drivers.specs.Display.{seen_if};

use std::marker::Model;

/// The frame that the display shows: bit `5 * y + x` is the light at column x and row y.
#[derive(Drop)]
pub struct Display {
    frame: u32,
}

impl Model for Display {
    ghost use Rattle.std.specs.Prelude.{ℕ};

    ghost Value = { ℕ };

    ghost view = { λ d. d.frame };
}

impl Display {
    /// All lights are dark.
    pub fn new() -> Display
        ensures { result ≡ 0 }
    {
        Display { frame: 0 }
    }

    /// Shows a frame, and says whether it differs from the one before: false exactly where it is the same.
    pub fn show(&mut self, frame: u32) -> bool
        ensures frame { self.new ≡ frame }
        ensures changed { IsTrue result ↔ (self.old ≢ frame) }
        ensures board { (b : Board) → b.frame ≡ self.old → showed frame b ≡ seen_if result frame b }
    {
        let changed = self.frame != frame;
        self.frame = frame;
        changed
    }

    /// The frame that is shown.
    pub fn frame(&self) -> u32
        ensures { result ≡ self.now }
    {
        self.frame
    }
}
