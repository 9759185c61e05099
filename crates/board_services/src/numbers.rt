// The numbers of the services.
ghost use Rattle.std.specs.Prelude.{◌≡◌, [], ◌∷◌};

/// The fiber ends.
pub const END: u8 = 0;
/// The board panics.
pub const PANIC: u8 = 1;
/// The fiber pauses for milliseconds.
pub const PAUSE: u8 = 2;
/// The fiber waits for an event.
pub const WAIT: u8 = 3;
/// A fiber begins at a function.
pub const SPAWN: u8 = 4;
/// A handler listens to events, which are held back while it is busy.
pub const LISTEN: u8 = 5;
/// An event joins the queue.
pub const RAISE: u8 = 6;
/// The time in milliseconds.
pub const TIME: u8 = 7;
/// The value of the event for which the handler runs.
pub const EVENT_VALUE: u8 = 8;
/// Whether a button is down.
pub const BUTTON: u8 = 9;
/// A light of the display is set.
pub const PLOT: u8 = 10;
/// A frame is shown.
pub const SHOW: u8 = 11;
/// A number is written to the serial port.
pub const WRITE_NUMBER: u8 = 12;
/// A text is written to the serial port.
pub const WRITE_TEXT: u8 = 13;
/// A pin is set.
pub const WRITE_PIN: u8 = 14;
/// A number is sent by radio.
pub const SEND: u8 = 15;
/// The frame that shows a byte of a text.
pub const TEXT_GLYPH: u8 = 16;
/// The frame that shows a byte of a number's decimal text.
pub const NUMBER_GLYPH: u8 = 17;
/// Words of the arena are taken.
pub const ALLOCATE: u8 = 18;
/// A value goes into an array.
pub const PUSH: u8 = 19;
/// The quotient of two numbers.
pub const DIVIDE: u8 = 20;
/// The remainder of two numbers.
pub const REMAINDER: u8 = 21;
/// A handler listens to events in a mode that is passed.
pub const LISTEN_IN_MODE: u8 = 22;
/// An event is raised, and its handlers run before the fiber goes on.
pub const RAISE_NOW: u8 = 23;

/// Services have the numbers 0 to 23.
pub fn services_are_numbered()
    ensures fibers { END ∷ PANIC ∷ PAUSE ∷ WAIT ∷ SPAWN ∷ LISTEN ∷ RAISE ∷ [] ≡ 0 ∷ 1 ∷ 2 ∷ 3 ∷ 4 ∷ 5 ∷ 6 ∷ [] }
    ensures questions { TIME ∷ EVENT_VALUE ∷ BUTTON ∷ [] ≡ 7 ∷ 8 ∷ 9 ∷ [] }
    ensures outputs { PLOT ∷ SHOW ∷ WRITE_NUMBER ∷ WRITE_TEXT ∷ WRITE_PIN ∷ SEND ∷ []
        ≡ 10 ∷ 11 ∷ 12 ∷ 13 ∷ 14 ∷ 15 ∷ [] }
    ensures glyphs { TEXT_GLYPH ∷ NUMBER_GLYPH ∷ [] ≡ 16 ∷ 17 ∷ [] }
    ensures words { ALLOCATE ∷ PUSH ∷ DIVIDE ∷ REMAINDER ∷ [] ≡ 18 ∷ 19 ∷ 20 ∷ 21 ∷ [] }
    ensures further { LISTEN_IN_MODE ∷ RAISE_NOW ∷ [] ≡ 22 ∷ 23 ∷ [] }
{}
