//! The codes of the panics that the board makes itself.

ghost use Rattle.std.specs.Prelude.{◌≡◌};
ghost use Rattle.board_world.specs.Panics.{arena_panic, seat_panic, depth_panic, listener_panic, index_panic, null_panic, raiser_panic};

/// More words of the arena would be used than there are.
pub const ARENA_PANIC: u8 = 20;
/// A seat is needed, and all are taken.
pub const SEAT_PANIC: u8 = 101;
/// An activity would be deeper than it may be.
pub const DEPTH_PANIC: u8 = 102;
/// A listener is registered, and all stand.
pub const LISTENER_PANIC: u8 = 103;
/// An array's index is out of range, or an empty array is to give its last item.
pub const INDEX_PANIC: u8 = 104;
/// Something is used through null.
pub const NULL_PANIC: u8 = 105;
/// A handler would begin by raising at once, and as many raisers as may be are suspended.
pub const RAISER_PANIC: u8 = 106;

/// The codes of code are those of the world.
pub fn panics_are_the_worlds()
    ensures arena { ARENA_PANIC ≡ arena_panic }
    ensures seat { SEAT_PANIC ≡ seat_panic }
    ensures depth { DEPTH_PANIC ≡ depth_panic }
    ensures listener { LISTENER_PANIC ≡ listener_panic }
    ensures index { INDEX_PANIC ≡ index_panic }
    ensures null { NULL_PANIC ≡ null_panic }
    ensures raiser { RAISER_PANIC ≡ raiser_panic }
{}
