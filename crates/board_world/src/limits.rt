//! How much of each thing there can be, for code that keeps to it.

ghost use Rattle.std.specs.Prelude.{◌≡◌};
ghost use Rattle.board_world.specs.Limits.{seat_limit, listener_limit, queue_limit, held_limit, raiser_limit, arena_limit, depth_limit, click_limit, pin_limit, end_limit, last_port};

/// Activities that hold a seat at once.
pub const SEAT_LIMIT: usize = 24;
/// Listeners.
pub const LISTENER_LIMIT: usize = 32;
/// Events that are queued.
pub const QUEUE_LIMIT: usize = 32;
/// Events that a busy listener holds.
pub const HELD_LIMIT: usize = 10;
/// Activities that are suspended by raising at once.
pub const RAISER_LIMIT: usize = 32;
/// Words of the arena.
pub const ARENA_LIMIT: u32 = 2816;
/// Words of an activity's depth.
pub const DEPTH_LIMIT: u32 = 960;
/// Milliseconds: a button that is let go before has made a click, and then a long one.
pub const CLICK_LIMIT: u32 = 1000;
/// Pins, from 0 on.
pub const PIN_LIMIT: u32 = 21;
/// Milliseconds: the latest end of a script.
pub const END_LIMIT: u32 = 1_073_741_824;
/// The last port; the first is 0.
pub const LAST_PORT: u32 = 3;

/// The limits of code are those of the world.
pub fn limits_are_the_worlds()
    ensures seats { SEAT_LIMIT ≡ seat_limit }
    ensures listeners { LISTENER_LIMIT ≡ listener_limit }
    ensures queue { QUEUE_LIMIT ≡ queue_limit }
    ensures held { HELD_LIMIT ≡ held_limit }
    ensures raisers { RAISER_LIMIT ≡ raiser_limit }
    ensures arena { ARENA_LIMIT ≡ arena_limit }
    ensures depth { DEPTH_LIMIT ≡ depth_limit }
    ensures click { CLICK_LIMIT ≡ click_limit }
    ensures pins { PIN_LIMIT ≡ pin_limit }
    ensures end { END_LIMIT ≡ end_limit }
    ensures ports { LAST_PORT ≡ last_port }
{}
