//! What a listener does with an event while its handler is busy, by the number of its mode.

ghost use Rattle.std.specs.Prelude.{◌≡◌};
ghost use Rattle.board_world.specs.Rules.{reentrant, queues_if_busy, drops_if_busy};

/// A further handler begins.
pub const REENTRANT: i32 = 8;
/// The event is held. Every number but the other two does the same.
pub const QUEUES_IF_BUSY: i32 = 16;
/// The event is dropped.
pub const DROPS_IF_BUSY: i32 = 32;

/// The modes of code are those of the world.
pub fn modes_are_the_worlds()
    ensures reentrant { REENTRANT ≡ reentrant }
    ensures queues { QUEUES_IF_BUSY ≡ queues_if_busy }
    ensures drops { DROPS_IF_BUSY ≡ drops_if_busy }
{}
