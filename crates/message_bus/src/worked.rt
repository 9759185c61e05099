// Worked rows: twelve events for a listener whose handler doesn't end, by its mode.
ghost use Rattle.std.specs.Prelude.{◌≡◌, pos, Some, [], ◌∷◌};
ghost use Rattle.board_world.specs.Rules.{reentrant, queues_if_busy, drops_if_busy};
ghost use Rattle.message_bus.specs.ListenerState.{oldest, ended};
ghost use Rattle.message_bus.specs.TwelveEvents.{event, events, after_twelve, busy_with};

/// A queueing listener begins at the first event, holds the next ten and loses the twelfth; any mode but 8 and 32 queues.
/// A dropping one holds none. A reentrant one begins an activity for each.
pub fn rows_of_busy_listeners()
    ensures queueing { after_twelve queues_if_busy ≡ busy_with queues_if_busy 1 (events 10 2) }
    ensures other_mode { after_twelve (pos 0) ≡ busy_with (pos 0) 1 (events 10 2) }
    ensures dropping { after_twelve drops_if_busy ≡ busy_with drops_if_busy 1 [] }
    ensures reentrant { after_twelve reentrant ≡ busy_with reentrant 12 [] }
{}

/// An activity that ends begins again with the oldest held event; without one, one activity fewer is alive.
pub fn rows_of_ends()
    ensures oldest { oldest (events 3 2) ≡ Some (event 2) }
    ensures again { ended (busy_with queues_if_busy 1 (events 3 2)) ≡ busy_with queues_if_busy 1 (events 2 3) }
    ensures fewer { ended (busy_with reentrant 2 []) ≡ busy_with reentrant 1 [] }
{}
