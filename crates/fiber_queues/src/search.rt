// Who is the next to wake.
ghost use Rattle.std.specs.Prelude.{◌≡◌, [], nat_le, IfSome, IfNone};
ghost use Rattle.board_world.specs.Waiting.{least, chosen, hears};
ghost use Rattle.fiber_queues.specs.Lists.{IsFirst};

use board_world::{Event, Listener, hits};

/// The least wake time.
pub fn least_of(sleepers: &[(u32, usize)]) -> Option<u32>
    ensures { result ≡ least sleepers.now }
{
    let mut best: Option<u32> = None;
    for (wake, _) in sleepers {
        best = match best {
            None => Some(*wake),
            Some(time) => Some(if *wake < time { *wake } else { time }),
        };
    }
    best
}

/// Whether an event is one that a waiter wants.
fn is_heard(event: Event, wanted: Event) -> bool
    ensures { result ≡ hears event wanted }
{
    hits(
        Listener {
            source: wanted.source,
            value: wanted.value,
            handler: 0,
            mode: 0,
        },
        event,
    )
}

/// Where the first sleeper is whose wake time has come.
pub fn first_due(sleepers: &[(u32, usize)], now: u32) -> Option<usize>
    ensures none { IfNone result (chosen (λ wake. nat_le wake now) sleepers.now ≡ []) }
    ensures some { IfSome result (IsFirst (λ wake. nat_le wake now) sleepers.now) }
{
    for (at, (wake, _)) in sleepers.iter().enumerate() {
        if *wake <= now {
            return Some(at);
        }
    }
    None
}

/// Where the first waiter is that hears the event.
pub fn first_hearing(waiters: &[(Event, usize)], event: Event) -> Option<usize>
    ensures none { IfNone result (chosen (hears event) waiters.now ≡ []) }
    ensures some { IfSome result (IsFirst (hears event) waiters.now) }
{
    for (at, (wanted, _)) in waiters.iter().enumerate() {
        if is_heard(event, *wanted) {
            return Some(at);
        }
    }
    None
}
