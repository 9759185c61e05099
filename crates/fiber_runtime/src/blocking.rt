// Why a fiber blocks, and the list that it joins.
ghost use Rattle.std.specs.Prelude.{◌≡◌, ◌<◌, ◌≤◌};
ghost use Rattle.board_world.specs.Limits.{seat_limit, end_limit};
ghost use Rattle.board_world.specs.Rules.{wake_time};
ghost use Rattle.fiber_queues.specs.Lists.{total};
ghost use Rattle.fiber_runtime.specs.Moves.{joined};

use board_world::Event;
use fiber_queues::Queues;

/// Why a fiber blocks.
#[derive(Clone, Copy)]
pub enum Why {
    /// It sleeps for so many milliseconds, but one at least.
    Pause(i32),
    /// It waits for an event. Source 0 and value 0 stand for any.
    Wait(Event),
}

/// When a pause ends.
fn wake_time(now: u32, time: i32) -> u32
    requires { now ≤ end_limit }
    ensures { result ≡ wake_time now time }
{
    if time > 0 { now + time as u32 } else { now + 1 }
}

/// A key joins the list for why it blocks.
pub fn join(queues: &mut Queues, key: usize, why: Why, now: u32)
    requires room { total queues.old < seat_limit }
    requires early { now ≤ end_limit }
    ensures { queues.new ≡ joined why now key queues.old }
{
    match why {
        Why::Pause(time) => queues.sleep(key, wake_time(now, time)),
        Why::Wait(event) => queues.wait(key, event),
    }
}
