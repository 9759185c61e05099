// The waiters who hear an event.
ghost use Rattle.std.specs.Prelude.{◌≡◌, ℕ, ◌≤◌, Some};
ghost use Rattle.slab.specs.Slab.{get, slab_len, ContainsKey};
ghost use Rattle.board_world.specs.Waiting.{chosen, hears};
ghost use Rattle.fiber_pool.specs.Kept.{Kept};
ghost use Rattle.fiber_queues.specs.Keys.{how_often};
ghost use Rattle.fiber_queues.specs.Calls.{all_woken};

use board_world::Event;
use fiber_pool::Pool;
use fiber_queues::Queues;

/// They become ready in order, with the event's value.
pub fn wake(queues: &mut Queues, pool: &mut Pool, event: Event)
    requires { (key : ℕ) → 1 ≤ how_often key (chosen (hears event) queues.old.waiters) → ContainsKey pool.old key }
    ensures lists { queues.new ≡ all_woken event queues.old }
    ensures changed { (key : ℕ) (k : Kept) → get pool.old key ≡ Some k
        → 1 ≤ how_often key (chosen (hears event) queues.old.waiters)
        → get pool.new key ≡ Some (record k { value = event.value }) }
    ensures others { (key : ℕ) → how_often key (chosen (hears event) queues.old.waiters) ≡ 0
        → get pool.new key ≡ get pool.old key }
    ensures live { slab_len pool.new ≡ slab_len pool.old }
{
    while let Some(key) = queues.wake_waiter(event) {
        pool.set_value(key, event.value);
    }
}
