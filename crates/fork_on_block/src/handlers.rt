// A handler begins, forks, ends, begins again.
ghost use Rattle.std.specs.Prelude.{◌≡◌, ℕ, ◌<◌, ◌↔◌, Some, None, IsOk, IfOk, OnOk, OnErr, IsSome};
ghost use Rattle.slab.specs.Slab.{slab_len};
ghost use Rattle.board_world.specs.Limits.{seat_limit};
ghost use Rattle.fiber_runtime.specs.declared.turning.Turning.{Turning};
ghost use Rattle.fiber_runtime.specs.State.{running_key};
ghost use Rattle.fiber_runtime.specs.Moves.{Adopted, restarted};
ghost use Rattle.fork_on_block.specs.Handlers.{invoked};

use board_world::Event;
use fiber_runtime::{Runtime, SeatsFull};

/// A handler begins and runs, without a record: on the innermost raiser's SP, or on word 0 of flash where no raiser
/// stands. The event's value is its event value.
pub fn invoke(runtime: &mut Runtime, entry: u32, event: Event)
    requires { runtime.old.running ≡ None }
    ensures after { runtime.new ≡ invoked entry event runtime.old }
    ensures records { runtime.new.pool ≡ runtime.old.pool }
{
    let base = match runtime.raiser_sp() {
        Some(sp) => sp,
        None => runtime.first_base(),
    };
    runtime.start(entry, base, event.value);
}

/// The running handler gets a record, whose key is given; it is due at its first block. It is refused exactly where 24
/// seats are taken; then nothing changes.
pub fn fork(runtime: &mut Runtime) -> Result<usize, SeatsFull>
    requires runs { IsSome runtime.old.running }
    requires keyless { running_key runtime.old.running ≡ None }
    ensures room { IsOk result ↔ (slab_len runtime.old.pool < seat_limit) }
    ensures full { OnErr result (runtime.new ≡ runtime.old) }
    ensures ok { IfOk result
        (λ key. (t : Turning) → runtime.old.running ≡ Some t → Adopted key t runtime.old runtime.new) }
    ensures machine { OnOk result (runtime.new.machine ≡ runtime.old.machine) }
{
    runtime.adopt()
}

/// The running handler, which has no record, ends. Every record stays.
pub fn leave(runtime: &mut Runtime)
    requires runs { IsSome runtime.old.running }
    requires keyless { running_key runtime.old.running ≡ None }
    ensures { runtime.new ≡ record runtime.old { running = None } }
{
    runtime.stop();
}

/// The running handler begins again with another event, on its own base. Its record stays claimed, where it has one, and
/// it stays its listener's.
pub fn again(runtime: &mut Runtime, entry: u32, event: Event)
    requires { IsSome runtime.old.running }
    ensures after { (t : Turning) → runtime.old.running ≡ Some t
        → runtime.new ≡ restarted entry (record t { value = event.value }) runtime.old }
    ensures records { runtime.new.pool ≡ runtime.old.pool }
{
    runtime.restart(entry, event.value);
}
