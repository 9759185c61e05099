// Words copied between the stack region and a record.
ghost use Rattle.std.specs.Prelude.{◌≡◌, Some, IfSome};
ghost use Rattle.slab.specs.Slab.{get, slab_len, Updates, ContainsKey};
ghost use Rattle.fiber_pool.specs.Kept.{Kept};
ghost use Rattle.bank_model.specs.Standing.{IsInside};
ghost use Rattle.fiber_runtime.specs.State.{ReachesBase, kept_of};
ghost use Rattle.fiber_runtime.specs.Moves.{Holds};

use crate::turning::Turning;
use armv6m_machine::Machine;
use fiber_pool::Pool;

/// Where the stack region begins.
const STACK: u32 = 0x2000_3000;

/// The words of the record become those from SP to the base, and its registers and base those of the machine.
pub fn copy_in(machine: &mut Machine, pool: &Pool, key: usize)
    requires live { ContainsKey pool.now key }
    requires fits { IfSome (get pool.now key) ReachesBase }
    ensures { (k : Kept) → get pool.now key ≡ Some k → Holds k machine.old machine.new }
{
    let (registers, base) = pool.kept(key);
    let words = pool.words(key);
    // A fiber without words may stand anywhere, also outside the stack region.
    let from = if words == 0 {
        0
    } else {
        ((registers.sp - STACK) / 4) as usize
    };
    let stack = machine.stack_mut();
    pool.restore(key, &mut stack[from..from + words]);
    machine.set_registers(registers);
    machine.set_base(base);
}

/// The running fiber is copied into its record.
pub fn copy_out(machine: &Machine, pool: &mut Pool, key: usize, turning: Turning)
    requires live { ContainsKey pool.old key }
    requires inside { IsInside machine.now.registers.sp machine.now.memory.base }
    ensures updates { Updates pool.old pool.new key (Some (kept_of machine.now turning)) }
    ensures live { slab_len pool.new ≡ slab_len pool.old }
    ensures fits { ReachesBase (kept_of machine.now turning) }
{
    let registers = machine.registers();
    let base = machine.base();
    let from = ((registers.sp - STACK) / 4) as usize;
    let to = ((base - STACK) / 4) as usize;
    pool.save(key, registers, base, &machine.stack()[from..to]);
    name(pool, key, turning);
}

/// Keeps the event value and the listener.
pub fn name(pool: &mut Pool, key: usize, turning: Turning)
    requires { ContainsKey pool.old key }
    ensures updates { (k : Kept) → get pool.old key ≡ Some k
        → Updates pool.old pool.new key (Some (record k { value = turning.value; listener = turning.listener })) }
    ensures live { slab_len pool.new ≡ slab_len pool.old }
{
    pool.set_value(key, turning.value);
    pool.set_listener(key, turning.listener);
}
