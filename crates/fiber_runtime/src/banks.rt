// The fibers of a runtime as those of the bank machine, each with its own words.
ghost use Rattle.std.specs.Prelude.{◌≡◌, ◌≢◌, ℕ, ◌≤◌, List, map, Some};
ghost use Rattle.slab.specs.Slab.{Slab, get};
ghost use Rattle.thumb_code.specs.Machine.{State as MachineState, step, base_of, main_of};
ghost use Rattle.armv6m_machine.specs.declared.faults.Turn.{Turn};
ghost use Rattle.armv6m_machine.specs.Steps.{IsStep};
ghost use Rattle.bank_model.specs.Fibers.{begins, begins_on, begins_again};
ghost use Rattle.board_world.specs.declared.events.Event.{Event};
ghost use Rattle.fiber_pool.specs.Kept.{Kept};
ghost use Rattle.fiber_runtime.specs.declared.turning.Turning.{Turning};
ghost use Rattle.fiber_runtime.specs.declared.turning.Raiser.{Raiser};
ghost use Rattle.fiber_runtime.specs.declared.blocking.Why.{Why};
ghost use Rattle.bank_model.specs.Standing.{fiber_on, KeepsAbove};
ghost use Rattle.fiber_runtime.specs.State.{State, ReachesBase, kept_of, fiber_raising, fiber_at};
ghost use Rattle.fiber_runtime.specs.Sound.{IsNested, IsStanding};
ghost use Rattle.fiber_runtime.specs.Moves.{HasMain, Blocked, Put, Resumed, Spawned, Woken, started, restarted, suspended, raiser_of, reinstated, Parked, Taken, HasWords};

/// A fiber's registers, base and words stay the same while it goes from the machine to its record or to the raisers, and
/// back. A fiber that begins does so as in the bank machine, with no words.
pub fn moves_keep_banks()
    ensures main { (machine : MachineState) (s : State) (m : HasMain machine s)
        → fiber_at s.pool m.key ≡ begins machine.memory.flash (main_of machine.memory.flash) }
    ensures spawned { (entry : ℕ) (old new : State) (m : Spawned entry (base_of old.machine.memory.flash) old new)
        → fiber_at new.pool m.key ≡ begins old.machine.memory.flash entry }
    ensures started { (entry base : ℕ) (t : Turning) (s : State)
        → fiber_on (started entry base t s).machine ≡ begins_on s.machine.memory.flash base entry }
    ensures restarted { (entry : ℕ) (t : Turning) (s : State)
        → fiber_on (restarted entry t s).machine ≡ begins_again s.machine.memory.flash (fiber_on s.machine) entry }
    ensures blocked { (key now : ℕ) (t : Turning) (why : Why) (old new : State) → Blocked key t why now old new
        → fiber_at new.pool key ≡ fiber_on old.machine }
    ensures resumed { (old new : State) (m : Resumed old new) → fiber_on new.machine ≡ fiber_at old.pool m.key }
    ensures suspended { (t : Turning) (s : State)
        → fiber_raising s.machine.memory.stack (raiser_of s.machine t) ≡ fiber_on s.machine }
    ensures reinstated { (r : Raiser) (rs : List Raiser) (s : State)
        → fiber_on (reinstated r rs s).machine ≡ fiber_raising s.machine.memory.stack r }
{}

/// One instruction of the running fiber keeps flash, the base and all words from the base on, so it keeps the registers,
/// base and words of every raiser; records it doesn't meet. Neither does waking change any of these.
pub fn others_keep_banks()
    ensures step { (old new : MachineState) (turn : Turn) → IsStep (step old) turn old new
        → KeepsAbove old.memory new.memory }
    ensures raisers { (t : Turning) (rs : List Raiser) (old new : MachineState) (turn : Turn) →
        IsStanding (Some t) old rs → IsStep (step old) turn old new →
        map (fiber_raising new.memory.stack) rs ≡ map (fiber_raising old.memory.stack) rs }
    ensures woken { (e : Event) (old new : State) (key : ℕ) (k : Kept) → Woken e old new → get old.pool key ≡ Some k
        → fiber_at new.pool key ≡ fiber_at old.pool key }
{}

/// Who copies the words makes no difference. Where they stand in the record already, blocking without copying is
/// blocking; where they stand in the stack region already, taking the first ready fiber without copying is resuming it.
pub fn anybody_may_copy()
    ensures blocks { (key now : ℕ) (t : Turning) (why : Why) (old new : State) (pool : Slab Kept) (k : Kept)
        → get old.pool key ≡ Some k → HasWords key (kept_of old.machine t).words old.pool pool
        → Parked key t why now (record old { pool = pool }) new → Blocked key t why now old new }
    ensures resumes { (old new : State) (stack : List ℕ) (p : Taken
        (record old { machine = record old.machine { memory = record old.machine.memory { stack = stack } } }) new)
        → ReachesBase p.kept → Put p.kept old.machine.memory.stack stack → Resumed old new }
{}
