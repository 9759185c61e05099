// The handlers of the board as fibers of the bank machine.
ghost use Rattle.std.specs.Prelude.{◌≡◌, ◌≢◌, ℕ, List, map};
ghost use Rattle.slab.specs.Slab.{get};
ghost use Rattle.board_world.specs.declared.events.Event.{Event};
ghost use Rattle.bank_model.specs.Fibers.{begins_on, begins_again};
ghost use Rattle.fiber_runtime.specs.declared.turning.Turning.{Turning};
ghost use Rattle.fiber_runtime.specs.declared.turning.Raiser.{Raiser};
ghost use Rattle.fiber_runtime.specs.State.{State, fiber_raising};
ghost use Rattle.fiber_runtime.specs.Moves.{Adopted, restarted, suspended, raiser_of, reinstated};
ghost use Rattle.bank_model.specs.Standing.{fiber_on};
ghost use Rattle.fork_on_block.specs.Handlers.{base_for, invoked};

/// A handler that begins is the bank machine's fiber that begins, on the raiser's SP or on word 0 of flash, before it has
/// a record. That it gets one changes no fiber: neither its own registers, base and words nor any other record. Where it
/// begins again it is the bank machine's fiber that does.
pub fn handlers_are_fibers_from_their_start()
    ensures begins { (entry : ℕ) (e : Event) (s : State) → fiber_on (invoked entry e s).machine
        ≡ begins_on s.machine.memory.flash (base_for s.machine.memory.flash s.raisers) entry }
    ensures forks { (key : ℕ) (t : Turning) (old new : State) → Adopted key t old new
        → fiber_on new.machine ≡ fiber_on old.machine }
    ensures others { (key : ℕ) (t : Turning) (old new : State) (other : ℕ) → Adopted key t old new → other ≢ key
        → get new.pool other ≡ get old.pool other }
    ensures again { (entry : ℕ) (t : Turning) (s : State)
        → fiber_on (restarted entry t s).machine ≡ begins_again s.machine.memory.flash (fiber_on s.machine) entry }
{}

/// Whoever is suspended has the registers, base and words that it ran with, and whoever goes on has those that it was
/// suspended with; the other raisers have theirs.
pub fn nesting_changes_no_bank()
    ensures nests { (t : Turning) (s : State)
        → fiber_raising s.machine.memory.stack (raiser_of s.machine t) ≡ fiber_on s.machine }
    ensures unnests { (r : Raiser) (rs : List Raiser) (s : State)
        → fiber_on (reinstated r rs s).machine ≡ fiber_raising s.machine.memory.stack r }
    ensures others { (t : Turning) (s : State) → map (fiber_raising (suspended t s).machine.memory.stack) s.raisers
        ≡ map (fiber_raising s.machine.memory.stack) s.raisers }
    ensures behind { (r : Raiser) (rs : List Raiser) (s : State)
        → map (fiber_raising (reinstated r rs s).machine.memory.stack) rs
        ≡ map (fiber_raising s.machine.memory.stack) rs }
{}
