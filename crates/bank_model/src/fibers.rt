//! What is proved of fibers.
ghost use Rattle.std.specs.Prelude.{◌≡◌, ℕ, List, [], ◌∷◌, ◌++◌};
ghost use Rattle.board_world.specs.Observations.{Observation, Serial, Quietly, Panicked, Faulted};
ghost use Rattle.board_world.specs.Kinds.{Goes, Asks, Ends, Panics, Faults, Writes};
ghost use Rattle.board_world.specs.World.{tick};
ghost use Rattle.thumb_code.specs.Machine.{State, reset, main_of};
ghost use Rattle.bank_model.specs.Standing.{AgreesWithBank};
ghost use Rattle.bank_model.specs.Fibers.{Fiber, Shared, begins, shared_at_reset};
ghost use Rattle.bank_model.specs.BoardMachine.{memory_of, fibers, fiber_turn, bank_start};
ghost use Rattle.bank_model.specs.Runs.{single, ended};

/// Main's fiber begins with the registers of the machine at reset, and its bank agrees with the RAM there.
pub fn main_begins_at_reset()
    ensures registers { (image : List ℕ) → (begins image (main_of image)).registers ≡ (reset image).registers }
    ensures agrees { (image free : List ℕ) → AgreesWithBank image (reset image).registers.sp (reset image).memory
        (memory_of image (begins image (main_of image)) (shared_at_reset free)).0 }
{}

/// While main's fiber is the only one, a step of the world is a turn of that fiber; where it ends, the run ends quiet.
pub fn one_fiber_steps_alone()
    ensures starts { (image free : List ℕ) (until : ℕ)
        → bank_start image until [] free ≡ single until [] (begins image (main_of image)) (shared_at_reset free) }
    ensures goes { (image : List ℕ) (until : ℕ) (seen : List Observation) (f g : Fiber) (s t : Shared)
        → fiber_turn image f s ≡ Goes g t
        → tick (fibers image) (single until seen f s) ≡ single until seen g t }
    ensures writes { (image : List ℕ) (until : ℕ) (seen : List Observation) (f g : Fiber) (s t : Shared) (c : ℕ)
        (cs : List ℕ) → fiber_turn image f s ≡ Asks (Writes (c ∷ cs)) (λ answer. (g, t))
        → tick (fibers image) (single until seen f s) ≡ single until (seen ++ Serial 0 (c ∷ cs) ∷ []) g t }
    ensures ends { (image : List ℕ) (until : ℕ) (seen : List Observation) (f : Fiber) (s t : Shared) (again : ℕ → Fiber)
        → fiber_turn image f s ≡ Ends again t
        → (tick (fibers image) (single until seen f s)).board ≡ ended until seen 0 Quietly }
    ensures panics { (image : List ℕ) (until : ℕ) (seen : List Observation) (f : Fiber) (s : Shared) (code : ℕ)
        → fiber_turn image f s ≡ Panics code
        → (tick (fibers image) (single until seen f s)).board ≡ ended until seen 1 (Panicked code) }
    ensures faults { (image : List ℕ) (until : ℕ) (seen : List Observation) (f : Fiber) (s : Shared) (kind address : ℕ)
        → fiber_turn image f s ≡ Faults kind address
        → (tick (fibers image) (single until seen f s)).board ≡ ended until seen 1 (Faulted kind address) }
{}
