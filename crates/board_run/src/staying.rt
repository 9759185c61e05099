// What one fiber's turn leaves of the others.
ghost use Rattle.std.specs.Prelude.{◌≡◌, ◌≤◌, ◌∷◌, ℕ, Bool, false, List};
ghost use Rattle.board_world.specs.Board.{over};
ghost use Rattle.board_world.specs.Activities.{Activity, World};
ghost use Rattle.board_world.specs.World.{moved, idled, tick};
ghost use Rattle.bank_model.specs.Fibers.{Fiber, Shared};
ghost use Rattle.bank_model.specs.BoardMachine.{fibers};
ghost use Rattle.board_run.specs.Shown.{standing_in};

/// Between two turns of a fiber its registers, its base and its bank stay, whatever others do: of the fibers that have no turn in an instruction, as
/// many as passed any test of registers, base and bank still pass it behind that instruction and the idle moves that follow, and behind each of these.
pub fn others_keep_their_banks()
    ensures turn { (image : List ℕ) (test : Fiber → Bool) (first : Activity Fiber) (others : List (Activity Fiber))
        (w : World Fiber Shared) → w.ready ≡ first ∷ others
        → over w.board ≡ false
        → standing_in test others w ≤ (let v = tick (fibers image) w in standing_in test v.ready v) }
    ensures idle { (image : List ℕ) (test : Fiber → Bool) (w : World Fiber Shared)
        → standing_in test w.ready w ≤ (let v = moved (fibers image) w.board.queue w in standing_in test v.ready v) }
    ensures rest { (image : List ℕ) (test : Fiber → Bool) (w : World Fiber Shared)
        → standing_in test w.ready w ≤ (let v = idled (fibers image) w in standing_in test v.ready v) }
{}
