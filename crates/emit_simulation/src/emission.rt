//! The law of emission.

ghost use Rattle.std.specs.Prelude.{ℕ, List};
ghost use Rattle.board_world.specs.Observations.{ByteList};
ghost use Rattle.flat_ir.specs.declared.ops.FlatCode.{FlatCode};
ghost use Rattle.register_assign.specs.declared.places.Placed.{Placed};
ghost use Rattle.flat_meaning.specs.Steps.{flat};
ghost use Rattle.sts_implements.specs.Passes.{Emits};
ghost use Rattle.thumb_emit.specs.InFlash.{Addresses};
ghost use Rattle.emit_simulation.specs.Ties.{IsImage, ties};
ghost use Rattle.emit_simulation.specs.Weights.{weight_of};

/// Fibers over a flash that shows a program do what its flat code does: each op's turn, in at most as many instructions as its step weighs, whatever the free words are,
/// and without a fault where the op makes none. A panic has the op's code, a pause its time and depth, and what is shared shows the heap behind each turn.
pub fn images_do_what_flat_code_does()
    ensures { (C : FlatCode) (placed : List Placed) (flash : List ℕ) (a : Addresses) (texts : List ByteList)
        → IsImage C placed flash a texts → Emits (flat C texts) flash (ties C placed flash a) (weight_of C) }
{}
