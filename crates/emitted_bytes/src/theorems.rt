//! What laid code takes at most.
ghost use Rattle.std.specs.Prelude.{◌≡◌, ℕ, ◌+◌, ◌*◌, ◌≤◌, length};
ghost use Rattle.sts_syntax.specs.TypedTrees.{TypedRoutine, TypedProgram};
ghost use Rattle.sts_syntax.specs.Weights.{weight, repeating_weight};
ghost use Rattle.sts_lower.specs.Lowered.{lowered_routine, repeating_function};
ghost use Rattle.lowered_code.specs.Costs.{cost, Costs, EntryCosts};
ghost use Rattle.register_assign.specs.declared.places.Placed.{Placed};
ghost use Rattle.thumb_layout.specs.Cells.{laid};
ghost use Rattle.thumb_emit.specs.Bounds.{bytes_of_text, bytes_of_weight, entry_bytes};
ghost use Rattle.thumb_emit.specs.Emit.{function_pieces};
ghost use Rattle.thumb_emit.specs.Ready.{IsReady};
ghost use Rattle.emitted_bytes.specs.Weighed.{bytes_of_room, texts_named, full_bytes};

use lowered_code::code_costs_at_most_its_weight;
use thumb_emit::{pieces_can_be_laid, pieces_keep_their_bounds};
use thumb_layout::layout_settles;

/// The bytes of ops and of an entry keep the bounds of one node, at 52 for a unit of weight, with the seven that a text takes beside its own bytes for each op that
/// names one. So a function of a lowered program takes at most 52 bytes a unit of its weight for its laid code and for these, wherever its temporaries stand; and so
/// does one that `forever` starts.
pub fn laid_code_keeps_its_weight()
    ensures ops { Costs full_bytes bytes_of_weight bytes_of_room }
    ensures entries { EntryCosts full_bytes bytes_of_weight entry_bytes }
    ensures routines { (P : TypedProgram) (f : ℕ) (r : TypedRoutine) (p : Placed) → IsReady p
        → p.function ≡ lowered_routine P f r
        → length (laid (function_pieces p)).bytes + bytes_of_text * cost texts_named p.function.ops
        ≤ bytes_of_weight * weight r }
    ensures repeating { (f : ℕ) (p : Placed) → IsReady p → p.function ≡ repeating_function f
        → length (laid (function_pieces p)).bytes + bytes_of_text * cost texts_named p.function.ops
        ≤ bytes_of_weight * repeating_weight }
{
    code_costs_at_most_its_weight();
    pieces_keep_their_bounds();
    pieces_can_be_laid();
    layout_settles();
}
