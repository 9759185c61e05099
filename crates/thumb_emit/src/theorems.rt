//! What holds of all pieces.
ghost use Rattle.std.specs.Prelude.{◌≡◌, ℕ, ◌+◌, ◌<◌, ◌≤◌, length};
ghost use Rattle.std.specs.List.{AllByRecursion};
ghost use Rattle.thumb_layout.specs.Soundness.{IsSound, HasWords};
ghost use Rattle.thumb_layout.specs.Rounds.{total_most, counted};
ghost use Rattle.thumb_layout.specs.Openings.{called, named};
ghost use Rattle.flat_ir.specs.declared.ops.Op.{Op};
ghost use Rattle.flat_ir.specs.declared.ops.Function.{Function};
ghost use Rattle.flat_ir.specs.WellFormed.{temporaries};
ghost use Rattle.register_assign.specs.declared.places.Place.{Place};
ghost use Rattle.register_assign.specs.declared.places.Place.TheVariants as at;
ghost use Rattle.register_assign.specs.declared.places.Placed.{Placed};
ghost use Rattle.register_assign.specs.Saving.{saves};
ghost use Rattle.thumb_emit.specs.Emit.{op_pieces, entry_pieces, function_pieces};
ghost use Rattle.thumb_emit.specs.Bounds.{total_cost, op_cost, op_bytes, ops_bytes, entry_cost, entry_bytes};
ghost use Rattle.thumb_emit.specs.Names.{names_of, IsCalledBy};
ghost use Rattle.thumb_emit.specs.Ready.{IsReady, HasNumbers};

/// The pieces of a well-formed function at sound places can be laid: fields are in range, no instruction hangs on where it stands, and each
/// label that is gone to stands once. Where the ops' numbers have 32 bits, those of the pieces are words.
pub fn pieces_can_be_laid()
    ensures sound { (p : Placed) → IsReady p → IsSound (function_pieces p) }
    ensures words { (p : Placed) → IsReady p → HasNumbers p.function → HasWords (function_pieces p) }
{}

/// Pieces load the addresses of what their ops name, in the ops' order, and call functions that their ops call, or the division routine.
pub fn pieces_name_what_ops_name()
    ensures named { (p : Placed) → named (function_pieces p) ≡ names_of p.function.ops }
    ensures called { (p : Placed) → AllByRecursion (IsCalledBy p.function.ops) (called (function_pieces p)) }
{}

/// An op takes no more instructions and bytes than its row says, whatever the places are, and an entry of at most 8 parameters no more than its
/// bounds; each has a piece with bytes. So a function's bytes are within the sum of its ops' rows and the entry's.
pub fn pieces_keep_their_bounds()
    ensures instructions { (f : Function) (place : ℕ → Place) (k : ℕ) (op : Op)
        → total_cost (op_pieces f place k op) ≤ op_cost op }
    ensures bytes { (f : Function) (place : ℕ → Place) (k : ℕ) (op : Op)
        → total_most (op_pieces f place k op) ≤ op_bytes op }
    ensures entry_instructions { (f : Function) (place : ℕ → Place) → f.params ≤ 8
        → total_cost (entry_pieces f place) ≤ entry_cost }
    ensures entry_bytes { (f : Function) (place : ℕ → Place) → f.params ≤ 8
        → total_most (entry_pieces f place) ≤ entry_bytes }
    ensures function_bytes { (p : Placed) → p.function.params ≤ 8
        → total_most (function_pieces p) ≤ ops_bytes p.function.ops + entry_bytes }
    ensures some { (f : Function) (place : ℕ → Place) (k : ℕ) (op : Op) → 0 < counted (op_pieces f place k op) }
    ensures some_at_entry { (f : Function) (place : ℕ → Place) → 0 < counted (entry_pieces f place) }
{}

/// A function saves every register in which a temporary of its stands. Where it saves any, some temporary stands in the last of them.
pub fn saved_registers_reach_to_the_highest_used()
    ensures each { (f : Function) (place : ℕ → Place) (t r : ℕ) → t < temporaries f → place t ≡ at.Reg r
        → r < 4 + saves f place }
    ensures highest { (f : Function) (place : ℕ → Place) (k : ℕ) → saves f place ≡ k + 1
        → (t : ℕ) × (t < temporaries f) × (place t ≡ at.Reg (4 + k)) }
{}
