//! Worked rows: the pieces of small ops.
ghost use Rattle.std.specs.Prelude.{◌≡◌, ℕ, pos, [], ◌∷◌, true};
ghost use Rattle.thumb_code.specs.declared.instructions.Instr.TheVariants as i;
ghost use Rattle.thumb_layout.specs.declared.pieces.Piece.TheVariants as p;
ghost use Rattle.sts_syntax.specs.declared.operators.TheConstants.{LESS};
ghost use Rattle.flat_ir.specs.declared.operators.TheConstants.{DECREMENT};
ghost use Rattle.flat_ir.specs.declared.ops.Op.TheVariants as o;
ghost use Rattle.register_assign.specs.declared.places.Place.TheVariants as t;
ghost use Rattle.register_assign.specs.Sound.{place_of};
ghost use Rattle.thumb_emit.specs.Emit.{op_pieces, entry_pieces};
ghost use Rattle.thumb_emit.specs.Small.{small, small_places};

/// A function with two parameters, one local in a slot and two operands in r4 and r5, which passes two arguments: one less than the first
/// parameter; whether that is less than the second; a call with both; a field, whose value nobody reads; and its entry, at which the second parameter goes to r6.
pub fn rows_of_pieces()
    ensures one_less { op_pieces small (place_of small_places) 0 (o.Unary 3 DECREMENT 0)
        ≡ p.Plain (i.LdrSp 0 10) ∷ p.Plain (i.SubImm3 4 0 1) ∷ p.Label 16 ∷ [] }
    ensures less { op_pieces small (place_of small_places) 1 (o.Binary 2 LESS 3 1)
        ≡ p.Label 16 ∷ p.Label 16 ∷ p.Plain (i.MovImm 0 1) ∷ p.Plain (i.CmpReg 4 6) ∷ p.Go 11 4 ∷ p.Plain (i.MovImm 0 0)
        ∷ p.Label 4 ∷ p.Label 16 ∷ p.Plain (i.StrSp 0 2) ∷ [] }
    ensures call { op_pieces small (place_of small_places) 2 (o.Call 4 9 (3 ∷ 2 ∷ []))
        ≡ p.Label 16 ∷ p.Plain (i.StrSp 4 0) ∷ p.Plain (i.LdrSp 0 2) ∷ p.Plain (i.StrSp 0 1) ∷ p.CallTo 9
        ∷ p.Plain (i.MovHigh 5 0) ∷ [] }
    ensures field { op_pieces small (place_of small_places) 3 (o.FieldGet 3 4 2)
        ≡ p.Label 16 ∷ p.Plain (i.CmpImm 5 0) ∷ p.Go 1 10 ∷ p.Plain (i.MovImm 0 105) ∷ p.Plain (i.Svc 1) ∷ p.Label 10
        ∷ p.Plain (i.LdrImm 0 5 3) ∷ p.Label 16 ∷ [] }
    ensures entry { entry_pieces small (place_of small_places)
        ≡ p.Plain (i.MovHigh 3 14) ∷ p.Plain (i.MovHigh 0 13) ∷ p.Number 1 0x200030A8 ∷ p.Plain (i.CmpReg 0 1)
        ∷ p.Go 2 15 ∷ p.Plain (i.MovImm 0 102) ∷ p.Plain (i.Svc 1) ∷ p.Label 15
        ∷ p.Plain (i.MovHigh 14 3) ∷ p.Plain (i.Push 112 true) ∷ p.Plain (i.SubSpImm 6) ∷ p.Plain (i.LdrSp 6 11)
        ∷ p.Label 16 ∷ [] }
{}
