//! What holds of every image.
ghost use Rattle.std.specs.Prelude.{◌≡◌, ℕ, ◌*◌, ◌≤◌, List, map, length, Bool};
ghost use Rattle.std.specs.List.{AllByRecursion};
ghost use Rattle.thumb_code.specs.Map.{flash_end};
ghost use Rattle.board_world.specs.Observations.{ByteList};
ghost use Rattle.flat_ir.specs.declared.ops.FlatCode.{FlatCode};
ghost use Rattle.flat_ir.specs.WellFormed.{IsWellFormed};
ghost use Rattle.register_assign.specs.declared.places.Placed.{Placed};
ghost use Rattle.thumb_layout.specs.declared.laid.Laid.{Laid};
ghost use Rattle.thumb_layout.specs.declared.pieces.Piece.{Piece};
ghost use Rattle.thumb_layout.specs.Cells.{laid};
ghost use Rattle.thumb_emit.specs.Bounds.{bytes_of_weight};
ghost use Rattle.thumb_emit.specs.Emit.{function_pieces};
ghost use Rattle.thumb_emit.specs.InFlash.{InFlash};
ghost use Rattle.image_link.specs.Image.{IsLinked};
ghost use Rattle.image_link.specs.Linkable.{IsLinkable, NamesTextsBelow, IsImaged, IsLimited};

/// Laid code, flat code and texts are linked to one image alone.
pub fn images_are_alike()
    ensures { (functions : List Laid) (code : FlatCode) (texts : List ByteList) (image other : List ℕ)
        → IsLinked functions code texts image → IsLinked functions code texts other
        → image ≡ other }
{}

/// Whatever can be linked is linked to an image, however long that is.
pub fn linkable_code_has_an_image()
    ensures { (functions : List Laid) (code : FlatCode) (texts : List ByteList)
        → IsLinkable functions code (length texts) → (image : List ℕ) × IsLinked functions code texts image }
{}

/// The image of functions with these bodies, as they are laid, shows as flash the whole program: the words at reset, each function's code with
/// its calls and words filled in, the division routine, the classes' tables, and each text that a body names.
pub fn the_image_shows_its_program()
    ensures { (C : FlatCode) (bodies : List (List Piece)) (texts : List ByteList) (image : List ℕ)
        (h : IsImaged C bodies texts image)
        → InFlash C bodies texts image h.linked.at }
{}

/// The image of a program within the limits fits into flash, and the laid code of a function within them has no more bytes than may be laid.
pub fn programs_within_the_limits_fit()
    ensures image { (C : FlatCode) (bodies : List (List Piece)) (texts : List ByteList) (weights : List ℕ)
        (used : ℕ → Bool) (image : List ℕ) → IsLimited C bodies texts weights used
        → IsLinked (map laid bodies) C texts image → length image ≤ flash_end }
    ensures function { (body : List Piece) (weight : ℕ) → length (laid body).bytes ≤ bytes_of_weight * weight
        → weight ≤ 1200 → length (laid body).bytes ≤ 65536 }
{}

/// The laid code of a well-formed program's functions can be linked, wherever their temporaries stand, where each text that it names is there.
pub fn emitted_code_can_be_linked()
    ensures { (C : FlatCode) (placed : List Placed) (texts : ℕ) → IsWellFormed C
        → map (λ p. p.function) placed ≡ C.functions
        → AllByRecursion (NamesTextsBelow texts) C.functions
        → IsLinkable (map laid (map function_pieces placed)) C texts }
{}
