//! The font.

ghost use Rattle.std.specs.Prelude.{IsTrue};
ghost use Rattle.std.specs.List.{list_all};
ghost use Rattle.board_world.specs.Font.{font, is_lit_as, each_of_five};

/// The lights of each glyph's frame are those of its rows.
pub fn glyphs_are_lit_as_drawn()
    ensures { IsTrue (list_all (λ g. each_of_five (λ y. each_of_five (λ x. is_lit_as g.1 x y))) font) }
{}
