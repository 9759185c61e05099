// Laws of the library's functions.
ghost use Rattle.std.specs.Prelude.{◌≡◌, ◌≤◌, ℕ, length, map, [], ◌∷◌};
ghost use Rattle.sts_syntax.specs.BoardTable.{library_size};
ghost use Rattle.sts_syntax.specs.LibraryRoutines.{library_routines};
ghost use Rattle.sts_syntax.specs.Measures.{frame_words};
ghost use Rattle.sts_syntax.specs.Weights.{routines_weight};

/// The library has as many functions as the board's table names. All of them weigh at most 600, whatever the number of the text of a line
/// end, and their frames have these words.
pub fn library_is_light()
    ensures size { (line : ℕ) → length (library_routines line) ≡ library_size }
    ensures weight { (line : ℕ) → routines_weight (library_routines line) ≤ 600 }
    ensures frames { (line : ℕ) → map frame_words (library_routines line) ≡ 6 ∷ 9 ∷ 9 ∷ 6 ∷ 7 ∷ 7 ∷ 7 ∷ [] }
{}
