// Laws of views.
ghost use Rattle.std.specs.Prelude.{◌≡◌, ℕ, ◌∷◌, List, true, not};
ghost use Rattle.std.specs.List.{list_all};
ghost use Rattle.view_forms.specs.declared.below.Below.{Below};
ghost use Rattle.view_forms.specs.declared.notes.Note.{Note};
ghost use Rattle.view_forms.specs.Parts.{lines_in};
ghost use Rattle.view_forms.specs.Rows.{text_view};
ghost use Rattle.view_forms.specs.Reading.{is_byte, lines_read};
ghost use Rattle.view_forms.specs.Short.{short_lines, texts_joined};
ghost use Rattle.view_forms.specs.Kept.{IsShortOf, texts_apart};
ghost use Rattle.view_forms.specs.Page.{is_markup, page_text, page_view, transcript_read};

/// From a view as a text all lines of the transcript are read back, each once and in their order, whatever bytes it is made of, however wide the
/// view is, whatever is said of lines, and whatever stands below them.
pub fn lines_come_back()
    ensures { (notes : List Note) (below : List Below) (width : ℕ) (input : List ℕ) → list_all is_byte input ≡ true
        → lines_read (text_view notes below width input) ≡ lines_in input }
{}

/// From a page the transcript is read back, byte for byte.
pub fn pages_tell_all()
    ensures { (head tail input : List ℕ) → list_all is_byte input ≡ true
        → transcript_read head (page_view head (60 ∷ tail) input) ≡ input }
{}

/// No sign of markup in a page comes from the transcript.
pub fn transcripts_are_no_markup()
    ensures { (input : List ℕ) → list_all (λ b. not (is_markup b)) (page_text input) ≡ true }
{}

/// Where serial texts are joined, all their bytes stay, in order and each at its moment, and so does every other line.
pub fn joined_texts_are_whole()
    ensures { (lines : List (List ℕ)) → texts_apart (texts_joined lines) ≡ texts_apart lines }
{}

/// Where moments are shortened, all lines stay, in order, but for those that are counted, of a moment each.
pub fn what_is_left_out_is_counted()
    ensures { (lines : List (List ℕ)) → IsShortOf (short_lines lines) lines }
{}
