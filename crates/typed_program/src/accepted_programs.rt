//! Laws of accepted texts.
ghost use Rattle.typed_program.specs.Checking.{FilledIsTyped};
ghost use Rattle.typed_program.specs.Laws.{AcceptedIsBuildable, OneAnswer, SomeAnswer, TextHasOneAnswer};

use crate::elaborated_texts::read_texts_are_elaborated;
use sts_grammar::{one_program, the_program_is_read};
use sts_lexer::{one_reading, spellings_stay, texts_are_read_or_refused};
use sts_prelude::text_spells_library;
use type_derive::{derived_types_are_one, derived_types_exist};
use typed_laws::{
    accepted_texts_are_well_typed, library_is_read, library_leaves_first, prelude_is_library,
    texts_without_a_failure_are_built, typed_library_is_light,
};

/// Behind the library of the prelude a filled program is the typed one, and a failure that is found is the text's.
pub fn filled_programs_are_typed()
    ensures { FilledIsTyped }
{
    library_leaves_first();
    prelude_is_library();
    texts_without_a_failure_are_built();
    read_texts_are_elaborated();
}

/// The typed program of an accepted text can be built: it is well typed and within the limits, its texts stand in the tables and are bytes, and the library's
/// functions, which stand first in it, weigh at most 600.
pub fn accepted_programs_are_buildable()
    ensures { AcceptedIsBuildable }
{
    spellings_stay();
    text_spells_library();
    library_leaves_first();
    prelude_is_library();
    typed_library_is_light();
    accepted_texts_are_well_typed();
    texts_without_a_failure_are_built();
    read_texts_are_elaborated();
}

/// A text isn't both accepted and refused. It is accepted as one program, with one pair of tables, or refused with one code and, but for a syntax error, one place.
pub fn one_answer()
    ensures { OneAnswer }
{
    one_reading();
    library_leaves_first();
    derived_types_are_one();
    one_program();
}

/// A text that has tokens is accepted or refused.
pub fn texts_with_tokens_have_an_answer()
    ensures { SomeAnswer }
{
    the_program_is_read();
    derived_types_exist();
    filled_programs_are_typed();
}

/// A text has one answer: each text is accepted or refused, never both, as one program, or with one code and, but for a syntax error, one place.
pub fn texts_have_one_answer()
    ensures { TextHasOneAnswer }
{
    library_is_read();
    texts_are_read_or_refused();
    texts_with_tokens_have_an_answer();
    one_answer();
}
