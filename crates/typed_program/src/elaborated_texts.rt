//! The laws of elaborated texts, and worked rows. Codes, places and trees were set by hand from the rules.
ghost use Rattle.std.specs.Prelude.{◌≡◌, pos, Some, None, [], ◌∷◌, Ok, Err};
ghost use Rattle.sts_base.specs.declared.refused.Code.TheVariants.{UnknownName, NeedsType, ClassCycle, Mismatch};
ghost use Rattle.sts_syntax.specs.declared.board_calls.BoardCall.TheVariants.{WriteNumber};
ghost use Rattle.sts_syntax.specs.declared.typed.Callee.TheVariants as c;
ghost use Rattle.sts_syntax.specs.Types as t;
ghost use Rattle.sts_syntax.specs.TypedTrees as e;
ghost use Rattle.typed_laws.specs.Rows.{sum_names, written_sum, unknown_names, unknown, v_names, null_alone, a_names, own_base, overriding_names, overriding, call_names, calling_itself};
ghost use Rattle.typed_program.specs.ElaboratedRows.{elaborated_text, late_names, late_field};
ghost use Rattle.typed_program.specs.ElaborationLaws.{AgreesOnReadTexts, ElaborationAgreesOnTexts};

use typed_laws::{library_leaves_first, prelude_is_library, texts_without_a_failure_are_built};

/// After a library, with the types of declarations that aren't written, a text fails by its first failure of headings, overriding methods, nodes and limits; where there is none, it becomes the typed program that is made of it.
pub fn elaboration_agrees_on_texts()
    ensures { ElaborationAgreesOnTexts }
{
    texts_without_a_failure_are_built();
}

/// After the library of the prelude a text becomes, by elaboration, the typed program that is made of it, and it fails by its first failure.
pub fn read_texts_are_elaborated()
    ensures { AgreesOnReadTexts }
{
    library_leaves_first();
    prelude_is_library();
    elaboration_agrees_on_texts();
}

/// First failures.
pub fn rows_of_failing_texts()
    ensures unknown { elaborated_text unknown_names unknown ≡ Err (record { code = UnknownName; at = 19 }) }
    ensures null_alone { elaborated_text v_names null_alone ≡ Err (record { code = NeedsType; at = 4 }) }
    ensures own_base { elaborated_text a_names own_base ≡ Err (record { code = ClassCycle; at = 6 }) }
    ensures overriding { elaborated_text overriding_names overriding ≡ Err (record { code = Mismatch; at = 46 }) }
    ensures underived { elaborated_text call_names calling_itself ≡ Err (record { code = NeedsType; at = 22 }) }
{}

/// Typed programs. A constructor sets a field that is declared after it before it does anything of its own.
pub fn rows_of_elaborated_texts()
    ensures sum { elaborated_text sum_names written_sum ≡ Ok (record {
      classes = [];
      functions = record {
        params = [];
        locals = [];
        gives = t.Nothing;
        all = e.also (e.Plain (e.Call t.Nothing (c.Board WriteNumber)
            (e.more (e.Binary t.Number 13 (e.Num t.Number (pos 2147483647)) (e.Num t.Number (pos 1))) e.none))) e.done;
      } ∷ [];
      globals = [];
      main = 0;
    }) }
    ensures late_field { elaborated_text late_names late_field ≡ Ok (record {
      classes = record { base = None; fields = t.Number ∷ []; slots = []; maker = 0 } ∷ [];
      functions = record {
        params = t.Object 0 ∷ [];
        locals = [];
        gives = t.Object 0;
        all = e.also (e.Plain (e.Set t.Number None (e.Field t.Number (e.This (t.Object 0)) 0) (e.Num t.Number (pos 1))))
            (e.also e.Empty e.done);
      } ∷ record { params = []; locals = []; gives = t.Nothing; all = e.done } ∷ [];
      globals = [];
      main = 1;
    }) }
{}
