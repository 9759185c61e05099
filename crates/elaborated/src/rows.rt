//! Worked rows: small statements, what is made of them or their first failure. Codes, places and trees were set by hand from the rules.
ghost use Rattle.std.specs.Prelude.{◌≡◌, pos, false, Some, None, [], ◌∷◌, Ok, Err};
ghost use Rattle.sts_base.specs.declared.refused.Code.TheVariants.{UnknownName, NeedsType, Mismatch, BadHandler};
ghost use Rattle.sts_syntax.specs.declared.board_calls.BoardCall.TheVariants.{WriteNumber, InBackground};
ghost use Rattle.sts_syntax.specs.declared.typed.Callee.TheVariants as c;
ghost use Rattle.sts_syntax.specs.declared.typed.Spot.TheVariants.{Local};
ghost use Rattle.sts_syntax.specs.Trees.{done};
ghost use Rattle.sts_syntax.specs.Types as t;
ghost use Rattle.sts_syntax.specs.TypedTrees as e;
ghost use Rattle.sts_scope.specs.Failures.{failure_at};
ghost use Rattle.elaborated.specs.Rows.{elaborated, fails_first, is_made, a_sum, a_surplus, an_empty_list, null_only, no_list, with_its_item, no_test, an_unknown, one_in_another, one_that_gives};

/// What is made of statements without a failure: by elaboration, and as type_derive says.
pub fn rows_of_made_statements()
    ensures a_sum { elaborated a_sum ≡ Ok (record {
      it = e.Plain (e.Call t.Nothing (c.Board WriteNumber)
          (e.more (e.Binary t.Number 13 (e.Num t.Number (pos 2147483647)) (e.Num t.Number (pos 1))) e.none));
      locals = [];
      routines = [];
    }) }
    ensures an_empty_list { elaborated an_empty_list ≡ Ok (record {
      it = e.Block (e.also (e.Let false (record {
        name = Local 0;
        first = Some (e.Items (t.ListOf t.Number) e.none);
      } ∷ [])) e.done);
      locals = t.ListOf t.Number ∷ [];
      routines = [];
    }) }
    ensures one_in_another { elaborated one_in_another ≡ Ok (record {
      it = e.Plain (e.Call t.Nothing (c.Board InBackground) (e.more (e.Handler t.Nothing 0) e.none));
      locals = [];
      routines = record {
        params = [];
        locals = [];
        gives = t.Nothing;
        all = e.also (e.Plain (e.Call t.Nothing (c.Board InBackground) (e.more (e.Handler t.Nothing 1) e.none))) e.done;
      } ∷ record { params = []; locals = []; gives = t.Nothing; all = e.done } ∷ [];
    }) }
    ensures also_made { (fails_first an_empty_list ≡ None) × (is_made an_empty_list ≡ Some (record {
      it = e.Block (e.also (e.Let false (record {
        name = Local 0;
        first = Some (e.Items (t.ListOf t.Number) e.none);
      } ∷ [])) e.done);
      locals = t.ListOf t.Number ∷ [];
      routines = [];
    })) }
{}

/// First failures.
pub fn rows_of_first_failures()
    ensures a_surplus { elaborated a_surplus ≡ Err (record { code = Mismatch; at = 0 }) }
    ensures null_only { elaborated null_only ≡ Err (record { code = NeedsType; at = 6 }) }
    ensures no_list { elaborated (no_list done) ≡ Err (record { code = Mismatch; at = 0 }) }
    ensures its_item { elaborated (no_list with_its_item) ≡ Err (record { code = NeedsType; at = 38 }) }
    ensures no_test { elaborated (no_test done) ≡ Err (record { code = Mismatch; at = 0 }) }
    ensures an_unknown { elaborated (no_test an_unknown) ≡ Err (record { code = UnknownName; at = 12 }) }
    ensures one_that_gives { elaborated one_that_gives ≡ Err (record { code = BadHandler; at = 21 }) }
    ensures also_fail { (fails_first a_surplus ≡ failure_at Mismatch 0)
        × (fails_first (no_list with_its_item) ≡ failure_at NeedsType 38) }
{}
