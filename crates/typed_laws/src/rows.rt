//! Worked rows: small programs and their first failure. Codes and places were set by hand from the rules.
ghost use Rattle.std.specs.Prelude.{◌≡◌, Some, None, pos, [], ◌∷◌};
ghost use Rattle.sts_base.specs.declared.refused.Code.TheVariants.{UnknownName, Captures, NeedsType, ClassCycle, Mismatch, BadHandler, OverLimit};
ghost use Rattle.sts_syntax.specs.Types as t;
ghost use Rattle.sts_syntax.specs.TypedTrees as e;
ghost use Rattle.sts_syntax.specs.declared.typed.Callee.TheVariants as c;
ghost use Rattle.sts_syntax.specs.declared.board_calls.BoardCall.TheVariants.{WriteNumber};
ghost use Rattle.sts_scope.specs.Failures.{failure_at};
ghost use Rattle.sts_scope.specs.Kinds.{number};
ghost use Rattle.sts_scope.specs.Lookup.{member_number};
ghost use Rattle.sts_scope.specs.Numbers.{field_names, global_number};
ghost use Rattle.sts_scope.specs.Rules.{kind_at};
ghost use Rattle.typed_laws.specs.Rows.{known_at_last, refused, built_functions, sum_names, written_sum, unknown_names, unknown, v_names, null_alone, a_names, own_base, array_names, arrays, captured_names, captured, empties, no_names, overriding_names, overriding, handler_names, bad_handler, call_names, calling, calling_itself};

/// Texts with one failure.
pub fn rows_of_failures()
    ensures unknown { refused unknown_names unknown ≡ failure_at UnknownName 19 }
    ensures null_alone { refused v_names null_alone ≡ failure_at NeedsType 4 }
    ensures own_base { refused a_names own_base ≡ failure_at ClassCycle 6 }
    ensures arrays { refused array_names arrays ≡ failure_at Mismatch 80 }
    ensures captured { refused captured_names captured ≡ failure_at Captures 101 }
{}

/// A text without one, and its typed tree.
pub fn rows_of_accepted()
    ensures accepted { refused sum_names written_sum ≡ None }
    ensures main { built_functions sum_names written_sum ≡ Some (record {
      params = [];
      locals = [];
      gives = t.Nothing;
      all = e.also (e.Plain (e.Call t.Nothing (c.Board WriteNumber)
          (e.more (e.Binary t.Number 13 (e.Num t.Number (pos 2147483647)) (e.Num t.Number (pos 1))) e.none))) e.done;
    } ∷ []) }
{}

/// Overriding methods, handlers, and results that are derived.
pub fn rows_of_functions()
    ensures overriding { refused overriding_names overriding ≡ failure_at Mismatch 46 }
    ensures bad_handler { refused handler_names bad_handler ≡ failure_at BadHandler 47 }
    ensures derived { refused call_names calling ≡ None }
    ensures underived { refused call_names calling_itself ≡ failure_at NeedsType 22 }
{}

/// Of two classes, of which the second has its base's field alone, and two globals, declarations 3 and 4; and of a function whose result can't be derived.
pub fn rows_of_declarations()
    ensures inherited { field_names (known_at_last array_names arrays) 1 ≡ 1 ∷ [] }
    ensures member { member_number (known_at_last array_names arrays).entries
        (known_at_last array_names arrays).classes 1 1 ≡ Some 1 }
    ensures typed { kind_at (known_at_last array_names arrays) 1 ≡ Some number }
    ensures counted { global_number (known_at_last array_names arrays) 4 ≡ 1 }
    ensures untyped { kind_at (known_at_last call_names calling_itself) 0 ≡ None }
{}

/// The weight of the main program: 4 and 1 a statement.
pub fn rows_of_limits()
    ensures at_the_limit { refused no_names (empties 1196) ≡ None }
    ensures over_the_limit { refused no_names (empties 1197) ≡ failure_at OverLimit 0 }
{}
