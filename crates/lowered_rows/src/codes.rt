//! Rows of flat code: each function is written by hand from its source.

ghost use Rattle.std.specs.Prelude.{◌≡◌, drop};
ghost use Rattle.sts_meaning.specs.Programs.{endless, deep_handlers};
ghost use Rattle.sts_lower.specs.Lowered.{lowered};
ghost use Rattle.sts_syntax.specs.BoardTable.{library_size};
ghost use Rattle.lowered_rows.specs.Game.{game, game_code};
ghost use Rattle.lowered_rows.specs.Written.{endless_code, deep_handlers_code};
ghost use Rattle.lowered_rows.specs.Tight.{ops_in, ops_in_statement, seven_arguments, added_to_an_item, empty_turns, negated, nested};
ghost use Rattle.sts_syntax.specs.Weights.{weight_of, statement_weight};

/// A function that calls itself.
pub fn code_of_calls()
    ensures { lowered (endless 1) ≡ endless_code }
{}

/// Two functions, two handlers, and the main program that listens with them.
pub fn code_of_handlers()
    ensures { lowered deep_handlers ≡ deep_handlers_code }
{}

/// A game, behind the library's seven functions: a class, a method through its slot, an array, loops, and what `forever` starts.
pub fn code_of_a_game()
    ensures { drop library_size (lowered game).functions ≡ game_code }
{}

/// How many ops the forms have whose code is large for their weight, or deep, and the weights.
pub fn ops_of_tight_forms()
    ensures seven_arguments { ops_in seven_arguments ≡ 9 }
    ensures seven_weigh { weight_of seven_arguments ≡ 10 }
    ensures added_to_an_item { ops_in added_to_an_item ≡ 7 }
    ensures added_weighs { weight_of added_to_an_item ≡ 7 }
    ensures empty_turns { ops_in_statement empty_turns ≡ 11 }
    ensures empty_turns_weigh { statement_weight empty_turns ≡ 6 }
    ensures negated { ops_in (negated 255) ≡ 256 }
    ensures nested { ops_in_statement (nested 127) ≡ 381 }
{}
