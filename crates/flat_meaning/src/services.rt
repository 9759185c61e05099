//! Which services answer.

ghost use Rattle.sts_syntax.specs.declared.board_calls.BoardCall.{BoardCall};
ghost use Rattle.sts_syntax.specs.BoardTable.{row_of};
ghost use Rattle.flat_meaning.specs.Operators.{IsAnswered};

/// A call of the board has a value exactly where its service answers with a number.
pub fn services_answer_where_calls_have_values()
    ensures { (call : BoardCall) → IsAnswered (row_of call).action (row_of call).gives }
{}
