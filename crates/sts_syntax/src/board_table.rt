//! Laws of the table of the board's calls.

ghost use Rattle.std.specs.Prelude.{◌≡◌, map, Some};
ghost use Rattle.sts_syntax.specs.declared.board_calls.BoardCall.{BoardCall};
ghost use Rattle.sts_syntax.specs.BoardTable.{row_of, call_named, constant_named, board_constants, BoardConstant};

/// Each call is found in the table by its space and name, and so is the value of each constant: no two have the same.
pub fn board_calls_are_named()
    ensures calls { (call : BoardCall) → call_named (row_of call).space (row_of call).name ≡ Some call }
    ensures constants { map (λ (c : BoardConstant). constant_named c.space c.name) board_constants
        ≡ map (λ (c : BoardConstant). Some c.value) board_constants }
{}
