//! Worked rows: typed functions, and what was counted by hand of each: the words of its frame, and its weight.

ghost use Rattle.std.specs.Prelude.{◌≡◌};
ghost use Rattle.weight_rows.specs.Routines.{measures, deep, mid, writes_mid, counts_on, starts_at_one, waits, worker, makes_cells, starts_waiters, makes_paddle, moves_paddle, drop_falls, button_moves, game};

/// A frame has five words, the locals, the values that one node holds, and the words of a call's arguments.
pub fn rows_of_functions()
    ensures deep { measures deep ≡ (8, 14) }
    ensures mid { measures mid ≡ (10, 19) }
    ensures writes_mid { measures writes_mid ≡ (7, 8) }
    ensures counts_on { measures counts_on ≡ (8, 12) }
    ensures starts_at_one { measures starts_at_one ≡ (7, 7) }
    ensures makes_cells { measures makes_cells ≡ (9, 29) }
{}

/// Functions that wait, and those that begin them.
pub fn rows_of_handlers()
    ensures waits { measures waits ≡ (7, 8) }
    ensures worker { measures worker ≡ (9, 38) }
    ensures starts_waiters { measures starts_waiters ≡ (9, 28) }
{}

/// The functions of the game.
pub fn rows_of_the_game()
    ensures makes_paddle { measures makes_paddle ≡ (8, 14) }
    ensures moves_paddle { measures moves_paddle ≡ (12, 28) }
    ensures drop_falls { measures drop_falls ≡ (11, 60) }
    ensures button_moves { measures button_moves ≡ (9, 10) }
    ensures game { measures game ≡ (9, 37) }
{}
