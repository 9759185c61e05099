//! Worked rows: typed trees, and what the definitions write for them. Expected lines were written by hand from the rules.

ghost use Rattle.std.specs.Prelude.{◌≡◌, pos, true, false, [], ◌∷◌, Some, None, codes};
ghost use Rattle.sts_syntax.specs.declared.operators.TheConstants.{ADD};
ghost use Rattle.sts_syntax.specs.declared.typed.Spot.TheVariants.{Local};
ghost use Rattle.sts_syntax.specs.declared.typed.Callee.TheVariants as c;
ghost use Rattle.sts_syntax.specs.declared.board_calls.BoardCall.TheVariants as b;
ghost use Rattle.sts_syntax.specs.Types as t;
ghost use Rattle.sts_syntax.specs.TypedTrees as e;
ghost use Rattle.sts_syntax.specs.Weights.{weight};
ghost use Rattle.sts_syntax.specs.Nodes.{text_weight};
ghost use Rattle.sts_meaning.specs.Steps.{words, repeating};
ghost use Rattle.sts_meaning.specs.Forms.{num, binary, less, board, call, send, handler, does, let_local, list, args, truths, steps, object, makes, name, bumps};
ghost use Rattle.sts_meaning.specs.Programs.{written, written_on, pressed, counted, division, blinking, deep_handlers, two_handlers, endless, seats, past_the_end, through_null, at_once, endless_raisers, busy, deepest, many_objects, many_arrays, many_growths, written_with, texts, questions, deep, presses, big_worker, library_and_blinking, weights};
ghost use Rattle.sts_meaning.specs.Orders.{item_set, set_each_time, item_set_past_the_end, item_added_past_the_end, item_taken_meanwhile, growing_list, list_evaluated_once, field_set_through_null, field_added_through_null, methods, constructors, early_stops, steps_of_a_name, unset, numbers_of_32_bits};

/// Division by zero, signs, and 32 bits.
pub fn rows_of_numbers()
    ensures division { written 30 division ≡ codes "0 serial 30\n0 serial 2d31\nend 0 quiet\n" }
    ensures bits { written 60 numbers_of_32_bits ≡ codes
        "0 serial 3135\n0 serial 2d35\n0 serial 32\n0 serial 2d32313437343833363438\n0 serial 2d33\nend 0 quiet\n" }
    ensures names { written 100 steps_of_a_name
        ≡ codes "0 serial 35\n0 serial 36\n0 serial 35\n0 serial 32\n0 serial 34\nend 0 quiet\n" }
    ensures unset { written 30 unset ≡ codes "0 serial 30\n0 serial 30\n0 serial 33\nend 0 quiet\n" }
{}

/// Handlers in order, seats, and activities that repeat.
pub fn rows_of_activities()
    ensures blinking { written_on 60 blinking 50 [] ≡ codes "0 display #..../...../...../...../.....\n20 display ...../...../...../...../.....\n40 display #..../...../...../...../.....\nend 50 script\n" }
    ensures deep_handlers { counted 120 deep_handlers
        ≡ codes "0 serial 313130\n5 serial 373231\nend 5 quiet\nstats spawned 1 blocked 1 words 25 seats 1\n" }
    ensures two_handlers { written 60 two_handlers ≡ codes "0 serial 32\n5 serial 31\nend 5 quiet\n" }
    ensures click { written_on 40 presses 1000 (pressed 100 300) ≡ codes "300 serial 31\nend 300 quiet\n" }
    ensures long_press { written_on 40 presses 2000 (pressed 100 1100) ≡ codes "end 1100 quiet\n" }
    ensures seats { counted 1000 (seats 23)
        ≡ codes "0 serial 37\nend 0 quiet\nstats spawned 24 blocked 0 words 161 seats 24\n" }
    ensures no_seat { written 1000 (seats 24) ≡ codes "panic 0 101\n" }
{}

/// What comes of events while their handler runs.
pub fn rows_of_busy_listeners()
    ensures queues { counted 200 (busy 16 3)
        ≡ codes "5 serial 31\n10 serial 32\n15 serial 33\nend 15 quiet\nstats spawned 1 blocked 1 words 18 seats 1\n" }
    ensures drops { written 200 (busy 32 3) ≡ codes "5 serial 31\nend 5 quiet\n" }
    ensures begins_each { written 200 (busy 8 3) ≡ codes "5 serial 31\n5 serial 32\n5 serial 33\nend 5 quiet\n" }
{}

/// Handlers that run before the raiser goes on, at its depth.
pub fn rows_of_raising_at_once()
    ensures once { counted 100 (at_once 1)
        ≡ codes "0 serial 31\n0 serial 39\n5 serial 32\nend 5 quiet\nstats spawned 1 blocked 1 words 6 seats 2\n" }
    ensures twice { counted 150 (at_once 2) ≡ codes "0 serial 31\n0 serial 39\n0 serial 39\n5 serial 32\n5 serial 31\n10 serial 32\nend 10 quiet\nstats spawned 1 blocked 1 words 12 seats 2\n" }
    ensures raisers { written 400 (endless_raisers 0) ≡ codes "panic 0 106\n" }
    ensures depth { written 400 (endless_raisers 30) ≡ codes "panic 0 102\n" }
{}

/// Texts, and what is asked of the board.
pub fn rows_of_texts()
    ensures texts { written_with 60 (codes "hi" ∷ codes "ho" ∷ []) texts
        ≡ codes "0 serial 6869\n0 serial 32\npanic 0 105\n" }
    ensures questions { written 80 questions ≡ codes
        "0 display .#.../...../...../...../.....\n0 display ...../...../...../...../.....\n7 serial 37\npanic 8 44\n" }
{}

/// Depth, the arena, indices and null.
pub fn rows_of_limits()
    ensures deepest { written 2000 deepest ≡ codes "0 serial 313336\npanic 0 102\n" }
    ensures objects { written 1500 many_objects ≡ codes "0 serial 3930\npanic 0 20\n" }
    ensures arrays { written 7000 many_arrays ≡ codes "0 serial 3434\npanic 0 20\n" }
    ensures growths { written 5000 many_growths ≡ codes "0 serial 333132\npanic 0 20\n" }
    ensures frames { written 1000 (endless 1) ≡ codes "0 serial 31\n0 serial 32\n0 serial 33\n0 serial 34\n0 serial 35\n0 serial 36\n0 serial 37\n0 serial 38\n0 serial 39\n0 serial 3130\n0 serial 3131\n0 serial 3132\n0 serial 3133\n0 serial 3134\n0 serial 3135\n0 serial 3136\n0 serial 3137\n0 serial 3138\n0 serial 3139\n0 serial 3230\n0 serial 3231\n0 serial 3232\n0 serial 3233\n0 serial 3234\n0 serial 3235\n0 serial 3236\n0 serial 3237\n0 serial 3238\n0 serial 3239\n0 serial 3330\n0 serial 3331\n0 serial 3332\n0 serial 3333\n0 serial 3334\n0 serial 3335\n0 serial 3336\n0 serial 3337\n0 serial 3338\n0 serial 3339\n0 serial 3430\n0 serial 3431\n0 serial 3432\n0 serial 3433\n0 serial 3434\n0 serial 3435\n0 serial 3436\n0 serial 3437\n0 serial 3438\n0 serial 3439\n0 serial 3530\n0 serial 3531\n0 serial 3532\n0 serial 3533\n0 serial 3534\n0 serial 3535\n0 serial 3536\n0 serial 3537\n0 serial 3538\n0 serial 3539\n0 serial 3630\n0 serial 3631\n0 serial 3632\n0 serial 3633\n0 serial 3634\n0 serial 3635\n0 serial 3636\n0 serial 3637\n0 serial 3638\n0 serial 3639\n0 serial 3730\n0 serial 3731\n0 serial 3732\n0 serial 3733\n0 serial 3734\n0 serial 3735\n0 serial 3736\n0 serial 3737\n0 serial 3738\n0 serial 3739\n0 serial 3830\n0 serial 3831\n0 serial 3832\n0 serial 3833\n0 serial 3834\n0 serial 3835\n0 serial 3836\n0 serial 3837\n0 serial 3838\n0 serial 3839\n0 serial 3930\n0 serial 3931\n0 serial 3932\n0 serial 3933\n0 serial 3934\n0 serial 3935\n0 serial 3936\n0 serial 3937\n0 serial 3938\n0 serial 3939\n0 serial 313030\n0 serial 313031\n0 serial 313032\n0 serial 313033\n0 serial 313034\n0 serial 313035\n0 serial 313036\n0 serial 313037\n0 serial 313038\n0 serial 313039\n0 serial 313130\n0 serial 313131\n0 serial 313132\n0 serial 313133\n0 serial 313134\n0 serial 313135\n0 serial 313136\n0 serial 313137\n0 serial 313138\n0 serial 313139\npanic 0 102\n" }
    ensures past_the_end { written 30 past_the_end ≡ codes "panic 0 104\n" }
    ensures through_null { written 30 through_null ≡ codes "panic 0 105\n" }
{}

/// Null and the index are tested at a store, and where the target is read first, at the read and again at the store.
pub fn rows_of_assignments()
    ensures item { written 40 item_set ≡ codes "0 serial 30\n0 serial 37\n0 serial 37\nend 0 quiet\n" }
    ensures item_at_store { written 40 item_set_past_the_end ≡ codes "0 serial 37\npanic 0 104\n" }
    ensures item_at_read { written 40 item_added_past_the_end ≡ codes "panic 0 104\n" }
    ensures item_at_both { written 40 item_taken_meanwhile ≡ codes "0 serial 33\npanic 0 104\n" }
    ensures field_at_store { written 40 field_set_through_null ≡ codes "0 serial 37\npanic 0 105\n" }
    ensures field_at_read { written 40 field_added_through_null ≡ codes "panic 0 105\n" }
{}

/// What is done first, what is done once, and what is not done.
pub fn rows_of_orders()
    ensures growing { written 100 growing_list ≡ codes "0 serial 31\n0 serial 32\n0 serial 33\nend 0 quiet\n" }
    ensures once { written 100 list_evaluated_once ≡ codes "0 serial 35\n0 serial 31\n0 serial 33\nend 0 quiet\n" }
    ensures methods { written 100 methods ≡ codes "0 serial 35\n0 serial 3630\n0 serial 37\npanic 0 105\n" }
    ensures constructors { written 100 constructors
        ≡ codes "0 serial 33\n0 serial 31\n0 serial 32\n0 serial 34\n0 serial 35\n0 serial 34\nend 0 quiet\n" }
    ensures each_time { written 60 set_each_time ≡ codes "0 serial 30\n0 serial 30\nend 0 quiet\n" }
    ensures early { written 60 early_stops
        ≡ codes "0 serial 32\n0 serial 33\n0 serial 36\n0 serial 39\n0 serial 37\nend 0 quiet\n" }
{}

/// How many counted steps expressions take, besides the three of a main program that does nothing.
pub fn counted_steps_of_expressions()
    ensures nothing { steps ([]) ≡ 3 }
    ensures literal { steps (does (num 1) ∷ []) ≡ 4 }
    ensures name { steps (does name ∷ []) ≡ 4 }
    ensures operator { steps (does (binary ADD (num 1) (num 2)) ∷ []) ≡ 6 }
    ensures both { steps (does (e.Both t.Boolean (truths true) (truths false)) ∷ []) ≡ 6 }
    ensures choice { steps (does (e.Choice t.Number (truths true) (num 1) (num 2)) ∷ []) ≡ 6 }
    ensures assignment { steps (does (e.Set t.Number None name (num 1)) ∷ []) ≡ 5 }
    ensures compound { steps (does (e.Set t.Number (Some ADD) name (num 1)) ∷ []) ≡ 7 }
    ensures bump { steps (bumps name ∷ []) ≡ 4 }
    ensures array { steps (does (list (num 1 ∷ num 2 ∷ [])) ∷ []) ≡ 8 }
    ensures length { steps (does (e.Length t.Number (list [])) ∷ []) ≡ 5 }
    ensures item { steps (does (e.Item t.Number (list (num 1 ∷ [])) (num 0)) ∷ []) ≡ 8 }
    ensures push { steps (does (e.Call t.Nothing c.Push (args (list [] ∷ num 1 ∷ []))) ∷ []) ≡ 6 }
    ensures call { steps (does (call t.Nothing 2 []) ∷ []) ≡ 6 }
    ensures board { steps (does (board b.WriteNumber (num 1 ∷ [])) ∷ []) ≡ 5 }
    ensures always { steps (does (board b.Plot (num 0 ∷ num 0 ∷ [])) ∷ []) ≡ 7 }
    ensures object { steps (does (e.Make (t.Object 0) 0 e.none) ∷ []) ≡ 7 }
    ensures base { steps (does (e.Make (t.Object 1) 1 e.none) ∷ []) ≡ 11 }
    ensures method { steps (makes ∷ does (send t.Nothing 0 (object ∷ [])) ∷ []) ≡ 12 }
    ensures field { steps (makes ∷ does (e.Field t.Number object 0) ∷ []) ≡ 10 }
    ensures field_set { steps (makes ∷ does (e.Set t.Number None (e.Field t.Number object 0) (num 1)) ∷ []) ≡ 11 }
    ensures field_added { steps (makes ∷ does (e.Set t.Number (Some ADD) (e.Field t.Number object 0) (num 1)) ∷ [])
        ≡ 13 }
    ensures handler { steps (does (board b.OnEvent (num 1 ∷ num 1 ∷ handler 2 ∷ [])) ∷ []) ≡ 7 }
{}

/// How many counted steps statements take.
pub fn counted_steps_of_statements()
    ensures initialised { steps (let_local 0 (num 1) ∷ []) ≡ 5 }
    ensures declared { steps (e.Let false (record { name = Local 0; first = None } ∷ []) ∷ []) ≡ 5 }
    ensures condition { steps (e.IfOnly (truths true) e.Empty ∷ []) ≡ 5 }
    ensures turns { steps (e.While (less name (num 1)) (bumps name) ∷ []) ≡ 13 }
    ensures repetition { steps (e.DoWhile (bumps name) (less name (num 1)) ∷ []) ≡ 8 }
    ensures bounded { steps
        (e.For e.omitted (Some (less name (num 2))) (Some (e.Bump t.Number name (pos 1) true)) e.Empty ∷ []) ≡ 19 }
    ensures items { steps (e.ForOf true (Local 0) (list (num 1 ∷ num 2 ∷ [])) e.Empty ∷ []) ≡ 14 }
    ensures left { steps (e.While (truths true) e.Break ∷ []) ≡ 6 }
    ensures left_of_items { steps (e.ForOf true (Local 0) (list (num 1 ∷ num 2 ∷ [])) e.Continue ∷ []) ≡ 16 }
    ensures block { steps (e.Block e.done ∷ []) ≡ 3 }
{}

/// Words of frames, and weights.
pub fn rows_of_measures()
    ensures deep { words deep_handlers [] 0 ≡ 8 }
    ensures mid { words deep_handlers [] 1 ≡ 10 }
    ensures handler { words deep_handlers [] 2 ≡ 7 }
    ensures four_names { words deep_handlers [] 3 ≡ 11 }
    ensures caller { words (endless 1) [] 1 ≡ 7 }
    ensures called { words (endless 1) [] 0 ≡ 8 }
    ensures waiter { words (seats 23) [] 0 ≡ 7 }
    ensures raiser { words (endless_raisers 0) [] 1 ≡ 9 }
    ensures raised { words (endless_raisers 0) [] 0 ≡ 7 }
    ensures presses { words presses [] 1 ≡ 8 }
    ensures items { words growing_list [] 0 ≡ 10 }
    ensures worker { words big_worker [] 0 ≡ 9 }
    ensures repeated { words blinking [] (repeating blinking [] 0) ≡ 6 }
    ensures weight_deep { weight deep ≡ 14 }
    ensures weight_seats { weights (seats 23) ≡ 28 ∷ 7 ∷ 8 ∷ [] }
    ensures weight_methods { weights methods ≡ 38 ∷ 6 ∷ 9 ∷ 9 ∷ 9 ∷ 9 ∷ [] }
    ensures weight_text { text_weight library_and_blinking ≡ 26 }
{}
