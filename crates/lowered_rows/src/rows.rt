//! Worked rows: what the flat code of typed trees writes by the definitions. Expected lines were written by hand from the rules, for the source too.

ghost use Rattle.std.specs.Prelude.{◌≡◌, [], ◌∷◌, codes};
ghost use Rattle.sts_meaning.specs.Programs.{pressed, division, blinking, deep_handlers, two_handlers, endless, seats, past_the_end, through_null, at_once, endless_raisers, busy, deepest, many_objects, many_arrays, many_growths, texts, questions, presses};
ghost use Rattle.sts_meaning.specs.Orders.{item_set, set_each_time, item_set_past_the_end, item_added_past_the_end, item_taken_meanwhile, growing_list, list_evaluated_once, field_set_through_null, field_added_through_null, methods, constructors, early_stops, steps_of_a_name, unset, numbers_of_32_bits};
ghost use Rattle.lowered_rows.specs.Runs.{flat_written, flat_written_on, flat_written_until, flat_counted, flat_written_with};

/// Division by zero, signs, and 32 bits.
pub fn rows_of_numbers()
    ensures division { flat_written 90 division ≡ codes "0 serial 30\n0 serial 2d31\nend 0 quiet\n" }
    ensures bits { flat_written 180 numbers_of_32_bits ≡ codes
        "0 serial 3135\n0 serial 2d35\n0 serial 32\n0 serial 2d32313437343833363438\n0 serial 2d33\nend 0 quiet\n" }
    ensures names { flat_written 300 steps_of_a_name
        ≡ codes "0 serial 35\n0 serial 36\n0 serial 35\n0 serial 32\n0 serial 34\nend 0 quiet\n" }
    ensures unset { flat_written 90 unset ≡ codes "0 serial 30\n0 serial 30\n0 serial 33\nend 0 quiet\n" }
{}

/// Handlers in order, seats, and activities that repeat.
pub fn rows_of_activities()
    ensures blinking { flat_written_until 180 blinking 50 ≡ codes "0 display #..../...../...../...../.....\n20 display ...../...../...../...../.....\n40 display #..../...../...../...../.....\nend 50 script\n" }
    ensures deep_handlers { flat_counted 360 deep_handlers
        ≡ codes "0 serial 313130\n5 serial 373231\nend 5 quiet\nstats spawned 1 blocked 1 words 25 seats 1\n" }
    ensures two_handlers { flat_written 180 two_handlers ≡ codes "0 serial 32\n5 serial 31\nend 5 quiet\n" }
    ensures click { flat_written_on 120 presses 1000 (pressed 100 300) ≡ codes "300 serial 31\nend 300 quiet\n" }
    ensures long_press { flat_written_on 120 presses 2000 (pressed 100 1100) ≡ codes "end 1100 quiet\n" }
    ensures seats { flat_counted 3000 (seats 23)
        ≡ codes "0 serial 37\nend 0 quiet\nstats spawned 24 blocked 0 words 161 seats 24\n" }
    ensures no_seat { flat_written 3000 (seats 24) ≡ codes "panic 0 101\n" }
{}

/// What comes of events while their handler runs.
pub fn rows_of_busy_listeners()
    ensures queues { flat_counted 600 (busy 16 3)
        ≡ codes "5 serial 31\n10 serial 32\n15 serial 33\nend 15 quiet\nstats spawned 1 blocked 1 words 18 seats 1\n" }
    ensures drops { flat_written 600 (busy 32 3) ≡ codes "5 serial 31\nend 5 quiet\n" }
    ensures begins_each { flat_written 600 (busy 8 3) ≡ codes "5 serial 31\n5 serial 32\n5 serial 33\nend 5 quiet\n" }
{}

/// Handlers that run before the raiser goes on, at its depth.
pub fn rows_of_raising_at_once()
    ensures once { flat_counted 300 (at_once 1)
        ≡ codes "0 serial 31\n0 serial 39\n5 serial 32\nend 5 quiet\nstats spawned 1 blocked 1 words 6 seats 2\n" }
    ensures twice { flat_counted 450 (at_once 2) ≡ codes "0 serial 31\n0 serial 39\n0 serial 39\n5 serial 32\n5 serial 31\n10 serial 32\nend 10 quiet\nstats spawned 1 blocked 1 words 12 seats 2\n" }
    ensures raisers { flat_written 1200 (endless_raisers 0) ≡ codes "panic 0 106\n" }
    ensures depth { flat_written 1200 (endless_raisers 30) ≡ codes "panic 0 102\n" }
{}

/// Texts, and what is asked of the board.
pub fn rows_of_texts()
    ensures texts { flat_written_with 180 (codes "hi" ∷ codes "ho" ∷ []) texts
        ≡ codes "0 serial 6869\n0 serial 32\npanic 0 105\n" }
    ensures questions { flat_written 240 questions ≡ codes
        "0 display .#.../...../...../...../.....\n0 display ...../...../...../...../.....\n7 serial 37\npanic 8 44\n" }
{}

/// Depth, the arena, indices and null.
pub fn rows_of_limits()
    ensures deepest { flat_written 6000 deepest ≡ codes "0 serial 313336\npanic 0 102\n" }
    ensures objects { flat_written 4500 many_objects ≡ codes "0 serial 3930\npanic 0 20\n" }
    ensures arrays { flat_written 21000 many_arrays ≡ codes "0 serial 3434\npanic 0 20\n" }
    ensures growths { flat_written 15000 many_growths ≡ codes "0 serial 333132\npanic 0 20\n" }
    ensures frames { flat_written 3000 (endless 1) ≡ codes "0 serial 31\n0 serial 32\n0 serial 33\n0 serial 34\n0 serial 35\n0 serial 36\n0 serial 37\n0 serial 38\n0 serial 39\n0 serial 3130\n0 serial 3131\n0 serial 3132\n0 serial 3133\n0 serial 3134\n0 serial 3135\n0 serial 3136\n0 serial 3137\n0 serial 3138\n0 serial 3139\n0 serial 3230\n0 serial 3231\n0 serial 3232\n0 serial 3233\n0 serial 3234\n0 serial 3235\n0 serial 3236\n0 serial 3237\n0 serial 3238\n0 serial 3239\n0 serial 3330\n0 serial 3331\n0 serial 3332\n0 serial 3333\n0 serial 3334\n0 serial 3335\n0 serial 3336\n0 serial 3337\n0 serial 3338\n0 serial 3339\n0 serial 3430\n0 serial 3431\n0 serial 3432\n0 serial 3433\n0 serial 3434\n0 serial 3435\n0 serial 3436\n0 serial 3437\n0 serial 3438\n0 serial 3439\n0 serial 3530\n0 serial 3531\n0 serial 3532\n0 serial 3533\n0 serial 3534\n0 serial 3535\n0 serial 3536\n0 serial 3537\n0 serial 3538\n0 serial 3539\n0 serial 3630\n0 serial 3631\n0 serial 3632\n0 serial 3633\n0 serial 3634\n0 serial 3635\n0 serial 3636\n0 serial 3637\n0 serial 3638\n0 serial 3639\n0 serial 3730\n0 serial 3731\n0 serial 3732\n0 serial 3733\n0 serial 3734\n0 serial 3735\n0 serial 3736\n0 serial 3737\n0 serial 3738\n0 serial 3739\n0 serial 3830\n0 serial 3831\n0 serial 3832\n0 serial 3833\n0 serial 3834\n0 serial 3835\n0 serial 3836\n0 serial 3837\n0 serial 3838\n0 serial 3839\n0 serial 3930\n0 serial 3931\n0 serial 3932\n0 serial 3933\n0 serial 3934\n0 serial 3935\n0 serial 3936\n0 serial 3937\n0 serial 3938\n0 serial 3939\n0 serial 313030\n0 serial 313031\n0 serial 313032\n0 serial 313033\n0 serial 313034\n0 serial 313035\n0 serial 313036\n0 serial 313037\n0 serial 313038\n0 serial 313039\n0 serial 313130\n0 serial 313131\n0 serial 313132\n0 serial 313133\n0 serial 313134\n0 serial 313135\n0 serial 313136\n0 serial 313137\n0 serial 313138\n0 serial 313139\npanic 0 102\n" }
    ensures past_the_end { flat_written 90 past_the_end ≡ codes "panic 0 104\n" }
    ensures through_null { flat_written 90 through_null ≡ codes "panic 0 105\n" }
{}

/// Null and the index are tested at a store, and where the target is read first, at the read and again at the store.
pub fn rows_of_assignments()
    ensures item { flat_written 120 item_set ≡ codes "0 serial 30\n0 serial 37\n0 serial 37\nend 0 quiet\n" }
    ensures item_at_store { flat_written 120 item_set_past_the_end ≡ codes "0 serial 37\npanic 0 104\n" }
    ensures item_at_read { flat_written 120 item_added_past_the_end ≡ codes "panic 0 104\n" }
    ensures item_at_both { flat_written 120 item_taken_meanwhile ≡ codes "0 serial 33\npanic 0 104\n" }
    ensures field_at_store { flat_written 120 field_set_through_null ≡ codes "0 serial 37\npanic 0 105\n" }
    ensures field_at_read { flat_written 120 field_added_through_null ≡ codes "panic 0 105\n" }
{}

/// What is done first, what is done once, and what is not done.
pub fn rows_of_orders()
    ensures growing { flat_written 300 growing_list ≡ codes "0 serial 31\n0 serial 32\n0 serial 33\nend 0 quiet\n" }
    ensures once { flat_written 300 list_evaluated_once ≡ codes "0 serial 35\n0 serial 31\n0 serial 33\nend 0 quiet\n" }
    ensures methods { flat_written 300 methods ≡ codes "0 serial 35\n0 serial 3630\n0 serial 37\npanic 0 105\n" }
    ensures constructors { flat_written 300 constructors
        ≡ codes "0 serial 33\n0 serial 31\n0 serial 32\n0 serial 34\n0 serial 35\n0 serial 34\nend 0 quiet\n" }
    ensures each_time { flat_written 180 set_each_time ≡ codes "0 serial 30\n0 serial 30\nend 0 quiet\n" }
    ensures early { flat_written 180 early_stops
        ≡ codes "0 serial 32\n0 serial 33\n0 serial 36\n0 serial 39\n0 serial 37\nend 0 quiet\n" }
{}
