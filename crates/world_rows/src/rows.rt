//! Worked rows: small programs, and what the definitions of the world write for them.

ghost use Rattle.std.specs.Prelude.{◌≡◌, [], ◌∷◌, Some, codes, pos, negsuc};
ghost use Rattle.board_world.specs.Observations.{Faulted};
ghost use Rattle.board_world.specs.Transcript.{closing_line};
ghost use Rattle.world_rows.specs.Programs.{written, written_on, counted, unplugged_on, press, at_time, blinking, two_handlers, pauser, shortest_pause, seats_taken, many_events, busy_handler, at_once, endless_raisers, two_sleepers, waiter_and_listener, button_teller, press_teller, click_teller, sleeper_and_press, late_writer, sender, waiter_at_once, many_listeners, greedy, keeper, panicker, plotter, button_asker, up_at, unplug_at, button_b_teller, buttons_asker, value_teller, any_listener, late_listener, seats_given_back, handler_without_seat};

/// Handlers and waiters become ready in order; a pause takes a millisecond at least; sleepers of one moment wake in the order in which they went to sleep.
pub fn rows_of_activities()
    ensures two_handlers { written 20 two_handlers ≡ codes "0 serial 32\n5 serial 31\nend 5 quiet\n" }
    ensures shortest_pause { written 20 shortest_pause ≡ codes "1 serial 31\nend 1 quiet\n" }
    ensures sleepers { written 20 two_sleepers ≡ codes "5 serial 32\n5 serial 31\nend 5 quiet\n" }
    ensures waiter { written 20 waiter_and_listener ≡ codes "1 serial 32\n1 serial 31\nend 1 quiet\n" }
    ensures pause_of_one { written 20 (pauser (pos 1)) ≡ codes "1 serial 31\nend 1 quiet\n" }
    ensures pause_of_less { written 20 (pauser (negsuc 6)) ≡ codes "1 serial 31\nend 1 quiet\n" }
    ensures no_event { written 20 value_teller ≡ codes "0 serial 30\nend 0 quiet\n" }
    ensures any_event { written 20 any_listener ≡ codes "0 serial 37\n0 serial 38\nend 0 quiet\n" }
    ensures too_late { written 20 late_listener ≡ codes "end 0 quiet\n" }
{}

/// The clock, the script and its end.
pub fn rows_of_the_clock()
    ensures blinking { written_on 40 blinking 50 [] ≡ codes "0 display #..../...../...../...../.....\n20 display ...../...../...../...../.....\n40 display #..../...../...../...../.....\nend 50 script\n" }
    ensures sleeper_first { written_on 30 sleeper_and_press 1000 (at_time 10 1 ∷ [])
        ≡ codes "10 serial 32\n10 serial 31\nend 10 quiet\n" }
    ensures at_the_end { written_on 20 (late_writer 50) 50 [] ≡ codes "50 serial 31\nend 50 quiet\n" }
    ensures past_the_end { written_on 20 (late_writer 50) 49 [] ≡ codes "end 49 script\n" }
    ensures entry_at_the_end { written_on 30 button_teller 50 (at_time 50 1 ∷ [])
        ≡ codes "50 serial 31\nend 50 quiet\n" }
    ensures budget { written 2 shortest_pause ≡ codes "budget 1\n" }
    ensures entry_heard_at_the_end { written_on 20 press_teller 50 (at_time 50 1 ∷ [])
        ≡ codes "50 serial 31\nend 50 quiet\n" }
    ensures budget_of_one { written 1 (late_writer 0) ≡ codes "budget 1\n" }
{}

/// A click is under 1000 ms, a long click is not.
pub fn rows_of_buttons()
    ensures click { written_on 30 button_teller 2000 (press 100 999)
        ≡ codes "100 serial 31\n1099 serial 32\n1099 serial 33\nend 1099 quiet\n" }
    ensures long_click { written_on 30 button_teller 2000 (press 100 1000)
        ≡ codes "100 serial 31\n1100 serial 32\n1100 serial 34\nend 1100 quiet\n" }
    ensures heard_click { written_on 30 click_teller 1000 (press 100 200) ≡ codes "300 serial 31\nend 300 quiet\n" }
    ensures unheard_click { written_on 30 click_teller 2000 (press 100 1000) ≡ codes "end 1100 quiet\n" }
    ensures down_twice { written_on 30 button_teller 100 (at_time 10 1 ∷ at_time 20 1 ∷ up_at 30 1 ∷ up_at 40 1 ∷ [])
        ≡ codes "10 serial 31\n30 serial 32\n30 serial 33\nend 40 quiet\n" }
    ensures asked { written_on 30 button_asker 100 (at_time 10 1 ∷ []) ≡ codes "15 serial 31\nend 15 quiet\n" }
    ensures last_click { written_on 30 click_teller 2000 (press 100 999) ≡ codes "1099 serial 31\nend 1099 quiet\n" }
    ensures button_b { written_on 30 button_b_teller 100 (at_time 10 2 ∷ up_at 20 2 ∷ [])
        ≡ codes "10 serial 31\n20 serial 32\n20 serial 33\nend 20 quiet\n" }
    ensures all_asked { written_on 30 buttons_asker 100 (at_time 10 2 ∷ [])
        ≡ codes "15 serial 31\n15 serial 30\n15 serial 30\nend 15 quiet\n" }
{}

/// 24 seats, 32 queued events.
pub fn rows_of_limits()
    ensures seats { written 200 (seats_taken 23) ≡ codes "0 serial 37\nend 0 quiet\n" }
    ensures seats_counted { counted 200 (seats_taken 23) ≡ codes "stats spawned 24 blocked 0 words 161 seats 24\n" }
    ensures no_seat { written 200 (seats_taken 24) ≡ codes "panic 0 101\n" }
    ensures full_queue { written 300 (many_events 33) ≡ codes "0 serial 31\n0 serial 32\n0 serial 33\n0 serial 34\n0 serial 35\n0 serial 36\n0 serial 37\n0 serial 38\n0 serial 39\n0 serial 3130\n0 serial 3131\n0 serial 3132\n0 serial 3133\n0 serial 3134\n0 serial 3135\n0 serial 3136\n0 serial 3137\n0 serial 3138\n0 serial 3139\n0 serial 3230\n0 serial 3231\n0 serial 3232\n0 serial 3233\n0 serial 3234\n0 serial 3235\n0 serial 3236\n0 serial 3237\n0 serial 3238\n0 serial 3239\n0 serial 3330\n0 serial 3331\n0 serial 3332\nend 0 quiet\n" }
    ensures listeners { written 60 (many_listeners 33) ≡ codes "panic 0 103\n" }
    ensures arena { written 20 greedy ≡ codes "0 serial 30\npanic 0 20\n" }
    ensures panic_code { written 20 (panicker (pos 300)) ≡ codes "panic 0 44\n" }
    ensures negative_code { written 20 (panicker (negsuc 0)) ≡ codes "panic 0 255\n" }
    ensures no_seat_counted { counted 200 (seats_taken 24) ≡ codes "stats spawned 24 blocked 0 words 0 seats 24\n" }
    ensures words_taken { written 20 keeper ≡ codes "0 serial 33\nend 0 quiet\n" }
    ensures given_back { counted 200 (seats_given_back 23) ≡ codes "stats spawned 47 blocked 0 words 8 seats 24\n" }
    ensures no_seat_to_block { written 200 (handler_without_seat 23) ≡ codes "panic 0 101\n" }
    ensures seat_to_block { written 200 (handler_without_seat 22) ≡ codes "5 serial 37\nend 5 quiet\n" }
{}

/// A busy listener queues up to ten events, drops them, or begins anew.
pub fn rows_of_busy_listeners()
    ensures queues { written 40 (busy_handler 16 3) ≡ codes "5 serial 31\n10 serial 32\n15 serial 33\nend 15 quiet\n" }
    ensures queues_counted { counted 40 (busy_handler 16 3) ≡ codes "stats spawned 1 blocked 1 words 18 seats 1\n" }
    ensures drops { written 40 (busy_handler 32 3) ≡ codes "5 serial 31\nend 5 quiet\n" }
    ensures holds_ten { written 120 (busy_handler 16 12) ≡ codes "5 serial 31\n10 serial 32\n15 serial 33\n20 serial 34\n25 serial 35\n30 serial 36\n35 serial 37\n40 serial 38\n45 serial 39\n50 serial 3130\n55 serial 3131\nend 55 quiet\n" }
    ensures reentrant { written 40 (busy_handler 8 3) ≡ codes "5 serial 31\n5 serial 32\n5 serial 33\nend 5 quiet\n" }
    ensures drops_counted { counted 40 (busy_handler 32 3) ≡ codes "stats spawned 1 blocked 1 words 6 seats 1\n" }
    ensures holds_ten_counted { counted 120 (busy_handler 16 12)
        ≡ codes "stats spawned 1 blocked 1 words 66 seats 1\n" }
    ensures reentrant_counted { counted 40 (busy_handler 8 3) ≡ codes "stats spawned 1 blocked 3 words 18 seats 3\n" }
{}

/// Handlers run before their raiser goes on, on top of at most 32 raisers.
pub fn rows_of_raising_at_once()
    ensures raises_now { written 30 (at_once 1) ≡ codes "0 serial 31\n0 serial 39\n5 serial 32\nend 5 quiet\n" }
    ensures raises_now_counted { counted 30 (at_once 1) ≡ codes "stats spawned 1 blocked 1 words 6 seats 2\n" }
    ensures raises_twice { written 40 (at_once 2)
        ≡ codes "0 serial 31\n0 serial 39\n0 serial 39\n5 serial 32\n5 serial 31\n10 serial 32\nend 10 quiet\n" }
    ensures raises_twice_counted { counted 40 (at_once 2) ≡ codes "stats spawned 1 blocked 1 words 12 seats 2\n" }
    ensures too_many_raisers { written 60 endless_raisers ≡ codes "panic 0 106\n" }
    ensures waiter_at_once { written 20 waiter_at_once ≡ codes "1 serial 32\n1 serial 39\n1 serial 31\nend 1 quiet\n" }
{}

/// Pins, radio, and a fault's line.
pub fn rows_of_devices()
    ensures pins_and_radio { written 20 sender ≡ codes "0 pin 0 1\n0 pin 20 0\n0 radio -7\nend 0 quiet\n" }
    ensures fault { closing_line 0 (Some (Faulted 1 12)) ≡ codes "fault 0 1 0000000c\n" }
    ensures display { written 20 plotter ≡ codes "0 display #..../...../...../...../.....\nend 0 quiet\n" }
    ensures unplug { written_on 20 (late_writer 0) 1000 (unplug_at 3 2 ∷ []) ≡ codes "1 serial 31\nend 3 quiet\n" }
    ensures unplug_placed { unplugged_on 20 (late_writer 0) 1000 (unplug_at 3 2 ∷ []) ≡ (2, 1) ∷ [] }
{}
