//! Worked images for each service, and what the bank machine writes for them.
ghost use Rattle.std.specs.Prelude.{◌≡◌, [], ◌∷◌, ◌++◌, replicate, codes, pos, true, false, Some};
ghost use Rattle.board_world.specs.Observations.{Faulted};
ghost use Rattle.board_world.specs.Board.{Down, Raise, transcript_of};
ghost use Rattle.bank_model.specs.Texts.{is_text};
ghost use Rattle.bank_model.specs.BoardMachine.{bank_run};
ghost use Rattle.bank_model.specs.Runs.{unsteady, watched_run, code, image, written_with};

/// The end, a panic with its code modulo 256, the text of a signed number, and division, whose least number by -1 is itself and whose divisor 0 gives 0. Each number from 24 on is BadService.
pub fn rows_of_numbers()
    ensures ends { written_with 5 [] (image (0xDF00 ∷ [])) ≡ codes "end 0 quiet\n" }
    ensures panics { written_with 5 [] (image (0x2001 ∷ 0x0200 ∷ 0x3007 ∷ 0xDF01 ∷ [])) ≡ codes "panic 0 7\n" }
    ensures writes { written_with 5 [] (image (0x2004 ∷ 0x43C0 ∷ 0xDF0C ∷ 0xDF00 ∷ []))
        ≡ codes "0 serial 2d35\nend 0 quiet\n" }
    ensures divides { written_with 9 [] (image (0x2006 ∷ 0x43C0 ∷ 0x2102 ∷ 0xDF14 ∷ 0xDF0C ∷ 0xDF00 ∷ []))
        ≡ codes "0 serial 2d33\nend 0 quiet\n" }
    ensures leaves { written_with 9 [] (image (0x2006 ∷ 0x43C0 ∷ 0x2102 ∷ 0xDF15 ∷ 0xDF0C ∷ 0xDF00 ∷ []))
        ≡ codes "0 serial 2d31\nend 0 quiet\n" }
    ensures of_24 { written_with 5 [] (image (0xDF18 ∷ [])) ≡ codes "fault 0 8 0000000c\n" }
    ensures of_255 { written_with 5 [] (image (0xDFFF ∷ [])) ≡ codes "fault 0 8 0000000c\n" }
    ensures divides_by_0 { written_with 5 [] (image (0x2007 ∷ 0xDF14 ∷ 0xDF0C ∷ 0xDF00 ∷ []))
        ≡ codes "0 serial 30\nend 0 quiet\n" }
    ensures divides_least { written_with 9 []
        (image (0x2001 ∷ 0x07C0 ∷ 0x2100 ∷ 0x43C9 ∷ 0xDF14 ∷ 0xDF0C ∷ 0xDF00 ∷ []))
        ≡ codes "0 serial 2d32313437343833363438\nend 0 quiet\n" }
    ensures leaves_by_0 { written_with 5 [] (image (0x2007 ∷ 0xDF15 ∷ 0xDF0C ∷ 0xDF00 ∷ []))
        ≡ codes "0 serial 30\nend 0 quiet\n" }
    ensures leaves_least { written_with 9 [] (image (0x2001 ∷ 0x07C0 ∷ 0x2100 ∷ 0x43C9 ∷ 0xDF15 ∷ 0xDF0C ∷ 0xDF00 ∷ []))
        ≡ codes "0 serial 30\nend 0 quiet\n" }
{}

/// A pause ends at its time, one of less than 1 ms at the next, and the time is answered. A wait ends at an event of its source and value, where 0 stands for any.
pub fn rows_of_time()
    ensures pauses { written_with 9 [] (image (0x2005 ∷ 0xDF02 ∷ 0xDF07 ∷ 0xDF0C ∷ 0xDF00 ∷ []))
        ≡ codes "5 serial 35\nend 5 quiet\n" }
    ensures pauses_negative { written_with 9 [] (image (0x2000 ∷ 0x43C0 ∷ 0xDF02 ∷ 0xDF07 ∷ 0xDF0C ∷ 0xDF00 ∷ []))
        ≡ codes "1 serial 31\nend 1 quiet\n" }
    ensures waits { written_with 9 (record { at = 3; act = Raise (record { source = pos 7; value = pos 9 }) } ∷ [])
        (image (0x2007 ∷ 0x2100 ∷ 0xDF03 ∷ 0xDF08 ∷ 0xDF0C ∷ 0xDF00 ∷ [])) ≡ codes "3 serial 39\nend 3 quiet\n" }
    ensures waits_for_another { written_with 9
        (record { at = 3; act = Raise (record { source = pos 7; value = pos 9 }) } ∷ [])
        (image (0x2007 ∷ 0x2108 ∷ 0xDF03 ∷ 0xDF08 ∷ 0xDF0C ∷ 0xDF00 ∷ [])) ≡ codes "end 3 quiet\n" }
    ensures no_value { written_with 9 [] (image (0x2003 ∷ 0xDF08 ∷ 0xDF0C ∷ 0xDF00 ∷ []))
        ≡ codes "0 serial 30\nend 0 quiet\n" }
    ensures pauses_past_the_end { written_with 5 [] (image (0x20FB ∷ 0x0080 ∷ 0xDF02 ∷ 0xDF0C ∷ 0xDF00 ∷ []))
        ≡ codes "end 1000 script\n" }
    ensures waits_for_any { written_with 9 (record { at = 3; act = Raise (record { source = pos 7; value = pos 9 }) }
        ∷ []) (image (0xDF03 ∷ 0xDF08 ∷ 0xDF0C ∷ 0xDF00 ∷ [])) ≡ codes "3 serial 39\nend 3 quiet\n" }
    ensures waits_for_another_source { written_with 9
        (record { at = 3; act = Raise (record { source = pos 7; value = pos 9 }) } ∷ [])
        (image (0x2006 ∷ 0x2109 ∷ 0xDF03 ∷ 0xDF08 ∷ 0xDF0C ∷ 0xDF00 ∷ [])) ≡ codes "end 3 quiet\n" }
    ensures wakes_once { written_with 16 [] (image (0xA003 ∷ 0x3001 ∷ 0xDF04 ∷ 0x2001 ∷ 0xDF02 ∷ 0xDF06 ∷ 0xDF06
        ∷ 0xDF00 ∷ 0xDF03 ∷ 0x2001 ∷ 0xDF0C ∷ 0xDF00 ∷ [])) ≡ codes "1 serial 31\nend 1 quiet\n" }
{}

/// A spawned fiber begins at its code address, behind those that are ready, with an empty bank at word 0 of flash. Its value is 0, whatever woke who spawned it. A code address with bit 0 clear is NotThumb at the service.
pub fn rows_of_fibers()
    ensures spawns { written_with 14 []
        (image (0xA002 ∷ 0x3001 ∷ 0xDF04 ∷ 0x2001 ∷ 0xDF0C ∷ 0xDF00 ∷ 0x2002 ∷ 0xDF0C ∷ 0xDF00 ∷ []))
        ≡ codes "0 serial 31\n0 serial 32\nend 0 quiet\n" }
    ensures spawned_base { written_with 14 []
        (image (0xB082 ∷ 0xA002 ∷ 0x3001 ∷ 0xDF04 ∷ 0xDF00 ∷ 0x46C0 ∷ 0x4668 ∷ 0xDF0C ∷ 0xDF00 ∷ []))
        ≡ codes "0 serial 353336383837313638\nend 0 quiet\n" }
    ensures even { written_with 9 [] (image (0xA001 ∷ 0xDF04 ∷ 0xDF00 ∷ 0x46C0 ∷ 0xDF00 ∷ []))
        ≡ codes "fault 0 4 0000000e\n" }
    ensures own_value { written_with 12 (record { at = 3; act = Raise (record { source = pos 7; value = pos 9 }) } ∷ [])
        (image (0xDF03 ∷ 0xA002 ∷ 0x3001 ∷ 0xDF04 ∷ 0xDF00 ∷ 0x46C0 ∷ 0xDF08 ∷ 0xDF0C ∷ 0xDF00 ∷ []))
        ≡ codes "3 serial 30\nend 3 quiet\n" }
    ensures in_order { written_with 16 [] (image (0xA003 ∷ 0x3001 ∷ 0xDF04 ∷ 0xA004 ∷ 0x3001 ∷ 0xDF04 ∷ 0xDF00 ∷ 0x46C0
        ∷ 0x2001 ∷ 0xDF0C ∷ 0xDF00 ∷ 0x46C0 ∷ 0x2002 ∷ 0xDF0C ∷ 0xDF00 ∷ []))
        ≡ codes "0 serial 31\n0 serial 32\nend 0 quiet\n" }
{}

/// A handler begins for a raised event of its source and value, where 0 stands for any, with the event's value, in the order of registration and before who waits for it. While it is busy it queues by service 5; by service 22 its mode says what it does. An even handler is NotThumb at the service.
pub fn rows_of_listeners()
    ensures listens { written_with 16 [] (image (0x2007 ∷ 0x2100 ∷ 0xA203 ∷ 0x3201 ∷ 0xDF05 ∷ 0x2007 ∷ 0x2109 ∷ 0xDF06
        ∷ 0xDF00 ∷ 0x46C0 ∷ 0xDF08 ∷ 0xDF0C ∷ 0xDF00 ∷ [])) ≡ codes "0 serial 39\nend 0 quiet\n" }
    ensures queues { written_with 24 [] (image (0x2007 ∷ 0x2100 ∷ 0xA204 ∷ 0x3201 ∷ 0xDF05 ∷ 0x2007 ∷ 0x2101 ∷ 0xDF06
        ∷ 0x2102 ∷ 0xDF06 ∷ 0xDF00 ∷ 0x46C0 ∷ 0x2005 ∷ 0xDF02 ∷ 0xDF08 ∷ 0xDF0C ∷ 0xDF00 ∷ []))
        ≡ codes "5 serial 31\n10 serial 32\nend 10 quiet\n" }
    ensures reentrant { written_with 26 [] (image (0x2007 ∷ 0x2100 ∷ 0xA204 ∷ 0x3201 ∷ 0x2308 ∷ 0xDF16 ∷ 0x2007 ∷ 0x2101
        ∷ 0xDF06 ∷ 0x2102 ∷ 0xDF06 ∷ 0xDF00 ∷ 0x2005 ∷ 0xDF02 ∷ 0xDF08 ∷ 0xDF0C ∷ 0xDF00 ∷ []))
        ≡ codes "5 serial 31\n5 serial 32\nend 5 quiet\n" }
    ensures drops { written_with 26 [] (image (0x2007 ∷ 0x2100 ∷ 0xA204 ∷ 0x3201 ∷ 0x2320 ∷ 0xDF16 ∷ 0x2007 ∷ 0x2101
        ∷ 0xDF06 ∷ 0x2102 ∷ 0xDF06 ∷ 0xDF00 ∷ 0x2005 ∷ 0xDF02 ∷ 0xDF08 ∷ 0xDF0C ∷ 0xDF00 ∷ []))
        ≡ codes "5 serial 31\nend 5 quiet\n" }
    ensures even { written_with 9 []
        (image (0x2007 ∷ 0x2100 ∷ 0xA201 ∷ 0xDF05 ∷ 0xDF00 ∷ 0x46C0 ∷ 0xDF08 ∷ 0xDF0C ∷ 0xDF00 ∷ []))
        ≡ codes "fault 0 4 00000012\n" }
    ensures even_with_mode { written_with 9 []
        (image (0x2007 ∷ 0x2100 ∷ 0xA201 ∷ 0x2308 ∷ 0xDF16 ∷ 0xDF00 ∷ 0xDF08 ∷ 0xDF0C ∷ 0xDF00 ∷ []))
        ≡ codes "fault 0 4 00000014\n" }
    ensures mode_16 { (bank_run (image (0x2007 ∷ 0x2100 ∷ 0xA201 ∷ 0x3201 ∷ 0xDF05 ∷ 0xDF00 ∷ 0xDF08 ∷ 0xDF0C
        ∷ 0xDF00 ∷ [])) 1000 [] [] 6).listeners
        ≡ record { listener = record { source = pos 7; value = pos 0; handler = 25; mode = pos 16 }; held = [] } ∷ [] }
    ensures mode_32 { (bank_run (image (0x2007 ∷ 0x2100 ∷ 0xA202 ∷ 0x3201 ∷ 0x2320 ∷ 0xDF16 ∷ 0xDF00 ∷ 0x46C0 ∷ 0xDF08
        ∷ 0xDF0C ∷ 0xDF00 ∷ [])) 1000 [] [] 6).listeners
        ≡ record { listener = record { source = pos 7; value = pos 0; handler = 29; mode = pos 32 }; held = [] } ∷ [] }
    ensures any { written_with 16 []
        (image (0xA203 ∷ 0x3201 ∷ 0xDF05 ∷ 0x2007 ∷ 0x2109 ∷ 0xDF06 ∷ 0xDF00 ∷ 0x46C0 ∷ 0xDF08 ∷ 0xDF0C ∷ 0xDF00 ∷ []))
        ≡ codes "0 serial 39\nend 0 quiet\n" }
    ensures another { written_with 16 [] (image (0x2007 ∷ 0x2108 ∷ 0xA204 ∷ 0x3201 ∷ 0xDF05 ∷ 0x2109 ∷ 0xDF06 ∷ 0x2006
        ∷ 0x2108 ∷ 0xDF06 ∷ 0xDF00 ∷ 0x46C0 ∷ 0xDF08 ∷ 0xDF0C ∷ 0xDF00 ∷ [])) ≡ codes "end 0 quiet\n" }
    ensures in_order { written_with 20 [] (image (0x2007 ∷ 0xA206 ∷ 0x3201 ∷ 0xDF05 ∷ 0xA202 ∷ 0x3201 ∷ 0xDF05 ∷ 0xDF06
        ∷ 0xDF00 ∷ 0x46C0 ∷ 0x2002 ∷ 0xDF0C ∷ 0xDF00 ∷ 0x46C0 ∷ 0x2001 ∷ 0xDF0C ∷ 0xDF00 ∷ []))
        ≡ codes "0 serial 31\n0 serial 32\nend 0 quiet\n" }
    ensures queues_with_mode { written_with 26 [] (image (0x2007 ∷ 0xA204 ∷ 0x3201 ∷ 0x2301 ∷ 0xDF16 ∷ 0x2101 ∷ 0xDF06
        ∷ 0x2102 ∷ 0xDF06 ∷ 0xDF00 ∷ 0x2005 ∷ 0xDF02 ∷ 0xDF08 ∷ 0xDF0C ∷ 0xDF00 ∷ []))
        ≡ codes "5 serial 31\n10 serial 32\nend 10 quiet\n" }
    ensures before_waiters { written_with 24 []
        (image (0xA005 ∷ 0x3001 ∷ 0xDF04 ∷ 0x2001 ∷ 0xDF02 ∷ 0x2007 ∷ 0xA204 ∷ 0x3201 ∷ 0xDF05 ∷ 0xDF06 ∷ 0xDF00
        ∷ 0x46C0 ∷ 0xDF03 ∷ 0x2001 ∷ 0xDF0C ∷ 0xDF00 ∷ 0x2002 ∷ 0xDF0C ∷ 0xDF00 ∷ []))
        ≡ codes "1 serial 32\n1 serial 31\nend 1 quiet\n" }
{}

/// The handlers begin before the raiser goes on, with the raiser's SP for a base, and run until they end or block. Who waits for the event goes on behind the raiser.
pub fn rows_of_raising_now()
    ensures before { written_with 20 [] (image (0x2007 ∷ 0x2100 ∷ 0xA204 ∷ 0x3201 ∷ 0xDF05 ∷ 0x2007 ∷ 0x2109 ∷ 0xDF17
        ∷ 0x2002 ∷ 0xDF0C ∷ 0xDF00 ∷ 0x46C0 ∷ 0xDF08 ∷ 0xDF0C ∷ 0xDF00 ∷ []))
        ≡ codes "0 serial 39\n0 serial 32\nend 0 quiet\n" }
    ensures later { written_with 20 [] (image (0x2007 ∷ 0x2100 ∷ 0xA204 ∷ 0x3201 ∷ 0xDF05 ∷ 0x2007 ∷ 0x2109 ∷ 0xDF06
        ∷ 0x2002 ∷ 0xDF0C ∷ 0xDF00 ∷ 0x46C0 ∷ 0xDF08 ∷ 0xDF0C ∷ 0xDF00 ∷ []))
        ≡ codes "0 serial 32\n0 serial 39\nend 0 quiet\n" }
    ensures base { written_with 20 [] (image (0xB082 ∷ 0x2007 ∷ 0x2100 ∷ 0xA203 ∷ 0x3201 ∷ 0xDF05 ∷ 0x2007 ∷ 0x2109
        ∷ 0xDF17 ∷ 0xDF00 ∷ 0x4668 ∷ 0xDF0C ∷ 0xDF00 ∷ [])) ≡ codes "0 serial 353336383837313630\nend 0 quiet\n" }
    ensures base_again { written_with 36 [] (image (0xB082 ∷ 0x2007 ∷ 0x2100 ∷ 0xA204 ∷ 0x3201 ∷ 0xDF05 ∷ 0x2007
        ∷ 0x2109 ∷ 0xDF17 ∷ 0x2108 ∷ 0xDF17 ∷ 0xDF00 ∷ 0x4668 ∷ 0xDF0C ∷ 0x2005 ∷ 0xDF02 ∷ 0xB081 ∷ 0xDF00 ∷ []))
        ≡ codes "0 serial 353336383837313630\n5 serial 353336383837313630\nend 10 quiet\n" }
    ensures nobody { written_with 12 [] (image (0x2007 ∷ 0x2109 ∷ 0xDF17 ∷ 0x2002 ∷ 0xDF0C ∷ 0xDF00 ∷ []))
        ≡ codes "0 serial 32\nend 0 quiet\n" }
    ensures in_order { written_with 22 [] (image (0x2007 ∷ 0xA207 ∷ 0x3201 ∷ 0xDF05 ∷ 0xA203 ∷ 0x3201 ∷ 0xDF05 ∷ 0xDF17
        ∷ 0x2003 ∷ 0xDF0C ∷ 0xDF00 ∷ 0x46C0 ∷ 0x2002 ∷ 0xDF0C ∷ 0xDF00 ∷ 0x46C0 ∷ 0x2001 ∷ 0xDF0C ∷ 0xDF00 ∷ []))
        ≡ codes "0 serial 31\n0 serial 32\n0 serial 33\nend 0 quiet\n" }
    ensures wakes { written_with 30 []
        (image (0xA006 ∷ 0x3001 ∷ 0xDF04 ∷ 0x2001 ∷ 0xDF02 ∷ 0x2007 ∷ 0xA205 ∷ 0x3201 ∷ 0xDF05 ∷ 0xDF17 ∷ 0x2009
        ∷ 0xDF0C ∷ 0xDF00 ∷ 0x46C0 ∷ 0xDF03 ∷ 0x2001 ∷ 0xDF0C ∷ 0xDF00 ∷ 0x2002 ∷ 0xDF0C ∷ 0xDF00 ∷ []))
        ≡ codes "1 serial 32\n1 serial 39\n1 serial 31\nend 1 quiet\n" }
    ensures lets_go_on { written_with 26 [] (image (0x2007 ∷ 0xA203 ∷ 0x3201 ∷ 0xDF05 ∷ 0xDF17 ∷ 0x2009 ∷ 0xDF0C
        ∷ 0xDF00 ∷ 0x2001 ∷ 0xDF0C ∷ 0x2005 ∷ 0xDF02 ∷ 0x2002 ∷ 0xDF0C ∷ 0xDF00 ∷ []))
        ≡ codes "0 serial 31\n0 serial 39\n5 serial 32\nend 5 quiet\n" }
    ensures drops { written_with 26 [] (image (0x2007 ∷ 0xA204 ∷ 0x3201 ∷ 0x2320 ∷ 0xDF16 ∷ 0x2101 ∷ 0xDF17 ∷ 0x2102
        ∷ 0xDF17 ∷ 0xDF00 ∷ 0x2005 ∷ 0xDF02 ∷ 0xDF08 ∷ 0xDF0C ∷ 0xDF00 ∷ [])) ≡ codes "5 serial 31\nend 5 quiet\n" }
    ensures wakes_once { written_with 16 [] (image (0xA003 ∷ 0x3001 ∷ 0xDF04 ∷ 0x2001 ∷ 0xDF02 ∷ 0xDF17 ∷ 0xDF17
        ∷ 0xDF00 ∷ 0xDF03 ∷ 0x2001 ∷ 0xDF0C ∷ 0xDF00 ∷ [])) ≡ codes "1 serial 31\nend 1 quiet\n" }
{}

/// Main and 23 fibers take the 24 seats: a further fiber is panic 101, and so is the first block of a handler, by a pause or a wait. A handler that doesn't block
/// needs no seat. One that has its seat keeps it, also where it begins again, and an end gives back the seat that was taken. An even code address is tried first.
pub fn rows_of_seats()
    ensures spawns_23 { written_with 49 [] (image (0xA00C ∷ 0x3001 ∷ [] ++ replicate 23 0xDF04 ++ 0xDF00 ∷ 0xDF00 ∷ []))
        ≡ codes "end 0 quiet\n" }
    ensures spawns_24 { written_with 26 []
        (image (0xA00D ∷ 0x3001 ∷ [] ++ replicate 24 0xDF04 ++ 0xDF00 ∷ 0x46C0 ∷ 0xDF00 ∷ [])) ≡ codes "panic 0 101\n" }
    ensures pauses_at_23 { written_with 58 []
        (image (0x2007 ∷ 0xA210 ∷ 0x3201 ∷ 0xDF05 ∷ 0xA00D ∷ 0x3001 ∷ [] ++ replicate 22 0xDF04
        ++ 0x2007 ∷ 0xDF17 ∷ 0xDF00 ∷ 0x46C0 ∷ 0xDF00 ∷ 0x46C0 ∷ 0x2003 ∷ 0xDF02 ∷ 0xDF07 ∷ 0xDF0C ∷ 0xDF00 ∷ []))
        ≡ codes "3 serial 33\nend 3 quiet\n" }
    ensures pauses_at_24 { written_with 33 []
        (image (0x2007 ∷ 0xA210 ∷ 0x3201 ∷ 0xDF05 ∷ 0xA00D ∷ 0x3001 ∷ [] ++ replicate 23 0xDF04 ++ 0x2007 ∷ 0xDF17
        ∷ 0xDF00 ∷ 0xDF00 ∷ 0x46C0 ∷ 0x2003 ∷ 0xDF02 ∷ 0xDF07 ∷ 0xDF0C ∷ 0xDF00 ∷ [])) ≡ codes "panic 0 101\n" }
    ensures waits_at_23 { written_with 57
        (record { at = 3; act = Raise (record { source = pos 8; value = pos 9 }) } ∷ [])
        (image (0x2007 ∷ 0xA210 ∷ 0x3201 ∷ 0xDF05 ∷ 0xA00D ∷ 0x3001 ∷ [] ++ replicate 22 0xDF04
        ++ 0x2007 ∷ 0xDF17 ∷ 0xDF00 ∷ 0x46C0 ∷ 0xDF00 ∷ 0x46C0 ∷ 0xDF03 ∷ 0xDF08 ∷ 0xDF0C ∷ 0xDF00 ∷ []))
        ≡ codes "3 serial 39\nend 3 quiet\n" }
    ensures waits_at_24 { written_with 32
        (record { at = 3; act = Raise (record { source = pos 8; value = pos 9 }) } ∷ [])
        (image (0x2007 ∷ 0xA210 ∷ 0x3201 ∷ 0xDF05 ∷ 0xA00D ∷ 0x3001 ∷ [] ++ replicate 23 0xDF04 ++ 0x2007 ∷ 0xDF17
        ∷ 0xDF00 ∷ 0xDF00 ∷ 0x46C0 ∷ 0xDF03 ∷ 0xDF08 ∷ 0xDF0C ∷ 0xDF00 ∷ [])) ≡ codes "panic 0 101\n" }
    ensures no_block_at_24 { written_with 58 [] (image (0x2007 ∷ 0xA210 ∷ 0x3201 ∷ 0xDF05 ∷ 0xA00D ∷ 0x3001 ∷ []
        ++ replicate 23 0xDF04 ++ 0x2007 ∷ 0xDF17 ∷ 0xDF00 ∷ 0xDF00 ∷ 0x46C0 ∷ 0x2007 ∷ 0xDF0C ∷ 0xDF00 ∷ []))
        ≡ codes "0 serial 37\nend 0 quiet\n" }
    ensures keeps_its_seat { written_with 58 []
        (image (0x2007 ∷ 0xA210 ∷ 0x3201 ∷ 0xDF05 ∷ 0xA00D ∷ 0x3001 ∷ [] ++ replicate 22 0xDF04
        ++ 0x2007 ∷ 0xDF17 ∷ 0xDF03 ∷ 0x46C0 ∷ 0xDF03 ∷ 0x46C0 ∷ 0xDF02 ∷ 0xDF02 ∷ 0xDF07 ∷ 0xDF0C ∷ 0xDF00 ∷ []))
        ≡ codes "2 serial 32\nend 2 quiet\n" }
    ensures given_back { written_with 57 [] (image (0xA410 ∷ 0x3401 ∷ 0x4620 ∷ [] ++ replicate 23 0xDF04
        ++ 0x2001 ∷ 0xDF02 ∷ 0x4620 ∷ 0xDF04 ∷ 0x2007 ∷ 0xDF0C ∷ 0xDF00 ∷ 0x46C0 ∷ 0xDF00 ∷ []))
        ≡ codes "1 serial 37\nend 1 quiet\n" }
    ensures begins_again_at_24 { written_with 62 []
        (image (0x2007 ∷ 0xA210 ∷ 0x3201 ∷ 0xDF05 ∷ 0xA00D ∷ 0x3001 ∷ [] ++ replicate 22 0xDF04
        ++ 0x2007 ∷ 0xDF17 ∷ 0xDF17 ∷ 0xDF03 ∷ 0xDF03 ∷ 0x46C0 ∷ 0xDF02 ∷ 0xDF07 ∷ 0xDF0C ∷ 0xDF00 ∷ []))
        ≡ codes "1 serial 31\n2 serial 32\nend 2 quiet\n" }
    ensures given_back_by_handler { written_with 62 [] (image (0x2007 ∷ 0xA213 ∷ 0x3201 ∷ 0xDF05 ∷ 0xA010 ∷ 0x3001 ∷ []
        ++ replicate 22 0xDF04 ++ 0x2007 ∷ 0xDF17 ∷ 0xDF02 ∷ 0xA003 ∷ 0x3001 ∷ 0xDF04 ∷ 0xDF07 ∷ 0xDF0C ∷ 0xDF00
        ∷ 0x46C0 ∷ 0xDF03 ∷ 0x46C0 ∷ 0xDF02 ∷ 0xDF00 ∷ [])) ≡ codes "7 serial 37\nend 7 quiet\n" }
    ensures taken_by_handler { written_with 34 []
        (image (0x2007 ∷ 0xA211 ∷ 0x3201 ∷ 0xDF05 ∷ 0xA00E ∷ 0x3001 ∷ [] ++ replicate 22 0xDF04 ++ 0x2007 ∷ 0xDF17
        ∷ 0xA001 ∷ 0x3001 ∷ 0xDF04 ∷ 0xDF00 ∷ 0xDF03 ∷ 0x46C0 ∷ 0xDF02 ∷ 0xDF00 ∷ [])) ≡ codes "panic 0 101\n" }
    ensures nothing_given_back { written_with 35 []
        (image (0x2007 ∷ 0xA212 ∷ 0x3201 ∷ 0xDF05 ∷ 0xA00F ∷ 0x3001 ∷ [] ++ replicate 23 0xDF04 ++ 0x2007 ∷ 0xDF17
        ∷ 0xA002 ∷ 0x3001 ∷ 0xDF04 ∷ 0xDF00 ∷ 0x46C0 ∷ 0xDF03 ∷ 0x46C0 ∷ 0xDF00 ∷ [])) ≡ codes "panic 0 101\n" }
    ensures even_at_24 { written_with 27 []
        (image (0xA00D ∷ 0x3001 ∷ [] ++ replicate 23 0xDF04 ++ 0x3801 ∷ 0xDF04 ∷ 0xDF00 ∷ 0xDF00 ∷ []))
        ≡ codes "fault 0 4 00000040\n" }
{}

/// A 33rd listener is panic 103, but an even handler is tried first. A 33rd event is dropped at the queue, and an 11th by a busy listener.
pub fn rows_of_limits()
    ensures listens_32 { written_with 35 []
        (image (0xA211 ∷ 0x3201 ∷ [] ++ replicate 32 0xDF05 ++ 0xDF00 ∷ 0x46C0 ∷ 0xDF00 ∷ [])) ≡ codes "end 0 quiet\n" }
    ensures listens_33 { written_with 35 []
        (image (0xA211 ∷ 0x3201 ∷ [] ++ replicate 33 0xDF05 ++ 0xDF00 ∷ 0xDF00 ∷ [])) ≡ codes "panic 0 103\n" }
    ensures listens_32_with_mode { written_with 36 []
        (image (0xA211 ∷ 0x3201 ∷ 0x2308 ∷ [] ++ replicate 32 0xDF16 ++ 0xDF00 ∷ 0xDF00 ∷ [])) ≡ codes "end 0 quiet\n" }
    ensures listens_33_with_mode { written_with 36 []
        (image (0xA212 ∷ 0x3201 ∷ 0x2308 ∷ [] ++ replicate 33 0xDF16 ++ 0xDF00 ∷ 0x46C0 ∷ 0xDF00 ∷ []))
        ≡ codes "panic 0 103\n" }
    ensures raises_32 { written_with 49 []
        (image (0x2007 ∷ 0x2102 ∷ 0xA214 ∷ 0x3201 ∷ 0xDF05 ∷ 0x2103 ∷ 0xDF05 ∷ 0x2101 ∷ [] ++ replicate 30 0xDF06
        ++ 0x2102 ∷ 0xDF06 ∷ 0x2103 ∷ 0xDF06 ∷ 0xDF00 ∷ 0x46C0 ∷ 0xDF08 ∷ 0xDF0C ∷ 0xDF00 ∷ []))
        ≡ codes "0 serial 32\n0 serial 33\nend 0 quiet\n" }
    ensures raises_33 { written_with 47 [] (image (0x2007 ∷ 0x2102 ∷ 0xA214 ∷ 0x3201 ∷ 0xDF05 ∷ 0x2103 ∷ 0xDF05 ∷ 0x2101
        ∷ [] ++ replicate 31 0xDF06 ++ 0x2102 ∷ 0xDF06 ∷ 0x2103 ∷ 0xDF06 ∷ 0xDF00 ∷ 0xDF08 ∷ 0xDF0C ∷ 0xDF00 ∷ []))
        ≡ codes "0 serial 32\nend 0 quiet\n" }
    ensures holds_10 { written_with 64 [] (image (0x2007 ∷ 0xA209 ∷ 0x3201 ∷ 0xDF05 ∷ 0x2101 ∷ [] ++ replicate 9 0xDF06 ++ 0x2102 ∷ 0xDF06 ∷ 0x2103 ∷ 0xDF06 ∷ 0xDF00 ∷ 0x46C0 ∷ 0xDF02 ∷ 0xDF08 ∷ 0xDF0B ∷ 0xDF00 ∷ [])) ≡ codes "1 display #..../...../...../...../.....\n10 display .#.../...../...../...../.....\n11 display ##.../...../...../...../.....\nend 11 quiet\n" }
    ensures holds_10_of_11 { written_with 64 [] (image (0x2007 ∷ 0xA209 ∷ 0x3201 ∷ 0xDF05 ∷ 0x2101 ∷ []
        ++ replicate 10 0xDF06 ++ 0x2102 ∷ 0xDF06 ∷ 0x2103 ∷ 0xDF06 ∷ 0xDF00 ∷ 0xDF02 ∷ 0xDF08 ∷ 0xDF0B ∷ 0xDF00 ∷ []))
        ≡ codes "1 display #..../...../...../...../.....\n11 display .#.../...../...../...../.....\nend 11 quiet\n" }
    ensures even_at_32 { written_with 36 []
        (image (0xA212 ∷ 0x3201 ∷ [] ++ replicate 32 0xDF05 ++ 0x3A01 ∷ 0xDF05 ∷ 0xDF00 ∷ 0x46C0 ∷ 0xDF00 ∷ []))
        ≡ codes "fault 0 4 00000052\n" }
    ensures even_at_32_with_mode { written_with 36 []
        (image (0xA212 ∷ 0x3201 ∷ [] ++ replicate 32 0xDF16 ++ 0x3A01 ∷ 0xDF16 ∷ 0xDF00 ∷ 0x46C0 ∷ 0xDF00 ∷ []))
        ≡ codes "fault 0 4 00000052\n" }
{}

/// Where 32 raisers are suspended, a further one goes on if no handler begins, and is panic 106 if one would.
pub fn rows_of_raisers()
    ensures raisers_32 { written_with 200 [] (image (0x2007 ∷ 0xA203 ∷ 0x3201 ∷ 0x2308 ∷ 0xDF16 ∷ 0x2120 ∷ 0xDF17
        ∷ 0xDF00 ∷ 0xDF08 ∷ 0x1E41 ∷ 0xD002 ∷ 0x2007 ∷ 0xDF17 ∷ 0xDF00 ∷ 0xDF17 ∷ 0xDF0C ∷ 0xDF00 ∷ []))
        ≡ codes "0 serial 31\nend 0 quiet\n" }
    ensures raisers_33 { written_with 167 [] (image (0x2007 ∷ 0xA203 ∷ 0x3201 ∷ 0x2308 ∷ 0xDF16 ∷ 0x2121 ∷ 0xDF17
        ∷ 0xDF00 ∷ 0xDF08 ∷ 0x1E41 ∷ 0xD002 ∷ 0x2007 ∷ 0xDF17 ∷ 0xDF00 ∷ 0xDF17 ∷ 0xDF0C ∷ 0xDF00 ∷ []))
        ≡ codes "panic 0 106\n" }
{}

/// Buttons, lights, pins and radio. A light outside, a picture that stands already and a pin above 20 change nothing. A mode of plotting above 2 is BadService.
pub fn rows_of_board()
    ensures pressed { written_with 12 (record { at = 2; act = Down 1 } ∷ [])
        (image (0x2003 ∷ 0xDF02 ∷ 0x2001 ∷ 0xDF09 ∷ 0xDF0C ∷ 0x2002 ∷ 0xDF09 ∷ 0xDF0C ∷ 0xDF00 ∷ []))
        ≡ codes "3 serial 31\n3 serial 30\nend 3 quiet\n" }
    ensures plots { written_with 9 [] (image (0x2001 ∷ 0x2100 ∷ 0x2201 ∷ 0xDF0A ∷ 0xDF00 ∷ []))
        ≡ codes "0 display .#.../...../...../...../.....\nend 0 quiet\n" }
    ensures toggles { written_with 9 [] (image (0x2000 ∷ 0x2101 ∷ 0x2202 ∷ 0xDF0A ∷ 0xDF0A ∷ 0xDF00 ∷ []))
        ≡ codes "0 display ...../#..../...../...../.....\n0 display ...../...../...../...../.....\nend 0 quiet\n" }
    ensures mode_3 { written_with 9 [] (image (0x2000 ∷ 0x2101 ∷ 0x2203 ∷ 0xDF0A ∷ 0xDF00 ∷ []))
        ≡ codes "fault 0 8 00000012\n" }
    ensures shows { written_with 9 [] (image (0x2001 ∷ 0x0641 ∷ 0x1840 ∷ 0xDF0B ∷ 0xDF00 ∷ []))
        ≡ codes "0 display #..../...../...../...../.....\nend 0 quiet\n" }
    ensures sets { written_with 9 [] (image (0x2002 ∷ 0x2109 ∷ 0xDF0E ∷ 0xDF00 ∷ []))
        ≡ codes "0 pin 2 1\nend 0 quiet\n" }
    ensures sends { written_with 9 [] (image (0x2004 ∷ 0x43C0 ∷ 0xDF0F ∷ 0xDF00 ∷ []))
        ≡ codes "0 radio -5\nend 0 quiet\n" }
    ensures pressed_b { written_with 16 (record { at = 2; act = Down 2 } ∷ [])
        (image (0x2003 ∷ 0xDF02 ∷ 0x2002 ∷ 0xDF09 ∷ 0xDF0C ∷ 0x2003 ∷ 0xDF09 ∷ 0xDF0C ∷ 0xDF00 ∷ []))
        ≡ codes "3 serial 31\n3 serial 30\nend 3 quiet\n" }
    ensures plots_off { written_with 12 [] (image (0x2201 ∷ 0xDF0A ∷ 0xDF0A ∷ 0x2200 ∷ 0xDF0A ∷ 0xDF0A ∷ 0xDF00 ∷ []))
        ≡ codes "0 display #..../...../...../...../.....\n0 display ...../...../...../...../.....\nend 0 quiet\n" }
    ensures plots_outside { written_with 12 []
        (image (0x2005 ∷ 0x2201 ∷ 0xDF0A ∷ 0x2004 ∷ 0x2100 ∷ 0x43C9 ∷ 0xDF0A ∷ 0xDF00 ∷ [])) ≡ codes "end 0 quiet\n" }
    ensures shows_once { written_with 9 [] (image (0x2003 ∷ 0xDF0B ∷ 0xDF0B ∷ 0xDF00 ∷ []))
        ≡ codes "0 display ##.../...../...../...../.....\nend 0 quiet\n" }
    ensures sets_low { written_with 12 [] (image (0x2014 ∷ 0xDF0E ∷ 0x2015 ∷ 0xDF0E ∷ 0x43C0 ∷ 0xDF0E ∷ 0xDF00 ∷ []))
        ≡ codes "0 pin 20 0\nend 0 quiet\n" }
    ensures mode_minus_1 { written_with 5 [] (image (0x2200 ∷ 0x43D2 ∷ 0xDF0A ∷ 0xDF00 ∷ []))
        ≡ codes "fault 0 8 00000010\n" }
{}

/// A text is written whole. Null is a panic, and a text that isn't at a multiple of 4, that is too long, that isn't whole in flash or isn't there at all is BadService.
pub fn rows_of_texts()
    ensures writes { written_with 5 [] (image (0xA001 ∷ 0xDF0D ∷ 0xDF00 ∷ 0x46C0 ∷ 0x0002 ∷ 0x0000 ∷ 0x4968 ∷ []))
        ≡ codes "0 serial 6849\nend 0 quiet\n" }
    ensures empty { written_with 5 [] (image (0xA001 ∷ 0xDF0D ∷ 0xDF00 ∷ 0x46C0 ∷ 0x0000 ∷ 0x0000 ∷ []))
        ≡ codes "end 0 quiet\n" }
    ensures null { written_with 5 [] (image (0x2000 ∷ 0xDF0D ∷ 0xDF00 ∷ [])) ≡ codes "panic 0 105\n" }
    ensures unaligned { written_with 5 [] (image (0xA001 ∷ 0x3002 ∷ 0xDF0D ∷ 0xDF00 ∷ 0x0002 ∷ 0x0000 ∷ 0x4968 ∷ []))
        ≡ codes "fault 0 8 00000010\n" }
    ensures too_long { written_with 5 [] (image (0xA001 ∷ 0xDF0D ∷ 0xDF00 ∷ 0x46C0 ∷ 0x4001 ∷ 0x0000 ∷ []))
        ≡ codes "fault 0 8 0000000e\n" }
    ensures in_arena { written_with 5 [] (image (0x4801 ∷ 0xDF0D ∷ 0xDF00 ∷ 0x0000 ∷ 0x0400 ∷ 0x2000 ∷ []))
        ≡ codes "fault 0 8 0000000e\n" }
    ensures past_flash { written_with 5 [] (image (0x4801 ∷ 0xDF0D ∷ 0xDF00 ∷ 0x0000 ∷ 0xFFFC ∷ 0x0003 ∷ []))
        ≡ codes "fault 0 8 0000000e\n" }
    ensures longest { is_text (code (16384 ∷ 0 ∷ [])) 0 ≡ true }
    ensures longest_to_the_end { is_text (code (0 ∷ 0 ∷ [])) 0x3FFFC ≡ false }
{}

/// The glyph of a byte of a text, or of a number's decimal text, and -1 where there is no such byte.
pub fn rows_of_glyphs()
    ensures of_text { written_with 7 []
        (image (0xA002 ∷ 0x2101 ∷ 0xDF10 ∷ 0xDF0B ∷ 0xDF00 ∷ 0x46C0 ∷ 0x0002 ∷ 0x0000 ∷ 0x4968 ∷ []))
        ≡ codes "0 display .###./..#../..#../..#../.###.\nend 0 quiet\n" }
    ensures behind_text { written_with 7 []
        (image (0xA002 ∷ 0x2102 ∷ 0xDF10 ∷ 0xDF0C ∷ 0xDF00 ∷ 0x46C0 ∷ 0x0002 ∷ 0x0000 ∷ 0x4968 ∷ []))
        ≡ codes "0 serial 2d31\nend 0 quiet\n" }
    ensures far_behind_text { written_with 7 []
        (image (0xA002 ∷ 0x2100 ∷ 0x43C9 ∷ 0xDF10 ∷ 0xDF0C ∷ 0xDF00 ∷ 0x0002 ∷ 0x0000 ∷ 0x4968 ∷ []))
        ≡ codes "0 serial 2d31\nend 0 quiet\n" }
    ensures null { written_with 7 [] (image (0x2000 ∷ 0x2100 ∷ 0xDF10 ∷ 0xDF00 ∷ [])) ≡ codes "panic 0 105\n" }
    ensures bad_text { written_with 7 [] (image (0x2002 ∷ 0x2100 ∷ 0xDF10 ∷ 0xDF00 ∷ []))
        ≡ codes "fault 0 8 00000010\n" }
    ensures of_number { written_with 9 [] (image (0x2006 ∷ 0x43C0 ∷ 0x2101 ∷ 0xDF11 ∷ 0xDF0B ∷ 0xDF00 ∷ []))
        ≡ codes "0 display #####/....#/...#./..#../..#..\nend 0 quiet\n" }
    ensures behind_number { written_with 9 [] (image (0x2006 ∷ 0x43C0 ∷ 0x2102 ∷ 0xDF11 ∷ 0xDF0C ∷ 0xDF00 ∷ []))
        ≡ codes "0 serial 2d31\nend 0 quiet\n" }
    ensures sign_of_number { written_with 9 [] (image (0x2006 ∷ 0x43C0 ∷ 0xDF11 ∷ 0xDF0B ∷ 0xDF00 ∷ []))
        ≡ codes "0 display ...../...../.###./...../.....\nend 0 quiet\n" }
    ensures far_behind_number { written_with 9 [] (image (0x2006 ∷ 0x2100 ∷ 0x43C9 ∷ 0xDF11 ∷ 0xDF0C ∷ 0xDF00 ∷ []))
        ≡ codes "0 serial 2d31\nend 0 quiet\n" }
{}

/// The address of the first new word is answered, behind those that are used. No words is BadService, and more than are left is panic 20.
pub fn rows_of_allocation()
    ensures first { written_with 9 [] (image (0x2003 ∷ 0xDF12 ∷ 0xDF0C ∷ 0xDF00 ∷ []))
        ≡ codes "0 serial 353336383731393336\nend 0 quiet\n" }
    ensures second { written_with 9 [] (image (0x2003 ∷ 0xDF12 ∷ 0x2001 ∷ 0xDF12 ∷ 0xDF0C ∷ 0xDF00 ∷ []))
        ≡ codes "0 serial 353336383731393438\nend 0 quiet\n" }
    ensures none { written_with 9 [] (image (0x2000 ∷ 0xDF12 ∷ 0xDF00 ∷ [])) ≡ codes "fault 0 8 0000000e\n" }
    ensures all { written_with 9 [] (image (0x4801 ∷ 0xDF12 ∷ 0xDF0C ∷ 0xDF00 ∷ 0x0B00 ∷ 0x0000 ∷ []))
        ≡ codes "0 serial 353336383731393336\nend 0 quiet\n" }
    ensures one_more { written_with 9 [] (image (0x4801 ∷ 0xDF12 ∷ 0xDF00 ∷ 0x0000 ∷ 0x0B01 ∷ 0x0000 ∷ []))
        ≡ codes "panic 0 20\n" }
    ensures all_and_one { written_with 9 []
        (image (0x4802 ∷ 0xDF12 ∷ 0x2001 ∷ 0xDF12 ∷ 0xDF00 ∷ 0x0000 ∷ 0x0B00 ∷ 0x0000 ∷ [])) ≡ codes "panic 0 20\n" }
    ensures most { written_with 5 [] (image (0x2000 ∷ 0x43C0 ∷ 0xDF12 ∷ 0xDF00 ∷ [])) ≡ codes "panic 0 20\n" }
{}

/// An array without room moves to a room of 4, behind the used words, and a full one to twice its room, but to 4 at least. Its items keep their order. One with room left uses no words.
pub fn rows_of_pushes()
    ensures first { written_with 30 [] (image (0x2004 ∷ 0xDF12 ∷ 0x4604 ∷ 0x4620 ∷ 0x2107 ∷ 0xDF13 ∷ 0x6860 ∷ 0xDF0C
        ∷ 0x68A0 ∷ 0xDF0C ∷ 0x68E0 ∷ 0xDF0C ∷ 0x68E5 ∷ 0x6828 ∷ 0xDF0C ∷ 0xDF00 ∷ []))
        ≡ codes "0 serial 31\n0 serial 34\n0 serial 353336383731393532\n0 serial 37\nend 0 quiet\n" }
    ensures second { written_with 30 []
        (image (0x2004 ∷ 0xDF12 ∷ 0x4604 ∷ 0x4620 ∷ 0x2107 ∷ 0xDF13 ∷ 0x4620 ∷ 0x2108 ∷ 0xDF13 ∷ 0x6860 ∷ 0xDF0C
        ∷ 0x68A0 ∷ 0xDF0C ∷ 0x68E5 ∷ 0x6828 ∷ 0xDF0C ∷ 0x68E5 ∷ 0x6868 ∷ 0xDF0C ∷ 0xDF00 ∷ []))
        ≡ codes "0 serial 32\n0 serial 34\n0 serial 37\n0 serial 38\nend 0 quiet\n" }
    ensures fifth { written_with 50 []
        (image (0x2004 ∷ 0xDF12 ∷ 0x4604 ∷ 0x4620 ∷ 0x2101 ∷ 0xDF13 ∷ 0x4620 ∷ 0x2102 ∷ 0xDF13 ∷ 0x4620 ∷ 0x2103
        ∷ 0xDF13 ∷ 0x4620 ∷ 0x2104 ∷ 0xDF13 ∷ 0x4620 ∷ 0x2105 ∷ 0xDF13 ∷ 0x6860 ∷ 0xDF0C ∷ 0x68A0 ∷ 0xDF0C ∷ 0x68E0
        ∷ 0xDF0C ∷ 0x68E5 ∷ 0x6828 ∷ 0xDF0C ∷ 0x68E5 ∷ 0x68E8 ∷ 0xDF0C ∷ 0x68E5 ∷ 0x6928 ∷ 0xDF0C ∷ 0xDF00 ∷ []))
        ≡ codes
        "0 serial 35\n0 serial 38\n0 serial 353336383731393638\n0 serial 31\n0 serial 34\n0 serial 35\nend 0 quiet\n" }
    ensures room_of_1 { written_with 40 [] (image (0x2004 ∷ 0xDF12 ∷ 0x4604 ∷ 0x2001 ∷ 0xDF12 ∷ 0x60E0 ∷ 0x2101 ∷ 0x60A1
        ∷ 0x4620 ∷ 0x2106 ∷ 0xDF13 ∷ 0x4620 ∷ 0x2107 ∷ 0xDF13 ∷ 0x6860 ∷ 0xDF0C ∷ 0x68A0 ∷ 0xDF0C ∷ 0x68E0 ∷ 0xDF0C
        ∷ 0x68E5 ∷ 0x6828 ∷ 0xDF0C ∷ 0x68E5 ∷ 0x6868 ∷ 0xDF0C ∷ 0xDF00 ∷ []))
        ≡ codes "0 serial 32\n0 serial 34\n0 serial 353336383731393536\n0 serial 36\n0 serial 37\nend 0 quiet\n" }
    ensures used_behind { written_with 30 []
        (image (0x2004 ∷ 0xDF12 ∷ 0x4604 ∷ 0x4620 ∷ 0x2107 ∷ 0xDF13 ∷ 0x2001 ∷ 0xDF12 ∷ 0xDF0C ∷ 0xDF00 ∷ []))
        ≡ codes "0 serial 353336383731393638\nend 0 quiet\n" }
    ensures without_growth { written_with 16 [] (image (0x4806 ∷ 0xDF12 ∷ 0x4604 ∷ 0x2101 ∷ 0x60A1 ∷ 0x3010 ∷ 0x60E0
        ∷ 0x4620 ∷ 0x2107 ∷ 0xDF13 ∷ 0x6860 ∷ 0xDF0C ∷ 0xDF00 ∷ 0x46C0 ∷ 0x0B00 ∷ 0x0000 ∷ []))
        ≡ codes "0 serial 31\nend 0 quiet\n" }
    ensures growth_to_the_end { written_with 16 [] (image (0x2004 ∷ 0xDF12 ∷ 0x4604 ∷ 0x4804 ∷ 0xDF12 ∷ 0x4620 ∷ 0x2107
        ∷ 0xDF13 ∷ 0x6860 ∷ 0xDF0C ∷ 0xDF00 ∷ 0x46C0 ∷ 0x0AF8 ∷ 0x0000 ∷ [])) ≡ codes "0 serial 31\nend 0 quiet\n" }
{}

/// Where the items overlap the header: the item is stored before the length, and the items are copied before the header is written.
pub fn rows_of_overlaps()
    ensures length_last { written_with 30 [] (image (0x2004 ∷ 0xDF12 ∷ 0x4604 ∷ 0x60E4 ∷ 0x2104 ∷ 0x60A1 ∷ 0x2101
        ∷ 0x6061 ∷ 0x4620 ∷ 0x2109 ∷ 0xDF13 ∷ 0x6860 ∷ 0xDF0C ∷ 0xDF00 ∷ [])) ≡ codes "0 serial 32\nend 0 quiet\n" }
    ensures copied_first { written_with 40 [] (image (0x2004 ∷ 0xDF12 ∷ 0x4604 ∷ 0x60E4 ∷ 0x2104 ∷ 0x60A1 ∷ 0x2104
        ∷ 0x6061 ∷ 0x4620 ∷ 0x2109 ∷ 0xDF13 ∷ 0x6860 ∷ 0xDF0C ∷ 0x68A0 ∷ 0xDF0C ∷ 0x68E5 ∷ 0x6868 ∷ 0xDF0C ∷ 0x68E5
        ∷ 0x68A8 ∷ 0xDF0C ∷ 0x68E5 ∷ 0x6928 ∷ 0xDF0C ∷ 0xDF00 ∷ []))
        ≡ codes "0 serial 35\n0 serial 38\n0 serial 34\n0 serial 34\n0 serial 39\nend 0 quiet\n" }
{}

/// Null is a panic. A header or items that aren't aligned or aren't among the used words, and a length above the room, are BadService. A growth that doesn't fit is panic 20.
pub fn rows_of_bad_arrays()
    ensures null { written_with 9 [] (image (0x2000 ∷ 0xDF13 ∷ 0xDF00 ∷ [])) ≡ codes "panic 0 105\n" }
    ensures unaligned { written_with 12 [] (image (0x2004 ∷ 0xDF12 ∷ 0x4604 ∷ 0x1CA0 ∷ 0xDF13 ∷ 0xDF00 ∷ []))
        ≡ codes "fault 0 8 00000014\n" }
    ensures behind_used { written_with 12 [] (image (0x2004 ∷ 0xDF12 ∷ 0x4604 ∷ 0x1D20 ∷ 0xDF13 ∷ 0xDF00 ∷ []))
        ≡ codes "fault 0 8 00000014\n" }
    ensures nothing_used { written_with 12 [] (image (0x4801 ∷ 0xDF13 ∷ 0xDF00 ∷ 0x0000 ∷ 0x0400 ∷ 0x2000 ∷ []))
        ≡ codes "fault 0 8 0000000e\n" }
    ensures below_arena { written_with 12 [] (image (0x2004 ∷ 0xDF12 ∷ 0x4604 ∷ 0x1F20 ∷ 0xDF13 ∷ 0xDF00 ∷ []))
        ≡ codes "fault 0 8 00000014\n" }
    ensures longer_than_room { written_with 14 []
        (image (0x2004 ∷ 0xDF12 ∷ 0x4604 ∷ 0x2101 ∷ 0x6061 ∷ 0x4620 ∷ 0x2105 ∷ 0xDF13 ∷ 0xDF00 ∷ []))
        ≡ codes "fault 0 8 0000001a\n" }
    ensures items_unaligned { written_with 16 []
        (image (0x2004 ∷ 0xDF12 ∷ 0x4604 ∷ 0x2101 ∷ 0x60A1 ∷ 0x1CA1 ∷ 0x60E1 ∷ 0x4620 ∷ 0x2105 ∷ 0xDF13 ∷ 0xDF00 ∷ []))
        ≡ codes "fault 0 8 0000001e\n" }
    ensures items_behind_used { written_with 16 [] (image (0x2004 ∷ 0xDF12 ∷ 0x4604 ∷ 0x2101 ∷ 0x60A1 ∷ 0x2110 ∷ 0x1861
        ∷ 0x60E1 ∷ 0x4620 ∷ 0x2105 ∷ 0xDF13 ∷ 0xDF00 ∷ [])) ≡ codes "fault 0 8 00000020\n" }
    ensures no_growth { written_with 16 [] (image (0x2004 ∷ 0xDF12 ∷ 0x4604 ∷ 0x4803 ∷ 0xDF12 ∷ 0x4620 ∷ 0x2105 ∷ 0xDF13
        ∷ 0xDF00 ∷ 0x0000 ∷ 0x0AF9 ∷ 0x0000 ∷ [])) ≡ codes "panic 0 20\n" }
    ensures unsound_without_growth { written_with 12 [] (image (0x2004 ∷ 0xDF12 ∷ 0x4604 ∷ 0x4803 ∷ 0xDF12 ∷ 0x2101
        ∷ 0x6061 ∷ 0x4620 ∷ 0xDF13 ∷ 0xDF00 ∷ 0x0AFC ∷ 0x0000 ∷ [])) ≡ codes "fault 0 8 0000001c\n" }
{}

/// Where the free words have no bearing: a word that is pushed, read and popped. The machine that is watched stops at a load at the base and below SP, and where SP goes down without a store.
pub fn rows_of_watching()
    ensures own { transcript_of
        ((watched_run (image (0x2007 ∷ 0xB401 ∷ 0x9800 ∷ 0xBC02 ∷ 0xDF0C ∷ 0xDF00 ∷ [])) 1000 [] [] 9).board)
        ≡ codes "0 serial 37\nend 0 quiet\n" }
    ensures at_base { (watched_run (image (0x9800 ∷ 0xDF00 ∷ [])) 1000 [] [] 5).board.end ≡ Some (Faulted unsteady 12) }
    ensures below_sp { (watched_run (image (0xB401 ∷ 0x466A ∷ 0xBC01 ∷ 0x6810 ∷ 0xDF00 ∷ [])) 1000 [] [] 6).board.end
        ≡ Some (Faulted unsteady 18) }
    ensures lowered { (watched_run (image (0xB081 ∷ 0xDF00 ∷ [])) 1000 [] [] 5).board.end ≡ Some (Faulted unsteady 12) }
{}
