//! Worked rows: small images, and what the bank machine writes for them.
ghost use Rattle.std.specs.Prelude.{◌≡◌, [], ◌∷◌, codes, pos, negsuc};
ghost use Rattle.bank_model.specs.AllServices.{quotient, remainder};
ghost use Rattle.bank_model.specs.Runs.{code, image, written};

/// What is a fault: UDF, a store at the base, ADD SP at the base, a service that isn't there; an image without bytes, whose base is
/// 0xFFFFFFFF; and a code address of main with bit 0 clear.
pub fn rows_of_faults()
    ensures undefined { written 5 [] (image (0xDE00 ∷ [])) ≡ codes "fault 0 1 0000000c\n" }
    ensures store_at_base { written 5 [] (image (0x9000 ∷ [])) ≡ codes "fault 0 6 0000000c\n" }
    ensures above_base { written 5 [] (image (0xB001 ∷ [])) ≡ codes "fault 0 5 0000000c\n" }
    ensures no_service { written 5 [] (image (0xDF18 ∷ [])) ≡ codes "fault 0 8 0000000c\n" }
    ensures no_bytes { written 5 [] [] ≡ codes "fault 0 5 ffffffff\n" }
    ensures bit_clear { written 5 [] (code (0x3F80 ∷ 0x2000 ∷ 0x000C ∷ 0 ∷ 0x000D ∷ 0 ∷ 0xDF00 ∷ []))
        ≡ codes "fault 0 4 0000000c\n" }
{}

/// A read at the base takes a free word, or 0 where there is none, and a byte is a part of one. SUB SP brings free words into the
/// bank, the first one next below the old SP; a pushed word stays there. A store below SP is lost.
pub fn rows_of_banks()
    ensures at_base { written 5 (7 ∷ []) (image (0x9800 ∷ 0xDF0C ∷ 0xDF00 ∷ [])) ≡ codes "0 serial 37\nend 0 quiet\n" }
    ensures none_free { written 5 [] (image (0x9800 ∷ 0xDF0C ∷ 0xDF00 ∷ [])) ≡ codes "0 serial 30\nend 0 quiet\n" }
    ensures byte { written 5 (0x134 ∷ []) (image (0x4669 ∷ 0x7808 ∷ 0xDF0C ∷ 0xDF00 ∷ []))
        ≡ codes "0 serial 3532\nend 0 quiet\n" }
    ensures lowered { written 5 (1 ∷ 2 ∷ []) (image (0xB082 ∷ 0x9801 ∷ 0xDF0C ∷ 0xDF00 ∷ []))
        ≡ codes "0 serial 31\nend 0 quiet\n" }
    ensures pushed { written 6 (5 ∷ []) (image (0x2007 ∷ 0xB401 ∷ 0x2001 ∷ 0x9800 ∷ 0xDF0C ∷ 0xDF00 ∷ []))
        ≡ codes "0 serial 37\nend 0 quiet\n" }
    ensures lost { written 7 (5 ∷ []) (image (0x2007 ∷ 0x4669 ∷ 0x3904 ∷ 0x6008 ∷ 0x6808 ∷ 0xDF0C ∷ 0xDF00 ∷ []))
        ≡ codes "0 serial 35\nend 0 quiet\n" }
{}

/// The services: the end, a number written as signed, a panic's code taken modulo 256, -7 / 2 and -7 % 2; and a budget that ends
/// in front of the last of them.
pub fn rows_of_services()
    ensures ends { written 5 [] (image (0xDF00 ∷ [])) ≡ codes "end 0 quiet\n" }
    ensures negative { written 5 [] (image (0x43C0 ∷ 0xDF0C ∷ 0xDF00 ∷ [])) ≡ codes "0 serial 2d31\nend 0 quiet\n" }
    ensures panics { written 5 [] (image (0x43C0 ∷ 0xDF01 ∷ [])) ≡ codes "panic 0 255\n" }
    ensures divides { written 6 [] (image (0x2006 ∷ 0x43C0 ∷ 0x2102 ∷ 0xDF14 ∷ 0xDF0C ∷ 0xDF00 ∷ []))
        ≡ codes "0 serial 2d33\nend 0 quiet\n" }
    ensures leaves { written 6 [] (image (0x2006 ∷ 0x43C0 ∷ 0x2102 ∷ 0xDF15 ∷ 0xDF0C ∷ 0xDF00 ∷ []))
        ≡ codes "0 serial 2d31\nend 0 quiet\n" }
    ensures budget { written 5 [] (image (0x2006 ∷ 0x43C0 ∷ 0x2102 ∷ 0xDF15 ∷ 0xDF0C ∷ 0xDF00 ∷ []))
        ≡ codes "0 serial 2d31\nbudget 0\n" }
{}

/// Quotients are truncated toward zero, a remainder has the dividend's sign, and a zero divisor gives 0.
pub fn rows_of_division()
    ensures truncated { quotient (negsuc 6) (pos 2) ≡ negsuc 2 }
    ensures least { quotient (negsuc 2147483647) (negsuc 0) ≡ negsuc 2147483647 }
    ensures by_zero { quotient (pos 7) (pos 0) ≡ pos 0 }
    ensures sign { remainder (negsuc 6) (pos 2) ≡ negsuc 0 }
    ensures sign_of_divisor { remainder (pos 7) (negsuc 1) ≡ pos 1 }
    ensures least_left { remainder (negsuc 2147483647) (negsuc 0) ≡ pos 0 }
    ensures left_by_zero { remainder (negsuc 6) (pos 0) ≡ pos 0 }
{}
