//! The flag V of a sum, in the manual's words: AddWithCarry adds the words as numbers without and with signs (ARM DDI 0419, A2.2.1).
ghost use Rattle.std.specs.Prelude.{◌≡◌, ◌≢◌, ℕ, ◌^◌, ◌<◌, true, false, pos, ◌+ℤ◌};
ghost use Rattle.std.specs.Int.{cast_signed, w32};
ghost use Rattle.thumb_code.specs.Arithmetic.{sum_of, overflows};

/// V is clear exactly where the result, as a number with a sign, is the sum of the two words as such and the carry.
pub fn sums_overflow_where_signed_ones_do()
    ensures clear { (x y c : ℕ) → x < 2 ^ 32 → y < 2 ^ 32 → c < 2 → overflows x y (sum_of x y c) ≡ false
        → cast_signed w32 (sum_of x y c) ≡ cast_signed w32 x +ℤ cast_signed w32 y +ℤ pos c }
    ensures set { (x y c : ℕ) → x < 2 ^ 32 → y < 2 ^ 32 → c < 2 → overflows x y (sum_of x y c) ≡ true
        → cast_signed w32 (sum_of x y c) ≢ cast_signed w32 x +ℤ cast_signed w32 y +ℤ pos c }
{}
