// Services on numbers, and those of the arena.
ghost use Rattle.std.specs.Prelude.{◌≡◌, ◌<◌, ℕ, ℤ, All, length};
ghost use Rattle.board_services.specs.declared.numbers.TheConstants.{NUMBER_GLYPH, ALLOCATE, PUSH, DIVIDE, REMAINDER};
ghost use Rattle.bank_model.specs.AllServices.{service, quotient, remainder};
ghost use Rattle.bank_model.specs.Texts.{glyph_at};
ghost use Rattle.board_world.specs.Transcript.{decimal_text};
ghost use Rattle.board_run.specs.Serving.{IsServed, Keeps};

use crate::arguments::{answer, number, word};
use crate::end::Stop;
use crate::engine::{Engine, Served};
use arena_heap::Pushed;
use armv6m_machine::Fault;
use board_drivers::glyph;
use board_outside::Output;
use board_world::{ARENA_PANIC, NULL_PANIC};
use itoa::Buffer;

/// The quotient, truncated toward zero and through ToInt32; 0 where the divisor is 0.
fn quotient(dividend: i32, divisor: i32) -> i32
    ensures { result ≡ quotient dividend divisor }
{
    if divisor == 0 {
        0
    } else {
        dividend.wrapping_div(divisor)
    }
}

/// The remainder, with the dividend's sign; 0 where the divisor is 0.
fn remainder(dividend: i32, divisor: i32) -> i32
    ensures { result ≡ remainder dividend divisor }
{
    if divisor == 0 {
        0
    } else {
        dividend.wrapping_rem(divisor)
    }
}

/// The glyph of a byte of bytes, and -1 where the place isn't below the length.
fn glyph_in(bytes: &[u8], place: u32) -> i32
    ensures { result ≡ glyph_at bytes.now place }
{
    let place = place as usize;
    if place < bytes.len() {
        glyph(bytes[place]) as i32
    } else {
        -1
    }
}

/// The glyph of a byte of a number's decimal text, and -1 where the place isn't below the length.
fn glyph_of_number(number: i32, place: u32) -> i32
    ensures { result ≡ glyph_at (decimal_text number) place }
{
    let mut buffer = Buffer::new();
    glyph_in(buffer.format(number).as_bytes(), place)
}

impl Engine {
    /// Service 17: a glyph of a number's text.
    pub fn number_glyph(&mut self) -> Served
        ensures served { (at : ℕ) → IsServed (λ image. service image at NUMBER_GLYPH) result self.old self.new }
        ensures keeps { Keeps self.old self.new }
    {
        let glyph = glyph_of_number(number(&self.runtime, 0), word(&self.runtime, 1));
        answer(&mut self.runtime, glyph.cast_unsigned());
        Served::Goes(Output::Nothing)
    }

    /// Service 18: words of the arena.
    pub fn allocate(&mut self, at: u32) -> Served
        ensures served { IsServed (λ image. service image at ALLOCATE) result self.old self.new }
        ensures keeps { Keeps self.old self.new }
    {
        let words = word(&self.runtime, 0);
        if words == 0 {
            return Served::Stops(Stop::Fault(Fault::BadService, at));
        }
        match self.arena.take(words) {
            None => Served::Stops(Stop::Panic(ARENA_PANIC)),
            Some(address) => {
                answer(&mut self.runtime, address);
                Served::Goes(Output::Nothing)
            }
        }
    }

    /// Service 19: an item behind those of an array.
    pub fn push(&mut self, at: u32) -> Served
        ensures served { IsServed (λ image. service image at PUSH) result self.old self.new }
        ensures keeps { Keeps self.old self.new }
    {
        let array = word(&self.runtime, 0);
        let item = word(&self.runtime, 1);
        if array == 0 {
            return Served::Stops(Stop::Panic(NULL_PANIC));
        }
        match self.arena.push(self.runtime.machine(), array, item) {
            Pushed::Done => Served::Goes(Output::Nothing),
            Pushed::Full => Served::Stops(Stop::Panic(ARENA_PANIC)),
            Pushed::Bad => Served::Stops(Stop::Fault(Fault::BadService, at)),
        }
    }

    /// Service 20: a quotient.
    pub fn divide(&mut self) -> Served
        ensures served { (at : ℕ) → IsServed (λ image. service image at DIVIDE) result self.old self.new }
        ensures keeps { Keeps self.old self.new }
    {
        let result = quotient(number(&self.runtime, 0), number(&self.runtime, 1));
        answer(&mut self.runtime, result.cast_unsigned());
        Served::Goes(Output::Nothing)
    }

    /// Service 21: a remainder.
    pub fn take_remainder(&mut self) -> Served
        ensures served { (at : ℕ) → IsServed (λ image. service image at REMAINDER) result self.old self.new }
        ensures keeps { Keeps self.old self.new }
    {
        let result = remainder(number(&self.runtime, 0), number(&self.runtime, 1));
        answer(&mut self.runtime, result.cast_unsigned());
        Served::Goes(Output::Nothing)
    }
}
