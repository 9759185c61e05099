// Texts in flash.
ghost use Rattle.std.specs.Prelude.{◌≡◌, ◌+◌, ◌%◌, ◌<◌, ◌≤◌, ℕ, All, IfSome, true};
ghost use Rattle.std.specs.Int.{cast_unsigned, w32};
ghost use Rattle.std.specs.Option.{SomeIff};
ghost use Rattle.thumb_code.specs.Map.{flash_end, flash_byte, flash_word};
ghost use Rattle.bank_model.specs.Texts.{is_text, text_at, glyph_at};
ghost use Rattle.board_services.specs.declared.numbers.TheConstants.{WRITE_TEXT, TEXT_GLYPH};
ghost use Rattle.bank_model.specs.AllServices.{service};
ghost use Rattle.board_run.specs.Serving.{IsServed, Keeps};

use crate::arguments::{answer, word};
use crate::end::Stop;
use crate::engine::{Engine, Served};
use armv6m_machine::Fault;
use board_drivers::glyph;
use board_outside::Output;
use board_world::NULL_PANIC;
use fiber_runtime::Runtime;

/// Flash ends before this address.
const FLASH_END: u32 = 0x0004_0000;

/// The most bytes of a text.
const TEXT_LIMIT: u32 = 16384;

/// The word of flash at an address.
fn flash_word(runtime: &mut Runtime, at: u32) -> u32
    requires aligned { at % 4 ≡ 0 }
    requires within { at < flash_end }
    ensures word { result ≡ flash_word runtime.old.machine.memory.flash at }
    ensures same { runtime.new ≡ runtime.old }
{
    match runtime.machine().word(at) {
        Some(word) => word,
        None => unreachable!(),
    }
}

/// The byte of flash at an address.
pub fn flash_byte(runtime: &mut Runtime, at: u32) -> u8
    requires within { at < flash_end }
    requires bytes { All (λ b. b < 256) runtime.old.machine.memory.flash }
    ensures byte { result ≡ flash_byte runtime.old.machine.memory.flash at }
    ensures same { runtime.new ≡ runtime.old }
{
    let word = flash_word(runtime, at / 4 * 4);
    match at % 4 {
        0 => (word % 256) as u8,
        1 => (word / 256 % 256) as u8,
        2 => (word / 65536 % 256) as u8,
        _ => (word / 16777216) as u8,
    }
}

/// The length of the text at an address. None where no text stands there.
pub fn text_length(runtime: &mut Runtime, at: u32) -> Option<u32>
    ensures within { IfSome result (λ length. at + 4 + length ≤ flash_end) }
    ensures length { SomeIff result (is_text runtime.old.machine.memory.flash at ≡ true)
        (flash_word runtime.old.machine.memory.flash at) }
    ensures same { runtime.new ≡ runtime.old }
{
    if at % 4 != 0 {
        return None;
    }
    if at >= FLASH_END {
        return None;
    }
    let length = flash_word(runtime, at);
    if length > TEXT_LIMIT {
        return None;
    }
    if at + 4 + length > FLASH_END {
        return None;
    }
    Some(length)
}

/// The glyph of a byte of the text at an address, which has this length, as a word; all ones where the place isn't below the length.
fn glyph_of_text(runtime: &mut Runtime, at: u32, length: u32, place: u32) -> u32
    requires within { at + 4 + length ≤ flash_end }
    requires length { length ≡ flash_word runtime.old.machine.memory.flash at }
    requires bytes { All (λ b. b < 256) runtime.old.machine.memory.flash }
    ensures glyph { result ≡ cast_unsigned w32 (glyph_at (text_at runtime.old.machine.memory.flash at) place) }
    ensures same { runtime.new ≡ runtime.old }
{
    if place >= length {
        return u32::MAX;
    }
    glyph(flash_byte(runtime, at + 4 + place))
}

impl Engine {
    /// Service 13: a text to the serial port.
    pub fn write_text(&mut self, at: u32) -> Served
        ensures served { IsServed (λ image. service image at WRITE_TEXT) result self.old self.new }
        ensures keeps { Keeps self.old self.new }
    {
        let address = word(&self.runtime, 0);
        if address == 0 {
            return Served::Stops(Stop::Panic(NULL_PANIC));
        }
        match text_length(&mut self.runtime, address) {
            None => Served::Stops(Stop::Fault(Fault::BadService, at)),
            Some(length) => if length == 0 {
                Served::Goes(Output::Nothing)
            } else {
                Served::Goes(Output::Text(address))
            },
        }
    }

    /// Service 16: a glyph of a text.
    pub fn text_glyph(&mut self, at: u32) -> Served
        requires { All (λ b. b < 256) self.old.runtime.machine.memory.flash }
        ensures served { IsServed (λ image. service image at TEXT_GLYPH) result self.old self.new }
        ensures keeps { Keeps self.old self.new }
    {
        let address = word(&self.runtime, 0);
        let place = word(&self.runtime, 1);
        if address == 0 {
            return Served::Stops(Stop::Panic(NULL_PANIC));
        }
        match text_length(&mut self.runtime, address) {
            None => Served::Stops(Stop::Fault(Fault::BadService, at)),
            Some(length) => {
                let glyph = glyph_of_text(&mut self.runtime, address, length, place);
                answer(&mut self.runtime, glyph);
                Served::Goes(Output::Nothing)
            }
        }
    }
}
