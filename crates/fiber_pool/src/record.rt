// One record.
ghost use Rattle.std.specs.Prelude.{◌≡◌, ◌<◌, ◌≤◌, pos, None, [], length, slice_set};
ghost use Rattle.fiber_pool.specs.Kept.{record_limit, sized};

use std::marker::Model;
use thumb_code::Registers;

/// The most words that a record keeps: those of the whole stack region.
const RECORD_WORDS: usize = 1024;

/// What is kept of a fiber that isn't running, with room for all words that it can have.
#[derive(Drop)]
pub struct Record {
    registers: Registers,
    base: u32,
    value: i32,
    listener: Option<u32>,
    len: usize,
    words: [u32; RECORD_WORDS],
}

impl Model for Record {
    ghost use Rattle.std.specs.Prelude.{◌≤◌, take};
    ghost use Rattle.fiber_pool.specs.Kept.{Kept, record_limit};

    ghost Value = { Kept };

    ghost view = { λ r. record { registers = r.registers; base = r.base; value = r.value; listener = r.listener; words = take r.len r.words } };

    ghost invariant = { λ r. r.len ≤ record_limit };
}

impl Record {
    /// No words, no event and no listener.
    pub fn empty(registers: Registers) -> Record
        ensures { result ≡ record { registers = registers; base = 0; value = pos 0; listener = None; words = [] } }
    {
        Record {
            registers,
            base: 0,
            value: 0,
            listener: None,
            len: 0,
            words: [0; RECORD_WORDS],
        }
    }

    /// Keeps these registers, this base and these words instead.
    pub fn keep(&mut self, registers: Registers, base: u32, words: &[u32])
        requires { length words.now ≤ record_limit }
        ensures { self.new ≡ record self.old { registers = registers; base = base; words = words.now } }
    {
        self.keep_rest(registers, base);
        self.len = words.len();
        self.words[..words.len()].copy_from_slice(words);
    }

    /// Sets the number of words: those that there are stay, and new ones are 0.
    pub fn size(&mut self, words: usize)
        requires { words ≤ record_limit }
        ensures { self.new ≡ record self.old { words = sized words self.old.words } }
    {
        if self.len < words {
            self.words[self.len..words].fill(0);
        }
        self.len = words;
    }

    /// Changes one word.
    #[tactic(auto, using(crate::proofs::Words::set_below, crate::proofs::Words::none_above))]
    pub fn set_word(&mut self, at: usize, word: u32)
        requires { at < length self.old.words }
        ensures { self.new ≡ record self.old { words = slice_set self.old.words at word } }
    {
        let count = self.len;
        if at < count {
            self.words[at] = word;
        }
    }

    /// Keeps these registers and this base instead.
    pub fn keep_rest(&mut self, registers: Registers, base: u32)
        ensures { self.new ≡ record self.old { registers = registers; base = base } }
    {
        self.registers = registers;
        self.base = base;
    }

    /// Keeps this event value instead.
    pub fn set_value(&mut self, value: i32)
        ensures { self.new ≡ record self.old { value = value } }
    {
        self.value = value;
    }

    /// Keeps this listener instead.
    pub fn set_listener(&mut self, listener: Option<u32>)
        ensures { self.new ≡ record self.old { listener = listener } }
    {
        self.listener = listener;
    }

    /// The words.
    pub fn words(&self) -> &[u32]
        ensures words { result.now ≡ self.now.words }
        ensures most { length result.now ≤ record_limit }
    {
        &self.words[..self.len]
    }

    /// The registers and the base.
    pub fn kept(&self) -> (Registers, u32)
        ensures { result ≡ (self.now.registers, self.now.base) }
    {
        (self.registers, self.base)
    }

    /// The event value.
    pub fn value(&self) -> i32
        ensures { result ≡ self.now.value }
    {
        self.value
    }

    /// The listener.
    pub fn listener(&self) -> Option<u32>
        ensures { result ≡ self.now.listener }
    {
        self.listener
    }
}
