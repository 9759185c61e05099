// The records, by key.
ghost use Rattle.std.specs.Prelude.{◌≡◌, ℕ, ◌+◌, ◌<◌, ◌≤◌, ◌↔◌, length, Some, None, IsSome, OnSome, IfOk, IfSome, IfNone, slice_index, slice_set};
ghost use Rattle.board_world.specs.Limits.{seat_limit};
ghost use Rattle.slab.specs.Slab.{get, slab_len, Updates, ContainsKey};
ghost use Rattle.fiber_pool.specs.Kept.{Kept, record_limit, unused, kept_at, sized, with_words, with_kept};

use crate::record::Record;
use board_world::SEAT_LIMIT;
use slab::Slab;
use std::alloc::Global;
use std::marker::Model;
use sts_base::NoMemory;
use thumb_code::Registers;

/// The registers in a record that was just claimed.
const NO_REGISTERS: Registers = Registers {
    r: [0; 13],
    sp: 0,
    lr: 0,
    pc: 0,
    flags: 0,
};

/// Up to 24 records, by key. All memory is taken by `new`.
#[derive(Drop)]
pub struct Pool {
    slab: Slab<Record>,
}

impl Model for Pool {
    ghost use Rattle.std.specs.Prelude.{◌≤◌};
    ghost use Rattle.board_world.specs.Limits.{seat_limit};
    ghost use Rattle.slab.specs.Slab.{Slab, slab_len};
    ghost use Rattle.fiber_pool.specs.Kept.{Kept};

    ghost Value = { Slab Kept };

    ghost view = { λ p. p.slab };

    ghost invariant = { λ p. (seat_limit ≤ p.slab.capacity) × (slab_len p.slab ≤ seat_limit) };
}

impl Pool {
    /// No live record, and the memory for 24 of 1024 words.
    pub fn new(alloc: Global) -> Result<Pool, NoMemory>
        ensures empty { IfOk result (λ pool. (key : ℕ) → get pool key ≡ None) }
        ensures live { IfOk result (λ pool. slab_len pool ≡ 0) }
    {
        match Slab::with_capacity(alloc, SEAT_LIMIT) {
            Ok(slab) => Ok(Pool { slab }),
            Err(_) => Err(NoMemory),
        }
    }

    /// How many records are live.
    pub fn live(&self) -> usize
        ensures live { result ≡ slab_len self.now }
        ensures most { result ≤ seat_limit }
    {
        self.slab.len()
    }

    /// A free key becomes live, with no words, the event value 0 and no listener. None exactly where 24 are live; then
    /// nothing changes.
    pub fn claim(&mut self) -> Option<usize>
        ensures room { IsSome result ↔ (slab_len self.old < seat_limit) }
        ensures full { IfNone result (self.new ≡ self.old) }
        ensures free { IfSome result (λ key. get self.old key ≡ None) }
        ensures claimed { IfSome result (λ key. Updates self.old self.new key (Some unused)) }
        ensures live { OnSome result (slab_len self.new ≡ slab_len self.old + 1) }
    {
        if self.slab.len() >= SEAT_LIMIT {
            return None;
        }
        Some(self.slab.insert_reserved(Record::empty(NO_REGISTERS)))
    }

    /// Keeps a fiber's registers, base and words. Its event value and listener stay.
    pub fn save(&mut self, key: usize, registers: Registers, base: u32, words: &[u32])
        requires live { ContainsKey self.old key }
        requires most { length words.now ≤ record_limit }
        ensures saved { (k : Kept) → get self.old key ≡ Some k → Updates self.old self.new key
            (Some (record k { registers = registers; base = base; words = words.now })) }
        ensures live { slab_len self.new ≡ slab_len self.old }
    {
        match self.slab.get_mut(key) {
            Some(record) => record.keep(registers, base, words),
            None => unreachable!(),
        }
    }

    /// Copies the words out.
    pub fn restore(&self, key: usize, into: &mut [u32])
        requires live { ContainsKey self.now key }
        requires size { IfSome (get self.now key) (λ k. length k.words ≡ length into.old) }
        ensures { IfSome (get self.now key) (λ k. into.new ≡ k.words) }
    {
        match self.slab.get(key) {
            Some(record) => into.copy_from_slice(record.words()),
            None => unreachable!(),
        }
    }

    /// The registers and the base that are kept.
    pub fn kept(&self, key: usize) -> (Registers, u32)
        requires { ContainsKey self.now key }
        ensures { IfSome (get self.now key) (λ k. result ≡ (k.registers, k.base)) }
    {
        match self.slab.get(key) {
            Some(record) => record.kept(),
            None => unreachable!(),
        }
    }

    /// How many words are kept, 0 at a key that isn't live.
    pub fn words(&self, key: usize) -> usize
        ensures length { IfSome (get self.now key) (λ k. result ≡ length k.words) }
        ensures count { result ≡ length (kept_at self.now key).words }
        ensures most { result ≤ record_limit }
    {
        match self.slab.get(key) {
            Some(record) => record.words().len(),
            None => 0,
        }
    }

    /// Sets the number of words: those that there are stay, and new ones are 0.
    pub fn size(&mut self, key: usize, words: usize)
        requires live { ContainsKey self.old key }
        requires most { words ≤ record_limit }
        ensures { self.new ≡ with_words self.old key (sized words (kept_at self.old key).words) }
    {
        match self.slab.get_mut(key) {
            Some(record) => record.size(words),
            None => unreachable!(),
        }
    }

    /// One of the words.
    pub fn word(&self, key: usize, at: usize) -> u32
        requires live { ContainsKey self.now key }
        requires there { at < length (kept_at self.now key).words }
        ensures { result ≡ slice_index (kept_at self.now key).words at }
    {
        match self.slab.get(key) {
            Some(record) => record.words()[at],
            None => unreachable!(),
        }
    }

    /// Changes one of the words.
    pub fn set_word(&mut self, key: usize, at: usize, word: u32)
        requires live { ContainsKey self.old key }
        requires there { at < length (kept_at self.old key).words }
        ensures { self.new ≡ with_words self.old key (slice_set (kept_at self.old key).words at word) }
    {
        match self.slab.get_mut(key) {
            Some(record) => record.set_word(at, word),
            None => unreachable!(),
        }
    }

    /// Keeps a fiber's registers and base. All else stays.
    pub fn keep(&mut self, key: usize, registers: Registers, base: u32)
        requires { ContainsKey self.old key }
        ensures kept { self.new ≡ with_kept self.old key registers base }
        ensures updates { Updates self.old self.new key
            (Some (record (kept_at self.old key) { registers = registers; base = base })) }
        ensures live { slab_len self.new ≡ slab_len self.old }
    {
        match self.slab.get_mut(key) {
            Some(record) => record.keep_rest(registers, base),
            None => unreachable!(),
        }
    }

    /// The event value that is kept.
    pub fn value(&self, key: usize) -> i32
        requires { ContainsKey self.now key }
        ensures { IfSome (get self.now key) (λ k. result ≡ k.value) }
    {
        match self.slab.get(key) {
            Some(record) => record.value(),
            None => unreachable!(),
        }
    }

    /// Keeps an event value; all else stays.
    pub fn set_value(&mut self, key: usize, value: i32)
        requires { ContainsKey self.old key }
        ensures set { (k : Kept) → get self.old key ≡ Some k
            → Updates self.old self.new key (Some (record k { value = value })) }
        ensures live { slab_len self.new ≡ slab_len self.old }
    {
        match self.slab.get_mut(key) {
            Some(record) => record.set_value(value),
            None => unreachable!(),
        }
    }

    /// The number of the listener of whose handler this is the record, None where it is no handler's.
    pub fn listener(&self, key: usize) -> Option<u32>
        requires { ContainsKey self.now key }
        ensures { IfSome (get self.now key) (λ k. result ≡ k.listener) }
    {
        match self.slab.get(key) {
            Some(record) => record.listener(),
            None => unreachable!(),
        }
    }

    /// Keeps a listener's number, or that it is no handler's record; all else stays.
    pub fn set_listener(&mut self, key: usize, listener: Option<u32>)
        requires { ContainsKey self.old key }
        ensures set { (k : Kept) → get self.old key ≡ Some k
            → Updates self.old self.new key (Some (record k { listener = listener })) }
        ensures live { slab_len self.new ≡ slab_len self.old }
    {
        match self.slab.get_mut(key) {
            Some(record) => record.set_listener(listener),
            None => unreachable!(),
        }
    }

    /// A live key becomes free.
    pub fn release(&mut self, key: usize)
        requires { ContainsKey self.old key }
        ensures freed { Updates self.old self.new key None }
        ensures live { slab_len self.new + 1 ≡ slab_len self.old }
    {
        self.slab.remove(key);
    }
}
