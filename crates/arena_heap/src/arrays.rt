//! Arrays in the machine's arena.
ghost use Rattle.std.specs.Prelude.{◌≡◌, ◌+◌, ◌*◌, ◌<◌, ◌≤◌, ◌↔◌, IsSome, IfSome, IsTrue};
ghost use Rattle.thumb_code.specs.Map.{stack_at};
ghost use Rattle.board_world.specs.Limits.{arena_limit};
ghost use Rattle.bank_model.specs.Arrays.{are_used as in_use, is_array, grown_room as grown, put_words, words_from, stored, moved, behind_words};
ghost use Rattle.arena_heap.specs.Pushing.{with_arena, IsArenaWord};
ghost use Rattle.arena_heap.specs.Headers.{IsHeader, FitsArena};

use crate::words::{arena_word, put_arena_word};
use armv6m_machine::Machine;

/// What stands in an array's header behind the first word, which is the compiler's.
#[derive(Clone, Copy, Drop)]
pub struct Header {
    /// How many items there are.
    pub length: u32,
    /// For how many there is room.
    pub room: u32,
    /// The address of the first.
    pub items: u32,
}

/// Whether so many words from an address on are used, and the address is a multiple of 4.
fn are_used(used: u32, at: u32, words: u32) -> bool
    requires { used ≤ arena_limit }
    ensures { result ≡ in_use used at words }
{
    let end = u64::from(at) + 4 * u64::from(words);
    at % 4 == 0 && at >= 0x2000_0400 && end <= 0x2000_0400 + 4 * u64::from(used)
}

/// The header of the array at an address. None exactly where no array stands there.
pub fn header_at(machine: &Machine, used: u32, array: u32) -> Option<Header>
    requires { used ≤ arena_limit }
    ensures there { IsSome result ↔ IsTrue (is_array machine.now.memory.arena used array) }
    ensures read { IfSome result
        (λ h. IsHeader machine.now.memory.arena array h × FitsArena (behind_words used) array h) }
{
    if !are_used(used, array, 4) {
        return None;
    }
    let header = Header {
        length: arena_word(machine, array + 4),
        room: arena_word(machine, array + 8),
        items: arena_word(machine, array + 12),
    };
    if header.length > header.room {
        return None;
    }
    if header.room == 0 || are_used(used, header.items, header.room) {
        Some(header)
    } else {
        None
    }
}

/// Twice the room, and 4 at least.
pub fn grown_room(room: u32) -> u32
    requires { room ≤ arena_limit }
    ensures { result ≡ grown room }
{
    (2 * room).max(4)
}

/// Puts an item behind the others, where there is room, and then writes the length.
pub fn store(machine: &mut Machine, array: u32, header: Header, item: u32)
    requires header { IsHeader machine.old.memory.arena array header }
    requires fits { FitsArena stack_at array header }
    requires room { header.length < header.room }
    ensures { machine.new ≡ with_arena machine.old (stored machine.old.memory.arena array item) }
{
    put_arena_word(machine, header.items + 4 * header.length, item);
    put_arena_word(machine, array + 4, header.length + 1);
}

/// Copies so many words, in order, from one address to another behind them.
fn copy(machine: &mut Machine, from: u32, to: u32, count: u32)
    requires from { 0 < count → IsArenaWord from }
    requires behind { 0 < count → from + 4 * count ≤ to }
    requires to { IsArenaWord to }
    requires room { to + 4 * count ≤ stack_at }
    ensures { machine.new ≡ with_arena machine.old
        (put_words machine.old.memory.arena to (words_from machine.old.memory.arena count from)) }
{
    for k in 0..count {
        let word = arena_word(machine, from + 4 * k);
        put_arena_word(machine, to + 4 * k, word);
    }
}

/// Moves a full array to more room at an address behind all that is used, puts an item behind the others there, and then writes
/// the header.
pub fn move_array(machine: &mut Machine, array: u32, header: Header, item: u32, to: u32)
    requires header { IsHeader machine.old.memory.arena array header }
    requires fits { FitsArena to array header }
    requires full { header.length ≡ header.room }
    requires to { IsArenaWord to }
    requires room { to + 4 * grown header.room ≤ stack_at }
    ensures { machine.new ≡ with_arena machine.old (moved machine.old.memory.arena array item to) }
{
    let length = header.length;
    copy(machine, header.items, to, length);
    put_arena_word(machine, to + 4 * length, item);
    put_arena_word(machine, array + 4, length + 1);
    put_arena_word(machine, array + 8, grown_room(header.room));
    put_arena_word(machine, array + 12, to);
}
