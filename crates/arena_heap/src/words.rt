//! Words of the machine's arena, by their addresses.
ghost use Rattle.std.specs.Prelude.{◌≡◌};
ghost use Rattle.thumb_code.specs.Map.{word_in, arena_at};
ghost use Rattle.bank_model.specs.Arrays.{put_word};
ghost use Rattle.arena_heap.specs.Pushing.{with_arena, IsArenaWord};

use armv6m_machine::Machine;

/// The word at an address of the arena.
pub fn arena_word(machine: &Machine, at: u32) -> u32
    requires { IsArenaWord at }
    ensures { result ≡ word_in machine.now.memory.arena arena_at at }
{
    machine.word(at).unwrap_or(0)
}

/// Sets the word at an address of the arena.
pub fn put_arena_word(machine: &mut Machine, at: u32, word: u32)
    requires { IsArenaWord at }
    ensures { machine.new ≡ with_arena machine.old (put_word machine.old.memory.arena at word) }
{
    machine.set_word(at, word);
}
