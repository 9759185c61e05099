//! A memory that instructions are executed over.
ghost use Rattle.std.specs.Prelude.{◌≡◌, ◌<◌, ◌^◌, None, true, false, Bool, ℕ};
ghost use Rattle.thumb_code.specs.Forms.{Access};
ghost use Rattle.thumb_code.specs.Memory.{Memory as MemoryOf};
ghost use Rattle.armv6m_machine.specs.Answers.{IsCheck, IsSize};
ghost use Rattle.armv6m_machine.specs.Contents.{byte_at, number_from, StoresAlone};

use crate::faults::Fault;

/// A memory answers reads and takes stores of one, two or four bytes, and says which accesses and which SP are faults.
pub trait Memory {
    /// The memory as the definitions see it.
    ghost memory: { MemoryOf Self };

    /// The fault of an access. None exactly where there is none.
    fn check(&self, address: u32, bytes: u8, store: bool) -> Option<Fault>
        requires { IsSize bytes }
        ensures { IsCheck result (memory.fault self.now store (record { at = address; bytes = bytes })) };

    /// What stands at an address, with zeros above.
    fn load(&mut self, address: u32, bytes: u8) -> u32
        requires size { IsSize bytes }
        requires free { memory.fault self.old false (record { at = address; bytes = bytes }) ≡ None }
        ensures value { result ≡ (memory.load self.old (record { at = address; bytes = bytes })).0 }
        ensures zeros_above { result < 256 ^ bytes }
        ensures after { self.new ≡ (memory.load self.old (record { at = address; bytes = bytes })).1 }

        // The value is the bytes there, low byte first, and no byte changes.
        ensures content { result ≡ number_from (byte_at memory self.old) address bytes }
        ensures kept { (x : ℕ) → byte_at memory self.new x ≡ byte_at memory self.old x };

    /// Sets the bytes at an address to the low bytes of the word.
    fn store(&mut self, address: u32, bytes: u8, word: u32)
        requires size { IsSize bytes }
        requires free { memory.fault self.old true (record { at = address; bytes = bytes }) ≡ None }
        ensures after { self.new ≡ memory.store self.old (record { at = address; bytes = bytes }) word }
        ensures content { StoresAlone memory self.old self.new (record { at = address; bytes = bytes }) word };

    /// Whether SP may be there.
    fn stack_in_range(&self, sp: u32) -> bool
        ensures { result ≡ memory.has_sp self.now sp };

    // Neither a load nor a store changes which accesses are faults.
    ghost load_keeps: { (m : Self) (a b : Access) (s : Bool)
        → memory.fault (memory.load m a).1 s b ≡ memory.fault m s b };

    ghost store_keeps: { (m : Self) (a b : Access) (v : ℕ) (s : Bool)
        → memory.fault (memory.store m a v) s b ≡ memory.fault m s b };

    // Nor which SP is in range.
    ghost load_keeps_sp: { (m : Self) (a : Access) (sp : ℕ)
        → memory.has_sp (memory.load m a).1 sp ≡ memory.has_sp m sp };

    ghost store_keeps_sp: { (m : Self) (a : Access) (v sp : ℕ)
        → memory.has_sp (memory.store m a v) sp ≡ memory.has_sp m sp };
}
