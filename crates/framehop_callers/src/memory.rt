//! A memory that is read by words.
ghost use Rattle.std.specs.Prelude.{◌≡◌};
ghost use Rattle.framehop_core.specs.Memory.{Memory};

use framehop_memory::memory::ProcessMemory;

/// The memory of a process, as far as it is known. It doesn't change.
pub trait WordMemory {
    ghost memory: { Self → Memory };

    /// Returns the eight bytes from an address (AVMA) on as a little-endian number, whether the address is aligned or
    /// not, or `None` where they can't be read.
    fn word(&self, address: u64) -> Option<u64>
        ensures { result ≡ memory self.now address };
}

impl<'a> WordMemory for ProcessMemory<'a> {
    ghost use Rattle.framehop_memory.specs.Memory.{memory_view, word_of};

    ghost memory = { λ m. word_of (memory_view m) };

    fn word(&self, address: u64) -> Option<u64> {
        self.word_at(address)
    }
}
