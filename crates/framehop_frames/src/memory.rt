//! The memory of a process with the code of the files that it maps.
ghost use Rattle.std.specs.Prelude.{◌≡◌, ℕ, List, Bool, Option, option_map};
ghost use Rattle.framehop_processes.specs.Place.{place_view};
ghost use Rattle.framehop_frames.specs.Code.{bytes_from, bytes_at, start_in};

use framehop::walk::{StackBytes, Words};
use framehop_backtrace::CodeMemory;
use framehop_backtrace::signal::is_trampoline;
use framehop_bytes::bytes::{back, front};
use framehop_callers::memory::WordMemory;
use framehop_code::action::Instruction;
use framehop_processes::code::{code_at, is_at_entry, is_mapped};
use framehop_processes::constants::constant_at;
use framehop_processes::files::Files;
use framehop_processes::place::{Place, place_of};
use framehop_processes::{Process, ProcessUnwinder};

/// How many bytes an instruction has at most.
const MOST_BYTES: usize = 15;

/// Memory of a process as an input has it: the stack of a sample, or what a dump has.
pub trait KnownMemory: Words {
    // the bytes from an address on, as far as a range has them
    ghost bytes_from: { Self → ℕ → Option (List ℕ) };

    // whether an address is in memory that is known to be executable
    ghost is_code: { Self → ℕ → Bool };

    /// Returns the bytes from an address (AVMA) on, as far as the range has them that has the address.
    fn bytes_from(&self, address: u64) -> Option<&[u8]>
        ensures { option_map (λ bytes. bytes.now) result ≡ bytes_from self.entry.now address };

    /// Returns whether an address (AVMA) is in memory that is known to be executable, whether or not a file is mapped
    /// there.
    fn is_code(&self, address: u64) -> bool
        ensures { result ≡ is_code self.now address };
}

/// The memory of a process as an input has it, and the code of the files that the process maps.
#[derive(Clone, Copy, Drop)]
pub struct MappedMemory<'a, 'm, K: KnownMemory, U: ProcessUnwinder> {
    pub known: &'a K,
    pub files: &'a Files<'m>,
    pub process: &'a Process<U>,
}

impl<K: KnownMemory, U: ProcessUnwinder> MappedMemory<'_, '_, K, U> {
    /// Returns the bytes from an address (AVMA) on: as the input has them, or else the code of a mapped file.
    fn bytes_from(&self, address: u64) -> Option<&[u8]>
        ensures { option_map (λ bytes. bytes.now) result
            ≡ bytes_from (K.bytes_from self.entry.now.known.now) self.entry.now.files.now self.entry.now.process.now.mappings address }
    {
        match self.known.bytes_from(address) {
            Some(bytes) => Some(bytes),
            None => code_at(self.files, self.process.mappings(), address),
        }
    }
}

impl<K: KnownMemory, U: ProcessUnwinder> WordMemory for MappedMemory<'_, '_, K, U> {
    ghost memory = { λ mapped. K.memory mapped.known.now };

    fn word(&self, address: u64) -> Option<u64> {
        self.known.read(address).ok()
    }
}

impl<K: KnownMemory, U: ProcessUnwinder> CodeMemory for MappedMemory<'_, '_, K, U> {
    ghost use Rattle.framehop_frames.specs.Code.{code_of};

    ghost code = { λ mapped. code_of (K.bytes_from mapped.known.now) (K.is_code mapped.known.now) mapped.files.now mapped.process.now.mappings };

    fn bytes_at(&self, address: u64, size: u64) -> Option<&[u8]> {
        let bytes = self.bytes_from(address)?;
        bytes.get(..size as usize)
    }

    fn code_at(&self, address: u64) -> &[u8] {
        match self.known.bytes_from(address) {
            Some(bytes) if self.is_executable(address) => front(bytes, MOST_BYTES),
            _ => match code_at(self.files, self.process.mappings(), address) {
                Some(code) => front(code, MOST_BYTES),
                None => &[],
            },
        }
    }

    fn constant_at(&self, address: u64) -> Option<u64> {
        constant_at(self.files, self.process.mappings(), address)
    }

    fn is_executable(&self, address: u64) -> bool {
        is_mapped(self.process.mappings(), address) || self.known.is_code(address)
    }

    fn is_trampoline(&self, address: u64) -> bool {
        match self.bytes_from(address) {
            Some(code) => is_trampoline(code),
            None => false,
        }
    }

    fn function_start(&self, address: u64) -> Option<u64> {
        start_in(
            address,
            place_of(self.files, self.process.mappings(), address),
        )
    }

    fn is_at_entry(&self, address: u64) -> bool {
        is_at_entry(self.files, self.process.mappings(), address)
    }

    fn instruction_of(&self, bytes: &[u8]) -> Option<Instruction> {
        self.files.instructions().action_at(bytes)
    }
}

/// Returns where the function begins (AVMA) that has an address at a place, if a symbol or an FDE tells that.
fn start_in(address: u64, place: Place<'_>) -> Option<u64>
    ensures { result ≡ start_in address (place_view place.entry) }
{
    match place {
        Place::Function { offset, .. } => Some(address.saturating_sub(offset)),
        Place::Unnamed {
            start,
            address: svma,
            ..
        } => Some(address.saturating_sub(svma.saturating_sub(start))),
        Place::File { .. } | Place::Unmapped => None,
    }
}

impl KnownMemory for StackBytes<'_> {
    ghost use Rattle.std.specs.Prelude.{false};
    ghost use Rattle.framehop_frames.specs.Code.{bytes_after};

    ghost bytes_from = { λ stack. bytes_after stack.base stack.bytes.now };

    ghost is_code = { λ stack address. false };

    fn bytes_from(&self, address: u64) -> Option<&[u8]> {
        let offset = address.checked_sub(self.base)?;
        if offset < self.bytes.len() as u64 {
            return Some(back(self.bytes, offset));
        }
        None
    }

    fn is_code(&self, _address: u64) -> bool {
        false
    }
}
