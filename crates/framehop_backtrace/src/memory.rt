//! The memory of a process with its code.
ghost use Rattle.std.specs.Prelude.{◌≡◌, option_map};
ghost use Rattle.framehop_code.specs.X86_64.Action.{action_at};
ghost use Rattle.framehop_core.specs.CodeAddress.{location_of};
ghost use Rattle.framehop_backtrace.specs.Code.{Code, is_in_trampoline, is_in_code, is_outside_code, is_unread};

use framehop_callers::memory::WordMemory;
use framehop_code::action::Instruction;
use framehop_core::FrameAddress;

/// A memory of which it is known what is code.
pub trait CodeMemory: WordMemory {
    ghost code: { Self → Code };

    /// Returns so many bytes from an address (AVMA) on, if they are known.
    fn bytes_at(&self, address: u64, size: u64) -> Option<&[u8]>
        ensures { option_map (λ found. found.now) result ≡ (code self.now).bytes address size };

    /// Returns the code from an address (AVMA) on: as many bytes as an instruction has at most, or as there are.
    fn code_at(&self, address: u64) -> &[u8]
        ensures { result.now ≡ (code self.now).instruction address };

    /// Returns the word of eight bytes at an address (AVMA), if a file that is mapped there has it in data that no process
    /// changes.
    fn constant_at(&self, address: u64) -> Option<u64>
        ensures { result ≡ (code self.now).constant address };

    /// Returns the instruction of x86_64 at the front of bytes, as [`action_at`] does. What was read before may be kept.
    ///
    /// [`action_at`]: framehop_code::x86_64::action::action_at
    fn instruction_of(&self, bytes: &[u8]) -> Option<Instruction>
        ensures { result ≡ action_at bytes.now 0 };

    /// Returns whether an address (AVMA) lies in executable memory.
    fn is_executable(&self, address: u64) -> bool
        ensures { result ≡ (code self.now).is_executable address };

    /// Returns whether a trampoline, to which the handlers of signals return, begins at an address (AVMA).
    fn is_trampoline(&self, address: u64) -> bool
        ensures { result ≡ (code self.now).is_trampoline address };

    /// Returns where the function begins (AVMA) that has an address, if a symbol or an FDE tells that.
    fn function_start(&self, address: u64) -> Option<u64>
        ensures { result ≡ (code self.now).start_of address };

    /// Returns whether a process begins a few instructions before an address (AVMA), in the first code of a program or of the
    /// loader of programs.
    fn is_at_entry(&self, address: u64) -> bool
        ensures { result ≡ (code self.now).is_entry address };
}

/// Returns whether a frame is in a trampoline: a handler returns to the first of its two instructions, and an instruction
/// pointer can also be after either of them.
pub fn is_in_trampoline<M: CodeMemory>(memory: &M, frame: FrameAddress) -> bool
    ensures { result ≡ is_in_trampoline (M.code memory.now) (location_of frame) }
{
    match frame {
        FrameAddress::ReturnAddress(address) => memory.is_trampoline(address.get()),
        FrameAddress::InstructionPointer(address) => {
            memory.is_trampoline(address)
                || memory.is_trampoline(address.saturating_sub(4))
                || memory.is_trampoline(address.saturating_sub(7))
                || memory.is_trampoline(address.saturating_sub(8))
                || memory.is_trampoline(address.saturating_sub(9))
        }
    }
}

/// Returns whether a frame's instruction pointer lies in no executable memory: a call has just led there.
pub(crate) fn is_outside_code<M: CodeMemory>(memory: &M, frame: FrameAddress) -> bool
    ensures { result ≡ is_outside_code (M.code memory.now) (location_of frame) }
{
    match frame {
        FrameAddress::InstructionPointer(address) => !memory.is_executable(address),
        FrameAddress::ReturnAddress(_) => false,
    }
}

/// Returns whether a return address (AVMA) is in executable memory: the call before it, or it itself as the start of a
/// trampoline.
pub(crate) fn is_in_code<M: CodeMemory>(memory: &M, address: u64) -> bool
    ensures { result ≡ is_in_code (M.code memory.now) address }
{
    memory.is_executable(address.saturating_sub(1)) || memory.is_executable(address)
}

/// Returns whether nobody has the code right before an address (AVMA): it is executable, and its bytes are not known.
pub(crate) fn is_unread<M: CodeMemory>(memory: &M, address: u64) -> bool
    ensures { result ≡ is_unread (M.code memory.now) address }
{
    let last = address.saturating_sub(1);
    memory.is_executable(last) && memory.bytes_at(last, 1).is_none()
}
