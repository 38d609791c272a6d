//! The code address of a frame: an instruction pointer or a return address.
ghost use Rattle.std.specs.Prelude.{◌≡◌, MatchOption};
ghost use Rattle.framehop_core.specs.CodeAddress.{location_of, address_of, lookup_address, is_return_address, at_instruction_pointer, at_return_address};

use std::num::NonZeroU64;

/// Where a frame is in its code: at the instruction pointer (the "program counter") of the innermost
/// frame, or at the return address of any other.
///
/// Both are AVMAs: places in the memory of the running process, not in the file of a module.
#[derive(Clone, Copy, Debug, PartialEq, Eq)]
pub enum FrameAddress {
    /// The instruction pointer, with which unwinding starts.
    InstructionPointer(u64),

    /// A return address, which is the place right after the call instruction. Each unwound frame
    /// gives one.
    ReturnAddress(NonZeroU64),
}

impl FrameAddress {
    /// Returns the frame address of an instruction pointer (AVMA).
    pub fn from_instruction_pointer(ip: u64) -> Self
        ensures { location_of result ≡ at_instruction_pointer ip }
    {
        FrameAddress::InstructionPointer(ip)
    }

    /// Returns the frame address of a return address (AVMA), or `None` if that is 0.
    pub fn from_return_address(return_address: u64) -> Option<Self>
        ensures { MatchOption result (return_address ≡ 0)
            (λ frame. location_of frame ≡ at_return_address return_address) }
    {
        Some(FrameAddress::ReturnAddress(NonZeroU64::new(return_address)?))
    }

    /// Returns the raw address (AVMA).
    pub fn address(self) -> u64
        ensures { result ≡ address_of (location_of self) }
    {
        match self {
            FrameAddress::InstructionPointer(address) => address,
            FrameAddress::ReturnAddress(address) => address.get(),
        }
    }

    /// Returns the address (AVMA) at which unwind information or debug information is to be looked up.
    ///
    /// For an instruction pointer that is the address itself. For a return address it is the byte
    /// before it, which lies inside the call instruction: the call can be the last instruction of
    /// its function, and the return address then belongs to the next function.
    pub fn address_for_lookup(self) -> u64
        ensures { result ≡ lookup_address (location_of self) }
    {
        match self {
            FrameAddress::InstructionPointer(address) => address,
            FrameAddress::ReturnAddress(address) => address.get() - 1,
        }
    }

    /// Tells the frame of a caller, of which the return address is known, from the first frame.
    pub fn is_return_address(self) -> bool
        ensures { result ≡ is_return_address (location_of self) }
    {
        match self {
            FrameAddress::InstructionPointer(_) => false,
            FrameAddress::ReturnAddress(_) => true,
        }
    }
}
