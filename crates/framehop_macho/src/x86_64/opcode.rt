//! The opcodes of compact unwind info on x86_64 (Apple, mach-o/compact_unwind_encoding.h,
//! UNWIND_X86_64_MODE_MASK and the fields after it).
ghost use Rattle.std.specs.Prelude.{◌≡◌, option_map};
ghost use Rattle.framehop_macho.specs.SavedRegisters.{bp_position};
ghost use Rattle.framehop_macho.specs.X86_64.{opcode_of, saved_in};

use super::saved_registers::{bp_position, saved_registers};

/// How to unwind from a function.
#[derive(Clone, Copy)]
pub(crate) enum OpcodeX86_64 {
    /// The function has no info.
    Null,
    /// The function has a frame pointer (UNWIND_X86_64_MODE_RBP_FRAME).
    FrameBased,
    /// The function has no frame pointer, and a stack of a size that is told here
    /// (UNWIND_X86_64_MODE_STACK_IMMD).
    FramelessImmediate {
        /// The size of its stack, with the return address.
        stack_size_in_bytes: u16,
        /// The place of rbp among the saved registers, counted from the last one, if it is one.
        bp_position: Option<u8>,
    },
    /// The function has no frame pointer, and a stack of a size that its code has
    /// (UNWIND_X86_64_MODE_STACK_IND).
    FramelessIndirect {
        /// Where in the code the number of the instruction `sub rsp` lies, in bytes.
        immediate_offset_from_function_start: u8,
        /// What is to be added to that number.
        stack_adjust_in_bytes: u8,
        /// The place of rbp among the saved registers, counted from the last one, if it is one.
        bp_position: Option<u8>,
    },
    /// DWARF data has the function (UNWIND_X86_64_MODE_DWARF).
    Dwarf {
        /// The offset of its FDE in `__eh_frame`, in bytes.
        eh_frame_fde: u32,
    },
    /// There is no list of saved registers with this count and rank.
    InvalidFrameless,
    /// Another mode.
    UnrecognizedKind(u8),
}

impl OpcodeX86_64 {
    /// Reads an opcode.
    #[tactic(auto, unfolding(crate::specs::X86_64::opcode_of))]
    pub fn parse(opcode: u32) -> Self
        ensures { result ≡ opcode_of opcode }
    {
        match (opcode >> 24) & 0xf {
            0 => OpcodeX86_64::Null,
            1 => OpcodeX86_64::FrameBased,
            2 => {
                let Some(saved) = saved_in(opcode) else {
                    return OpcodeX86_64::InvalidFrameless;
                };
                OpcodeX86_64::FramelessImmediate {
                    stack_size_in_bytes: ((opcode >> 16) & 0xff) as u16 * 8,
                    bp_position: saved,
                }
            }
            3 => {
                let Some(saved) = saved_in(opcode) else {
                    return OpcodeX86_64::InvalidFrameless;
                };
                OpcodeX86_64::FramelessIndirect {
                    immediate_offset_from_function_start: ((opcode >> 16) & 0xff) as u8,
                    stack_adjust_in_bytes: ((opcode >> 13) & 7) as u8 * 8,
                    bp_position: saved,
                }
            }
            4 => OpcodeX86_64::Dwarf {
                eh_frame_fde: opcode & 0x00ff_ffff,
            },
            kind => OpcodeX86_64::UnrecognizedKind(kind as u8),
        }
    }
}

/// Returns the place of rbp in the list of saved registers of an opcode, or `None` where there is
/// no such list.
fn saved_in(opcode: u32) -> Option<Option<u8>>
    ensures { result ≡ option_map bp_position (saved_in opcode) }
{
    let count = (opcode >> 10) & 7;
    let rank = opcode & 0x3ff;
    let saved = saved_registers(count as usize, rank as usize)?;
    let Some(place) = bp_position(saved.as_slice()) else {
        return Some(None);
    };
    Some(Some(place as u8))
}
