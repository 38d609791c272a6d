//! The opcodes of compact unwind info on aarch64 (Apple, mach-o/compact_unwind_encoding.h,
//! UNWIND_ARM64_MODE_MASK and the fields after it).
ghost use Rattle.std.specs.Prelude.{◌≡◌};
ghost use Rattle.framehop_macho.specs.Aarch64.{opcode_of};

/// How to unwind from a function.
#[derive(Clone, Copy)]
pub enum OpcodeArm64 {
    /// The function has no info.
    Null,
    /// The function has no frame (UNWIND_ARM64_MODE_FRAMELESS).
    Frameless {
        /// The size of its stack, in units of 16 bytes.
        stack_size_by_16: u16,
    },
    /// DWARF data has the function (UNWIND_ARM64_MODE_DWARF).
    Dwarf {
        /// The offset of its FDE in `__eh_frame`, in bytes.
        eh_frame_fde: u32,
    },
    /// The function has a frame pointer (UNWIND_ARM64_MODE_FRAME).
    FrameBased,
    /// Another mode.
    UnrecognizedKind(u8),
}

impl OpcodeArm64 {
    /// Reads an opcode.
    #[tactic(auto, unfolding(crate::specs::Aarch64::opcode_of))]
    pub fn parse(opcode: u32) -> Self
        ensures { result ≡ opcode_of opcode }
    {
        match (opcode >> 24) & 0xf {
            0 => OpcodeArm64::Null,
            2 => OpcodeArm64::Frameless {
                stack_size_by_16: ((opcode >> 12) & 0xfff) as u16,
            },
            3 => OpcodeArm64::Dwarf {
                eh_frame_fde: opcode & 0x00ff_ffff,
            },
            4 => OpcodeArm64::FrameBased,
            kind => OpcodeArm64::UnrecognizedKind(kind as u8),
        }
    }
}
