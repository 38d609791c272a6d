//! The sections of the worked examples, and modules that have them.
ghost use Rattle.std.specs.Prelude.{[], ◌∷◌, None, codes};
ghost use Rattle.framehop_bytes.specs.ExplicitSections.{under};

use framehop::section::ExplicitModuleSectionInfo;
use framehop::{Module, ModuleListError, ModuleSectionInfo};
use std::alloc::Global;
use std::ops::Range;

/// A CIE whose CFA is rsp + 8, and an FDE from 0x1000 to 0x1020 for code that pushes rbp and makes it the frame
/// pointer, in an `.eh_frame` at 0x2000.
pub(crate) const ONE_FDE: &str = "1400000000000000017a5200017810011b0c070890010000\
     180000001c000000e0efffff2000000000410e108602430d0600000000000000";

/// The same with a reserved length of its CIE.
pub(crate) const RESERVED_LENGTH: &str = "f0ffffff00000000017a5200017810011b0c070890010000\
     180000001c000000e0efffff2000000000410e108602430d0600000000000000";

/// The same with the mark of a length of 64 bits.
pub(crate) const LONG_LENGTH: &str = "ffffffff00000000017a5200017810011b0c070890010000\
     180000001c000000e0efffff2000000000410e108602430d0600000000000000";

/// The first, and a second FDE for the same addresses.
pub(crate) const TWO_FDES: &str = "1400000000000000017a5200017810011b0c070890010000\
     180000001c000000e0efffff2000000000410e108602430d06000000\
     1800000038000000c4efffff2000000000410e108602430d0600000000000000";

/// The table of the first, in an `.eh_frame_hdr` at 0x3000.
pub(crate) const HEADER: &str = "011b033bfcefffff0100000000e0ffff18f0ffff";

/// The FDE up to its first two rows, in a `.debug_frame`.
pub(crate) const DEBUG_FRAME: &str = "10000000ffffffff040008000178100c07089001\
     1c0000000000000000100000000000002000000000000000410e108602000000";

/// The CIE, and an FDE whose CFA is the expression of the entries of a procedure linkage table: rsp + 8, and 8 more
/// where the last four bits of rip are at least 11.
pub(crate) const LINKAGE_TABLE: &str = "1400000000000000017a5200017810011b0c070890010000\
     1c0000001c000000e0efffff20000000000f0b770880003f1a3b2a332422000000000000";

/// The CIE, and an FDE whose CFA is an expression without an end: `DW_OP_skip` to itself.
pub(crate) const ENDLESS_EXPRESSION: &str = "1400000000000000017a5200017810011b0c070890010000\
     180000001c000000e0efffff20000000000f032ffdff00000000000000000000";

/// The CIE, and three FDEs whose CFA is rsp + 16: from 0x1000, from 0x3000 and from 0x2000, 0x1000 bytes each.
pub(crate) const THREE_FDES: &str = "1400000000000000017a5200017810011b0c070890010000\
     140000001c000000e0efffff00100000000e100000000000\
     1400000034000000c80f000000100000000e100000000000\
     140000004c000000b0ffffff00100000000e100000000000\
     00000000";

/// Their table, in the section's order, which is not that of their starts.
pub(crate) const UNSORTED_HEADER: &str = "011b033bfcefffff03000000\
     00e0ffff18f0ffff0000000030f0ffff00f0ffff48f0ffff";

/// The CIE, and an FDE with the CFA rbp + 32, where rbp is saved at CFA - 16 and so at rbp + 16.
pub(crate) const OTHER_OFFSETS: &str = "1400000000000000017a5200017810011b0c070890010000\
     140000001c000000e0efffff20000000000c06208602000000000000";

/// The CIE with a value expression for rbp: CFA + 8.
pub(crate) const VALUE_OF_RBP: &str = "1400000000000000017a5200017810011b0c070890010000\
     140000001c000000e0efffff20000000000e10160602230800000000";

/// One function from 0x1000 to 0x2000 with a frame pointer, in an `__unwind_info`.
pub(crate) const UNWIND_INFO: &str =
    "010000001c000000000000001c000000000000001c00000002000000001000003400000034000000002000000000000034000000\
     02000000080001000010000000000001";

/// The same with the opcode 0x02030405: three words, of which rbp is the second.
pub(crate) const SAVES_RBP: &str =
    "010000001c000000000000001c000000000000001c00000002000000001000003400000034000000002000000000000034000000\
     02000000080001000010000005040302";

/// The same with the opcode 0x02030406, which names no list of registers.
pub(crate) const NO_LIST_OF_REGISTERS: &str =
    "010000001c000000000000001c000000000000001c00000002000000001000003400000034000000002000000000000034000000\
     02000000080001000010000006040302";

/// A function from 0x1000 to 0x1040 whose info is at 0x2000, in a `.pdata`.
pub(crate) const PDATA: &str = "001000004010000000200000";

/// The info of a function that pushes rbx and takes 0x20 bytes, in an `.rdata`.
pub(crate) const PUSHES_RBX: &str = "0106020006320230";

/// Info that is chained to itself.
pub(crate) const ENDLESS_CHAIN: &str = "21000000001000004010000000200000";

/// The info of a function that the machine calls: `UWOP_PUSH_MACHFRAME`.
pub(crate) const MACHINE_FRAME: &str = "01000100000a";

/// The info of a function whose frame register is rbp.
pub(crate) const FRAME_REGISTER: &str = "01000005";

/// 58 of `nop`, and then `add rsp, 32`, `pop rbx` and `ret`.
pub(crate) const TEXT: &str = "9090909090909090909090909090909090909090909090909090909090\
     9090909090909090909090909090909090909090909090909090909090\
     4883c4205bc3";

/// The same with `lea rsp, [rbp + 32]`.
pub(crate) const TEXT_WITH_FRAME_REGISTER: &str =
    "9090909090909090909090909090909090909090909090909090909090\
     9090909090909090909090909090909090909090909090909090909090\
     488d65205bc3";

/// The sections of a module, by the digits of their bytes.
#[derive(Clone, Copy)]
pub(crate) enum Sections {
    /// `.eh_frame`
    EhFrame(&'static str),

    /// `.eh_frame` and `.eh_frame_hdr`
    EhFrameHdr(&'static str, &'static str),

    /// `.debug_frame`
    DebugFrame(&'static str),

    /// `__unwind_info`
    UnwindInfo(&'static str),

    /// `.pdata`, `.rdata` from 0x2000 to this address, and `.text`
    Pe(u64, &'static str, &'static str),
}

/// The sections of a PE module with the base 0.
#[derive(Drop)]
struct PeSections {
    pdata: Option<Vec<u8>>,
    rdata_end: u64,
    rdata: Option<Vec<u8>>,
    text: Option<Vec<u8>>,
}

impl ModuleSectionInfo<Vec<u8>> for PeSections {
    ghost use Rattle.std.specs.Prelude.{Some};

    ghost table = { λ s. record {
      base_svma = 0;
      sections =
          under (codes ".pdata" ∷ []) None s.pdata
          ∷ under (codes ".rdata" ∷ []) (Some (record { start = 0x2000; end = s.rdata_end })) s.rdata
          ∷ under (codes ".text" ∷ []) (Some (record { start = 0x1000; end = 0x1040 })) s.text
          ∷ [];
      segments = [];
    } };

    fn base_svma(&self) -> u64 {
        0
    }

    fn section_svma_range(&mut self, name: &[u8]) -> Option<Range<u64>> {
        if name == b".rdata".as_slice() {
            Some(0x2000..self.rdata_end)
        } else if name == b".text".as_slice() {
            Some(0x1000..0x1040)
        } else {
            None
        }
    }

    fn section_data(&mut self, name: &[u8]) -> Option<Vec<u8>> {
        if name == b".pdata".as_slice() {
            self.pdata.take()
        } else if name == b".rdata".as_slice() {
            self.rdata.take()
        } else if name == b".text".as_slice() {
            self.text.take()
        } else {
            None
        }
    }

    fn segment_svma_range(&mut self, _name: &[u8]) -> Option<Range<u64>> {
        None
    }

    fn segment_data(&mut self, _name: &[u8]) -> Option<Vec<u8>> {
        None
    }
}

impl Sections {
    /// The digits of the sections.
    fn digits(&self) -> [&'static str; 3] {
        match *self {
            Sections::EhFrame(eh_frame) => [eh_frame, "", ""],
            Sections::DebugFrame(debug_frame) => [debug_frame, "", ""],
            Sections::UnwindInfo(unwind_info) => [unwind_info, "", ""],
            Sections::EhFrameHdr(eh_frame, header) => [eh_frame, header, ""],
            Sections::Pe(_, rdata, text) => [PDATA, rdata, text],
        }
    }

    /// The bytes of a section. Only memory can lack: the digits are right.
    pub(crate) fn bytes(&self, alloc: Global, place: usize) -> Result<Vec<u8>, ModuleListError> {
        let digits = self.digits().get(place).copied().unwrap_or("");
        let Ok(bytes) = hex::decode(alloc, digits) else {
            return Err(ModuleListError::OutOfMemory);
        };
        Ok(bytes)
    }

    /// The same, or these others.
    fn bytes_or(
        &self,
        alloc: Global,
        place: usize,
        others: Option<&[u8]>,
    ) -> Result<Vec<u8>, ModuleListError> {
        let Some(others) = others else {
            return self.bytes(alloc, place);
        };
        let Ok(bytes) = others.to_vec(alloc) else {
            return Err(ModuleListError::OutOfMemory);
        };
        Ok(bytes)
    }

    /// A module with these sections.
    pub(crate) fn module(&self, alloc: Global) -> Result<Module<Vec<u8>>, ModuleListError> {
        let first = self.bytes(alloc, 0)?;
        let second = self.bytes(alloc, 1)?;
        let third = self.bytes(alloc, 2)?;
        self.module_of(alloc, first, second, third)
    }

    /// The same with other bytes of the section at this place.
    pub(crate) fn module_with(
        &self,
        alloc: Global,
        place: usize,
        others: &[u8],
    ) -> Result<Module<Vec<u8>>, ModuleListError> {
        let first = self.bytes_or(alloc, 0, (place == 0).then_some(others))?;
        let second = self.bytes_or(alloc, 1, (place == 1).then_some(others))?;
        let third = self.bytes_or(alloc, 2, (place == 2).then_some(others))?;
        self.module_of(alloc, first, second, third)
    }

    /// A module of 0x4000 bytes of addresses whose sections have these bytes: one with `__unwind_info` at 0x100000, and
    /// any other at 0.
    fn module_of(
        &self,
        alloc: Global,
        first: Vec<u8>,
        second: Vec<u8>,
        third: Vec<u8>,
    ) -> Result<Module<Vec<u8>>, ModuleListError> {
        let name = String::new(alloc);
        let mut range = 0..0x4000;
        let mut info = ExplicitModuleSectionInfo::default();
        match *self {
            Sections::EhFrame(_) => {
                info.eh_frame_svma = Some(0x2000..0x2100);
                info.eh_frame = Some(first);
            }
            Sections::EhFrameHdr(_, _) => {
                info.eh_frame_svma = Some(0x2000..0x2100);
                info.eh_frame = Some(first);
                info.eh_frame_hdr_svma = Some(0x3000..0x3100);
                info.eh_frame_hdr = Some(second);
            }
            Sections::DebugFrame(_) => info.debug_frame = Some(first),
            Sections::UnwindInfo(_) => {
                range = 0x100000..0x104000;
                info.unwind_info = Some(first);
            }
            Sections::Pe(rdata_end, _, _) => {
                let info = PeSections {
                    pdata: Some(first),
                    rdata_end,
                    rdata: Some(second),
                    text: Some(third),
                };
                return Module::new(alloc, name, range, 0, info);
            }
        }
        let base = range.start;
        Module::new(alloc, name, range, base, info)
    }
}
