//! Where the unwind data of a module tells how to unwind from an address.
ghost use Rattle.std.specs.Prelude.{Some};
ghost use Rattle.framehop_explain.specs.SourceText.{section_name, range_text, row_text, pe_source_text, compact_source_text, source_text};

use crate::reason::ReadReason;
use framehop::unwind_data::IndexRefusal;
use framehop_cfi::entry::UnwindSectionType;
use framehop_cfi::read_error::ReadError;
use framehop_macho::unwind_info::error::CompactReadError;
use framehop_macho::unwind_info::info::Function;
use framehop_pe::unwind_info::function_table::RuntimeFunction;
use std::fmt;

/// What the FDE at an offset has for an address.
#[derive(Clone, Copy, PartialEq, Eq)]
pub enum RowSource {
    /// No FDE can be read at the offset.
    Unread(ReadError),
    /// The FDE has no row for the address.
    NoRow,
    /// A row.
    Row,
}

/// The place of a PE function that tells how to unwind from an address.
#[derive(Clone, Copy, PartialEq, Eq)]
pub enum PeSource {
    /// No function has the address: it is in a leaf function, which saves nothing.
    Leaf,
    /// The unwind codes of a function.
    Codes(RuntimeFunction),
    /// What is left of an epilog of a function.
    Epilog(RuntimeFunction),
    /// The unwind info or the code of a function can't be read.
    Unread(RuntimeFunction),
    /// The architecture has no reader.
    Unsupported,
}

/// The place of compact unwind info that tells how to unwind from an address.
#[derive(Clone, Copy, PartialEq, Eq)]
pub enum CompactSource {
    /// In `__stubs`.
    Stub,
    /// In `__stub_helper`.
    StubHelper,
    /// The bytes of `__unwind_info` are refused.
    Unread(CompactReadError),
    /// No function has the address.
    Outside,
    /// At the start of a function.
    Start(Function),
    /// In a prologue that is recognised in a function's code.
    Prologue(Function),
    /// In an epilogue.
    Epilogue(Function),
    /// The opcode of a function.
    Opcode(Function),
}

/// Where the unwind data of a module tells how to unwind from an address.
#[derive(Clone, Copy, PartialEq, Eq)]
pub enum Source {
    /// The module has no unwind data, or its index was refused.
    NoUnwindData(Option<IndexRefusal>),
    /// `.eh_frame_hdr` names no FDE for the address.
    NotInHeader,
    /// The index has no FDE for the address.
    NotInIndex(UnwindSectionType),
    /// The FDE at an offset.
    Fde {
        section_type: UnwindSectionType,
        offset: u32,
        row: RowSource,
    },
    /// The unwind info of a PE module.
    Pe(PeSource),
    /// Compact unwind info.
    Compact(CompactSource),
    /// The FDE at an offset of `__eh_frame`, which the opcode of a function names.
    CompactFde {
        function: Function,
        offset: u32,
        row: RowSource,
    },
}

/// The name of a call frame section.
#[derive(Clone, Copy)]
pub(crate) struct SectionName(pub UnwindSectionType);

impl fmt::Display for SectionName {
    ghost output = { λ section. Some (section_name section.0) };

    #[tactic(auto, unfolding(crate::specs::SourceText::section_name))]
    fn fmt<W: fmt::Write>(&self, f: &mut fmt::Formatter<W>) -> fmt::Result {
        match self.0 {
            UnwindSectionType::EhFrame => write!(f, ".eh_frame"),
            UnwindSectionType::DebugFrame => write!(f, ".debug_frame"),
        }
    }
}

/// The addresses of a function of a PE module.
#[derive(Clone, Copy)]
struct Range(RuntimeFunction);

impl fmt::Display for Range {
    ghost output = { λ range. Some (range_text range.0.begin_address range.0.end_address) };

    fn fmt<W: fmt::Write>(&self, f: &mut fmt::Formatter<W>) -> fmt::Result {
        write!(
            f,
            "0x{:x}..0x{:x}",
            self.0.begin_address, self.0.end_address
        )
    }
}

impl fmt::Display for RowSource {
    ghost output = { λ source. Some (row_text source) };

    #[tactic(auto, unfolding(crate::specs::SourceText::row_text))]
    fn fmt<W: fmt::Write>(&self, f: &mut fmt::Formatter<W>) -> fmt::Result {
        match *self {
            RowSource::Unread(error) => {
                let reason = ReadReason(error);
                write!(f, "no FDE can be read there ({reason})")
            }
            RowSource::NoRow => write!(f, "no row for the address"),
            RowSource::Row => write!(f, "row"),
        }
    }
}

impl fmt::Display for PeSource {
    ghost output = { λ source. Some (pe_source_text source) };

    #[tactic(auto, unfolding(crate::specs::SourceText::pe_source_text))]
    fn fmt<W: fmt::Write>(&self, f: &mut fmt::Formatter<W>) -> fmt::Result {
        match *self {
            PeSource::Leaf => write!(f, "no function in .pdata: leaf function"),
            PeSource::Codes(function) => {
                let range = Range(function);
                write!(f, "unwind codes of function {range}")
            }
            PeSource::Epilog(function) => {
                let range = Range(function);
                write!(f, "epilog of function {range}")
            }
            PeSource::Unread(function) => {
                let range = Range(function);
                write!(f, "unwind info of function {range}")
            }
            PeSource::Unsupported => write!(f, "PE unwind info of aarch64"),
        }
    }
}

impl fmt::Display for CompactSource {
    ghost output = { λ source. Some (compact_source_text source) };

    #[tactic(auto, unfolding(crate::specs::SourceText::compact_source_text))]
    fn fmt<W: fmt::Write>(&self, f: &mut fmt::Formatter<W>) -> fmt::Result {
        match *self {
            CompactSource::Stub => write!(f, "__stubs"),
            CompactSource::StubHelper => write!(f, "__stub_helper"),
            CompactSource::Unread(_) => write!(f, "__unwind_info can't be read"),
            CompactSource::Outside => write!(f, "no function in __unwind_info"),
            CompactSource::Start(function) => {
                write!(f, "start of function 0x{:x}", function.start_address)
            }
            CompactSource::Prologue(function) => {
                write!(f, "prologue of function 0x{:x}", function.start_address)
            }
            CompactSource::Epilogue(function) => {
                write!(f, "epilogue of function 0x{:x}", function.start_address)
            }
            CompactSource::Opcode(function) => write!(
                f,
                "opcode 0x{:x} of function 0x{:x}",
                function.opcode, function.start_address
            ),
        }
    }
}

impl fmt::Display for Source {
    ghost output = { λ source. Some (source_text source) };

    #[tactic(auto, unfolding(crate::specs::SourceText::source_text))]
    fn fmt<W: fmt::Write>(&self, f: &mut fmt::Formatter<W>) -> fmt::Result {
        match *self {
            Source::NoUnwindData(None) => write!(f, "no unwind data"),
            Source::NoUnwindData(Some(refusal)) => {
                let section = SectionName(refusal.section_type);
                write!(f, "no unwind data: {section} is refused")
            }
            Source::NotInHeader => write!(f, ".eh_frame_hdr has no FDE"),
            Source::NotInIndex(section_type) => {
                let section = SectionName(section_type);
                write!(f, "{section} has no FDE")
            }
            Source::Fde {
                section_type,
                offset,
                row,
            } => {
                let section = SectionName(section_type);
                write!(f, "{row} of FDE 0x{offset:x} of {section}")
            }
            Source::Pe(place) => write!(f, "{place}"),
            Source::Compact(place) => write!(f, "{place}"),
            Source::CompactFde {
                function,
                offset,
                row,
            } => {
                let place = CompactSource::Opcode(function);
                write!(f, "{place}: {row} of FDE 0x{offset:x} of __eh_frame")
            }
        }
    }
}
