//! What kind of unwind data a module has, and why an index of its FDEs was refused.
ghost use Rattle.std.specs.Prelude.{◌≡◌, Some};
ghost use Rattle.framehop_explain.specs.DataText.{kind_text, refusal_text};
ghost use Rattle.framehop_explain.specs.Kind.{kind_of};

use crate::source::SectionName;
use framehop::Module;
use framehop::unwind_data::ModuleUnwindDataInternal;
use framehop_bytes::section::SectionBytes;
use framehop_cfi::entry::UnwindSectionType;
use framehop_cfi::read_error::ReadError;
use framehop_dwarf::index::DwarfCfiIndexError;
use std::fmt;

/// What kind of unwind data a module has.
#[derive(Clone, Copy)]
pub enum UnwindDataKind {
    /// None.
    None,
    /// None that can be used: an index of the FDEs of its call frame section was refused.
    IndexRefused {
        section_type: UnwindSectionType,
        error: DwarfCfiIndexError,
    },
    /// `.eh_frame` with `.eh_frame_hdr`.
    EhFrameWithHeader,
    /// `.eh_frame` or `.debug_frame` with an index of its FDEs.
    Indexed {
        section_type: UnwindSectionType,
    },
    /// The unwind info of a PE module.
    Pe,
    /// Compact unwind info.
    Compact {
        /// Whether there is an `__eh_frame`, whose FDEs it can name.
        has_eh_frame: bool,
    },
}

impl UnwindDataKind {
    /// Returns what kind of unwind data a loaded module has.
    pub fn of<D: SectionBytes + Drop>(loaded: &Module<D>) -> Self
        ensures { result ≡ kind_of loaded.now.unwind_data }
    {
        match loaded.unwind_data() {
            ModuleUnwindDataInternal::None(None) => UnwindDataKind::None,
            ModuleUnwindDataInternal::None(Some(refusal)) => UnwindDataKind::IndexRefused {
                section_type: refusal.section_type,
                error: refusal.error,
            },
            ModuleUnwindDataInternal::EhFrameHdrAndEhFrame(_) => {
                UnwindDataKind::EhFrameWithHeader
            }
            ModuleUnwindDataInternal::DwarfCfiIndexAndFrames(frames) => UnwindDataKind::Indexed {
                section_type: frames.section_type,
            },
            ModuleUnwindDataInternal::PeUnwindInfo(_) => UnwindDataKind::Pe,
            ModuleUnwindDataInternal::CompactUnwindInfoAndEhFrame(info) => UnwindDataKind::Compact {
                has_eh_frame: info.eh_frame.is_some(),
            },
        }
    }
}

/// Why an index was refused.
#[derive(Clone, Copy)]
struct IndexReason(DwarfCfiIndexError);

impl fmt::Display for IndexReason {
    ghost output = { λ reason. Some (refusal_text reason.0) };

    #[tactic(auto, unfolding(crate::specs::DataText::refusal_text))]
    fn fmt<W: fmt::Write>(&self, f: &mut fmt::Formatter<W>) -> fmt::Result {
        match self.0 {
            DwarfCfiIndexError::Gimli(ReadError::BadLength) => {
                write!(f, "an entry has a reserved length")
            }
            DwarfCfiIndexError::Gimli(ReadError::Eof) => {
                write!(f, "an entry reaches past the end of the section")
            }
            _ => write!(f, "it can't be read"),
        }
    }
}

impl fmt::Display for UnwindDataKind {
    ghost output = { λ kind. Some (kind_text kind) };

    #[tactic(auto, unfolding(crate::specs::DataText::kind_text))]
    fn fmt<W: fmt::Write>(&self, f: &mut fmt::Formatter<W>) -> fmt::Result {
        match *self {
            UnwindDataKind::None => write!(f, "no unwind data"),
            UnwindDataKind::IndexRefused {
                section_type,
                error,
            } => {
                let section = SectionName(section_type);
                let reason = IndexReason(error);
                write!(f, "no unwind data: {section} is refused, since {reason}")
            }
            UnwindDataKind::EhFrameWithHeader => write!(f, ".eh_frame with .eh_frame_hdr"),
            UnwindDataKind::Indexed { section_type } => {
                let section = SectionName(section_type);
                write!(f, "{section} with an index")
            }
            UnwindDataKind::Pe => write!(f, "PE unwind info"),
            UnwindDataKind::Compact { has_eh_frame: true } => {
                write!(f, "compact unwind info with __eh_frame")
            }
            UnwindDataKind::Compact {
                has_eh_frame: false,
            } => { write!(f, "compact unwind info without __eh_frame") }
        }
    }
}
