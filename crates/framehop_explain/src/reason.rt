//! Why unwind data does not tell how to unwind a frame, as text: the name of the error, with what it has in parentheses.
ghost use Rattle.std.specs.Prelude.{Some};
ghost use Rattle.framehop_explain.specs.ReasonText.{read_error_text, dwarf_text, compact_read_error_text, compact_text, pe_text, reason_text};

use framehop::UnwinderError;
use framehop_cfi::dwarf_error::DwarfUnwinderError;
use framehop_cfi::read_error::ReadError;
use framehop_macho::macho::CompactUnwindInfoUnwinderError;
use framehop_macho::unwind_info::error::CompactReadError;
use framehop_pe::pe::PeUnwinderError;
use std::fmt;

/// Why a module's unwind data does not unwind a frame: `Dwarf(FdeFromOffsetFailed(Eof))`.
#[derive(Clone, Copy)]
pub struct Reason(pub UnwinderError);

impl fmt::Display for Reason {
    ghost output = { λ reason. Some (reason_text reason.0) };

    #[tactic(auto, unfolding(crate::specs::ReasonText::reason_text))]
    fn fmt<W: fmt::Write>(&self, f: &mut fmt::Formatter<W>) -> fmt::Result {
        match self.0 {
            UnwinderError::CompactUnwindInfo(error) => {
                let error = CompactReason(error);
                write!(f, "CompactUnwindInfo({error})")
            }
            UnwinderError::Dwarf(error) => {
                let error = DwarfReason(error);
                write!(f, "Dwarf({error})")
            }
            UnwinderError::Pe(error) => {
                let error = PeReason(error);
                write!(f, "Pe({error})")
            }
            UnwinderError::NoDwarfData => write!(f, "NoDwarfData"),
            UnwinderError::NoModuleUnwindData => write!(f, "NoModuleUnwindData"),
            UnwinderError::EhFrameHdrCouldNotFindAddress => write!(
                f,
                "EhFrameHdrCouldNotFindAddress"
            ),
            UnwinderError::DwarfCfiIndexCouldNotFindAddress => write!(
                f,
                "DwarfCfiIndexCouldNotFindAddress"
            ),
        }
    }
}

/// Why call frame information does not unwind a frame.
#[derive(Clone, Copy)]
pub(crate) struct DwarfReason(pub DwarfUnwinderError);

impl fmt::Display for DwarfReason {
    ghost output = { λ reason. Some (dwarf_text reason.0) };

    #[tactic(auto, unfolding(crate::specs::ReasonText::dwarf_text))]
    fn fmt<W: fmt::Write>(&self, f: &mut fmt::Formatter<W>) -> fmt::Result {
        match self.0 {
            DwarfUnwinderError::FdeFromOffsetFailed(error) => {
                let error = ReadReason(error);
                write!(f, "FdeFromOffsetFailed({error})")
            }
            DwarfUnwinderError::UnwindInfoForAddressFailed(error) => {
                let error = ReadReason(error);
                write!(f, "UnwindInfoForAddressFailed({error})")
            }
            DwarfUnwinderError::StackPointerMovedBackwards => write!(
                f,
                "StackPointerMovedBackwards"
            ),
            DwarfUnwinderError::DidNotAdvance => write!(f, "DidNotAdvance"),
            DwarfUnwinderError::CouldNotRecoverCfa => write!(f, "CouldNotRecoverCfa"),
            DwarfUnwinderError::CouldNotRecoverReturnAddress => write!(
                f,
                "CouldNotRecoverReturnAddress"
            ),
            DwarfUnwinderError::CouldNotRecoverFramePointer => write!(
                f,
                "CouldNotRecoverFramePointer"
            ),
        }
    }
}

/// Why call frame information can't be read.
#[derive(Clone, Copy)]
pub struct ReadReason(pub ReadError);

impl fmt::Display for ReadReason {
    ghost output = { λ reason. Some (read_error_text reason.0) };

    #[tactic(auto, unfolding(crate::specs::ReasonText::read_error_text))]
    fn fmt<W: fmt::Write>(&self, f: &mut fmt::Formatter<W>) -> fmt::Result {
        match self.0 {
            ReadError::Eof => write!(f, "Eof"),
            ReadError::BadLeb => write!(f, "BadLeb"),
            ReadError::BadEncoding => write!(f, "BadEncoding"),
            ReadError::BadLength => write!(f, "BadLength"),
            ReadError::NotCie => write!(f, "NotCie"),
            ReadError::NotFde => write!(f, "NotFde"),
            ReadError::UnknownVersion => write!(f, "UnknownVersion"),
            ReadError::UnknownAugmentation => write!(f, "UnknownAugmentation"),
            ReadError::UnknownInstruction => write!(f, "UnknownInstruction"),
            ReadError::InvalidContext => write!(f, "InvalidContext"),
            ReadError::NumberTooBig => write!(f, "NumberTooBig"),
            ReadError::NoRow => write!(f, "NoRow"),
            ReadError::TooManyRules => write!(f, "TooManyRules"),
            ReadError::TooManyRows => write!(f, "TooManyRows"),
            ReadError::NothingRemembered => write!(f, "NothingRemembered"),
            ReadError::OutOfMemory => write!(f, "OutOfMemory"),
        }
    }
}

/// Why compact unwind info does not unwind a frame.
#[derive(Clone, Copy)]
pub(crate) struct CompactReason(pub CompactUnwindInfoUnwinderError);

impl fmt::Display for CompactReason {
    ghost output = { λ reason. Some (compact_text reason.0) };

    #[tactic(auto, unfolding(crate::specs::ReasonText::compact_text))]
    fn fmt<W: fmt::Write>(&self, f: &mut fmt::Formatter<W>) -> fmt::Result {
        match self.0 {
            CompactUnwindInfoUnwinderError::BadFormat(error) => {
                let error = CompactReadReason(error);
                write!(f, "BadFormat({error})")
            }
            CompactUnwindInfoUnwinderError::AddressOutsideRange(value) => write!(
                f,
                "AddressOutsideRange({value})"
            ),
            CompactUnwindInfoUnwinderError::CallerCannotBeFrameless => write!(
                f,
                "CallerCannotBeFrameless"
            ),
            CompactUnwindInfoUnwinderError::FunctionHasNoInfo => write!(f, "FunctionHasNoInfo"),
            CompactUnwindInfoUnwinderError::BpOffsetDoesNotFit => write!(f, "BpOffsetDoesNotFit"),
            CompactUnwindInfoUnwinderError::BadOpcodeKind(value) => write!(
                f,
                "BadOpcodeKind({value})"
            ),
            CompactUnwindInfoUnwinderError::BadDwarfUnwinding(error) => {
                let error = DwarfReason(error);
                write!(f, "BadDwarfUnwinding({error})")
            }
            CompactUnwindInfoUnwinderError::NoTextBytesToLookUpIndirectStackOffset => write!(
                f,
                "NoTextBytesToLookUpIndirectStackOffset"
            ),
            CompactUnwindInfoUnwinderError::IndirectStackOffsetOutOfBounds => write!(
                f,
                "IndirectStackOffsetOutOfBounds"
            ),
            CompactUnwindInfoUnwinderError::StackAdjustOverflow => write!(f, "StackAdjustOverflow"),
            CompactUnwindInfoUnwinderError::StackSizeDoesNotFit => write!(f, "StackSizeDoesNotFit"),
            CompactUnwindInfoUnwinderError::StubFunctionCannotBeCaller => write!(
                f,
                "StubFunctionCannotBeCaller"
            ),
            CompactUnwindInfoUnwinderError::InvalidFrameless => write!(f, "InvalidFrameless"),
        }
    }
}

/// Why `__unwind_info` can't be read.
#[derive(Clone, Copy)]
pub(crate) struct CompactReadReason(pub CompactReadError);

impl fmt::Display for CompactReadReason {
    ghost output = { λ reason. Some (compact_read_error_text reason.0) };

    #[tactic(auto, unfolding(crate::specs::ReasonText::compact_read_error_text))]
    fn fmt<W: fmt::Write>(&self, f: &mut fmt::Formatter<W>) -> fmt::Result {
        match self.0 {
            CompactReadError::Eof => write!(f, "Eof"),
            CompactReadError::BadVersion => write!(f, "BadVersion"),
            CompactReadError::BadPageKind => write!(f, "BadPageKind"),
            CompactReadError::BadEncodingIndex => write!(f, "BadEncodingIndex"),
            CompactReadError::AddressTooBig => write!(f, "AddressTooBig"),
        }
    }
}

/// Why the unwind info of a PE module does not unwind a frame.
#[derive(Clone, Copy)]
pub(crate) struct PeReason(pub PeUnwinderError);

impl fmt::Display for PeReason {
    ghost output = { λ reason. Some (pe_text reason.0) };

    #[tactic(auto, unfolding(crate::specs::ReasonText::pe_text))]
    fn fmt<W: fmt::Write>(&self, f: &mut fmt::Formatter<W>) -> fmt::Result {
        match self.0 {
            PeUnwinderError::MissingUnwindInfoData(value) => write!(
                f,
                "MissingUnwindInfoData({value})"
            ),
            PeUnwinderError::MissingInstructionData(value) => write!(
                f,
                "MissingInstructionData({value})"
            ),
            PeUnwinderError::MissingStackData(None) => write!(f, "MissingStackData(None)"),
            PeUnwinderError::MissingStackData(Some(address)) => write!(
                f,
                "MissingStackData(Some({address}))"
            ),
            PeUnwinderError::UnwindInfoParseError => write!(f, "UnwindInfoParseError"),
            PeUnwinderError::Aarch64Unsupported => write!(f, "Aarch64Unsupported"),
        }
    }
}
