//! Reasons of a fallback as text: as the errors print themselves with `{:?}`, whose names are those of their variants.
use framehop::UnwinderError;
use framehop::macho::CompactUnwindInfoUnwinderError;
use framehop::macho_unwind_info::error::CompactReadError;
use framehop::pe::PeUnwinderError;
use framehop_cfi::dwarf_error::DwarfUnwinderError;
use framehop_cfi::read_error::ReadError;
use framehop_explain::Reason;
use std::alloc::Global;
use std::test::Fail;

fn is_printed_alike(alloc: Global, error: UnwinderError) -> Result<bool, Fail> {
    let reason = Reason(error);
    let text = format!(in alloc; "{reason}")?;
    let want = format!(in alloc; "{error:?}")?;
    Ok(text.as_str() == want.as_str())
}

#[test]
fn writes_why_call_frame_information_is_unread(rt: HostRuntime) -> Result<(), Fail> {
    for error in [
        ReadError::Eof,
        ReadError::BadLeb,
        ReadError::BadEncoding,
        ReadError::BadLength,
        ReadError::NotCie,
        ReadError::NotFde,
        ReadError::UnknownVersion,
        ReadError::UnknownAugmentation,
        ReadError::UnknownInstruction,
        ReadError::InvalidContext,
        ReadError::NumberTooBig,
        ReadError::NoRow,
        ReadError::TooManyRules,
        ReadError::TooManyRows,
        ReadError::NothingRemembered,
        ReadError::OutOfMemory,
    ] {
        let unread = DwarfUnwinderError::FdeFromOffsetFailed(error);
        let failed = DwarfUnwinderError::UnwindInfoForAddressFailed(error);
        assert!(rt; is_printed_alike(rt.alloc(), UnwinderError::Dwarf(unread))?);
        assert!(rt; is_printed_alike(rt.alloc(), UnwinderError::Dwarf(failed))?);
    }
    Ok(())
}

#[test]
fn writes_why_call_frame_information_does_not_unwind(rt: HostRuntime) -> Result<(), Fail> {
    for error in [
        DwarfUnwinderError::StackPointerMovedBackwards,
        DwarfUnwinderError::DidNotAdvance,
        DwarfUnwinderError::CouldNotRecoverCfa,
        DwarfUnwinderError::CouldNotRecoverReturnAddress,
        DwarfUnwinderError::CouldNotRecoverFramePointer,
    ] {
        let compact = CompactUnwindInfoUnwinderError::BadDwarfUnwinding(error);
        assert!(rt; is_printed_alike(rt.alloc(), UnwinderError::Dwarf(error))?);
        assert!(rt; is_printed_alike(rt.alloc(), UnwinderError::CompactUnwindInfo(compact))?);
    }
    Ok(())
}

#[test]
fn writes_why_compact_unwind_info_does_not_unwind(rt: HostRuntime) -> Result<(), Fail> {
    for error in [
        CompactUnwindInfoUnwinderError::BadFormat(CompactReadError::Eof),
        CompactUnwindInfoUnwinderError::BadFormat(CompactReadError::BadVersion),
        CompactUnwindInfoUnwinderError::BadFormat(CompactReadError::BadPageKind),
        CompactUnwindInfoUnwinderError::BadFormat(CompactReadError::BadEncodingIndex),
        CompactUnwindInfoUnwinderError::BadFormat(CompactReadError::AddressTooBig),
        CompactUnwindInfoUnwinderError::AddressOutsideRange(0xffff_ffff),
        CompactUnwindInfoUnwinderError::CallerCannotBeFrameless,
        CompactUnwindInfoUnwinderError::FunctionHasNoInfo,
        CompactUnwindInfoUnwinderError::BpOffsetDoesNotFit,
        CompactUnwindInfoUnwinderError::BadOpcodeKind(15),
        CompactUnwindInfoUnwinderError::NoTextBytesToLookUpIndirectStackOffset,
        CompactUnwindInfoUnwinderError::IndirectStackOffsetOutOfBounds,
        CompactUnwindInfoUnwinderError::StackAdjustOverflow,
        CompactUnwindInfoUnwinderError::StackSizeDoesNotFit,
        CompactUnwindInfoUnwinderError::StubFunctionCannotBeCaller,
        CompactUnwindInfoUnwinderError::InvalidFrameless,
    ] {
        assert!(rt; is_printed_alike(rt.alloc(), UnwinderError::CompactUnwindInfo(error))?);
    }
    Ok(())
}

#[test]
fn writes_other_reasons(rt: HostRuntime) -> Result<(), Fail> {
    for error in [
        UnwinderError::Pe(PeUnwinderError::MissingUnwindInfoData(0x100)),
        UnwinderError::Pe(PeUnwinderError::MissingInstructionData(0x200)),
        UnwinderError::Pe(PeUnwinderError::MissingStackData(None)),
        UnwinderError::Pe(PeUnwinderError::MissingStackData(Some(0xffff_ffff_ffff_fff8))),
        UnwinderError::Pe(PeUnwinderError::UnwindInfoParseError),
        UnwinderError::Pe(PeUnwinderError::Aarch64Unsupported),
        UnwinderError::NoDwarfData,
        UnwinderError::NoModuleUnwindData,
        UnwinderError::EhFrameHdrCouldNotFindAddress,
        UnwinderError::DwarfCfiIndexCouldNotFindAddress,
    ] {
        assert!(rt; is_printed_alike(rt.alloc(), error)?);
    }
    Ok(())
}
