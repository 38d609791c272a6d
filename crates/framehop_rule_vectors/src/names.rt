//! The texts of errors.
use framehop_cfi::dwarf_error::DwarfUnwinderError;
use framehop_cfi::read_error::ReadError;
use framehop_dwarf::index::DwarfCfiIndexError;
use std::test::Fail;

const READ_ERRORS: [(ReadError, &str); 16] = [
    (ReadError::Eof, "Eof"),
    (ReadError::BadLeb, "BadLeb"),
    (ReadError::BadEncoding, "BadEncoding"),
    (ReadError::BadLength, "BadLength"),
    (ReadError::NotCie, "NotCie"),
    (ReadError::NotFde, "NotFde"),
    (ReadError::UnknownVersion, "UnknownVersion"),
    (ReadError::UnknownAugmentation, "UnknownAugmentation"),
    (ReadError::UnknownInstruction, "UnknownInstruction"),
    (ReadError::InvalidContext, "InvalidContext"),
    (ReadError::NumberTooBig, "NumberTooBig"),
    (ReadError::NoRow, "NoRow"),
    (ReadError::TooManyRules, "TooManyRules"),
    (ReadError::TooManyRows, "TooManyRows"),
    (ReadError::NothingRemembered, "NothingRemembered"),
    (ReadError::OutOfMemory, "OutOfMemory"),
];

const INDEX_ERRORS: [(DwarfCfiIndexError, &str); 4] = [
    (DwarfCfiIndexError::Gimli(ReadError::NotFde), "Gimli"),
    (
        DwarfCfiIndexError::CouldNotSubtractBaseAddress,
        "CouldNotSubtractBaseAddress",
    ),
    (
        DwarfCfiIndexError::RelativeAddressTooBig,
        "RelativeAddressTooBig",
    ),
    (DwarfCfiIndexError::FdeOffsetTooBig, "FdeOffsetTooBig"),
];

const UNWINDER_ERRORS: [(DwarfUnwinderError, &str); 7] = [
    (
        DwarfUnwinderError::FdeFromOffsetFailed(ReadError::Eof),
        "FdeFromOffsetFailed",
    ),
    (
        DwarfUnwinderError::UnwindInfoForAddressFailed(ReadError::OutOfMemory),
        "UnwindInfoForAddressFailed",
    ),
    (
        DwarfUnwinderError::StackPointerMovedBackwards,
        "StackPointerMovedBackwards",
    ),
    (DwarfUnwinderError::DidNotAdvance, "DidNotAdvance"),
    (DwarfUnwinderError::CouldNotRecoverCfa, "CouldNotRecoverCfa"),
    (
        DwarfUnwinderError::CouldNotRecoverReturnAddress,
        "CouldNotRecoverReturnAddress",
    ),
    (
        DwarfUnwinderError::CouldNotRecoverFramePointer,
        "CouldNotRecoverFramePointer",
    ),
];

#[test]
fn names_of_errors(rt: HostRuntime) -> Result<(), Fail> {
    for (error, name) in READ_ERRORS {
        assert_eq!(rt; error.to_string(rt.alloc())?.as_str(), name);
    }
    let error = DwarfCfiIndexError::from(ReadError::Eof);
    assert_eq!(rt; error, DwarfCfiIndexError::Gimli(ReadError::Eof));
    Ok(())
}

#[test]
fn names_of_index_errors(rt: HostRuntime) -> Result<(), Fail> {
    for (error, name) in INDEX_ERRORS {
        assert_eq!(rt; error.to_string(rt.alloc())?.as_str(), name);
    }
    Ok(())
}

#[test]
fn names_of_unwinder_errors(rt: HostRuntime) -> Result<(), Fail> {
    for (error, name) in UNWINDER_ERRORS {
        assert_eq!(rt; error.to_string(rt.alloc())?.as_str(), name);
    }
    Ok(())
}
