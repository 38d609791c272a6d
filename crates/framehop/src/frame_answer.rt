//! What the modules give for a frame.
ghost use Rattle.std.specs.Prelude.{◌≡◌, ◌↔◌, IsTrue};
ghost use Rattle.framehop.specs.Told.{out_of_memory, is_of_row_values, is_of_pe_values, is_of_values, IsAnswerOf};

use crate::modules::UnwinderError;
use framehop_cfi::read_error::ReadError;
use framehop_core::Error;
use framehop_core::unwind_result::UnwindResult;
use framehop_dwarf::dwarf::DwarfUnwinderError;
use framehop_pe::pe::PeUnwinderError;

// whether memory ran out
fn is_out_of_memory(error: &UnwinderError) -> bool
    ensures { IsTrue result ↔ (error.now ≡ out_of_memory) }
{
    *error
        == UnwinderError::Dwarf(DwarfUnwinderError::UnwindInfoForAddressFailed(
            ReadError::OutOfMemory,
        ))
}

// whether registers or stack words are why a row's values can't be computed
fn is_of_row_values(error: &DwarfUnwinderError) -> bool
    ensures { result ≡ is_of_row_values error.now }
{
    match error {
        DwarfUnwinderError::FdeFromOffsetFailed(_)
        | DwarfUnwinderError::UnwindInfoForAddressFailed(_) => false,
        DwarfUnwinderError::StackPointerMovedBackwards
        | DwarfUnwinderError::DidNotAdvance
        | DwarfUnwinderError::CouldNotRecoverCfa
        | DwarfUnwinderError::CouldNotRecoverReturnAddress
        | DwarfUnwinderError::CouldNotRecoverFramePointer => true,
    }
}

// whether stack words are why the values of unwind info can't be computed
fn is_of_pe_values(error: &PeUnwinderError) -> bool
    ensures { result ≡ is_of_pe_values error.now }
{
    match error {
        PeUnwinderError::MissingStackData(_) => true,
        PeUnwinderError::MissingUnwindInfoData(_)
        | PeUnwinderError::MissingInstructionData(_)
        | PeUnwinderError::UnwindInfoParseError
        | PeUnwinderError::Aarch64Unsupported => false,
    }
}

// whether registers or stack words are why values can't be computed, and not the module's bytes
fn is_of_values(error: &UnwinderError) -> bool
    ensures { result ≡ is_of_values error.now }
{
    match error {
        UnwinderError::Dwarf(error) => is_of_row_values(error),
        UnwinderError::Pe(error) => is_of_pe_values(error),
        UnwinderError::CompactUnwindInfo(_)
        | UnwinderError::NoDwarfData
        | UnwinderError::NoModuleUnwindData
        | UnwinderError::EhFrameHdrCouldNotFindAddress
        | UnwinderError::DwarfCfiIndexCouldNotFindAddress => false,
    }
}

/// What the modules give for a frame.
pub(crate) enum FrameAnswer<R> {
    /// A rule, which can be stored.
    Rule(R),
    /// Nothing: the fallback rule, which can be stored, too. It is a variant of its own, so that its way is short.
    Fallback,
    /// The return address (AVMA); the caller's registers are written.
    Computed(u64),
    /// Values that registers or stack words don't allow to compute.
    NotComputed,
}

/// Returns a module's answer.
pub(crate) fn frame_answer<R>(
    told: Result<UnwindResult<R>, UnwinderError>,
) -> Result<FrameAnswer<R>, Error>
    ensures { IsAnswerOf told result }
{
    match told {
        Ok(UnwindResult::ExecRule(rule)) => Ok(FrameAnswer::Rule(rule)),
        Ok(UnwindResult::Uncacheable(return_address)) => Ok(FrameAnswer::Computed(return_address)),
        Err(error) => {
            if is_out_of_memory(&error) {
                return Err(Error::OutOfMemory);
            }
            if is_of_values(&error) {
                return Ok(FrameAnswer::NotComputed);
            }
            Ok(FrameAnswer::Fallback)
        }
    }
}
