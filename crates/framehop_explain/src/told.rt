//! What the unwind data of a module tells for a frame.
ghost use Rattle.std.specs.Prelude.{◌≡◌, ◌≢◌, IfOk, IfErr, OnOk, Err};
ghost use Rattle.framehop_dwarf.specs.Told.{out_of_memory};
ghost use Rattle.framehop_explain.specs.Told.{of_dwarf, of_pe};

use framehop::UnwinderError;
use framehop_cfi::read_error::ReadError;
use framehop_core::unwind_result::UnwindResult;
use framehop_dwarf::dwarf::DwarfUnwinderError;
use framehop_pe::pe::PeUnwinderError;
use std::alloc::AllocError;

/// What the unwind data of a module tells for a frame.
#[derive(Clone, Copy)]
pub enum Told<R> {
    /// A rule.
    Rule(R),
    /// The return address (AVMA), computed from registers and stack words.
    Computed(u64),
    /// Nothing, and why: the fallback rule unwinds the frame.
    Refused(UnwinderError),
}

/// Returns what call frame information tells, or that an allocation failed.
pub(crate) fn told_by_dwarf<R>(
    answer: Result<UnwindResult<R>, DwarfUnwinderError>,
) -> Result<Told<R>, AllocError>
    ensures told { IfOk result (λ told. told ≡ of_dwarf answer) }
    ensures whole { OnOk result (answer ≢ Err out_of_memory) }
    ensures refused { IfErr result (λ _. answer ≡ Err out_of_memory) }
{
    match answer {
        Ok(UnwindResult::ExecRule(rule)) => Ok(Told::Rule(rule)),
        Ok(UnwindResult::Uncacheable(address)) => Ok(Told::Computed(address)),
        Err(DwarfUnwinderError::UnwindInfoForAddressFailed(ReadError::OutOfMemory)) => Err(
            AllocError,
        ),
        Err(error) => Ok(Told::Refused(UnwinderError::Dwarf(error))),
    }
}

/// Returns what PE unwind info tells.
pub(crate) fn told_by_pe<R>(answer: Result<UnwindResult<R>, PeUnwinderError>) -> Told<R>
    ensures { result ≡ of_pe answer }
{
    match answer {
        Ok(UnwindResult::ExecRule(rule)) => Told::Rule(rule),
        Ok(UnwindResult::Uncacheable(address)) => Told::Computed(address),
        Err(error) => Told::Refused(UnwinderError::Pe(error)),
    }
}
