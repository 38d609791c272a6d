//! aarch64 has unwind info of another form, which is not read yet (framehop 0.16.0,
//! `aarch64/pe.rs`).
use crate::pe::{PeSections, PeUnwinderError, PeUnwinding};
use framehop_bytes::section::SectionBytes;
use framehop_core::aarch64::{ArchAarch64, UnwindRegsAarch64, UnwindRuleAarch64};
use framehop_core::unwind_result::UnwindResult;

impl PeUnwinding for ArchAarch64 {
    ghost use Rattle.std.specs.Prelude.{Err};
    ghost use Rattle.framehop_pe.specs.declared.pe.PeUnwinderError.TheVariants.{Aarch64Unsupported};

    ghost found = { λ sections address first. Err Aarch64Unsupported };

    ghost computed = { λ sections address first memory old. Err Aarch64Unsupported };

    ghost rule_simulates = { λ sections address first rule found. cc };

    fn unwind_frame<F, D>(
        _sections: PeSections<'_, D>,
        _address: u32,
        _regs: &mut UnwindRegsAarch64,
        _is_first_frame: bool,
        _read_stack: &mut F,
    ) -> Result<UnwindResult<UnwindRuleAarch64>, PeUnwinderError>
    where
        F: FnMut(u64) -> Result<u64, ()>,
        D: SectionBytes,
    {
        Err(PeUnwinderError::Aarch64Unsupported)
    }
}
