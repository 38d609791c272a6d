//! Where PE unwind info tells how to unwind from an address, and what.
ghost use Rattle.std.specs.Prelude.{◌≡◌, ℕ, Bool, List, None, if◌then◌else◌};
ghost use Rattle.framehop_core.specs.Memory.{Answering};
ghost use Rattle.framehop_pe.specs.Sections.{Sections, sections_of};
ghost use Rattle.framehop_explain.specs.Told.{told_by, pe_reason};
ghost use Rattle.framehop_explain.specs.PeSource.{function_source};
ghost use Rattle.framehop_explain.specs.declared.source.PeSource.{PeSource as PeSourceOf};
ghost use Rattle.framehop_macho.specs.declared.unwind_info.info.Function.{Function};

use crate::source::PeSource;
use crate::told::{Told, told_by_pe};
use framehop::Unwinding;
use framehop::lookup::Lookup;
use framehop_bytes::section::SectionBytes;
use framehop_core::aarch64::ArchAarch64;
use framehop_core::x86_64::ArchX86_64;
use framehop_pe::pe::{PeSections, PeUnwinding};
use framehop_pe::unwind_info::function_table::{FunctionTableEntries, RuntimeFunction};
use framehop_pe::x86_64::pe::{epilog_at, frame_register};

/// An architecture whose sources of rules are told.
pub trait Sources: Unwinding {
    // where PE unwind info tells how to unwind from a relative address in a frame of this kind
    ghost pe_source: { Sections → ℕ → Bool → PeSourceOf };

    /// Returns where PE unwind info tells how to unwind from a relative address.
    fn pe_source<D: SectionBytes>(
        sections: PeSections<'_, D>,
        address: u32,
        is_first_frame: bool,
    ) -> PeSource
        ensures { result ≡ pe_source (sections_of D.contents sections.entry) address is_first_frame };

    // whether the code of a function with this opcode of compact unwind info is looked at
    ghost is_analysed: { ℕ → Bool };

    /// Returns whether the code of a function with this opcode of compact unwind info is looked at, in a
    /// first frame.
    fn is_analysed(opcode: u32) -> bool
        ensures { result ≡ is_analysed opcode };

    // then the code gives what its analysis finds, else nothing
    ghost by_code_is: { (function : Function) (code : List ℕ) (offset : ℕ)
        → Self.by_code function code offset ≡ (if is_analysed function.opcode then Self.analysed code offset else None) };
}

impl Sources for ArchX86_64 {
    ghost use Rattle.std.specs.Prelude.{true};
    ghost use Rattle.std.proofs.Common.{refl};
    ghost use Rattle.framehop_explain.specs.PeSource.{source_at};

    ghost pe_source = { source_at };

    ghost is_analysed = { λ opcode. true };

    ghost by_code_is = { λ function code offset. refl };

    fn pe_source<D: SectionBytes>(
        sections: PeSections<'_, D>,
        address: u32,
        is_first_frame: bool,
    ) -> PeSource {
        let table = FunctionTableEntries {
            bytes: sections.pdata.bytes(),
        };
        match table.lookup(address) {
            Some(function) => function_source(&sections, function, address, is_first_frame),
            None => PeSource::Leaf,
        }
    }

    fn is_analysed(_opcode: u32) -> bool {
        true
    }
}

/// Returns where the unwind info of a function tells it.
fn function_source<D: SectionBytes>(
    sections: &PeSections<'_, D>,
    function: RuntimeFunction,
    address: u32,
    is_first_frame: bool,
) -> PeSource
    ensures { result ≡ function_source (sections_of D.contents sections.now) address is_first_frame function }
{
    let info = match sections.unwind_info(function.unwind_info_address) {
        Ok(info) => info,
        Err(_) => return PeSource::Unread(function),
    };
    if !is_first_frame {
        return PeSource::Codes(function);
    }
    match epilog_at(sections, function, frame_register(&info), address) {
        Ok(Some(_)) => PeSource::Epilog(function),
        Ok(None) => PeSource::Codes(function),
        Err(_) => PeSource::Unread(function),
    }
}

impl Sources for ArchAarch64 {
    ghost use Rattle.framehop_explain.specs.declared.source.PeSource.TheVariants.{Unsupported};
    ghost use Rattle.framehop_explain.specs.Analysed.{is_analysed};
    ghost use Rattle.framehop_explain.specs.Laws.{by_code-is};

    ghost pe_source = { λ sections address first. Unsupported };

    ghost is_analysed = { is_analysed };

    ghost by_code_is = { by_code-is };

    fn pe_source<D: SectionBytes>(
        _sections: PeSections<'_, D>,
        _address: u32,
        _is_first_frame: bool,
    ) -> PeSource {
        PeSource::Unsupported
    }

    #[tactic(auto, unfolding(crate::specs::Analysed::is_analysed))]
    fn is_analysed(opcode: u32) -> bool {
        (opcode >> 24) & 0xf != 0
    }
}

/// Returns what PE unwind info tells for a frame.
pub(crate) fn told_by_sections<D: SectionBytes, A: Unwinding, F>(
    sections: PeSections<'_, D>,
    lookup: Lookup,
    regs: A::UnwindRegs,
    read_stack: &mut F,
) -> Told<A::UnwindRule>
where
    F: FnMut(u64) -> Result<u64, ()>,
    requires { F.IsAlwaysCallable read_stack.old }
    ensures callable { F.IsAlwaysCallable read_stack.new }
    ensures answers { Answering F.FnMut read_stack.old read_stack.new (λ memory.
        result ≡ told_by pe_reason (A.found (sections_of D.contents sections.entry) lookup.relative_address lookup.is_first_frame)
        (A.computed (sections_of D.contents sections.entry) lookup.relative_address lookup.is_first_frame memory regs)) }
{
    let mut caller = regs;
    told_by_pe(<A as PeUnwinding>::unwind_frame(
        sections,
        lookup.relative_address,
        &mut caller,
        lookup.is_first_frame,
        read_stack,
    ))
}
