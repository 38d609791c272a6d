//! What a PE module lends for unwinding, and the trait of an architecture that unwinds by it
//! (framehop 0.16.0, `pe.rs`).
ghost use Rattle.std.specs.Prelude.{◌≡◌, ℕ, Bool, IsTrue, Option, Some, None, Result, Ok, MatchOption, MatchResult, IfErr};
ghost use Rattle.framehop_core.specs.Memory.{Memory, Answering};
ghost use Rattle.framehop_core.specs.Step.{IfRule, KeptWithoutAddress, TellsFound};
ghost use Rattle.framehop_pe.specs.Answer.{IsMissingStackData, IsComputed, Simulates};
ghost use Rattle.framehop_pe.specs.declared.pe.PeUnwinderError.{PeUnwinderError};
ghost use Rattle.framehop_pe.specs.Sections.{Sections, sections_of, placed_of, bytes_at, unwind_info_at, text_at};

pub use crate::unwind_info::state::UnwindState;
use framehop_bytes::section::SectionBytes;
use framehop_core::arch::Arch;
use framehop_core::unwind_result::UnwindResult;
use framehop_core::unwind_rule::UnwindRule;
use std::ops::Range;
use thiserror::Error;

/// Why the unwind info of a PE module gives no answer for a frame.
#[derive(Clone, Copy, Debug, PartialEq, Eq, Error)]
pub enum PeUnwinderError {
    /// Neither `.rdata` nor `.xdata` has unwind info at this RVA.
    #[error("MissingUnwindInfoData")]
    MissingUnwindInfoData(u32),
    /// The text at this RVA is not there up to the function's end.
    #[error("MissingInstructionData")]
    MissingInstructionData(u32),
    /// A stack word could not be read, at this address (AVMA) if it is known; or a stack address
    /// does not fit 64 bits.
    #[error("MissingStackData")]
    MissingStackData(Option<u64>),
    /// Unwind info is too short, has an unknown version or code, or its chain is too long.
    #[error("UnwindInfoParseError")]
    UnwindInfoParseError,
    /// There is no reader for aarch64 yet.
    #[error("Aarch64Unsupported")]
    Aarch64Unsupported,
}

/// Data and where it lies in the module, as relative addresses (RVA).
#[derive(Drop)]
pub struct DataAtRvaRange<D> {
    /// The data.
    pub bytes: D,
    /// The relative addresses that it covers.
    pub rva_range: Range<u32>,
}

/// The sections of a PE module that unwinding on x86_64 reads.
#[derive_where(Clone, Copy)]
pub struct PeSections<'a, D> {
    /// The function table.
    pub pdata: &'a D,
    /// Where compilers put unwind info.
    pub rdata: Option<&'a DataAtRvaRange<D>>,
    /// Where some compilers put unwind info.
    pub xdata: Option<&'a DataAtRvaRange<D>>,
    /// The code.
    pub text: Option<&'a DataAtRvaRange<D>>,
}

impl<'a, D: SectionBytes> PeSections<'a, D> {
    /// Returns the bytes of `.rdata` from a relative address on, or those of `.xdata` where
    /// `.rdata` has none there.
    pub fn unwind_info_memory_at_rva(&self, rva: u32) -> Result<&'a [u8], PeUnwinderError>
        ensures { MatchResult result
            (λ bytes. unwind_info_at (sections_of D.contents self.now) rva ≡ Some bytes.now)
            (λ error. (unwind_info_at (sections_of D.contents self.now) rva ≡ None)
            × (error ≡ PeUnwinderError.MissingUnwindInfoData rva)) }
    {
        if let Some(bytes) = section_memory_at_rva(self.rdata, rva) {
            return Ok(bytes);
        }
        section_memory_at_rva(self.xdata, rva).ok_or(PeUnwinderError::MissingUnwindInfoData(rva))
    }

    /// Returns the bytes of `.text` from a relative address on.
    pub fn text_memory_at_rva(&self, rva: u32) -> Result<&'a [u8], PeUnwinderError>
        ensures { MatchResult result
            (λ bytes. text_at (sections_of D.contents self.now) rva ≡ Some bytes.now)
            (λ error. (text_at (sections_of D.contents self.now) rva ≡ None)
            × (error ≡ PeUnwinderError.MissingInstructionData rva)) }
    {
        section_memory_at_rva(self.text, rva).ok_or(PeUnwinderError::MissingInstructionData(rva))
    }
}

/// Returns the bytes of a section from a relative address on, if there is one and it has some.
fn section_memory_at_rva<'a, D: SectionBytes>(
    section: Option<&'a DataAtRvaRange<D>>,
    address: u32,
) -> Option<&'a [u8]>
    ensures { MatchOption result
        (bytes_at (placed_of D.contents section.entry) address ≡ None)
        (λ bytes. bytes_at (placed_of D.contents section.entry) address ≡ Some bytes.now) }
{
    memory_at_rva(section?, address)
}

/// Returns the bytes of a section from a relative address on, if its range covers it and its bytes
/// reach there.
fn memory_at_rva<D: SectionBytes>(section: &DataAtRvaRange<D>, address: u32) -> Option<&[u8]>
    ensures { MatchOption result
        (bytes_at (placed_of D.contents (Some section.entry)) address ≡ None)
        (λ bytes. bytes_at (placed_of D.contents (Some section.entry)) address ≡ Some bytes.now) }
{
    let bytes = section.bytes.bytes();
    if address < section.rva_range.start || address >= section.rva_range.end {
        return None;
    }
    let offset = (address - section.rva_range.start) as usize;
    if offset >= bytes.len() {
        return None;
    }
    let (_, rest) = bytes.split_at(offset);
    Some(rest)
}

/// An architecture that unwinds by the unwind info of PE modules.
pub trait PeUnwinding: Arch {
    // what the bytes give: a refusal, a rule, or none; of sections, a relative address and the kind
    // of the frame (`true`: the first)
    ghost found: { Sections → ℕ → Bool → Result (Option Self.UnwindRule) PeUnwinderError };

    // the return address and the caller's registers by what the bytes say, over memory, from the
    // registers of the callee, or why there are none
    ghost computed: { Sections → ℕ → Bool → Memory → Self.UnwindRegs → Result (ℕ × Self.UnwindRegs) PeUnwinderError };

    /// Unwinds one frame of a function at a relative address (RVA): returns a rule for the address,
    /// or the return address (AVMA) of this frame, after it has written the caller's registers.
    /// `read_stack` reads the stack word at an address (AVMA). Nothing is allocated.
    ///
    /// # Errors
    ///
    /// `MissingUnwindInfoData`, `MissingInstructionData` or `UnwindInfoParseError` where the
    /// module's bytes are not there or not known; `MissingStackData` where a stack word can't be
    /// read or an address does not fit 64 bits. The registers stay as they are.
    ///
    /// Where a rule is returned, or an error other than `MissingStackData`, the stack is not read.
    fn unwind_frame<F, D>(
        sections: PeSections<'_, D>,
        address: u32,
        regs: &mut Self::UnwindRegs,
        is_first_frame: bool,
        read_stack: &mut F,
    ) -> Result<UnwindResult<Self::UnwindRule>, PeUnwinderError>
    where
        F: FnMut(u64) -> Result<u64, ()>,
        D: SectionBytes,
        requires { F.IsAlwaysCallable read_stack.old }
        ensures callable { F.IsAlwaysCallable read_stack.new }
        ensures written { KeptWithoutAddress result regs.old regs.new }
        ensures unread { IfRule result (λ _. read_stack.new ≡ read_stack.old) }
        ensures unread_refused { IfErr result (λ error. (¬ IsMissingStackData error) → read_stack.new ≡ read_stack.old) }
        ensures found { TellsFound IsMissingStackData (found (sections_of D.contents sections.entry) address is_first_frame) result }
        ensures refusal { IfErr (found (sections_of D.contents sections.entry) address is_first_frame) (λ error. ¬ IsMissingStackData error) }
        ensures executable { IfRule result (λ rule. IsTrue (Self.UnwindRule.executable rule)) }
        ensures simulation { IfRule result (Simulates Self.UnwindRule.outcome (computed (sections_of D.contents sections.entry) address is_first_frame)) }
        ensures answers { Answering F.FnMut read_stack.old read_stack.new (λ memory.
            IsComputed (computed (sections_of D.contents sections.entry) address is_first_frame memory regs.old) result regs.new) };

    // where the rule that the bytes give answers an address, the step is what they say
    ghost rule_simulates: { (sections : Sections) (address : ℕ) (first : Bool) (rule : Self.UnwindRule) → found sections address first ≡ Ok (Some rule)
        → Simulates Self.UnwindRule.outcome (computed sections address first) rule };
}
