//! Unwinding by compact unwind info, for any architecture (framehop 0.16.0, `macho.rs`).
//!
//! Stubs come first, since they have no entries. An opcode describes a function after its prologue, so in a first
//! frame the code around the address is looked at before.
ghost use Rattle.std.specs.Prelude.{◌≡◌, ◌≤◌, ◌-◌, ℕ, IfOk, IfSome, option_map, List, length, ◌⊎◌, Bool, true, IsTrue, Some, None, Ok, Err, Result, Option};
ghost use Rattle.std.specs.Option.{ForSome, option_copied};
ghost use Rattle.framehop_analysis.specs.Answer.{Does};
ghost use Rattle.framehop_macho.specs.Answer.{Answer, IfRule};
ghost use Rattle.framehop_macho.specs.UnwindInfo.{function_of, Covers, HasNoFunction};
ghost use Rattle.framehop_macho.specs.Unwinder.{text_of, module_of, code_between, code_of, is_in, function_for, unwound_in, unwound_by, unwound};
ghost use Rattle.framehop_macho.specs.declared.macho.CuiUnwindResult.{CuiUnwindResult};
ghost use Rattle.framehop_macho.specs.declared.macho.CuiUnwindResult.TheVariants.{ExecRule};
ghost use Rattle.framehop_macho.specs.declared.macho.CompactUnwindInfoUnwinderError.{CompactUnwindInfoUnwinderError};
ghost use Rattle.framehop_macho.specs.declared.macho.CompactUnwindInfoUnwinderError.TheVariants.{AddressOutsideRange};
ghost use Rattle.framehop_macho.specs.declared.unwind_info.info.Function.{Function};

use crate::unwind_info::error::CompactReadError;
use crate::unwind_info::info::{Function, UnwindInfo};
use framehop_analysis::InstructionAnalysis;
use framehop_cfi::dwarf_error::DwarfUnwinderError;
use framehop_core::unwind_rule::UnwindRule;
use std::marker::PhantomData;
use thiserror::Error;

/// Why compact unwind info gives no answer for a frame.
#[derive(Clone, Copy, Debug, PartialEq, Eq, Error)]
pub enum CompactUnwindInfoUnwinderError {
    /// The bytes of `__unwind_info` are refused.
    #[error("BadFormat")]
    BadFormat(CompactReadError),
    /// No function of `__unwind_info` has this address (relative).
    #[error("AddressOutsideRange")]
    AddressOutsideRange(u32),
    /// A function that calls another has no frame.
    #[error("CallerCannotBeFrameless")]
    CallerCannotBeFrameless,
    /// The function of a caller has no info.
    #[error("FunctionHasNoInfo")]
    FunctionHasNoInfo,
    /// The place of the stored rbp, in words of 8 bytes from rsp, does not fit 16 bits.
    #[error("BpOffsetDoesNotFit")]
    BpOffsetDoesNotFit,
    /// The opcode has an unknown mode.
    #[error("BadOpcodeKind")]
    BadOpcodeKind(u8),
    /// The call frame information that the info names does not unwind the frame.
    #[error("BadDwarfUnwinding")]
    BadDwarfUnwinding(DwarfUnwinderError),
    /// The stack size lies in the function's code, which is not there.
    #[error("NoTextBytesToLookUpIndirectStackOffset")]
    NoTextBytesToLookUpIndirectStackOffset,
    /// The stack size does not lie in the function's code.
    #[error("IndirectStackOffsetOutOfBounds")]
    IndirectStackOffsetOutOfBounds,
    /// The stack size does not fit 32 bits.
    #[error("StackAdjustOverflow")]
    StackAdjustOverflow,
    /// The stack size is no multiple of 8, or in words of 8 bytes does not fit 16 bits.
    #[error("StackSizeDoesNotFit")]
    StackSizeDoesNotFit,
    /// The address of a caller lies in `__stubs` or `__stub_helper`.
    #[error("StubFunctionCannotBeCaller")]
    StubFunctionCannotBeCaller,
    /// There is no list of saved registers with the opcode's count and rank.
    #[error("InvalidFrameless")]
    InvalidFrameless,
}

impl From<CompactReadError> for CompactUnwindInfoUnwinderError {
    ghost use Rattle.std.specs.Prelude.{◌≡◌};
    ghost use Rattle.framehop_macho.specs.declared.macho.CompactUnwindInfoUnwinderError.TheVariants.{BadFormat};

    ghost from_gives = { λ value error. error ≡ BadFormat value };

    fn from(value: CompactReadError) -> Self {
        CompactUnwindInfoUnwinderError::BadFormat(value)
    }
}

impl From<DwarfUnwinderError> for CompactUnwindInfoUnwinderError {
    ghost use Rattle.std.specs.Prelude.{◌≡◌};
    ghost use Rattle.framehop_macho.specs.declared.macho.CompactUnwindInfoUnwinderError.TheVariants.{BadDwarfUnwinding};

    ghost from_gives = { λ value error. error ≡ BadDwarfUnwinding value };

    fn from(value: DwarfUnwinderError) -> Self {
        CompactUnwindInfoUnwinderError::BadDwarfUnwinding(value)
    }
}

/// What compact unwind info says of a frame.
#[derive(Clone, Copy, PartialEq, Eq)]
pub enum CuiUnwindResult<R> {
    /// A rule.
    ExecRule(R),
    /// The FDE at this offset of `__eh_frame`, in bytes, has the function.
    NeedDwarf(u32),
}

/// An architecture that unwinds by compact unwind info.
pub trait CompactUnwindInfoUnwinding: InstructionAnalysis {
    // what a call returns: of the function, the kind of the frame (`true`: the first), the offset of the
    // address in the function, and the function's code
    ghost says: { Function → Bool → ℕ → Option (List ℕ) → Answer Self.UnwindRule };

    // the rule at an offset of `__stub_helper`
    ghost helper_rule: { ℕ → Self.UnwindRule };

    // the rule by the code around an offset of a function, if the code gives one: in a first frame it comes
    // before the opcode
    ghost by_code: { Function → List ℕ → ℕ → Option Self.UnwindRule };

    /// Returns how to unwind a frame of a function: a rule, or where its FDE lies.
    /// `address_offset_within_function` is in bytes, and `function_bytes` is the function's code
    /// from its start to its end, if it is there.
    ///
    /// # Errors
    ///
    /// Those of the opcode, by the architecture.
    fn unwind_frame(
        function: Function,
        is_first_frame: bool,
        address_offset_within_function: usize,
        function_bytes: Option<&[u8]>,
    ) -> Result<CuiUnwindResult<Self::UnwindRule>, CompactUnwindInfoUnwinderError>
        requires { ForSome function_bytes (λ code. address_offset_within_function ≤ length code.now) }
        ensures says { result ≡ says function is_first_frame address_offset_within_function (option_copied function_bytes.entry) }
        ensures executable { IfRule result (λ rule. IsTrue (Self.UnwindRule.executable rule)) };

    /// Returns the rule at an offset of `__stub_helper`, in bytes, for a first frame.
    fn rule_for_stub_helper(
        offset: u32,
    ) -> Result<CuiUnwindResult<Self::UnwindRule>, CompactUnwindInfoUnwinderError>
        ensures says { result ≡ Ok (ExecRule (helper_rule offset)) }
        ensures executable { IfRule result (λ rule. IsTrue (Self.UnwindRule.executable rule)) };

    ghost says_by_code: { (function : Function) (code : List ℕ) (offset : ℕ) (rule : Self.UnwindRule) → by_code function code offset ≡ Some rule
        → says function true offset (Some code) ≡ Ok (ExecRule rule) };

    // such a rule undoes what a prologue has done, or does what the rest of an epilogue does
    ghost code_means: { (function : Function) (code : List ℕ) (offset : ℕ) (rule : Self.UnwindRule) → by_code function code offset ≡ Some rule
        → (Self.prologue_rule code offset rule × Self.reaches code offset
        × Does Self.UnwindRule.outcome (Self.undone_prologue code offset) rule)
        ⊎ (Self.epilogue_rule code offset rule × Self.ends code offset
        × Does Self.UnwindRule.outcome (Self.done_epilogue code offset) rule) };
}

/// The code of a module, or a part of it.
#[derive(Clone, Copy)]
pub struct TextBytes<'a> {
    offset_from_base_address: u32,
    bytes: &'a [u8],
}

impl<'a> TextBytes<'a> {
    /// Makes the code of bytes that lie at an offset from the module's base address.
    pub fn new(offset_from_base_address: u32, bytes: &'a [u8]) -> Self
        ensures { text_of result ≡ record { from = offset_from_base_address; bytes = bytes.now } }
    {
        Self {
            offset_from_base_address,
            bytes,
        }
    }

    /// Returns the code between two addresses (relative), if all of it is there.
    fn code_between(self, start: u32, end: u32) -> Option<&'a [u8]>
        ensures code { option_copied result ≡ code_between (text_of self.entry) start end }
        ensures whole { IfSome result (λ code. length code.now ≡ end - start) }
    {
        if start < self.offset_from_base_address || end < start {
            return None;
        }
        let from = (start - self.offset_from_base_address) as usize;
        let to = (end - self.offset_from_base_address) as usize;
        if to > self.bytes.len() {
            return None;
        }
        let (_, rest) = self.bytes.split_at(from);
        let (code, _) = rest.split_at(to - from);
        Some(code)
    }
}

/// Unwinds frames of a module by its compact unwind info. The bytes are lent, and nothing is
/// allocated.
#[derive_where(Clone, Copy)]
pub struct CompactUnwindInfoUnwinder<'a, A: CompactUnwindInfoUnwinding> {
    unwind_info_data: &'a [u8],
    text_bytes: Option<TextBytes<'a>>,
    stubs_range: (u32, u32),
    stub_helper_range: (u32, u32),
    arch: PhantomData<A>,
}

impl<'a, A: CompactUnwindInfoUnwinding> CompactUnwindInfoUnwinder<'a, A> {
    /// Makes an unwinder from the bytes of `__unwind_info`, the module's code, if it is there, and
    /// where `__stubs` and `__stub_helper` lie (relative addresses, the second one after the end).
    pub fn new(
        unwind_info_data: &'a [u8],
        text_bytes: Option<TextBytes<'a>>,
        stubs_range: (u32, u32),
        stub_helper_range: (u32, u32),
    ) -> Self
        ensures { module_of result ≡ record {
          unwind_info = unwind_info_data.now;
          text = option_map text_of text_bytes.entry;
          stubs = stubs_range;
          stub_helper = stub_helper_range;
        } }
    {
        Self {
            unwind_info_data,
            text_bytes,
            stubs_range,
            stub_helper_range,
            arch: PhantomData,
        }
    }

    /// Returns the function of an address (relative).
    ///
    /// # Errors
    ///
    /// `BadFormat` where the bytes of `__unwind_info` are refused, `AddressOutsideRange` where no
    /// function has the address.
    pub fn function_for_address(
        &self,
        address: u32,
    ) -> Result<Function, CompactUnwindInfoUnwinderError>
        ensures exact { result ≡ function_for (function_of (module_of self.now).unwind_info address) address }
        ensures covers { IfOk result (Covers address) }
        ensures outside { result ≡ Err (AddressOutsideRange address)
            → HasNoFunction (module_of self.now).unwind_info address }
    {
        find_function(self.unwind_info_data, address)?.ok_or(
            CompactUnwindInfoUnwinderError::AddressOutsideRange(address),
        )
    }

    /// Returns how to unwind a frame at an address (relative): a rule, or where its FDE lies.
    ///
    /// # Errors
    ///
    /// `StubFunctionCannotBeCaller` for a caller frame in `__stubs` or `__stub_helper`, those of
    /// `function_for_address` but for a first frame outside the range, and those of the opcode.
    pub fn unwind_frame(
        &self,
        rel_lookup_address: u32,
        is_first_frame: bool,
    ) -> Result<CuiUnwindResult<A::UnwindRule>, CompactUnwindInfoUnwinderError>
        ensures says { result ≡ unwound (record {
          stub_rule = A.UnwindRule.stub_rule;
          start_rule = A.UnwindRule.function_start_rule;
          helper_rule = A.helper_rule;
          says = A.says;
        }) (module_of self.now) rel_lookup_address is_first_frame }
        ensures executable { IfRule result (λ rule. IsTrue (A.UnwindRule.executable rule)) }
    {
        if is_in(self.stubs_range, rel_lookup_address) {
            if !is_first_frame {
                return Err(CompactUnwindInfoUnwinderError::StubFunctionCannotBeCaller);
            }
            // All stub functions are frameless.
            return Ok(CuiUnwindResult::ExecRule(A::UnwindRule::rule_for_stub_functions()));
        }
        if is_in(self.stub_helper_range, rel_lookup_address) {
            if !is_first_frame {
                return Err(CompactUnwindInfoUnwinderError::StubFunctionCannotBeCaller);
            }
            return A::rule_for_stub_helper(rel_lookup_address - self.stub_helper_range.0);
        }
        self.unwind_frame_by_functions(rel_lookup_address, is_first_frame)
    }

    /// Returns how to unwind a frame at an address (relative) outside `__stubs` and
    /// `__stub_helper`.
    fn unwind_frame_by_functions(
        &self,
        address: u32,
        is_first_frame: bool,
    ) -> Result<CuiUnwindResult<A::UnwindRule>, CompactUnwindInfoUnwinderError>
        ensures says { result ≡ unwound_by (record {
          stub_rule = A.UnwindRule.stub_rule;
          start_rule = A.UnwindRule.function_start_rule;
          helper_rule = A.helper_rule;
          says = A.says;
        }) (module_of self.now) address is_first_frame (function_of (module_of self.now).unwind_info address) }
        ensures executable { IfRule result (λ rule. IsTrue (A.UnwindRule.executable rule)) }
    {
        match find_function(self.unwind_info_data, address) {
            Ok(Some(function)) => {
                unwind_frame_of_function::<A>(function, self.text_bytes, address, is_first_frame)
            }
            // This can be a stub, in a module whose section ranges are not known.
            Ok(None) if is_first_frame => {
                Ok(CuiUnwindResult::ExecRule(A::UnwindRule::rule_for_stub_functions()))
            }
            Ok(None) => Err(CompactUnwindInfoUnwinderError::AddressOutsideRange(address)),
            Err(error) => Err(CompactUnwindInfoUnwinderError::BadFormat(error)),
        }
    }
}

/// Returns the function of an address (relative) in the bytes of `__unwind_info`.
#[tactic(auto, unfolding(crate::specs::UnwindInfo::function_of))]
pub fn find_function(bytes: &[u8], address: u32) -> Result<Option<Function>, CompactReadError>
    ensures exact { result ≡ function_of bytes.now address }
    ensures covers { IfOk result (λ found. IfSome found (Covers address)) }
    ensures outside { result ≡ Ok None → HasNoFunction bytes.now address }
{
    UnwindInfo::parse(bytes)?.lookup(address)
}

/// Returns how to unwind a frame of a function, at an address in it (relative).
fn unwind_frame_of_function<A: CompactUnwindInfoUnwinding>(
    function: Function,
    text_bytes: Option<TextBytes<'_>>,
    address: u32,
    is_first_frame: bool,
) -> Result<CuiUnwindResult<A::UnwindRule>, CompactUnwindInfoUnwinderError>
    requires { Covers address function }
    ensures says { result ≡ unwound_in (record {
      stub_rule = A.UnwindRule.stub_rule;
      start_rule = A.UnwindRule.function_start_rule;
      helper_rule = A.helper_rule;
      says = A.says;
    }) (option_map text_of text_bytes.entry) address is_first_frame function }
    ensures executable { IfRule result (λ rule. IsTrue (A.UnwindRule.executable rule)) }
{
    if is_first_frame && address == function.start_address {
        return Ok(CuiUnwindResult::ExecRule(A::UnwindRule::rule_for_function_start()));
    }
    let offset = (address - function.start_address) as usize;
    let function_bytes = code_of_function(text_bytes, function);
    A::unwind_frame(function, is_first_frame, offset, function_bytes)
}

/// Returns the code of a function, if all of it is there.
pub fn code_of_function(text_bytes: Option<TextBytes<'_>>, function: Function) -> Option<&[u8]>
    ensures code { option_copied result ≡ code_of (option_map text_of text_bytes.entry) function }
    ensures whole { IfSome result (λ code. length code.now ≡ function.end_address - function.start_address) }
{
    text_bytes?.code_between(function.start_address, function.end_address)
}

/// Returns whether an address lies in a range, whose second address is the one after its end.
pub fn is_in(range: (u32, u32), address: u32) -> bool
    ensures { result ≡ is_in range address }
{
    range.0 <= address && address < range.1
}
