//! Unwinding by Microsoft's x64 unwind info (framehop 0.16.0, `x86_64/pe.rs`).
//!
//! In a first frame an epilog is looked for, and elsewhere the codes are run. Where they only move the stack
//! pointer and pop registers in an order that a rule can have, the rule is returned; elsewhere the frame is
//! computed. Infos are read again where they are needed, so no memory is taken.
ghost use Rattle.std.specs.Prelude.{◌≡◌, ◌<◌, Some, None, Ok, Err, MatchResult, IfErr, option_map, map};
ghost use Rattle.framehop_core.specs.Memory.{Answering};
ghost use Rattle.framehop_core.specs.X86_64.RuleOfOperations.{rule_of_operations};
ghost use Rattle.framehop_core.specs.Step.{IfRule, KeptWithoutAddress, TellsFound};
ghost use Rattle.framehop_pe.specs.Answer.{IsComputed, IsMissingStackData};
ghost use Rattle.framehop_pe.specs.Sections.{sections_of};
ghost use Rattle.framehop_pe.specs.Info.{shown};
ghost use Rattle.framehop_pe.specs.Operations.{left_operations};
ghost use Rattle.framehop_pe.specs.Instructions.{left_instructions};
ghost use Rattle.framehop_pe.specs.Offsets.{offset_of, of_instruction};
ghost use Rattle.framehop_pe.specs.Frame.{by_epilog, by_codes, frame_register, code_at, epilog_at, codes_way, way_of, along, rule_along, found_of, computed_of};

use crate::pe::{PeSections, PeUnwinderError, PeUnwinding};
use crate::unwind_info::chain::UnwindOperations;
use crate::unwind_info::epilog::{EpilogInstructions, FunctionEpilogInstruction, run_epilog};
use crate::unwind_info::function_table::{FunctionTableEntries, RuntimeFunction};
use crate::unwind_info::info::UnwindInfo;
use crate::unwind_info::operation::UnwindOperation;
use crate::unwind_info::resolve::resolve_operations;
use crate::unwind_info::state::UnwindState;
use framehop_bytes::section::SectionBytes;
use framehop_core::unwind_result::UnwindResult;
use framehop_core::x86_64::{ArchX86_64, OffsetOrPop, Reg, UnwindRegsX86_64, UnwindRuleX86_64};

/// The registers of a frame, and the callback that reads its stack.
struct State<'a, F: FnMut(u64) -> Result<u64, ()>> {
    regs: UnwindRegsX86_64,
    read_stack: &'a mut F,
}

impl<F: FnMut(u64) -> Result<u64, ()>> UnwindState for State<'_, F> {
    ghost registers = { λ state. state.regs };

    ghost can_read = { λ state. F.IsAlwaysCallable state.read_stack.now };

    ghost Callback = { F };

    ghost calls = { F.FnMut };

    ghost callback = { λ state. state.read_stack.now };

    ghost loan = { λ state. state.read_stack.ghost_name };

    fn read_register(&self, reg: Reg) -> u64 {
        self.regs.get(reg)
    }

    fn read_stack(&mut self, address: u64) -> Option<u64> {
        (self.read_stack)(address).ok()
    }

    fn write_register(&mut self, reg: Reg, value: u64) {
        self.regs.set(reg, value)
    }
}

/// Returns an offset of rsp by bytes, where they are whole words of a count that fits.
fn offset_of(bytes: u32) -> OffsetOrPop
    ensures { result ≡ offset_of bytes }
{
    if bytes % 8 != 0 || bytes / 8 > 0xffff {
        return OffsetOrPop::None;
    }
    OffsetOrPop::OffsetBy8((bytes / 8) as u16)
}

impl From<&'_ FunctionEpilogInstruction> for OffsetOrPop {
    ghost use Rattle.std.specs.Prelude.{◌≡◌};
    ghost use Rattle.framehop_pe.specs.Offsets.{of_instruction};

    ghost from_gives = { λ value operation. operation ≡ of_instruction value.now };

    fn from(value: &'_ FunctionEpilogInstruction) -> Self {
        match value {
            FunctionEpilogInstruction::AddSP(offset) => offset_of(*offset),
            FunctionEpilogInstruction::Pop(register) => OffsetOrPop::Pop(*register),
            FunctionEpilogInstruction::AddSPFromFP(_) => OffsetOrPop::None,
        }
    }
}

impl From<&'_ UnwindOperation> for OffsetOrPop {
    ghost use Rattle.std.specs.Prelude.{◌≡◌};
    ghost use Rattle.framehop_pe.specs.Offsets.{of_operation};

    ghost from_gives = { λ value operation. operation ≡ of_operation value.now };

    fn from(value: &'_ UnwindOperation) -> Self {
        match value {
            UnwindOperation::UnStackAlloc(offset) => offset_of(*offset),
            UnwindOperation::PopNonVolatile(register) => OffsetOrPop::Pop(*register),
            _ => OffsetOrPop::None,
        }
    }
}

/// Returns the rule that does these operations, if there is one.
fn rule_of_codes<D: SectionBytes>(
    operations: UnwindOperations<'_, '_, D>,
) -> Option<UnwindRuleX86_64>
    ensures { result ≡ rule_along (by_codes (left_operations D.contents operations.entry)) }
{
    let offsets_and_pops = operations.map(|framed| OffsetOrPop::from(&framed.operation));
    UnwindRuleX86_64::for_sequence_of_offset_or_pop(offsets_and_pops)
}

/// Returns the rule that does what these instructions do, if there is one.
fn rule_of_epilog(instructions: EpilogInstructions<'_>) -> Option<UnwindRuleX86_64>
    ensures { result ≡ rule_of_operations (map of_instruction (left_instructions instructions.entry)) }
{
    let offsets_and_pops = instructions.map(|instruction| OffsetOrPop::from(&instruction));
    UnwindRuleX86_64::for_sequence_of_offset_or_pop(offsets_and_pops)
}

impl<F: FnMut(u64) -> Result<u64, ()>> Drop for State<'_, F> {
    ghost use Rattle.std.specs.Prelude.{◌≡◌};

    // the callback stays as the last call left it
    fn drop(self)
        ensures { self.exit.1.0.now ≡ self.entry.read_stack.now }
    {
        let State {
            regs: _,
            read_stack: _,
        } = self;
    }
}

/// Writes the caller's registers, with the return address (AVMA) as instruction pointer.
fn return_to(
    return_address: u64,
    caller: UnwindRegsX86_64,
    regs: &mut UnwindRegsX86_64,
) -> UnwindResult<UnwindRuleX86_64>
    ensures direct { result ≡ UnwindResult.Uncacheable return_address }
    ensures registers { regs.new ≡ record caller { ip = return_address } }
{
    *regs = caller;
    regs.set_ip(return_address);
    UnwindResult::Uncacheable(return_address)
}

/// Unwinds by operations: returns the rule that does them, or undoes them.
fn unwind_codes<F, D>(
    operations: UnwindOperations<'_, '_, D>,
    regs: &mut UnwindRegsX86_64,
    read_stack: &mut F,
) -> Result<UnwindResult<UnwindRuleX86_64>, PeUnwinderError>
where
    F: FnMut(u64) -> Result<u64, ()>,
    D: SectionBytes,
    requires { F.IsAlwaysCallable read_stack.old }
    ensures callable { F.IsAlwaysCallable read_stack.new }
    ensures written { KeptWithoutAddress result regs.old regs.new }
    ensures unread { IfRule result (λ _. read_stack.new ≡ read_stack.old) }
    ensures unread_refused { IfErr result (λ error. (¬ IsMissingStackData error) → read_stack.new ≡ read_stack.old) }
    ensures found { TellsFound IsMissingStackData (Ok (rule_along (by_codes (left_operations D.contents operations.entry)))) result }
    ensures answers { Answering F.FnMut read_stack.old read_stack.new (λ memory.
        IsComputed (along (by_codes (left_operations D.contents operations.entry)) memory regs.old) result regs.new) }
{
    if let Some(rule) = rule_of_codes(operations) {
        return Ok(UnwindResult::ExecRule(rule));
    }
    let mut state = State {
        regs: *regs,
        read_stack,
    };
    let return_address = resolve_operations(operations, &mut state)?;
    Ok(return_to(return_address, state.regs, regs))
}

/// Unwinds by what is left of an epilog: returns the rule that does it, or runs it.
fn unwind_epilog<F: FnMut(u64) -> Result<u64, ()>>(
    instructions: EpilogInstructions<'_>,
    frame_register: Option<Reg>,
    regs: &mut UnwindRegsX86_64,
    read_stack: &mut F,
) -> Result<UnwindResult<UnwindRuleX86_64>, PeUnwinderError>
    requires { F.IsAlwaysCallable read_stack.old }
    ensures callable { F.IsAlwaysCallable read_stack.new }
    ensures written { KeptWithoutAddress result regs.old regs.new }
    ensures unread { IfRule result (λ _. read_stack.new ≡ read_stack.old) }
    ensures unread_refused { IfErr result (λ error. (¬ IsMissingStackData error) → read_stack.new ≡ read_stack.old) }
    ensures found { TellsFound IsMissingStackData (Ok (rule_along (by_epilog frame_register (left_instructions instructions.entry)))) result }
    ensures answers { Answering F.FnMut read_stack.old read_stack.new (λ memory.
        IsComputed (along (by_epilog frame_register (left_instructions instructions.entry)) memory regs.old) result regs.new) }
{
    if let Some(rule) = rule_of_epilog(instructions) {
        return Ok(UnwindResult::ExecRule(rule));
    }
    let mut state = State {
        regs: *regs,
        read_stack,
    };
    let return_address = run_epilog(instructions, frame_register, &mut state)?;
    Ok(return_to(return_address, state.regs, regs))
}

/// Returns the code from an address in a function up to the function's end.
#[tactic(auto, unfolding(crate::specs::Frame::code_at))]
fn code_at<'a, D: SectionBytes>(
    sections: &PeSections<'a, D>,
    function: RuntimeFunction,
    address: u32,
) -> Result<&'a [u8], PeUnwinderError>
    ensures { MatchResult result
        (λ code. code_at (sections_of D.contents sections.now) function address ≡ Ok code.now)
        (λ error. code_at (sections_of D.contents sections.now) function address ≡ Err error) }
{
    let size = function.end_address.saturating_sub(address) as usize;
    let Ok(bytes) = sections.text_memory_at_rva(address) else {
        return Err(PeUnwinderError::MissingInstructionData(address));
    };
    if bytes.len() < size {
        return Err(PeUnwinderError::MissingInstructionData(address));
    }
    let (code, _) = bytes.split_at(size);
    Ok(code)
}

/// Reads what is left of an epilog at an address in a function.
#[tactic(auto, unfolding(crate::specs::Frame::epilog_at))]
pub fn epilog_at<'a, D: SectionBytes>(
    sections: &PeSections<'a, D>,
    function: RuntimeFunction,
    frame_register: Option<Reg>,
    address: u32,
) -> Result<Option<EpilogInstructions<'a>>, PeUnwinderError>
    ensures { MatchResult result
        (λ found. epilog_at (sections_of D.contents sections.now) function frame_register address ≡ Ok (option_map left_instructions found))
        (λ error. epilog_at (sections_of D.contents sections.now) function frame_register address ≡ Err error) }
{
    let code = code_at(sections, function, address)?;
    let function_size = function.end_address.saturating_sub(function.begin_address);
    Ok(EpilogInstructions::parse_sequence(code, frame_register, function_size))
}

/// Returns the frame register of unwind info.
pub fn frame_register(info: &UnwindInfo<'_>) -> Option<Reg>
    ensures { result ≡ frame_register (shown info.now) }
{
    match info.frame_register {
        Some(frame) => Some(frame.register),
        None => None,
    }
}

/// Unwinds a frame at an address in a function by the operations of its unwind info.
fn unwind_body<F, D>(
    sections: &PeSections<'_, D>,
    function: RuntimeFunction,
    info: UnwindInfo<'_>,
    address: u32,
    regs: &mut UnwindRegsX86_64,
    read_stack: &mut F,
) -> Result<UnwindResult<UnwindRuleX86_64>, PeUnwinderError>
where
    F: FnMut(u64) -> Result<u64, ()>,
    D: SectionBytes,
    requires { F.IsAlwaysCallable read_stack.old }
    ensures callable { F.IsAlwaysCallable read_stack.new }
    ensures written { KeptWithoutAddress result regs.old regs.new }
    ensures unread { IfRule result (λ _. read_stack.new ≡ read_stack.old) }
    ensures unread_refused { IfErr result (λ error. (¬ IsMissingStackData error) → read_stack.new ≡ read_stack.old) }
    ensures found { TellsFound IsMissingStackData (found_of (codes_way (sections_of D.contents sections.now) function (shown info.entry) address)) result }
    ensures answers { Answering F.FnMut read_stack.old read_stack.new (λ memory.
        IsComputed (computed_of (codes_way (sections_of D.contents sections.now) function (shown info.entry) address) memory regs.old) result regs.new) }
{
    let offset = address.saturating_sub(function.begin_address);
    match UnwindOperations::new(sections, info, offset) {
        Ok(operations) => unwind_codes(operations, regs, read_stack),
        Err(error) => Err(error),
    }
}

/// Unwinds a frame at an address in a function: in a first frame by an epilog, if the address is in
/// one, else by the operations of the function's unwind info.
#[tactic(auto, unfolding(crate::specs::Frame::way_of))]
fn unwind_function<F, D>(
    sections: &PeSections<'_, D>,
    function: RuntimeFunction,
    address: u32,
    regs: &mut UnwindRegsX86_64,
    is_first_frame: bool,
    read_stack: &mut F,
) -> Result<UnwindResult<UnwindRuleX86_64>, PeUnwinderError>
where
    F: FnMut(u64) -> Result<u64, ()>,
    D: SectionBytes,
    requires { F.IsAlwaysCallable read_stack.old }
    ensures callable { F.IsAlwaysCallable read_stack.new }
    ensures written { KeptWithoutAddress result regs.old regs.new }
    ensures unread { IfRule result (λ _. read_stack.new ≡ read_stack.old) }
    ensures unread_refused { IfErr result (λ error. (¬ IsMissingStackData error) → read_stack.new ≡ read_stack.old) }
    ensures found { TellsFound IsMissingStackData (found_of (way_of is_first_frame (sections_of D.contents sections.now) function address)) result }
    ensures answers { Answering F.FnMut read_stack.old read_stack.new (λ memory.
        IsComputed (computed_of (way_of is_first_frame (sections_of D.contents sections.now) function address) memory regs.old) result regs.new) }
{
    let info = match sections.unwind_info(function.unwind_info_address) {
        Ok(info) => info,
        Err(error) => return Err(error),
    };
    if !is_first_frame {
        return unwind_body(sections, function, info, address, regs, read_stack);
    }
    // The codes do not describe the epilog. The first info has them all, if there are chained ones.
    let frame_register = frame_register(&info);
    match epilog_at(sections, function, frame_register, address) {
        Ok(Some(instructions)) => unwind_epilog(instructions, frame_register, regs, read_stack),
        Ok(None) => unwind_body(sections, function, info, address, regs, read_stack),
        Err(error) => Err(error),
    }
}

impl PeUnwinding for ArchX86_64 {
    ghost use Rattle.framehop_pe.specs.Frame.{found_at, computed_at};
    ghost use Rattle.framehop_pe.specs.Laws.Simulation.{rule-simulates};

    ghost found = { found_at };

    ghost computed = { computed_at };

    ghost rule_simulates = { rule-simulates };

    #[tactic(auto, unfolding(crate::specs::Frame::found_at, crate::specs::Frame::computed_at))]
    fn unwind_frame<F, D>(
        sections: PeSections<'_, D>,
        address: u32,
        regs: &mut UnwindRegsX86_64,
        is_first_frame: bool,
        read_stack: &mut F,
    ) -> Result<UnwindResult<UnwindRuleX86_64>, PeUnwinderError>
    where
        F: FnMut(u64) -> Result<u64, ()>,
        D: SectionBytes,
    {
        let entries = FunctionTableEntries {
            bytes: sections.pdata.bytes(),
        };
        match entries.lookup(address) {
            Some(function) => unwind_function(
                &sections,
                function,
                address,
                regs,
                is_first_frame,
                read_stack,
            ),
            None => Ok(UnwindResult::ExecRule(UnwindRuleX86_64::JustReturn)),
        }
    }
}
