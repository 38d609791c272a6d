//! Call frame instructions (DWARF 5 section 6.4.2).
//!
//! An instruction is read in place, and its factors are applied as it is read, so that a row is made by sums only.
//! Most LEB128 numbers have one byte: for those there is a short way.
ghost use Rattle.std.specs.Prelude.{◌≡◌, ◌≢◌, Ok, Err, ◌≤◌, ◌<◌, IfOk, IfSome};
ghost use Rattle.framehop_cfi.specs.Instruction.{instruction_at, operands_at, coded_at, advance_at, cfa_at, def_cfa_at, def_cfa_factored_at, set_rule_at, rule_at, expression_at, offset_at, factored_at, factored_signed_at, checked_i64, register_at};

use crate::augmentation::read_counted;
use crate::entry::CommonInformationEntry;
use crate::instruction_code::*;
use crate::leb128::{read_short_uleb128, read_sleb128, read_uleb128};
use crate::numbers::{read_u8, read_u16, read_u32};
use crate::pointer::SectionBaseAddresses;
use crate::read_error::ReadError;
use crate::rule::{CfaRule, Expression, Register, RegisterRule};

/// A call frame instruction. Factored offsets are multiplied out.
#[derive(Clone, Copy)]
pub enum CallFrameInstruction {
    /// `DW_CFA_nop`: nothing.
    Nop,
    /// `DW_CFA_AARCH64_negate_ra_state`: the return address is signed from here on, or no longer. A
    /// row does not keep it: authentication bits are stripped by a mask.
    NegateRaState,
    /// `DW_CFA_GNU_args_size`: how many bytes of arguments are on the stack. A row does not keep it.
    ArgsSize {
        size: u64,
    },
    /// `DW_CFA_set_loc`: the location is that address, an SVMA.
    SetLoc {
        address: u64,
    },
    /// `DW_CFA_advance_loc` and those of 1, 2 and 4 bytes: the location rises by `delta` times the code alignment.
    AdvanceLoc {
        delta: u32,
    },
    /// The register has that rule: `DW_CFA_offset`, `DW_CFA_undefined` and the others that name a
    /// register and give it a rule.
    SetRule {
        register: Register,
        rule: RegisterRule,
    },
    /// `DW_CFA_restore`, `DW_CFA_restore_extended`: the register has the rule that the CIE gave it.
    Restore {
        register: Register,
    },
    /// `DW_CFA_remember_state`: the row is remembered.
    RememberState,
    /// `DW_CFA_restore_state`: the row is the one that was remembered last.
    RestoreState,
    /// `DW_CFA_def_cfa`, `DW_CFA_def_cfa_sf`, `DW_CFA_def_cfa_expression`: the CFA has that rule.
    DefCfa(CfaRule),
    /// `DW_CFA_def_cfa_register`: the CFA counts from that register.
    DefCfaRegister {
        register: Register,
    },
    /// `DW_CFA_def_cfa_offset`, `DW_CFA_def_cfa_offset_sf`: the CFA has that offset.
    DefCfaOffset {
        offset: i64,
    },
}

impl CommonInformationEntry {
    /// Returns the instruction at an offset, and the offset after it: a short one inlined, another by a call.
    #[inline(always)]
    pub(crate) fn read_next(
        &self,
        bases: &SectionBaseAddresses,
        bytes: &[u8],
        at: usize,
    ) -> Result<(CallFrameInstruction, usize), ReadError>
        ensures exact { result ≡ instruction_at self.now bases.now bytes.now at }
        ensures forward { IfOk result (λ read. at < read.1) }
        ensures memory { result ≢ Err ReadError.OutOfMemory }
    {
        match self.read_short(bytes, at) {
            Some(read) => Ok(read),
            None => self.read_instruction(bases, bytes, at),
        }
    }

    /// Returns the instruction at an offset, and the offset after it, if it is one of those that are common and has
    /// no operand of more than one byte. It is inlined, so that such an instruction is read without a call.
    #[inline(always)]
    #[tactic(auto, unfolding(crate::specs::Instruction::instruction_at, crate::specs::Numbers::u8_at))]
    pub(crate) fn read_short(
        &self,
        bytes: &[u8],
        at: usize,
    ) -> Option<(CallFrameInstruction, usize)>
        ensures exact { (bases : SectionBaseAddresses) → IfSome result (λ read. instruction_at self.now bases bytes.now at ≡ Ok read) }
        ensures forward { IfSome result (λ read. at < read.1) }
    {
        if at >= bytes.len() {
            return None;
        }
        let code = bytes[at];
        let next = at + 1;
        if DW_CFA_ADVANCE_LOC <= code && code < DW_CFA_OFFSET {
            let delta = u32::from(code - DW_CFA_ADVANCE_LOC);
            return Some((CallFrameInstruction::AdvanceLoc { delta }, next));
        }
        if code == DW_CFA_NOP {
            return Some((CallFrameInstruction::Nop, next));
        }
        if code == DW_CFA_DEF_CFA_OFFSET {
            let (offset, next) = read_short_offset(bytes, next)?;
            return Some((CallFrameInstruction::DefCfaOffset { offset }, next));
        }
        if DW_CFA_OFFSET <= code && code < DW_CFA_RESTORE {
            let (offset, next) = read_short_factored(self.data_alignment_factor, bytes, next)?;
            let set_rule = CallFrameInstruction::SetRule {
                register: Register(u16::from(code - DW_CFA_OFFSET)),
                rule: RegisterRule::Offset(offset),
            };
            return Some((set_rule, next));
        }
        None
    }

    /// Returns the instruction at an offset, and the offset after it.
    #[tactic(auto, unfolding(crate::specs::Instruction::instruction_at))]
    #[inline(never)]
    pub fn read_instruction(
        &self,
        bases: &SectionBaseAddresses,
        bytes: &[u8],
        at: usize,
    ) -> Result<(CallFrameInstruction, usize), ReadError>
        ensures exact { result ≡ instruction_at self.now bases.now bytes.now at }
        ensures forward { IfOk result (λ read. at < read.1) }
        ensures memory { result ≢ Err ReadError.OutOfMemory }
    {
        let (code, next) = read_u8(bytes, at)?;
        self.read_operands(bases, code, bytes, next)
    }

    /// Returns the operands after an instruction's byte, which may hold the first of them.
    fn read_operands(
        &self,
        bases: &SectionBaseAddresses,
        code: u8,
        bytes: &[u8],
        at: usize,
    ) -> Result<(CallFrameInstruction, usize), ReadError>
        ensures exact { result ≡ operands_at self.now bases.now code bytes.now at }
        ensures forward { IfOk result (λ read. at ≤ read.1) }
        ensures memory { result ≢ Err ReadError.OutOfMemory }
    {
        if code >= DW_CFA_RESTORE {
            let register = Register(u16::from(code - DW_CFA_RESTORE));
            return Ok((CallFrameInstruction::Restore { register }, at));
        }
        if code >= DW_CFA_OFFSET {
            let register = Register(u16::from(code - DW_CFA_OFFSET));
            let (offset, next) = read_factored(self.data_alignment_factor, bytes, at)?;
            let rule = RegisterRule::Offset(offset);
            return Ok((CallFrameInstruction::SetRule { register, rule }, next));
        }
        if code >= DW_CFA_ADVANCE_LOC {
            let delta = u32::from(code - DW_CFA_ADVANCE_LOC);
            return Ok((CallFrameInstruction::AdvanceLoc { delta }, at));
        }
        self.read_coded(bases, code, bytes, at)
    }

    /// Returns the operands of an instruction whose byte is only its code.
    fn read_coded(
        &self,
        bases: &SectionBaseAddresses,
        code: u8,
        bytes: &[u8],
        at: usize,
    ) -> Result<(CallFrameInstruction, usize), ReadError>
        ensures exact { result ≡ coded_at self.now bases.now code bytes.now at }
        ensures forward { IfOk result (λ read. at ≤ read.1) }
        ensures memory { result ≢ Err ReadError.OutOfMemory }
    {
        match code {
            DW_CFA_NOP => Ok((CallFrameInstruction::Nop, at)),
            DW_CFA_AARCH64_NEGATE_RA_STATE => Ok((CallFrameInstruction::NegateRaState, at)),
            DW_CFA_SET_LOC => {
                let (address, next) = bases.read_pointer(bytes, at, self.fde_pointer_encoding)?;
                Ok((CallFrameInstruction::SetLoc { address }, next))
            }
            DW_CFA_ADVANCE_LOC1..=DW_CFA_ADVANCE_LOC4 => read_advance(code, bytes, at),
            DW_CFA_RESTORE_EXTENDED => {
                let (register, next) = read_register(bytes, at)?;
                Ok((CallFrameInstruction::Restore { register }, next))
            }
            DW_CFA_REMEMBER_STATE => Ok((CallFrameInstruction::RememberState, at)),
            DW_CFA_RESTORE_STATE => Ok((CallFrameInstruction::RestoreState, at)),
            DW_CFA_DEF_CFA..=DW_CFA_DEF_CFA_EXPRESSION
            | DW_CFA_DEF_CFA_SF
            | DW_CFA_DEF_CFA_OFFSET_SF => { read_cfa(self.data_alignment_factor, code, bytes, at) }
            DW_CFA_GNU_ARGS_SIZE => {
                let (size, next) = read_uleb128(bytes, at)?;
                Ok((CallFrameInstruction::ArgsSize { size }, next))
            }
            DW_CFA_OFFSET_EXTENDED..=DW_CFA_VAL_EXPRESSION => {
                read_set_rule(self.data_alignment_factor, code, bytes, at)
            }
            _ => Err(ReadError::UnknownInstruction),
        }
    }
}

/// Returns an offset of one byte that is not factored, if there is one.
#[inline(always)]
#[tactic(auto, unfolding(crate::specs::Instruction::offset_at))]
fn read_short_offset(bytes: &[u8], at: usize) -> Option<(i64, usize)>
    ensures exact { IfSome result (λ read. offset_at bytes.now at ≡ Ok read) }
    ensures forward { IfSome result (λ read. at < read.1) }
{
    let (number, next) = read_short_uleb128(bytes, at)?;
    Some((i64::try_from(number).ok()?, next))
}

/// Returns an unsigned number of one byte times the data alignment, if there is one.
#[inline(always)]
#[tactic(auto, unfolding(crate::specs::Instruction::factored_at))]
fn read_short_factored(alignment: i64, bytes: &[u8], at: usize) -> Option<(i64, usize)>
    ensures exact { IfSome result (λ read. factored_at alignment bytes.now at ≡ Ok read) }
    ensures forward { IfSome result (λ read. at < read.1) }
{
    let (number, next) = read_short_uleb128(bytes, at)?;
    let product = i64::try_from(i128::from(number) * i128::from(alignment)).ok()?;
    Some((product, next))
}

/// Returns an offset that is not factored: one of one byte inlined, another by a call.
#[inline(always)]
pub(crate) fn read_next_offset(bytes: &[u8], at: usize) -> Result<(i64, usize), ReadError>
    ensures exact { result ≡ offset_at bytes.now at }
    ensures forward { IfOk result (λ read. at < read.1) }
    ensures memory { result ≢ Err ReadError.OutOfMemory }
{
    match read_short_offset(bytes, at) {
        Some(read) => Ok(read),
        None => read_long_offset(bytes, at),
    }
}

/// Returns an offset that is not factored, by a call. It is taken apart, so that only here it is in memory.
#[inline(always)]
fn read_long_offset(bytes: &[u8], at: usize) -> Result<(i64, usize), ReadError>
    ensures exact { result ≡ offset_at bytes.now at }
    ensures forward { IfOk result (λ read. at < read.1) }
    ensures memory { result ≢ Err ReadError.OutOfMemory }
{
    let (offset, next) = read_offset(bytes, at)?;
    Ok((offset, next))
}

/// Returns a register's number: one of one byte inlined, another by a call.
#[inline(always)]
#[tactic(auto, unfolding(crate::specs::Instruction::register_at))]
pub(crate) fn read_next_register(bytes: &[u8], at: usize) -> Result<(Register, usize), ReadError>
    ensures exact { result ≡ register_at bytes.now at }
    ensures forward { IfOk result (λ read. at < read.1) }
    ensures memory { result ≢ Err ReadError.OutOfMemory }
{
    match read_short_uleb128(bytes, at) {
        Some((number, next)) => match u16::try_from(number) {
            Ok(number) => Ok((Register(number), next)),
            Err(_) => Err(ReadError::NumberTooBig),
        },
        None => {
            let (register, next) = read_register(bytes, at)?;
            Ok((register, next))
        }
    }
}

/// Returns an unsigned number times the data alignment: one of one byte inlined, another by a call.
#[inline(always)]
pub(crate) fn read_next_factored(
    alignment: i64,
    bytes: &[u8],
    at: usize,
) -> Result<(i64, usize), ReadError>
    ensures exact { result ≡ factored_at alignment bytes.now at }
    ensures forward { IfOk result (λ read. at < read.1) }
    ensures memory { result ≢ Err ReadError.OutOfMemory }
{
    match read_short_factored(alignment, bytes, at) {
        Some(read) => Ok(read),
        None => read_long_factored(alignment, bytes, at),
    }
}

/// Returns an unsigned number times the data alignment, by a call. It is taken apart, so that only here it is in memory.
#[inline(always)]
fn read_long_factored(alignment: i64, bytes: &[u8], at: usize) -> Result<(i64, usize), ReadError>
    ensures exact { result ≡ factored_at alignment bytes.now at }
    ensures forward { IfOk result (λ read. at < read.1) }
    ensures memory { result ≢ Err ReadError.OutOfMemory }
{
    let (product, next) = read_factored(alignment, bytes, at)?;
    Ok((product, next))
}

/// Returns an advance of the location by one, two or four bytes, by its code.
fn read_advance(
    code: u8,
    bytes: &[u8],
    at: usize,
) -> Result<(CallFrameInstruction, usize), ReadError>
    ensures exact { result ≡ advance_at code bytes.now at }
    ensures forward { IfOk result (λ read. at < read.1) }
    ensures memory { result ≢ Err ReadError.OutOfMemory }
{
    match code {
        DW_CFA_ADVANCE_LOC1 => {
            let (delta, next) = read_u8(bytes, at)?;
            let delta = u32::from(delta);
            Ok((CallFrameInstruction::AdvanceLoc { delta }, next))
        }
        DW_CFA_ADVANCE_LOC2 => {
            let (delta, next) = read_u16(bytes, at)?;
            let delta = u32::from(delta);
            Ok((CallFrameInstruction::AdvanceLoc { delta }, next))
        }
        _ => {
            let (delta, next) = read_u32(bytes, at)?;
            Ok((CallFrameInstruction::AdvanceLoc { delta }, next))
        }
    }
}

/// Returns an instruction on the CFA, by its code.
fn read_cfa(
    alignment: i64,
    code: u8,
    bytes: &[u8],
    at: usize,
) -> Result<(CallFrameInstruction, usize), ReadError>
    ensures exact { result ≡ cfa_at alignment code bytes.now at }
    ensures forward { IfOk result (λ read. at < read.1) }
    ensures memory { result ≢ Err ReadError.OutOfMemory }
{
    match code {
        DW_CFA_DEF_CFA => read_def_cfa(bytes, at),
        DW_CFA_DEF_CFA_REGISTER => {
            let (register, next) = read_register(bytes, at)?;
            Ok((CallFrameInstruction::DefCfaRegister { register }, next))
        }
        DW_CFA_DEF_CFA_OFFSET => {
            let (offset, next) = read_offset(bytes, at)?;
            Ok((CallFrameInstruction::DefCfaOffset { offset }, next))
        }
        DW_CFA_DEF_CFA_EXPRESSION => {
            let (expression, next) = read_expression(bytes, at)?;
            let rule = CfaRule::Expression(expression);
            Ok((CallFrameInstruction::DefCfa(rule), next))
        }
        DW_CFA_DEF_CFA_SF => read_def_cfa_factored(alignment, bytes, at),
        DW_CFA_DEF_CFA_OFFSET_SF => {
            let (offset, next) = read_factored_signed(alignment, bytes, at)?;
            Ok((CallFrameInstruction::DefCfaOffset { offset }, next))
        }
        _ => Err(ReadError::UnknownInstruction),
    }
}

/// Returns the CFA as a register plus an offset that is not factored.
#[tactic(auto, unfolding(crate::specs::Instruction::def_cfa_at))]
fn read_def_cfa(bytes: &[u8], at: usize) -> Result<(CallFrameInstruction, usize), ReadError>
    ensures exact { result ≡ def_cfa_at bytes.now at }
    ensures forward { IfOk result (λ read. at < read.1) }
    ensures memory { result ≢ Err ReadError.OutOfMemory }
{
    let (register, next) = read_register(bytes, at)?;
    let (offset, next) = read_offset(bytes, next)?;
    let rule = CfaRule::RegisterAndOffset { register, offset };
    Ok((CallFrameInstruction::DefCfa(rule), next))
}

/// Returns an offset that is not factored.
#[tactic(auto, unfolding(crate::specs::Instruction::offset_at))]
#[cold]
#[inline(never)]
fn read_offset(bytes: &[u8], at: usize) -> Result<(i64, usize), ReadError>
    ensures exact { result ≡ offset_at bytes.now at }
    ensures forward { IfOk result (λ read. at < read.1) }
    ensures memory { result ≢ Err ReadError.OutOfMemory }
{
    let (number, next) = read_uleb128(bytes, at)?;
    let offset = checked(i128::from(number))?;
    Ok((offset, next))
}

/// Returns the CFA as a register plus a factored offset.
#[tactic(auto, unfolding(crate::specs::Instruction::def_cfa_factored_at))]
fn read_def_cfa_factored(
    alignment: i64,
    bytes: &[u8],
    at: usize,
) -> Result<(CallFrameInstruction, usize), ReadError>
    ensures exact { result ≡ def_cfa_factored_at alignment bytes.now at }
    ensures forward { IfOk result (λ read. at < read.1) }
    ensures memory { result ≢ Err ReadError.OutOfMemory }
{
    let (register, next) = read_register(bytes, at)?;
    let (offset, next) = read_factored_signed(alignment, bytes, next)?;
    let rule = CfaRule::RegisterAndOffset { register, offset };
    Ok((CallFrameInstruction::DefCfa(rule), next))
}

/// Returns an instruction that names a register and gives it a rule.
#[tactic(auto, unfolding(crate::specs::Instruction::set_rule_at))]
fn read_set_rule(
    alignment: i64,
    code: u8,
    bytes: &[u8],
    at: usize,
) -> Result<(CallFrameInstruction, usize), ReadError>
    ensures exact { result ≡ set_rule_at alignment code bytes.now at }
    ensures forward { IfOk result (λ read. at < read.1) }
    ensures memory { result ≢ Err ReadError.OutOfMemory }
{
    let (register, next) = read_register(bytes, at)?;
    let (rule, next) = read_rule(alignment, code, bytes, next)?;
    Ok((CallFrameInstruction::SetRule { register, rule }, next))
}

/// Returns the rule that an instruction gives to the register that it names, by its code.
fn read_rule(
    alignment: i64,
    code: u8,
    bytes: &[u8],
    at: usize,
) -> Result<(RegisterRule, usize), ReadError>
    ensures exact { result ≡ rule_at alignment code bytes.now at }
    ensures forward { IfOk result (λ read. at ≤ read.1) }
    ensures memory { result ≢ Err ReadError.OutOfMemory }
{
    match code {
        DW_CFA_OFFSET_EXTENDED => {
            let (offset, next) = read_factored(alignment, bytes, at)?;
            Ok((RegisterRule::Offset(offset), next))
        }
        DW_CFA_UNDEFINED => Ok((RegisterRule::Undefined, at)),
        DW_CFA_SAME_VALUE => Ok((RegisterRule::SameValue, at)),
        DW_CFA_REGISTER => {
            let (register, next) = read_register(bytes, at)?;
            Ok((RegisterRule::Register(register), next))
        }
        DW_CFA_EXPRESSION => {
            let (expression, next) = read_expression(bytes, at)?;
            Ok((RegisterRule::Expression(expression), next))
        }
        DW_CFA_OFFSET_EXTENDED_SF => {
            let (offset, next) = read_factored_signed(alignment, bytes, at)?;
            Ok((RegisterRule::Offset(offset), next))
        }
        DW_CFA_VAL_OFFSET => {
            let (offset, next) = read_factored(alignment, bytes, at)?;
            Ok((RegisterRule::ValOffset(offset), next))
        }
        DW_CFA_VAL_OFFSET_SF => {
            let (offset, next) = read_factored_signed(alignment, bytes, at)?;
            Ok((RegisterRule::ValOffset(offset), next))
        }
        DW_CFA_VAL_EXPRESSION => {
            let (expression, next) = read_expression(bytes, at)?;
            Ok((RegisterRule::ValExpression(expression), next))
        }
        _ => Err(ReadError::UnknownInstruction),
    }
}

/// Returns an unsigned number times the data alignment.
#[tactic(auto, unfolding(crate::specs::Instruction::factored_at))]
#[cold]
#[inline(never)]
fn read_factored(alignment: i64, bytes: &[u8], at: usize) -> Result<(i64, usize), ReadError>
    ensures exact { result ≡ factored_at alignment bytes.now at }
    ensures forward { IfOk result (λ read. at < read.1) }
    ensures memory { result ≢ Err ReadError.OutOfMemory }
{
    let (number, next) = read_uleb128(bytes, at)?;
    let product = checked(i128::from(number) * i128::from(alignment))?;
    Ok((product, next))
}

/// Returns a register's number.
#[tactic(auto, unfolding(crate::specs::Instruction::register_at))]
#[cold]
#[inline(never)]
fn read_register(bytes: &[u8], at: usize) -> Result<(Register, usize), ReadError>
    ensures exact { result ≡ register_at bytes.now at }
    ensures forward { IfOk result (λ read. at < read.1) }
    ensures memory { result ≢ Err ReadError.OutOfMemory }
{
    let (number, next) = read_uleb128(bytes, at)?;
    match u16::try_from(number) {
        Ok(number) => Ok((Register(number), next)),
        Err(_) => Err(ReadError::NumberTooBig),
    }
}

/// Returns an expression, after its length.
#[tactic(auto, unfolding(crate::specs::Instruction::expression_at))]
fn read_expression(bytes: &[u8], at: usize) -> Result<(Expression, usize), ReadError>
    ensures exact { result ≡ expression_at bytes.now at }
    ensures forward { IfOk result (λ read. at < read.1) }
    ensures memory { result ≢ Err ReadError.OutOfMemory }
{
    let (start, end) = read_counted(bytes, at)?;
    Ok((Expression { start, end }, end))
}

/// Returns a signed number times the data alignment.
#[tactic(auto, unfolding(crate::specs::Instruction::factored_signed_at))]
fn read_factored_signed(alignment: i64, bytes: &[u8], at: usize) -> Result<(i64, usize), ReadError>
    ensures exact { result ≡ factored_signed_at alignment bytes.now at }
    ensures forward { IfOk result (λ read. at < read.1) }
    ensures memory { result ≢ Err ReadError.OutOfMemory }
{
    let (number, next) = read_sleb128(bytes, at)?;
    let product = checked(i128::from(number) * i128::from(alignment))?;
    Ok((product, next))
}

/// Returns the number, if it fits 64 bits with a sign.
fn checked(number: i128) -> Result<i64, ReadError>
    ensures exact { result ≡ checked_i64 number }
    ensures memory { result ≢ Err ReadError.OutOfMemory }
{
    match i64::try_from(number) {
        Ok(number) => Ok(number),
        Err(_) => Err(ReadError::NumberTooBig),
    }
}
