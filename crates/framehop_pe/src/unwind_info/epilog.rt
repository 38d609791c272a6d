//! Epilogs: the instructions that a function may end with (Microsoft, "x64 exception handling",
//! "Epilog code"; encodings from Intel's manual, volume 2).
//!
//! Unwind codes describe prologs only. So in a first frame the instructions from the address on are read, before
//! the codes are run: if they are an epilog, what is left of it is undone.
ghost use Rattle.std.specs.Prelude.{◌≡◌, ◌<◌, ◌≤◌, ◌+◌, Some, None, Ok, Err, length, MatchOption, MatchResult, IfSome, IfErr};
ghost use Rattle.std.specs.Iterator.{YieldsFirst, item_count};
ghost use Rattle.framehop_pe.specs.Epilog.{instruction_at, release_at, add_at, short_add_at, long_add_at, lea_at, is_register, displaced_at, pop_at, high_pop_at, is_end, is_return, is_indirect_jump, is_wide_indirect_jump, is_near_jump_outside, is_short_jump_outside, target_of, is_outside, pops_in, epilog_of};
ghost use Rattle.framehop_core.specs.Memory.{Answering};
ghost use Rattle.framehop_pe.specs.EpilogRun.{with_sp, beside_register, stepped, ran};
ghost use Rattle.framehop_pe.specs.Answer.{IsMissingStackData};
ghost use Rattle.framehop_pe.specs.Instructions.{left_instructions};

use super::info::skip_bytes;
use super::register::register_of;
use super::state::{UnwindState, pop_word};
use crate::pe::PeUnwinderError;
use framehop_core::add_signed::checked_add_signed;
use framehop_core::x86_64::Reg;

/// An instruction of an epilog before the one that leaves the function.
#[derive(Clone, Copy, Debug, PartialEq, Eq)]
pub enum FunctionEpilogInstruction {
    /// rsp rises by this many bytes.
    AddSP(u32),
    /// rsp is set to the frame register and this many bytes.
    AddSPFromFP(i32),
    /// The register is popped.
    Pop(Reg),
}

/// The instructions of an epilog that are left, but for the one that leaves the function.
#[derive(Clone, Copy, Drop)]
pub struct EpilogInstructions<'a> {
    /// The instruction that releases the stack, if it has not run.
    release: Option<FunctionEpilogInstruction>,
    /// The bytes from the next pop on.
    bytes: &'a [u8],
}

impl<'a> EpilogInstructions<'a> {
    /// Reads what is left of an epilog at the front of the bytes up to the function's end, where
    /// the function has a size in bytes and perhaps a frame register. `None` where they are no
    /// epilog.
    pub(crate) fn parse_sequence(
        bytes: &'a [u8],
        frame_register: Option<Reg>,
        function_size: u32,
    ) -> Option<EpilogInstructions<'a>>
        ensures { MatchOption result
            (epilog_of frame_register function_size bytes.now ≡ None)
            (λ instructions. epilog_of frame_register function_size bytes.now
            ≡ Some (left_instructions instructions)) }
    {
        let instructions = EpilogInstructions::release(bytes, frame_register);
        if is_end(skip_pops(instructions.bytes), function_size) {
            Some(instructions)
        } else {
            None
        }
    }

    /// Reads the instruction that releases the stack, if the bytes begin with one.
    fn release(bytes: &'a [u8], frame_register: Option<Reg>) -> EpilogInstructions<'a>
        ensures { (result.release, result.bytes.now) ≡ release_at frame_register bytes.entry.now }
    {
        match read_release(bytes, frame_register) {
            Some((instruction, size)) => EpilogInstructions {
                release: Some(instruction),
                bytes: skip_bytes(bytes, size),
            },
            None => EpilogInstructions {
                release: None,
                bytes,
            },
        }
    }
}

impl<'a> Iterator for EpilogInstructions<'a> {
    type Item = FunctionEpilogInstruction;

    ghost next_gives = { YieldsFirst left_instructions };

    ghost remaining = { item_count left_instructions };

    fn next(&mut self) -> Option<FunctionEpilogInstruction> {
        if let Some(instruction) = self.release.take() {
            return Some(instruction);
        }
        let (register, size) = read_pop(self.bytes)?;
        self.bytes = skip_bytes(self.bytes, size);
        Some(FunctionEpilogInstruction::Pop(register))
    }
}

/// Returns the bytes after the pops at the front.
fn skip_pops(bytes: &[u8]) -> &[u8]
    ensures { result.now ≡ (pops_in 0 bytes.entry.now).1 }
{
    let mut rest = bytes;
    while let Some((_, size)) = read_pop(rest) {
        rest = skip_bytes(rest, size);
    }
    rest
}

/// Reads an instruction that releases the stack at the front of these bytes, and its size in bytes:
/// `add rsp` of a number that is not negative, or `lea rsp` from the frame register.
fn read_release(
    bytes: &[u8],
    frame_register: Option<Reg>,
) -> Option<(FunctionEpilogInstruction, usize)>
    ensures exact { result ≡ instruction_at frame_register bytes.now }
    ensures within { IfSome result (λ read. read.1 ≤ length bytes.now) }
{
    match read_add(bytes) {
        Some(read) => Some(read),
        None => read_lea(bytes, frame_register),
    }
}

/// Reads `add rsp, imm8` or `add rsp, imm32`, and its size in bytes.
#[tactic(auto, unfolding(crate::specs::Epilog::add_at))]
fn read_add(bytes: &[u8]) -> Option<(FunctionEpilogInstruction, usize)>
    ensures exact { result ≡ add_at bytes.now }
    ensures within { IfSome result (λ read. read.1 ≤ length bytes.now) }
{
    let [prefix, opcode, operand, rest @ ..] = bytes else {
        return None;
    };
    if *prefix != 0x48 || *operand != 0xc4 {
        return None;
    }
    match *opcode {
        0x83 => read_short_add(rest),
        0x81 => read_long_add(rest),
        _ => None,
    }
}

/// Reads the number of `add rsp, imm8`.
fn read_short_add(number: &[u8]) -> Option<(FunctionEpilogInstruction, usize)>
    ensures exact { result ≡ short_add_at number.now }
    ensures within { IfSome result (λ read. read.1 ≤ length number.now + 3) }
{
    let [offset, ..] = *number else {
        return None;
    };
    if offset >= 0x80 {
        return None;
    }
    Some((FunctionEpilogInstruction::AddSP(u32::from(offset)), 4))
}

/// Reads the number of `add rsp, imm32`.
fn read_long_add(number: &[u8]) -> Option<(FunctionEpilogInstruction, usize)>
    ensures exact { result ≡ long_add_at number.now }
    ensures within { IfSome result (λ read. read.1 ≤ length number.now + 3) }
{
    let [n0, n1, n2, n3, ..] = *number else {
        return None;
    };
    let offset = u32::from_le_bytes([n0, n1, n2, n3]);
    if offset >= 0x8000_0000 {
        return None;
    }
    Some((FunctionEpilogInstruction::AddSP(offset), 7))
}

/// Reads `lea rsp, [register + disp8]` or `lea rsp, [register + disp32]` of the frame register, and
/// its size in bytes.
#[tactic(auto, unfolding(crate::specs::Epilog::lea_at))]
fn read_lea(bytes: &[u8], frame_register: Option<Reg>) -> Option<(FunctionEpilogInstruction, usize)>
    ensures exact { result ≡ lea_at frame_register bytes.now }
    ensures within { IfSome result (λ read. read.1 ≤ length bytes.now) }
{
    let [prefix, opcode, modrm, rest @ ..] = bytes else {
        return None;
    };
    if *opcode != 0x8d {
        return None;
    }
    let low = *modrm % 8;
    let number = match *prefix {
        0x48 => low,
        0x49 => low + 8,
        _ => return None,
    };
    if !is_register(frame_register, register_of(number)) {
        return None;
    }
    if low != 4 {
        return read_displacement(*modrm / 8, rest, 3);
    }
    let [sib, rest @ ..] = rest else {
        return None;
    };
    if *sib != 0x24 {
        return None;
    }
    read_displacement(*modrm / 8, rest, 4)
}

/// Returns whether this register is the frame register.
fn is_register(frame_register: Option<Reg>, register: Reg) -> bool
    ensures { result ≡ is_register frame_register register }
{
    match frame_register {
        Some(frame) => frame == register,
        None => false,
    }
}

/// Reads the displacement of `lea rsp`, by the high bits of its ModRM byte, and the size of the
/// whole instruction.
fn read_displacement(
    mode: u8,
    bytes: &[u8],
    size: usize,
) -> Option<(FunctionEpilogInstruction, usize)>
    requires { size ≤ 4 }
    ensures exact { result ≡ displaced_at mode bytes.now size }
    ensures within { IfSome result (λ read. read.1 ≤ length bytes.now + size) }
{
    match mode {
        0x0c => {
            let [d0, ..] = *bytes else {
                return None;
            };
            let displacement = i32::from(d0.cast_signed());
            Some((
                FunctionEpilogInstruction::AddSPFromFP(displacement),
                size + 1,
            ))
        }
        0x14 => {
            let [d0, d1, d2, d3, ..] = *bytes else {
                return None;
            };
            let displacement = u32::from_le_bytes([d0, d1, d2, d3]).cast_signed();
            Some((
                FunctionEpilogInstruction::AddSPFromFP(displacement),
                size + 4,
            ))
        }
        _ => None,
    }
}

/// Reads a pop at the front of these bytes, of any register but rsp, and its size in bytes.
#[tactic(auto, unfolding(crate::specs::Epilog::pop_at))]
fn read_pop(bytes: &[u8]) -> Option<(Reg, usize)>
    ensures exact { result ≡ pop_at bytes.now }
    ensures within { IfSome result (λ read. (0 < read.1) × (read.1 ≤ length bytes.now)) }
{
    let [opcode, rest @ ..] = bytes else {
        return None;
    };
    match *opcode {
        0x5c => None,
        0x58..=0x5f => Some((register_of(*opcode - 0x58), 1)),
        0x41 => read_high_pop(rest),
        _ => None,
    }
}

/// Reads a pop of r8 to r15 after its prefix, and the size of the whole instruction.
fn read_high_pop(bytes: &[u8]) -> Option<(Reg, usize)>
    ensures exact { result ≡ high_pop_at bytes.now }
    ensures within { IfSome result (λ read. (0 < read.1) × (read.1 ≤ length bytes.now + 1)) }
{
    let [opcode, ..] = *bytes else {
        return None;
    };
    match opcode {
        0x58..=0x5f => Some((register_of(opcode - 0x50), 2)),
        _ => None,
    }
}

/// Returns whether the bytes up to the function's end begin with an instruction that leaves it: a
/// return, a jump through a register or memory, or a jump to a target outside the function.
#[tactic(auto, unfolding(crate::specs::Epilog::is_end))]
fn is_end(bytes: &[u8], function_size: u32) -> bool
    ensures { result ≡ is_end function_size bytes.now }
{
    let [opcode, rest @ ..] = bytes else {
        return false;
    };
    match *opcode {
        0xc3 => true,
        0xf3 => is_return(rest),
        0xff => is_indirect_jump(rest),
        0x48 => is_wide_indirect_jump(rest),
        0xe9 => is_near_jump_outside(rest, bytes.len(), function_size),
        0xeb => is_short_jump_outside(rest, bytes.len(), function_size),
        _ => false,
    }
}

/// Returns whether the bytes after a prefix `F3` are a return.
fn is_return(bytes: &[u8]) -> bool
    ensures { result ≡ is_return bytes.now }
{
    let [opcode, ..] = *bytes else {
        return false;
    };
    opcode == 0xc3
}

/// Returns whether the ModRM byte after `FF` is that of a jump through memory.
fn is_indirect_jump(bytes: &[u8]) -> bool
    ensures { result ≡ is_indirect_jump bytes.now }
{
    let [modrm, ..] = *bytes else {
        return false;
    };
    modrm / 8 == 4
}

/// Returns whether the bytes after a prefix `48` are a jump through memory.
fn is_wide_indirect_jump(bytes: &[u8]) -> bool
    ensures { result ≡ is_wide_indirect_jump bytes.now }
{
    let [opcode, rest @ ..] = bytes else {
        return false;
    };
    *opcode == 0xff && is_indirect_jump(rest)
}

/// Returns whether the displacement after `E9` leads outside the function, with so many bytes from
/// the jump to the function's end.
fn is_near_jump_outside(bytes: &[u8], left: usize, function_size: u32) -> bool
    ensures { result ≡ is_near_jump_outside function_size left bytes.now }
{
    let [d0, d1, d2, d3, ..] = *bytes else {
        return false;
    };
    let displacement = u32::from_le_bytes([d0, d1, d2, d3]).cast_signed();
    is_outside(
        target_of(function_size, left, 5, displacement),
        function_size,
    )
}

/// Returns whether the displacement after `EB` leads outside the function, with so many bytes from
/// the jump to the function's end.
fn is_short_jump_outside(bytes: &[u8], left: usize, function_size: u32) -> bool
    ensures { result ≡ is_short_jump_outside function_size left bytes.now }
{
    let [d0, ..] = *bytes else {
        return false;
    };
    let displacement = i32::from(d0.cast_signed());
    is_outside(
        target_of(function_size, left, 2, displacement),
        function_size,
    )
}

/// Returns where a jump leads, in bytes from the function's begin, with so many bytes from it to the
/// function's end. The displacement counts from the end of the jump.
fn target_of(function_size: u32, left: usize, size: i32, displacement: i32) -> i64
    ensures { result ≡ target_of function_size left size displacement }
{
    let place = (function_size as usize).saturating_sub(left);
    place as i64 + i64::from(size) + i64::from(displacement)
}

/// Returns whether a target, in bytes from the function's begin, is outside the function.
fn is_outside(target: i64, function_size: u32) -> bool
    ensures { result ≡ is_outside function_size target }
{
    target < 0 || target >= i64::from(function_size)
}

/// Runs what is left of an epilog. Returns the return address (AVMA); the registers are the
/// caller's but for ip. `MissingStackData` where a word can't be read or an address does not fit.
pub(crate) fn run_epilog<S: UnwindState>(
    instructions: EpilogInstructions<'_>,
    frame_register: Option<Reg>,
    state: &mut S,
) -> Result<u64, PeUnwinderError>
    requires { S.can_read state.old }
    ensures callable { S.can_read state.new }
    ensures same_loan { S.loan state.new ≡ S.loan state.old }
    ensures stack { IfErr result IsMissingStackData }
    ensures answers { Answering S.calls (S.callback state.old) (S.callback state.new) (λ memory. MatchResult result
        (λ address. ran memory frame_register (left_instructions instructions.entry) (S.registers state.old)
        ≡ Ok (address, S.registers state.new))
        (λ error. ran memory frame_register (left_instructions instructions.entry) (S.registers state.old)
        ≡ Err error)) }
{
    for instruction in instructions {
        run_instruction(instruction, frame_register, state)?;
    }
    pop_word(state)
}

/// Runs one instruction of an epilog. Where that is not done, the registers stay as they are.
fn run_instruction<S: UnwindState>(
    instruction: FunctionEpilogInstruction,
    frame_register: Option<Reg>,
    state: &mut S,
) -> Result<(), PeUnwinderError>
    requires { S.can_read state.old }
    ensures callable { S.can_read state.new }
    ensures same_loan { S.loan state.new ≡ S.loan state.old }
    ensures kept { IfErr result (λ _. S.registers state.new ≡ S.registers state.old) }
    ensures stack { IfErr result IsMissingStackData }
    ensures answers { Answering S.calls (S.callback state.old) (S.callback state.new) (λ memory. MatchResult result
        (λ _. stepped memory frame_register instruction (S.registers state.old) ≡ Ok (S.registers state.new))
        (λ error. stepped memory frame_register instruction (S.registers state.old) ≡ Err error)) }
{
    match instruction {
        FunctionEpilogInstruction::AddSP(offset) => {
            let sp = state.read_register(Reg::RSP).checked_add(u64::from(offset));
            set_sp(sp, state)
        }
        FunctionEpilogInstruction::AddSPFromFP(offset) => {
            let sp = beside_register(frame_register, offset, state);
            set_sp(sp, state)
        }
        FunctionEpilogInstruction::Pop(register) => {
            let word = pop_word(state)?;
            state.write_register(register, word);
            Ok(())
        }
    }
}

/// Returns the address (AVMA) at this many bytes from the frame register.
fn beside_register<S: UnwindState>(
    frame_register: Option<Reg>,
    offset: i32,
    state: &S,
) -> Option<u64>
    ensures { result ≡ beside_register frame_register offset (S.registers state.now) }
{
    checked_add_signed(state.read_register(frame_register?), i64::from(offset))
}

/// Sets rsp, if the address (AVMA) is there; else the registers stay as they are.
fn set_sp<S: UnwindState>(sp: Option<u64>, state: &mut S) -> Result<(), PeUnwinderError>
    ensures written { MatchResult result
        (λ _. with_sp sp (S.registers state.old) ≡ Ok (S.registers state.new))
        (λ error. (with_sp sp (S.registers state.old) ≡ Err error)) }
    ensures kept { IfErr result (λ _. S.registers state.new ≡ S.registers state.old) }
    ensures stack { IfErr result IsMissingStackData }
    ensures callable { S.can_read state.old → S.can_read state.new }
    ensures same_loan { S.loan state.new ≡ S.loan state.old }
    ensures unread { S.callback state.new ≡ S.callback state.old }
{
    match sp {
        Some(sp) => {
            state.write_register(Reg::RSP, sp);
            Ok(())
        }
        None => Err(PeUnwinderError::MissingStackData(None)),
    }
}
