//! The codes of unwind info and the operations that undo them (Microsoft, "x64 exception handling",
//! struct UNWIND_CODE).
ghost use Rattle.std.specs.Prelude.{◌≡◌, ◌<◌, ◌≤◌, ◌^◌, length, IfSome};
ghost use Rattle.framehop_pe.specs.Codes.{unwind_code_at, operation_at, large_allocation, saved_register, short_at, long_at};

use super::register::register_of;
use framehop_core::x86_64::Reg;

/// What undoes one code of a function's prolog.
#[derive(Clone, Copy, Debug, PartialEq, Eq)]
pub enum UnwindOperation {
    /// rsp rises by this many bytes.
    UnStackAlloc(u32),
    /// The register is popped.
    PopNonVolatile(Reg),
    /// rsp is what the frame register says.
    RestoreSp,
    /// The register is the word at this many bytes above the frame's base.
    Read(Reg, u32),
    /// Nothing is undone: a saved XMM register.
    Skip,
    /// A machine frame, with an error code where `true`. It ends the list.
    MachineFrame(bool),
}

const UWOP_PUSH_NONVOL: u8 = 0;

const UWOP_ALLOC_LARGE: u8 = 1;

const UWOP_ALLOC_SMALL: u8 = 2;

const UWOP_SET_FPREG: u8 = 3;

const UWOP_SAVE_NONVOL: u8 = 4;

const UWOP_SAVE_NONVOL_FAR: u8 = 5;

const UWOP_SAVE_XMM128: u8 = 8;

const UWOP_SAVE_XMM128_FAR: u8 = 9;

const UWOP_PUSH_MACHFRAME: u8 = 10;

/// A code: where its instruction ends in the prolog, and what undoes it.
#[derive(Clone, Copy)]
pub struct UnwindCode {
    /// The offset of the instruction's end from the function's begin, in bytes.
    pub offset_in_prolog: u8,
    /// What undoes the instruction.
    pub operation: UnwindOperation,
}

/// Reads the code at the front of these bytes, in unwind info with a frame register or without one,
/// and returns it with its size in bytes. `None` where it is too short or unknown.
#[inline]
#[tactic(auto, unfolding(crate::specs::Codes::unwind_code_at))]
pub(crate) fn read_code(codes: &[u8], has_frame_register: bool) -> Option<(UnwindCode, usize)>
    ensures exact { result ≡ unwind_code_at has_frame_register codes.now }
    ensures within { IfSome result (λ read. (0 < read.1) × (read.1 ≤ length codes.now)) }
{
    let [offset_in_prolog, code, ..] = *codes else {
        return None;
    };
    let (operation, size) = read_operation(code % 16, code / 16, codes, has_frame_register)?;
    let code = UnwindCode {
        offset_in_prolog,
        operation,
    };
    Some((code, size))
}

/// Reads the operation of a code, by its number and info, and the size of the code in bytes.
#[tactic(auto, unfolding(crate::specs::Codes::operation_at))]
fn read_operation(
    code: u8,
    info: u8,
    codes: &[u8],
    has_frame_register: bool,
) -> Option<(UnwindOperation, usize)>
    requires info { info < 16 }
    requires slot { 2 ≤ length codes.now }
    ensures exact { result ≡ operation_at has_frame_register code info codes.now }
    ensures within { IfSome result (λ read. (0 < read.1) × (read.1 ≤ length codes.now)) }
{
    match code {
        UWOP_PUSH_NONVOL => Some((UnwindOperation::PopNonVolatile(saved_register(info)?), 2)),
        UWOP_ALLOC_LARGE => read_large_allocation(info, codes),
        UWOP_ALLOC_SMALL => Some((UnwindOperation::UnStackAlloc(u32::from(info) * 8 + 8), 2)),
        UWOP_SET_FPREG if has_frame_register => Some((UnwindOperation::RestoreSp, 2)),
        UWOP_SAVE_NONVOL => {
            let register = saved_register(info)?;
            Some((UnwindOperation::Read(register, read_short(codes)? * 8), 4))
        }
        UWOP_SAVE_NONVOL_FAR => {
            let register = saved_register(info)?;
            Some((UnwindOperation::Read(register, read_long(codes)?), 6))
        }
        UWOP_SAVE_XMM128 => {
            let _ = read_short(codes)?;
            Some((UnwindOperation::Skip, 4))
        }
        UWOP_SAVE_XMM128_FAR => {
            let _ = read_long(codes)?;
            Some((UnwindOperation::Skip, 6))
        }
        UWOP_PUSH_MACHFRAME if info <= 1 => Some((UnwindOperation::MachineFrame(info == 1), 2)),
        _ => None,
    }
}

/// Reads the operation of UWOP_ALLOC_LARGE, by its info, and the size of the code in bytes.
fn read_large_allocation(info: u8, codes: &[u8]) -> Option<(UnwindOperation, usize)>
    ensures exact { result ≡ large_allocation info codes.now }
    ensures within { IfSome result (λ read. (0 < read.1) × (read.1 ≤ length codes.now)) }
{
    match info {
        0 => Some((UnwindOperation::UnStackAlloc(read_short(codes)? * 8), 4)),
        1 => Some((UnwindOperation::UnStackAlloc(read_long(codes)?), 6)),
        _ => None,
    }
}

/// Returns the register of a number that a prolog may push or save: any but rsp.
fn saved_register(number: u8) -> Option<Reg>
    requires { number < 16 }
    ensures { result ≡ saved_register number }
{
    match register_of(number) {
        Reg::RSP => None,
        register => Some(register),
    }
}

/// Reads the number in the second slot of a code.
fn read_short(codes: &[u8]) -> Option<u32>
    ensures exact { result ≡ short_at codes.now }
    ensures fits { IfSome result (λ number. number < 2 ^ 16) }
{
    let [_, _, n0, n1, ..] = *codes else {
        return None;
    };
    Some(u32::from(u16::from_le_bytes([n0, n1])))
}

/// Reads the number in the second and third slot of a code.
fn read_long(codes: &[u8]) -> Option<u32>
    ensures { result ≡ long_at codes.now }
{
    let [_, _, n0, n1, n2, n3, ..] = *codes else {
        return None;
    };
    Some(u32::from_le_bytes([n0, n1, n2, n3]))
}
