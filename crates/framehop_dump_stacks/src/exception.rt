//! Exceptions of Windows as text.
ghost use Rattle.std.specs.Prelude.{◌≡◌, IfOk, option_map, string_bytes};
ghost use Rattle.framehop_dump_stacks.specs.Exception.{exception_name, unnamed_exception, access_kind, access_text, where_text, exception_text};
ghost use Rattle.framehop_dump_stacks.specs.Signal.{named};

use framehop_dumps::dump::{Access, Exception};
use std::alloc::{AllocError, Global};

/// Returns an exception as it is printed: its name, and the access to memory that failed, or else the address of the
/// instruction.
///
/// Source: `winnt.h`, `EXCEPTION_RECORD`; `ntstatus.h`.
pub(crate) fn exception_text(alloc: Global, exception: Exception) -> Result<String, AllocError>
    ensures { IfOk result (λ text. string_bytes text ≡ exception_text exception) }
{
    let mut text = code_text(alloc, exception.code)?;
    let place = where_text(alloc, exception.address, exception.access)?;
    text.push_str(place.as_str())?;
    Ok(text)
}

/// Returns the name of an exception, or its code.
fn code_text(alloc: Global, code: u32) -> Result<String, AllocError>
    ensures { IfOk result (λ text. string_bytes text ≡ named (exception_name code) (unnamed_exception code)) }
{
    match exception_name(code) {
        Some(name) => String::from_str(alloc, name),
        None => unnamed_exception(alloc, code),
    }
}

/// Returns the code of an exception that has no name.
pub(crate) fn unnamed_exception(alloc: Global, code: u32) -> Result<String, AllocError>
    ensures { IfOk result (λ text. string_bytes text ≡ unnamed_exception code) }
{
    Ok(format!(in alloc; "exception 0x{code:x}")?)
}

/// Returns which access to memory failed, or else the address of the instruction.
fn where_text(alloc: Global, address: u64, access: Option<Access>) -> Result<String, AllocError>
    ensures { IfOk result (λ text. string_bytes text ≡ where_text address access) }
{
    let Some(access) = access else {
        return Ok(format!(in alloc; " (at 0x{address:x})")?);
    };
    let access = access_text(alloc, access)?;
    let access = access.as_str();
    Ok(format!(in alloc; " ({access})")?)
}

/// Returns an access to memory with its address.
fn access_text(alloc: Global, access: Access) -> Result<String, AllocError>
    ensures { IfOk result (λ text. string_bytes text ≡ access_text access) }
{
    let kind = access_kind(alloc, access.kind)?;
    let (kind, address) = (kind.as_str(), access.address);
    Ok(format!(in alloc; "{kind} of 0x{address:x}")?)
}

/// Returns which access to memory it was.
fn access_kind(alloc: Global, kind: u64) -> Result<String, AllocError>
    ensures { IfOk result (λ text. string_bytes text ≡ access_kind kind) }
{
    match kind {
        0 => String::from_str(alloc, "read"),
        1 => String::from_str(alloc, "write"),
        8 => String::from_str(alloc, "execution"),
        other => Ok(format!(in alloc; "access {other}")?),
    }
}

/// Returns the name of an exception.
fn exception_name(code: u32) -> Option<&'static str>
    ensures { option_map (λ name. name.now) result ≡ exception_name code }
{
    match code {
        0x4001_0005 => Some("DBG_CONTROL_C"),
        0x4001_0008 => Some("DBG_CONTROL_BREAK"),
        0x8000_0001 => Some("EXCEPTION_GUARD_PAGE"),
        0x8000_0002 => Some("EXCEPTION_DATATYPE_MISALIGNMENT"),
        0x8000_0003 => Some("EXCEPTION_BREAKPOINT"),
        0x8000_0004 => Some("EXCEPTION_SINGLE_STEP"),
        0xc000_0005 => Some("EXCEPTION_ACCESS_VIOLATION"),
        0xc000_0006 => Some("EXCEPTION_IN_PAGE_ERROR"),
        0xc000_0008 => Some("EXCEPTION_INVALID_HANDLE"),
        0xc000_001d => Some("EXCEPTION_ILLEGAL_INSTRUCTION"),
        0xc000_0025 => Some("EXCEPTION_NONCONTINUABLE_EXCEPTION"),
        0xc000_0026 => Some("EXCEPTION_INVALID_DISPOSITION"),
        0xc000_008c => Some("EXCEPTION_ARRAY_BOUNDS_EXCEEDED"),
        0xc000_008d => Some("EXCEPTION_FLT_DENORMAL_OPERAND"),
        0xc000_008e => Some("EXCEPTION_FLT_DIVIDE_BY_ZERO"),
        0xc000_008f => Some("EXCEPTION_FLT_INEXACT_RESULT"),
        0xc000_0090 => Some("EXCEPTION_FLT_INVALID_OPERATION"),
        0xc000_0091 => Some("EXCEPTION_FLT_OVERFLOW"),
        0xc000_0092 => Some("EXCEPTION_FLT_STACK_CHECK"),
        0xc000_0093 => Some("EXCEPTION_FLT_UNDERFLOW"),
        0xc000_0094 => Some("EXCEPTION_INT_DIVIDE_BY_ZERO"),
        0xc000_0095 => Some("EXCEPTION_INT_OVERFLOW"),
        0xc000_0096 => Some("EXCEPTION_PRIV_INSTRUCTION"),
        0xc000_00fd => Some("EXCEPTION_STACK_OVERFLOW"),
        0xc000_0135 => Some("STATUS_DLL_NOT_FOUND"),
        0xc000_0194 => Some("EXCEPTION_POSSIBLE_DEADLOCK"),
        0xc000_0374 => Some("STATUS_HEAP_CORRUPTION"),
        0xc000_0409 => Some("STATUS_STACK_BUFFER_OVERRUN"),
        0xc000_0420 => Some("STATUS_ASSERTION_FAILURE"),
        0xc000_0602 => Some("STATUS_FAIL_FAST_EXCEPTION"),
        _ => None,
    }
}
