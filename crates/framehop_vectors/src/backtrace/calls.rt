//! Instructions by their bytes, as GNU's disassembler prints them, and whether they are calls.
use crate::backtrace::dump::{CODE, dump_of};
use framehop_backtrace::call::{is_after_call_aarch64, is_after_call_x86_64};
use std::alloc::{AllocError, Global};
use std::test::Fail;

const X86_64: [(&'static [u8], bool); 19] = [
    // call 0x401234
    (&[0xe8, 0x2f, 0x02, 0x00, 0x00], true),
    // call *%rax, call *%r12
    (&[0xff, 0xd0], true),
    (&[0x41, 0xff, 0xd4], true),
    // call *(%rax), call *(%rsp), call *(%r12,%rax,8)
    (&[0xff, 0x10], true),
    (&[0xff, 0x14, 0x24], true),
    (&[0x41, 0xff, 0x14, 0xc4], true),
    // call *0x10(%rax), call *0x8(%rsp)
    (&[0xff, 0x50, 0x10], true),
    (&[0xff, 0x54, 0x24, 0x08], true),
    // call *0x80(%rax), call *0x80(%rsp)
    (&[0xff, 0x90, 0x80, 0x00, 0x00, 0x00], true),
    (&[0xff, 0x94, 0x24, 0x80, 0x00, 0x00, 0x00], true),
    // call *0x2fe2(%rip), call *0x404040(,%rax,8)
    (&[0xff, 0x15, 0xe2, 0x2f, 0x00, 0x00], true),
    (&[0xff, 0x14, 0xc5, 0x40, 0x40, 0x40, 0x00], true),
    // jmp 0x401234, jmp *%rax, jmp *0x2fe2(%rip)
    (&[0xe9, 0x2f, 0x02, 0x00, 0x00], false),
    (&[0xff, 0xe0], false),
    (&[0xff, 0x25, 0xe2, 0x2f, 0x00, 0x00], false),
    // push 0x2fe2(%rip), ret, nop, and no code
    (&[0xff, 0x35, 0xe2, 0x2f, 0x00, 0x00], false),
    (&[0xc3], false),
    (&[0x90], false),
    (&[], false),
];

const AARCH64: [(&'static [u8], bool); 8] = [
    // bl, forward and back
    (&[0x04, 0x00, 0x00, 0x94], true),
    (&[0xfc, 0xff, 0xff, 0x97], true),
    // blr x16, blr x0
    (&[0x00, 0x02, 0x3f, 0xd6], true),
    (&[0x00, 0x00, 0x3f, 0xd6], true),
    // b, br x16, ret
    (&[0x04, 0x00, 0x00, 0x14], false),
    (&[0x00, 0x02, 0x1f, 0xd6], false),
    (&[0xc0, 0x03, 0x5f, 0xd6], false),
    // no instruction
    (&[0x00, 0x94], false),
];

/// Whether an address of x86_64 is right after a call, where memory ends with this code.
fn is_call_x86_64(alloc: Global, code: &[u8]) -> Result<bool, AllocError> {
    let size = code.len() as u64;
    let memory = dump_of(alloc, code, size)?;
    Ok(is_after_call_x86_64(&memory, CODE.saturating_add(size)))
}

/// Whether one of aarch64 is.
fn is_call_aarch64(alloc: Global, code: &[u8]) -> Result<bool, AllocError> {
    let size = code.len() as u64;
    let memory = dump_of(alloc, code, size)?;
    Ok(is_after_call_aarch64(&memory, CODE.saturating_add(size)))
}

#[test]
fn knows_calls_of_x86_64(rt: HostRuntime) -> Result<(), Fail> {
    for (code, is_call) in X86_64 {
        let found = is_call_x86_64(rt.alloc(), code)?;
        assert!(rt; found == is_call, "{code:?}");
    }
    Ok(())
}

#[test]
fn knows_calls_of_aarch64(rt: HostRuntime) -> Result<(), Fail> {
    for (code, is_call) in AARCH64 {
        let found = is_call_aarch64(rt.alloc(), code)?;
        assert!(rt; found == is_call, "{code:?}");
    }
    Ok(())
}
