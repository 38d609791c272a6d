//! Trampolines: `__restore_rt` of glibc 2.36, as objdump prints it with the code around it, and the one of the vdso of
//! aarch64, as the assembler makes it of the kernel's source.
use framehop_backtrace::signal::is_trampoline;
use std::test::Fail;

/// `__restore_rt` at 0x3c050, with padding before and after it.
const CODE: [u8; 20] = [
    0x0f, 0x1f, 0x40, 0x00, 0x48, 0xc7, 0xc0, 0x0f, 0x00, 0x00, 0x00, 0x0f, 0x05, 0x0f, 0x1f, 0x80,
    0x00, 0x00, 0x00, 0x00,
];

/// `mov x8, #139`, `svc #0`.
const SIGRETURN: [u8; 8] = [0x68, 0x11, 0x80, 0xd2, 0x01, 0x00, 0x00, 0xd4];

#[test]
fn knows_trampolines(rt: HostRuntime) -> Result<(), Fail> {
    assert!(rt; is_trampoline(&CODE[4..]));
    assert!(rt; is_trampoline(&SIGRETURN));
    // one byte is missing, or it begins with the code before it
    assert!(rt; !is_trampoline(&CODE[4..12]));
    assert!(rt; !is_trampoline(&SIGRETURN[..7]));
    assert!(rt; !is_trampoline(&CODE));
    assert!(rt; !is_trampoline(&[]));
    // mov $16, %rax
    assert!(rt; !is_trampoline(&[0x48, 0xc7, 0xc0, 0x10, 0x00, 0x00, 0x00, 0x0f, 0x05]));
    Ok(())
}
