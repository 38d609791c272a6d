//! The registers of both architectures, and hexadecimal numbers.
use framehop_core::aarch64::{PtrAuthMask, UnwindRegsAarch64};
use framehop_core::display_utils::HexNum;
use framehop_core::x86_64::{Reg, UnwindRegsX86_64};
use std::test::Fail;

/// The highest known address, and its mask.
const MASKS: [(u64, u64); 7] = [
    (0, 0),
    (0x22a3ccff7, 0x3ffffffff),
    (0x55ba9f07e000, 0x7fffffffffff),
    (0x7f76b8019000, 0x7fffffffffff),
    (0xaaaab54f7000, 0xffffffffffff),
    (0xffffa3206000, 0xffffffffffff),
    (0xffffffffc05a9000, u64::MAX),
];

#[test]
fn masks_up_to_the_highest_known_address(rt: HostRuntime) {
    for (address, mask) in &MASKS {
        assert!(rt; PtrAuthMask::from_max_known_address(*address).0 == *mask);
    }
}

#[test]
fn strips_the_link_register(rt: HostRuntime) {
    let (all, mask) = (PtrAuthMask::new_no_strip(), PtrAuthMask::new_24_40());
    assert!(rt; (all.0, mask.0) == (u64::MAX, 0xff_ffff_ffff));
    let lr = 0xab00_0010_0000_1000;
    let mut regs = UnwindRegsAarch64::new_with_ptr_auth_mask(mask, lr, 0x10, 0x20);
    let before = (regs.lr(), regs.sp(), regs.fp(), regs.lr_mask());
    regs.set_lr(0xcd00_0000_0000_2000);
    regs.set_sp(0x30);
    regs.set_fp(0x40);
    let after = (regs.lr(), regs.sp(), regs.fp(), regs.lr_mask());
    assert!(rt; before == (0x10_0000_1000, 0x10, 0x20, mask));
    assert!(rt; after == (0x2000, 0x30, 0x40, mask));
    assert!(rt; regs != UnwindRegsAarch64::new(0x2000, 0x30, 0x40));
}

#[test]
fn keeps_each_register(rt: HostRuntime) {
    let mut regs = UnwindRegsX86_64::new(0x1000, 0x20, 0x30);
    let before = (regs.ip(), regs.sp(), regs.bp());
    regs.set_ip(0x100300);
    regs.set_sp(0x40);
    regs.set_bp(0x50);
    regs.set(Reg::RAX, 0xa);
    regs.set(Reg::RDX, 0xd);
    regs.set(Reg::R15, 0xf);
    let after = (regs.get(Reg::RSP), regs.get(Reg::RBP), regs.get(Reg::R14));
    assert!(rt; (before, after) == ((0x1000, 0x20, 0x30), (0x40, 0x50, 0)));
    assert!(rt; regs != UnwindRegsX86_64::new(0x100300, 0x40, 0x50));
}

const VALUES: [(Reg, u64); 14] = [
    (Reg::RAX, 0xa1),
    (Reg::RDX, 0xa2),
    (Reg::RCX, 0xa3),
    (Reg::RBX, 0xa4),
    (Reg::RSI, 0xa5),
    (Reg::RDI, 0xa6),
    (Reg::R8, 0xb8),
    (Reg::R9, 0xb9),
    (Reg::R10, 0xba),
    (Reg::R11, 0xbb),
    (Reg::R12, 0xbc),
    (Reg::R13, 0xbd),
    (Reg::R14, 0xbe),
    (Reg::R15, 0xbf),
];

/// All of them, and two numbers.
const PRINTED: &str =
    "UnwindRegsX86_64 { ip: a0, rax: a1, rdx: a2, rcx: a3, rbx: a4, rsi: a5, rdi: a6, rbp: a7, rsp: a8, r8: b8, r9: b9, r10: ba, r11: bb, r12: bc, r13: bd, r14: be, r15: bf } UnwindRegsAarch64 { lr: 100300, sp: 10, fp: 20 } 1003fc0de 0";

#[test]
fn prints_in_hexadecimal(rt: HostRuntime) -> Result<(), Fail> {
    let mut regs = UnwindRegsX86_64::new(0xa0, 0xa8, 0xa7);
    for (register, value) in &VALUES {
        regs.set(*register, *value);
    }
    let other = UnwindRegsAarch64::new(0x100300, 0x10, 0x20);
    let (number, zero) = (HexNum(0x1003fc0de_u64), HexNum(0_u8));
    let printed = format!(in rt.alloc(); "{regs:?} {other:?} {number:?} {zero:?}")?;
    assert!(rt; printed.as_str() == PRINTED);
    Ok(())
}
