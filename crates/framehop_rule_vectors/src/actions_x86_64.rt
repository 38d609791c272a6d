//! Actions of instructions, as the processor does them.
use framehop_cfi::rule::Register;
use framehop_cfi::x86_64::{R12, R15, RBP, RBX, RSP};
use framehop_code::action::{
    Action, Address, Computation, Index, Operand, Place, Registers, Source, Stored, Width,
};
use framehop_code::x86_64::action::action_at;

const RAX: Register = Register(0);

const RCX: Register = Register(2);

const RDI: Register = Register(5);

/// The bytes of an instruction, and what it does.
type Row = (&'static [u8], Action);

/// Moves.
const MOVES: [Row; 11] = [
    // mov rbp, rsp
    (
        &[0x48, 0x89, 0xe5],
        Action::Move {
            to: Operand::Register(RBP),
            from: Source::Operand(Operand::Register(RSP)),
            width: Width::Eight,
        },
    ),
    // mov [rsp + 8], rbx
    (
        &[0x48, 0x89, 0x5c, 0x24, 0x08],
        Action::Move {
            to: Operand::Memory(Place::At(Address {
                base: Some(RSP),
                index: None,
                displacement: 8,
                from_next: false,
            })),
            from: Source::Operand(Operand::Register(RBX)),
            width: Width::Eight,
        },
    ),
    // mov r12d, [rcx + 4 * rax - 16]
    (
        &[0x44, 0x8b, 0x64, 0x81, 0xf0],
        Action::Move {
            to: Operand::Register(R12),
            from: Source::Operand(Operand::Memory(Place::At(Address {
                base: Some(RCX),
                index: Some(Index {
                    register: RAX,
                    scale: 4,
                }),
                displacement: 0xfffffffffffffff0,
                from_next: false,
            }))),
            width: Width::Four,
        },
    ),
    // mov rax, fs:[0x28]
    (
        &[0x64, 0x48, 0x8b, 0x04, 0x25, 0x28, 0x00, 0x00, 0x00],
        Action::Move {
            to: Operand::Register(RAX),
            from: Source::Operand(Operand::Memory(Place::Elsewhere)),
            width: Width::Eight,
        },
    ),
    // mov rax, [rip + 0x10]
    (
        &[0x48, 0x8b, 0x05, 0x10, 0x00, 0x00, 0x00],
        Action::Move {
            to: Operand::Register(RAX),
            from: Source::Operand(Operand::Memory(Place::At(Address {
                base: None,
                index: None,
                displacement: 0x10,
                from_next: true,
            }))),
            width: Width::Eight,
        },
    ),
    // mov dword [r12], -1
    (
        &[0x41, 0xc7, 0x04, 0x24, 0xff, 0xff, 0xff, 0xff],
        Action::Move {
            to: Operand::Memory(Place::At(Address {
                base: Some(R12),
                index: None,
                displacement: 0,
                from_next: false,
            })),
            from: Source::Immediate(0xffff_ffff_ffff_ffff),
            width: Width::Four,
        },
    ),
    // lea rsp, [r12 + 8 * r12 + 0x100]
    (
        &[0x4b, 0x8d, 0xa4, 0xe4, 0x00, 0x01, 0x00, 0x00],
        Action::Move {
            to: Operand::Register(RSP),
            from: Source::Address(Address {
                base: Some(R12),
                index: Some(Index {
                    register: R12,
                    scale: 8,
                }),
                displacement: 0x100,
                from_next: false,
            }),
            width: Width::Eight,
        },
    ),
    // movsxd rcx, dword [rbx]
    (
        &[0x48, 0x63, 0x0b],
        Action::Move {
            to: Operand::Register(RCX),
            from: Source::SignExtended(Operand::Memory(Place::At(Address {
                base: Some(RBX),
                index: None,
                displacement: 0,
                from_next: false,
            }))),
            width: Width::Eight,
        },
    ),
    // xor eax, eax
    (
        &[0x31, 0xc0],
        Action::Move {
            to: Operand::Register(RAX),
            from: Source::Immediate(0),
            width: Width::Four,
        },
    ),
    // mov rax, an immediate operand of eight bytes
    (
        &[0x48, 0xb8, 0x01, 0x02, 0x03, 0x04, 0x05, 0x06, 0x07, 0x08],
        Action::Forget {
            registers: Registers(0x0001),
            memory: None,
        },
    ),
    // mov ax, bx
    (
        &[0x66, 0x89, 0xd8],
        Action::Forget {
            registers: Registers(0x0001),
            memory: None,
        },
    ),
];

/// Arithmetic.
const SUMS: [Row; 8] = [
    // sub rsp, 0x18
    (
        &[0x48, 0x83, 0xec, 0x18],
        Action::Compute {
            computation: Computation::Subtract,
            to: Operand::Register(RSP),
            from: Source::Immediate(0x18),
            width: Width::Eight,
        },
    ),
    // and rsp, -32
    (
        &[0x48, 0x83, 0xe4, 0xe0],
        Action::Compute {
            computation: Computation::And,
            to: Operand::Register(RSP),
            from: Source::Immediate(0xffff_ffff_ffff_ffe0),
            width: Width::Eight,
        },
    ),
    // add ecx, eax
    (
        &[0x03, 0xc8],
        Action::Compute {
            computation: Computation::Add,
            to: Operand::Register(RCX),
            from: Source::Operand(Operand::Register(RAX)),
            width: Width::Four,
        },
    ),
    // lsl ecx, eax, of another map
    (
        &[0x0f, 0x03, 0xc8],
        Action::Forget {
            registers: Registers(0x0004),
            memory: None,
        },
    ),
    // add rax, 0x1000
    (
        &[0x48, 0x05, 0x00, 0x10, 0x00, 0x00],
        Action::Compute {
            computation: Computation::Add,
            to: Operand::Register(RAX),
            from: Source::Immediate(0x1000),
            width: Width::Eight,
        },
    ),
    // dec qword [rdi]
    (
        &[0x48, 0xff, 0x0f],
        Action::Compute {
            computation: Computation::Subtract,
            to: Operand::Memory(Place::At(Address {
                base: Some(RDI),
                index: None,
                displacement: 0,
                from_next: false,
            })),
            from: Source::Immediate(1),
            width: Width::Eight,
        },
    ),
    // adc rcx, rax
    (
        &[0x48, 0x11, 0xc1],
        Action::Forget {
            registers: Registers(0x0004),
            memory: None,
        },
    ),
    // cmp rsp, rax
    (
        &[0x48, 0x39, 0xc4],
        Action::Forget {
            registers: Registers(0x0000),
            memory: None,
        },
    ),
];

/// The stack.
const STACK: [Row; 8] = [
    // push rbp
    (
        &[0x55],
        Action::Push(Source::Operand(Operand::Register(RBP))),
    ),
    // push -1
    (
        &[0x6a, 0xff],
        Action::Push(Source::Immediate(0xffff_ffff_ffff_ffff)),
    ),
    // pushf
    (&[0x9c], Action::Push(Source::Unknown)),
    // pop r15
    (&[0x41, 0x5f], Action::Pop(Operand::Register(R15))),
    // pop qword [rsp + 8]
    (
        &[0x8f, 0x44, 0x24, 0x08],
        Action::Pop(Operand::Memory(Place::At(Address {
            base: Some(RSP),
            index: None,
            displacement: 8,
            from_next: false,
        }))),
    ),
    // popf
    (
        &[0x9d],
        Action::Compute {
            computation: Computation::Add,
            to: Operand::Register(RSP),
            from: Source::Immediate(8),
            width: Width::Eight,
        },
    ),
    // push of 16 bits
    (
        &[0x66, 0x50],
        Action::Forget {
            registers: Registers(0x0080),
            memory: Some(Stored {
                at: Place::Elsewhere,
                bytes: 0,
            }),
        },
    ),
    // leave
    (&[0xc9], Action::Leave),
];

/// Where instructions lead.
const WAYS: [Row; 8] = [
    // jne
    (
        &[0x75, 0xfe],
        Action::Branch(Address {
            base: None,
            index: None,
            displacement: 0xfffffffffffffffe,
            from_next: true,
        }),
    ),
    // loop
    (
        &[0xe2, 0x10],
        Action::Loop(Address {
            base: None,
            index: None,
            displacement: 0x10,
            from_next: true,
        }),
    ),
    // jmp rax
    (
        &[0xff, 0xe0],
        Action::Jump(Source::Operand(Operand::Register(RAX))),
    ),
    // jmp [rip + 4]
    (
        &[0xff, 0x25, 0x04, 0x00, 0x00, 0x00],
        Action::Jump(Source::Operand(Operand::Memory(Place::At(Address {
            base: None,
            index: None,
            displacement: 4,
            from_next: true,
        })))),
    ),
    // a call with padding before it
    (
        &[0x66, 0x66, 0x48, 0xe8, 0x00, 0x01, 0x00, 0x00],
        Action::Call(Source::Address(Address {
            base: None,
            index: None,
            displacement: 0x100,
            from_next: true,
        })),
    ),
    // call [rax + 8]
    (
        &[0xff, 0x50, 0x08],
        Action::Call(Source::Operand(Operand::Memory(Place::At(Address {
            base: Some(RAX),
            index: None,
            displacement: 8,
            from_next: false,
        })))),
    ),
    // ret 0xfff8
    (&[0xc2, 0xf8, 0xff], Action::Return(0xfff8)),
    // rep ret
    (&[0xf3, 0xc3], Action::Return(0)),
];

/// What other instructions write.
const WRITTEN: [Row; 9] = [
    // mov ah, 1
    (
        &[0xb4, 0x01],
        Action::Forget {
            registers: Registers(0x0001),
            memory: None,
        },
    ),
    // mov spl, 1
    (
        &[0x40, 0xb4, 0x01],
        Action::Forget {
            registers: Registers(0x0080),
            memory: None,
        },
    ),
    // mul rcx
    (
        &[0x48, 0xf7, 0xe1],
        Action::Forget {
            registers: Registers(0x0003),
            memory: None,
        },
    ),
    // cpuid
    (
        &[0x0f, 0xa2],
        Action::Forget {
            registers: Registers(0x000f),
            memory: None,
        },
    ),
    // lock cmpxchg [rdi], rcx
    (
        &[0xf0, 0x48, 0x0f, 0xb1, 0x0f],
        Action::Forget {
            registers: Registers(0x0001),
            memory: Some(Stored {
                at: Place::At(Address {
                    base: Some(RDI),
                    index: None,
                    displacement: 0,
                    from_next: false,
                }),
                bytes: 8,
            }),
        },
    ),
    // cmove r15, rbx
    (
        &[0x4c, 0x0f, 0x44, 0xfb],
        Action::Forget {
            registers: Registers(0x8000),
            memory: None,
        },
    ),
    // setne [rsp + 15]
    (
        &[0x0f, 0x95, 0x44, 0x24, 0x0f],
        Action::Forget {
            registers: Registers(0x0000),
            memory: Some(Stored {
                at: Place::At(Address {
                    base: Some(RSP),
                    index: None,
                    displacement: 0xf,
                    from_next: false,
                }),
                bytes: 1,
            }),
        },
    ),
    // rep stosq
    (
        &[0xf3, 0x48, 0xab],
        Action::Forget {
            registers: Registers(0x0024),
            memory: Some(Stored {
                at: Place::Elsewhere,
                bytes: 0,
            }),
        },
    ),
    // mulx rbx, rcx, rax
    (
        &[0xc4, 0xe2, 0xf3, 0xf6, 0xd8],
        Action::Forget {
            registers: Registers(0x000c),
            memory: None,
        },
    ),
];

/// What instructions on vectors write.
const VECTORS: [Row; 6] = [
    // movss [rsp - 4], xmm0
    (
        &[0xf3, 0x0f, 0x11, 0x44, 0x24, 0xfc],
        Action::Forget {
            registers: Registers(0x0000),
            memory: Some(Stored {
                at: Place::At(Address {
                    base: Some(RSP),
                    index: None,
                    displacement: 0xfffffffffffffffc,
                    from_next: false,
                }),
                bytes: 4,
            }),
        },
    ),
    // movq xmm0, [rsp]
    (
        &[0xf3, 0x0f, 0x7e, 0x04, 0x24],
        Action::Forget {
            registers: Registers(0x0000),
            memory: None,
        },
    ),
    // vmovdqu [rsp + 32], ymm1
    (
        &[0xc5, 0xfe, 0x7f, 0x4c, 0x24, 0x20],
        Action::Forget {
            registers: Registers(0x0000),
            memory: Some(Stored {
                at: Place::At(Address {
                    base: Some(RSP),
                    index: None,
                    displacement: 0x20,
                    from_next: false,
                }),
                bytes: 32,
            }),
        },
    ),
    // vmovdqu64 [rsp + 64], zmm16, whose displacement counts vectors
    (
        &[0x62, 0xe1, 0xfe, 0x48, 0x7f, 0x44, 0x24, 0x01],
        Action::Forget {
            registers: Registers(0x0000),
            memory: Some(Stored {
                at: Place::At(Address {
                    base: Some(RSP),
                    index: None,
                    displacement: 0x40,
                    from_next: false,
                }),
                bytes: 64,
            }),
        },
    ),
    // vpmovqb [rsp - 16], zmm1, whose displacement counts eight bytes
    (
        &[0x62, 0xf2, 0x7e, 0x48, 0x32, 0x4c, 0x24, 0xfe],
        Action::Forget {
            registers: Registers(0x0000),
            memory: Some(Stored {
                at: Place::At(Address {
                    base: Some(RSP),
                    index: None,
                    displacement: 0xfffffffffffffff0,
                    from_next: false,
                }),
                bytes: 8,
            }),
        },
    ),
    // vmovq rax, xmm1
    (
        &[0xc4, 0xe1, 0xf9, 0x7e, 0xc8],
        Action::Forget {
            registers: Registers(0x0001),
            memory: None,
        },
    ),
];

/// Returns the code of the first row of which something else is told.
fn wrong(rows: &[Row]) -> Option<&'static [u8]> {
    let row = rows.iter().find(|row| !is_told(row.0, row.1))?;
    Some(row.0)
}

/// Returns whether an action is told of an instruction that has all bytes of its code.
fn is_told(code: &[u8], action: Action) -> bool {
    match action_at(code, 0) {
        Some(found) => found.size == code.len() && found.action == action,
        None => false,
    }
}

#[test]
fn tells_moves(rt: HostRuntime) {
    assert_eq!(rt; wrong(&MOVES), None);
}

#[test]
fn tells_arithmetic(rt: HostRuntime) {
    assert_eq!(rt; wrong(&SUMS), None);
}

#[test]
fn tells_what_moves_the_stack_pointer(rt: HostRuntime) {
    assert_eq!(rt; wrong(&STACK), None);
}

#[test]
fn tells_where_instructions_lead(rt: HostRuntime) {
    assert_eq!(rt; wrong(&WAYS), None);
}

#[test]
fn tells_what_others_write(rt: HostRuntime) {
    assert_eq!(rt; wrong(&WRITTEN), None);
    assert_eq!(rt; wrong(&VECTORS), None);
}

/// INT3, INT, HLT, UD2, a far jump and a far return, XBEGIN, SYSENTER, LEA of a register, jumps of 16 bits, an instruction that
/// is cut off, and none.
const UNDESCRIBED: [&[u8]; 12] = [
    &[0xcc],
    &[0xcd, 0x80],
    &[0xf4],
    &[0x0f, 0x0b],
    &[0xff, 0x28],
    &[0xcb],
    &[0xc7, 0xf8, 0x00, 0x00, 0x00, 0x00],
    &[0x0f, 0x34],
    &[0x8d, 0xc0],
    &[0x66, 0xe9, 0x00, 0x00, 0x00, 0x00],
    &[0x48, 0x8b, 0x44, 0x24],
    &[],
];

#[test]
fn tells_nothing_of_others(rt: HostRuntime) {
    for code in &UNDESCRIBED {
        assert!(rt; action_at(code, 0).is_none());
    }
    assert!(rt; action_at(&[0x90], 2).is_none());
}
