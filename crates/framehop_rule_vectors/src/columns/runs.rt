//! Callers by running code that is made by hand.
ghost use Rattle.std.specs.Prelude.{ℕ, Option, ◌≡◌, nat_lt, if◌then◌else◌, [], drop, length};

use crate::columns::frames::{bytes_of, memory_of};
use framehop_callers::convention::Convention;
use framehop_callers::memory::WordMemory;
use framehop_callers::register_file::RegisterFile;
use framehop_callers::run::{RunCaller, caller_by_runs};
use framehop_callers::step::RunMemory;
use framehop_cfi::aarch64::{SP, X19, X29, X30};
use framehop_cfi::rule::Register;
use framehop_cfi::x86_64::{R15, RBP, RBX, RSP};
use framehop_code::action::Instruction;
use framehop_code::x86_64::action::action_at;
use std::alloc::{AllocError, Global};
use std::test::Fail;

const RAX: Register = Register(0);

const RDI: Register = Register(5);

/// Where code begins (AVMA).
const CODE: u64 = 0x1000;

/// Where the memory begins (AVMA): a table of jumps, then the stack.
const MEMORY: u64 = 0x7000;

const WORDS: [u64; 12] = [
    0x1005, 0x100c, 0, 0, 0x7060, 0x2005, 0, 0, 0x3005, 0x4005, 0x5005, 0,
];

/// A process with code.
#[derive(Clone, Copy, Drop)]
struct Process<'a, M> {
    convention: Convention,
    memory: &'a M,
    code: &'a [u8],
    /// The function that unwind data covers (AVMA).
    covered: u64,
}

impl<M: WordMemory> WordMemory for Process<'_, M> {
    ghost memory = { λ process. M.memory process.memory.now };

    fn word(&self, address: u64) -> Option<u64> {
        self.memory.word(address)
    }
}

impl<M: WordMemory> RunMemory for Process<'_, M> {
    ghost use Rattle.std.specs.Prelude.{◌-◌, ◌==◌, nat_lt, if◌then◌else◌, [], drop, length};

    ghost convention = { λ process. process.convention };

    ghost code = { λ process address. if nat_lt address 0x1000 then []
        else (if nat_lt (length process.code.now) (address - 0x1000) then [] else drop (address - 0x1000) process.code.now) };

    ghost covers = { λ process address. address == process.covered };

    fn convention(&self) -> Convention {
        self.convention
    }

    fn instruction_at(&self, address: u64) -> Option<Instruction> {
        action_at(self.code_at(address), 0)
    }

    fn code_at(&self, address: u64) -> &[u8] {
        if address < CODE {
            return &[];
        }
        code_from(self.code, (address - CODE) as usize)
    }

    fn is_covered(&self, address: u64) -> bool {
        address == self.covered
    }
}

/// Returns the code from an offset on.
fn code_from(code: &[u8], offset: usize) -> &[u8]
    ensures { result.now ≡ (if nat_lt (length code.now) offset then [] else drop offset code.now) }
{
    if offset > code.len() {
        return &[];
    }
    &code[offset..]
}

/// Code, rsp and another register, the function that unwind data covers, and what a run from its start finds: the return
/// address, rsp and the other register.
type Run = (
    &'static [u8],
    u64,
    (Register, u64),
    u64,
    Option<(u64, Option<u64>, Option<u64>)>,
);

const FOUND: Option<(u64, Option<u64>, Option<u64>)> = Some((0x3005, Some(0x7048), Some(77)));

const NOT_KNOWN: Option<(u64, Option<u64>, Option<u64>)> = Some((0x3005, Some(0x7048), None));

/// push rbx; sub rsp, 32; mov [rsp + 8], rdi; test eax, eax; je +4; add rsp, 0; add rsp, 32; pop rbx; ret
const EPILOGUE: &'static [u8] = &[
    0x53, 0x48, 0x83, 0xec, 0x20, 0x48, 0x89, 0x7c, 0x24, 0x08, 0x85, 0xc0, 0x74, 0x04, 0x48, 0x83,
    0xc4, 0x00, 0x48, 0x83, 0xc4, 0x20, 0x5b, 0xc3,
];

/// mov rcx, rsp; and rsp, -32; call +4; mov rsp, rcx; ret; helper: push rbx; pop rbx; ret
const HELPER: &'static [u8] = &[
    0x48, 0x89, 0xe1, 0x48, 0x83, 0xe4, 0xe0, 0xe8, 0x04, 0x00, 0x00, 0x00, 0x48, 0x89, 0xcc, 0xc3,
    0x53, 0x5b, 0xc3,
];

/// push rbx; call +2; pop rbx; ret; a function: ud2
const CALL: &'static [u8] = &[0x53, 0xe8, 0x02, 0x00, 0x00, 0x00, 0x5b, 0xc3, 0x0f, 0x0b];

/// mov rax, [8 * rdi + 0x7000]; jmp rax; ud2; ret
const TABLE: &'static [u8] = &[
    0x48, 0x8b, 0x04, 0xfd, 0x00, 0x70, 0x00, 0x00, 0xff, 0xe0, 0x0f, 0x0b, 0xc3,
];

const RUNS: [Run; 15] = [
    (EPILOGUE, 0x7040, (RBX, 77), 0, FOUND),
    // without a stack pointer there is no run
    (EPILOGUE, 0x7040, (RSP, 0), 0, None),
    (HELPER, 0x7040, (RBX, 77), 0, FOUND),
    // passed over, the helper need not keep rcx
    (HELPER, 0x7040, (RBX, 77), 0x1010, None),
    // call +1; ret; helper: pop rcx; push rcx; ret
    (
        &[0xe8, 0x01, 0x00, 0x00, 0x00, 0xc3, 0x59, 0x51, 0xc3],
        0x7040,
        (RBX, 77),
        0,
        FOUND,
    ),
    // a covered function is passed over
    (CALL, 0x7040, (RBX, 77), 0x1008, FOUND),
    (CALL, 0x7040, (RDI, 77), 0x1008, NOT_KNOWN),
    (CALL, 0x7040, (RBX, 77), 0, None),
    // a call of the next instruction is no function: call +0; pop rax; push rbx; pop rbx; ret
    (
        &[0xe8, 0x00, 0x00, 0x00, 0x00, 0x58, 0x53, 0x5b, 0xc3],
        0x7040,
        (RAX, 77),
        0,
        Some((0x3005, Some(0x7048), Some(0x1005))),
    ),
    (
        TABLE,
        0x7040,
        (RDI, 1),
        0,
        Some((0x3005, Some(0x7048), Some(1))),
    ),
    (TABLE, 0x7040, (RDI, 2), 0, None),
    // runs that differ: je +4; add rsp, 8; ret
    (
        &[0x74, 0x04, 0x48, 0x83, 0xc4, 0x08, 0xc3],
        0x7040,
        (RBX, 77),
        0,
        None,
    ),
    // je +1; ret; xor ebx, ebx; ret
    (
        &[0x74, 0x01, 0xc3, 0x31, 0xdb, 0xc3],
        0x7040,
        (RBX, 77),
        0,
        NOT_KNOWN,
    ),
    // je +1; ret; ud2
    (&[0x74, 0x01, 0xc3, 0x0f, 0x0b], 0x7040, (RBX, 77), 0, FOUND),
    // dec ecx; jne -4; ret 16
    (
        &[0xff, 0xc9, 0x75, 0xfc, 0xc2, 0x10, 0x00],
        0x7040,
        (RBX, 77),
        0,
        Some((0x3005, Some(0x7058), Some(77))),
    ),
];

/// Code, the registers that are known and another one, the function that unwind data covers, and what a run from its start finds:
/// the return address, sp and that register.
type RunOfAarch64 = (
    &'static [u8],
    &'static [(Register, u64)],
    Register,
    u64,
    Option<(u64, Option<u64>, Option<u64>)>,
);

/// stp x29, x30, [sp, #-32]!; str x19, [sp, #16]; mov x19, x0; cbz x0, .+8; add x19, x19, #1; ldr x19, [sp, #16]; ldp x29, x30, [sp], #32; ret
const SAVED: &'static [u8] = &[
    0xfd, 0x7b, 0xbe, 0xa9, 0xf3, 0x0b, 0x00, 0xf9, 0xf3, 0x03, 0x00, 0xaa, 0x40, 0x00, 0x00, 0xb4,
    0x73, 0x06, 0x00, 0x91, 0xf3, 0x0b, 0x40, 0xf9, 0xfd, 0x7b, 0xc2, 0xa8, 0xc0, 0x03, 0x5f, 0xd6,
];

/// mov x9, x30; bl .+12; mov x30, x9; ret; stp d8, d9, [sp, #-16]!; ldp d8, d9, [sp], #16; ret
const LINKED: &'static [u8] = &[
    0xe9, 0x03, 0x1e, 0xaa, 0x03, 0x00, 0x00, 0x94, 0xfe, 0x03, 0x09, 0xaa, 0xc0, 0x03, 0x5f, 0xd6,
    0xe8, 0x27, 0xbf, 0x6d, 0xe8, 0x27, 0xc1, 0x6c, 0xc0, 0x03, 0x5f, 0xd6,
];

/// str x30, [sp, #-16]!; bl .+12; ldr x30, [sp], #16; ret; udf #0
const COVERED: &'static [u8] = &[
    0xfe, 0x0f, 0x1f, 0xf8, 0x03, 0x00, 0x00, 0x94, 0xfe, 0x07, 0x41, 0xf8, 0xc0, 0x03, 0x5f, 0xd6,
    0x00, 0x00, 0x00, 0x00,
];

/// paciasp; stp x29, x30, [sp, #-16]!; sub sp, sp, #32; str wzr, [sp, #8]; add sp, sp, #32; ldp x29, x30, [sp], #16; retaa
const SIGNED: &'static [u8] = &[
    0x3f, 0x23, 0x03, 0xd5, 0xfd, 0x7b, 0xbf, 0xa9, 0xff, 0x83, 0x00, 0xd1, 0xff, 0x0b, 0x00, 0xb9,
    0xff, 0x83, 0x00, 0x91, 0xfd, 0x7b, 0xc1, 0xa8, 0xff, 0x0b, 0x5f, 0xd6,
];

const KNOWN: &'static [(Register, u64)] = &[(SP, 0x7020), (X30, 0x3005), (X19, 77)];

const RUNS_OF_AARCH64: [RunOfAarch64; 13] = [
    (SAVED, KNOWN, X19, 0, Some((0x3005, Some(0x7020), Some(77)))),
    // without a stack pointer there is no run
    (SAVED, &[(X30, 0x3005)], X19, 0, None),
    // ldp x29, x30, [sp], #32; ret
    (
        &[0xfd, 0x7b, 0xc2, 0xa8, 0xc0, 0x03, 0x5f, 0xd6],
        KNOWN,
        X29,
        0,
        Some((0x2005, Some(0x7040), Some(0x7060))),
    ),
    (
        LINKED,
        KNOWN,
        X19,
        0,
        Some((0x3005, Some(0x7020), Some(77))),
    ),
    // passed over, the helper need not keep x9
    (LINKED, KNOWN, X19, 0x1010, None),
    (
        COVERED,
        KNOWN,
        X19,
        0x1010,
        Some((0x3005, Some(0x7020), Some(77))),
    ),
    (
        COVERED,
        &[(SP, 0x7020), (X30, 0x3005), (Register(9), 77)],
        Register(9),
        0x1010,
        Some((0x3005, Some(0x7020), None)),
    ),
    (COVERED, KNOWN, X19, 0, None),
    (
        SIGNED,
        KNOWN,
        X30,
        0,
        Some((0x3005, Some(0x7020), Some(0x3005))),
    ),
    // runs that differ: cbz x0, .+8; add sp, sp, #16; ret
    (
        &[
            0x40, 0x00, 0x00, 0xb4, 0xff, 0x43, 0x00, 0x91, 0xc0, 0x03, 0x5f, 0xd6,
        ],
        KNOWN,
        X19,
        0,
        None,
    ),
    // br x16
    (&[0x00, 0x02, 0x1f, 0xd6], KNOWN, X19, 0, None),
    // blr x16; ret
    (
        &[0x00, 0x02, 0x3f, 0xd6, 0xc0, 0x03, 0x5f, 0xd6],
        KNOWN,
        X19,
        0,
        None,
    ),
    // ret x19
    (
        &[0x60, 0x02, 0x5f, 0xd6],
        KNOWN,
        X30,
        0,
        Some((77, Some(0x7020), Some(0x3005))),
    ),
];

/// leave; pop rcx; lea rsp, [r15 + 8]; push rcx; ret
const MOVED: &'static [u8] = &[0xc9, 0x59, 0x49, 0x8d, 0x67, 0x08, 0x51, 0xc3];

/// Returns the caller that a run of code from its start finds, with these registers. Unwind data covers a function at one
/// address.
fn caller_of(
    alloc: Global,
    convention: Convention,
    code: &[u8],
    covered: u64,
    known: &[(Register, u64)],
) -> Result<Option<RunCaller>, AllocError> {
    let bytes = bytes_of(alloc, &WORDS)?;
    let memory = memory_of(alloc, MEMORY, &bytes)?;
    let process = Process {
        convention,
        memory: &memory,
        code,
        covered,
    };
    let mut registers = RegisterFile::new();
    for (register, value) in known {
        registers.set(*register, Some(*value));
    }
    Ok(caller_by_runs(&process, CODE, &registers))
}

/// Returns the return address, the stack pointer and another register of a caller. The address is the program counter, too.
fn found(
    convention: Convention,
    caller: Option<RunCaller>,
    register: Register,
) -> Option<(u64, Option<u64>, Option<u64>)> {
    let caller = caller?;
    let return_address = caller.registers.get(convention.program_counter())?;
    if return_address != caller.return_address {
        return None;
    }
    let sp = caller.registers.get(convention.stack_pointer());
    Some((return_address, sp, caller.registers.get(register)))
}

#[test]
fn runs_to_the_return(rt: HostRuntime) -> Result<(), Fail> {
    for (code, sp, other, covered, wanted) in RUNS {
        let x86_64 = Convention::X86_64;
        let caller = caller_of(rt.alloc(), x86_64, code, covered, &[(RSP, sp), other])?;
        assert!(rt;
            found(x86_64, caller, other.0) == wanted,
            "{sp:x} {covered:x}"
        );
    }
    Ok(())
}

#[test]
fn runs_to_the_return_of_aarch64(rt: HostRuntime) -> Result<(), Fail> {
    for (code, known, other, covered, wanted) in RUNS_OF_AARCH64 {
        let caller = caller_of(rt.alloc(), Convention::Aarch64, code, covered, known)?;
        assert!(rt;
            found(Convention::Aarch64, caller, other) == wanted,
            "{covered:x}"
        );
    }
    Ok(())
}

#[test]
fn finds_return_addresses_that_the_code_moves(rt: HostRuntime) -> Result<(), Fail> {
    let known = [(RSP, 0x7000), (RBP, 0x7020), (R15, 0x7048)];
    let caller = caller_of(rt.alloc(), Convention::X86_64, MOVED, 0, &known)?;
    assert!(rt;
        found(Convention::X86_64, caller, RBP) == Some((0x2005, Some(0x7050), Some(0x7060)))
    );
    Ok(())
}
