//! What only calls of `unwind_frame` show: which words of the stack are read, and in which order; that no memory is asked
//! for; which section has the bytes of an address. Rules, and what is refused, are cases: `checks/cases/rules/pe_*.json`.
use framehop_bytes::section::SectionBytes;
use framehop_core::unwind_result::UnwindResult;
use framehop_core::x86_64::{ArchX86_64, UnwindRegsX86_64, UnwindRuleX86_64};
use framehop_pe::pe::{DataAtRvaRange, PeSections, PeUnwinderError, PeUnwinding};
use std::test::Fail;

/// Lent bytes.
#[derive(Drop)]
struct Lent<'a>(&'a [u8]);

impl SectionBytes for Lent<'_> {
    ghost contents = { λ lent. lent.0.now };

    fn bytes(&self) -> &[u8] {
        self.0
    }
}

/// What a call returned.
#[derive(Clone, Copy, Debug, PartialEq, Eq)]
enum Answer {
    Rule(UnwindRuleX86_64),
    Direct(u64),
    Refused(PeUnwinderError),
}

/// A function from 0x1000 to 0x1040, with unwind info at 0x2000.
const FUNCTION: [u8; 12] = [0, 0x10, 0, 0, 0x40, 0x10, 0, 0, 0, 0x20, 0, 0];

/// The offset 32 and a pop of rbx: the codes of `push rbx` and `sub rsp, 32`.
const PUSH_AND_ALLOC: [u8; 8] = [1, 6, 2, 0, 6, 0x32, 2, 0x30];

/// Their epilog: `add rsp, 32`, `pop rbx` and `ret`.
const ADD_AND_POP: [u8; 6] = [0x48, 0x83, 0xc4, 0x20, 0x5b, 0xc3];

/// Unwind info that is chained to itself.
const CHAINED_TO_ITSELF: [u8; 16] = [
    0x21, 0, 0, 0, 0, 0x10, 0, 0, 0x40, 0x10, 0, 0, 0, 0x20, 0, 0,
];

/// The code UWOP_PUSH_MACHFRAME, without an error code.
const MACHINE_FRAME: [u8; 6] = [1, 0, 1, 0, 0, 0x0a];

/// The rule of the two codes, and of their epilog.
const OFFSET_AND_POP: Answer = Answer::Rule(UnwindRuleX86_64::OffsetSpAndPopRegisters {
    sp_offset_by_8: 4,
    register_count: 1,
    encoded_registers_to_pop: 0,
});

/// The addresses of the words that a call reads.
#[derive(Clone, Copy)]
struct Reads {
    addresses: [u64; 4],
    count: usize,
}

impl Reads {
    const fn new() -> Self {
        Reads {
            addresses: [0; 4],
            count: 0,
        }
    }

    fn push(&mut self, address: u64) {
        if self.count < 4 {
            self.addresses[self.count] = address;
            self.count += 1;
        }
    }
}

/// Unwinds a frame of the function from rsp 0x100 and rbp 0x200, a first one where the function's last bytes are given,
/// and lists the addresses of the words that it reads. Each word is its address but for the lowest bit.
fn unwind_listed<'x>(
    end: &'x [u8],
    info: &'x [u8],
    regs: &mut UnwindRegsX86_64,
    read: &mut Reads,
) -> Answer {
    *regs = UnwindRegsX86_64::new(0x1010, 0x100, 0x200);
    let start = 0x1040 - end.len().min(0x30) as u32;
    let xdata = DataAtRvaRange {
        bytes: Lent(info),
        rva_range: 0x2000..0x2010,
    };
    let text = DataAtRvaRange {
        bytes: Lent(end),
        rva_range: start..0x1040,
    };
    let pdata = Lent(&FUNCTION);
    let sections = PeSections {
        pdata: &pdata,
        rdata: None,
        xdata: Some(&xdata),
        text: Some(&text),
    };
    let mut read_stack = |address: u64| -> Result<u64, ()> {
        read.push(address);
        Ok(address ^ 1)
    };
    let first = !end.is_empty();
    let address = if first { start } else { 0x1010 };
    match ArchX86_64::unwind_frame(sections, address, regs, first, &mut read_stack) {
        Ok(UnwindResult::ExecRule(rule)) => Answer::Rule(rule),
        Ok(UnwindResult::Uncacheable(return_address)) => Answer::Direct(return_address),
        Err(error) => Answer::Refused(error),
    }
}

/// The end of the function's code, its unwind info, what is returned, and the addresses of the words that are read.
type Frame = (&'static [u8], &'static [u8], Answer, [u64; 4], usize);

const REFUSED: Answer = Answer::Refused(PeUnwinderError::UnwindInfoParseError);

const RETURN: Answer = Answer::Rule(UnwindRuleX86_64::JustReturn);

const FRAMES: [Frame; 12] = [
    // UWOP_PUSH_NONVOL rsi, UWOP_SAVE_NONVOL rdi at 2 words, and the return address
    (
        &[],
        &[1, 0, 3, 0, 0, 0x60, 0, 0x74, 2, 0],
        Answer::Direct(0x109),
        [0x100, 0x118, 0x108, 0],
        3,
    ),
    // UWOP_SAVE_XMM128 and UWOP_SAVE_XMM128_FAR, of which nothing is read
    (
        &[],
        &[1, 0, 5, 0, 0, 0x68, 2, 0, 0, 0x69, 0x20, 0, 0, 0],
        Answer::Direct(0x101),
        [0x100, 0, 0, 0],
        1,
    ),
    // a frame at 0x10 in the prolog: UWOP_PUSH_NONVOL rsi at 0x18 and UWOP_SAVE_XMM128 at 0x14 are still to come,
    // UWOP_SAVE_NONVOL rdi at 4 is done
    (
        &[],
        &[1, 0x20, 5, 0, 0x18, 0x60, 0x14, 0x68, 2, 0, 4, 0x74, 2, 0],
        Answer::Direct(0x101),
        [0x110, 0x100, 0, 0],
        2,
    ),
    // UWOP_PUSH_MACHFRAME without an error code and with one: the return address, and rsp
    (
        &[],
        &[1, 0, 1, 0, 0, 0x0a],
        Answer::Direct(0x101),
        [0x100, 0x118, 0, 0],
        2,
    ),
    (
        &[],
        &[1, 0, 1, 0, 0, 0x1a],
        Answer::Direct(0x109),
        [0x108, 0x120, 0, 0],
        2,
    ),
    // an epilog that no rule does: `lea rsp, [rbp + 0x20]`, `pop rbx` and `ret`
    (
        &[0x48, 0x8d, 0x65, 0x20, 0x5b, 0xc3],
        &[1, 0, 0, 5],
        Answer::Direct(0x229),
        [0x220, 0x228, 0, 0],
        2,
    ),
    // rules, of which nothing is read
    (&[], &PUSH_AND_ALLOC, OFFSET_AND_POP, [0; 4], 0),
    (&[], &[1, 0, 0, 0], RETURN, [0; 4], 0),
    (&ADD_AND_POP, &PUSH_AND_ALLOC, OFFSET_AND_POP, [0; 4], 0),
    (&[0xc3], &[1, 0, 0, 5], RETURN, [0; 4], 0),
    // an unknown code after one that reads, and a chain without an end
    (&[], &[1, 0, 2, 0, 0, 0x00, 0, 0x06], REFUSED, [0; 4], 0),
    (&[], &CHAINED_TO_ITSELF, REFUSED, [0; 4], 0),
];

/// Each word is read once, in this order; none for a rule, and none where the bytes are refused.
#[test]
fn reads_each_word_once(rt: HostRuntime) {
    for (end, info, want, addresses, count) in &FRAMES {
        let mut regs = UnwindRegsX86_64::new(0, 0, 0);
        let mut read = Reads::new();
        let answer = unwind_listed(end, info, &mut regs, &mut read);
        let is_read = read.addresses == *addresses && read.count == *count;
        assert!(rt; answer == *want && is_read, "{info:?}");
        let is_kept = regs == UnwindRegsX86_64::new(0x1010, 0x100, 0x200);
        assert!(rt; is_kept != matches!(want, Answer::Direct(_)));
    }
}

/// Unwinds frames by codes, in an epilog, by a chain without an end and by a machine frame.
fn unwind_frames<'x>(
    codes: &'x [u8],
    epilog: &'x [u8],
    chain: &'x [u8],
    machine_frame: &'x [u8],
) -> [Answer; 4] {
    let mut regs = UnwindRegsX86_64::new(0, 0, 0);
    let mut read = Reads::new();
    [
        unwind_listed(&[], codes, &mut regs, &mut read),
        unwind_listed(epilog, codes, &mut regs, &mut read),
        unwind_listed(&[], chain, &mut regs, &mut read),
        unwind_listed(&[], machine_frame, &mut regs, &mut read),
    ]
}

/// `unwind_frame` asks for no memory: this test and the next ask for it as often, which
/// `checks/refuse_allocations_in_tests.sh` shows by refusing one request after another.
#[test]
fn requests_of_the_sections(rt: HostRuntime) -> Result<(), Fail> {
    let alloc = rt.alloc();
    let _codes = Vec::from_slice(alloc, &PUSH_AND_ALLOC)?;
    let _epilog = Vec::from_slice(alloc, &ADD_AND_POP)?;
    let _chain = Vec::from_slice(alloc, &CHAINED_TO_ITSELF)?;
    let _machine_frame = Vec::from_slice(alloc, &MACHINE_FRAME)?;
    let _last: Vec<u8> = Vec::with_capacity(alloc, 1)?;
    Ok(())
}

#[test]
fn requests_of_the_sections_and_frames(rt: HostRuntime) -> Result<(), Fail> {
    let alloc = rt.alloc();
    let codes = Vec::from_slice(alloc, &PUSH_AND_ALLOC)?;
    let epilog = Vec::from_slice(alloc, &ADD_AND_POP)?;
    let chain = Vec::from_slice(alloc, &CHAINED_TO_ITSELF)?;
    let machine_frame = Vec::from_slice(alloc, &MACHINE_FRAME)?;
    let found = unwind_frames(
        codes.as_slice(),
        epilog.as_slice(),
        chain.as_slice(),
        machine_frame.as_slice(),
    );
    assert_eq!(rt;
        found,
        [
            OFFSET_AND_POP,
            OFFSET_AND_POP,
            REFUSED,
            Answer::Direct(0x101)
        ]
    );
    let _last: Vec<u8> = Vec::with_capacity(alloc, 1)?;
    Ok(())
}

/// Bytes of this value, in this range.
fn section_at(bytes: &[u8], start: u32, end: u32) -> DataAtRvaRange<Lent<'_>> {
    DataAtRvaRange {
        bytes: Lent(bytes),
        rva_range: start..end,
    }
}

/// `.rdata` comes before `.xdata`, where the address is in both. An address has its section's bytes from there on.
const INFO_AT: [(u32, Result<&[u8], PeUnwinderError>); 6] = [
    (0x1fff, Err(PeUnwinderError::MissingUnwindInfoData(0x1fff))),
    (0x2000, Ok(&[1, 1, 1, 1])),
    (0x2003, Ok(&[1])),
    (0x2004, Ok(&[2, 2, 2, 2])),
    (0x2007, Ok(&[2])),
    (0x2008, Err(PeUnwinderError::MissingUnwindInfoData(0x2008))),
];

/// The same for the code.
const CODE_AT: [(u32, Result<&[u8], PeUnwinderError>); 2] = [
    (0x1001, Ok(&[0xc3, 0xc3, 0xc3])),
    (0x1002, Err(PeUnwinderError::MissingInstructionData(0x1002))),
];

#[test]
fn takes_sections_in_their_order(rt: HostRuntime) {
    let (pdata, rdata) = (Lent(&FUNCTION), section_at(&[1; 4], 0x2000, 0x2008));
    let (xdata, text) = (
        section_at(&[2; 4], 0x2004, 0x2010),
        section_at(&[0xc3; 4], 0x1000, 0x1002),
    );
    let sections = PeSections {
        pdata: &pdata,
        rdata: Some(&rdata),
        xdata: Some(&xdata),
        text: Some(&text),
    };
    for (rva, bytes) in &INFO_AT {
        assert!(rt;
            sections.unwind_info_memory_at_rva(*rva) == *bytes,
            "{rva:x}"
        );
    }
    for (rva, bytes) in &CODE_AT {
        assert!(rt; sections.text_memory_at_rva(*rva) == *bytes, "{rva:x}");
    }
}

#[test]
fn prints_each_error(rt: HostRuntime) -> Result<(), Fail> {
    for (error, text) in [
        (
            PeUnwinderError::MissingUnwindInfoData(1),
            "MissingUnwindInfoData",
        ),
        (
            PeUnwinderError::MissingInstructionData(2),
            "MissingInstructionData",
        ),
        (PeUnwinderError::MissingStackData(None), "MissingStackData"),
        (
            PeUnwinderError::UnwindInfoParseError,
            "UnwindInfoParseError",
        ),
        (PeUnwinderError::Aarch64Unsupported, "Aarch64Unsupported"),
    ] {
        let printed = error.to_string(rt.alloc())?;
        assert_eq!(rt; printed.as_str(), text);
    }
    Ok(())
}
