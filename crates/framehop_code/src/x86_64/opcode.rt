//! The opcode maps of x86_64: what follows an opcode, and what the instruction does to registers (Intel 64 and IA-32
//! Architectures Software Developer's Manual, volume 2, appendix A, "Opcode map"; for XOP the AMD64 Architecture
//! Programmer's Manual, volume 6).
ghost use Rattle.std.specs.Prelude.{◌≡◌};
ghost use Rattle.framehop_code.specs.X86_64.Opcodes.{row_of, one_byte_rows, one_byte, two_byte, three_byte_38, three_byte_3a, vector};

use Immediate::{Address, Byte, ByteOfTest, Full, Long, LongOfTest, Near, Word, WordAndByte};
use Operand::{Nothing, OpcodeRegister, Reg, RegAndVvvv, Rm, RmAndReg, Vvvv};
use Operands::{Bare, ModRm, ModRmThen, Then};
use Operation::{
    Branch, Call, Enter, ExchangeOrNop, Group1, Group1Byte, Group3, Group3Byte, Group5, Group6,
    Group7, Group8, Group15, Jump, Keep, Leave, LoadAddress, MoveToReg, MoveToRm, Nop, Pop, Push,
    ReadShadowStack, Return, Stop, Write, WriteByte, WriteIfPrefixed, WriteIfRepeated,
    WriteUnlessRepeated,
};

/// How many bytes of an immediate operand follow.
#[derive(Clone, Copy)]
pub enum Immediate {
    /// One byte.
    Byte,
    /// Two bytes.
    Word,
    /// Two bytes and one byte: those of ENTER.
    WordAndByte,
    /// Four bytes, or two where the operand has 16 bits.
    Long,
    /// Four bytes whatever the operand's size: those of near jumps and calls.
    Near,
    /// Eight bytes with REX.W, else as `Long`.
    Full,
    /// An address: eight bytes, or four where addresses have 32 bits.
    Address,
    /// One byte for TEST, else none: group 3.
    ByteOfTest,
    /// As `Long` for TEST, else none: group 3.
    LongOfTest,
}

/// What follows an opcode.
#[derive(Clone, Copy)]
pub enum Operands {
    /// Nothing.
    Bare,
    /// A ModRM byte, with the SIB byte and the displacement that it asks for.
    ModRm,
    /// An immediate operand.
    Then(Immediate),
    /// A ModRM byte, with what it asks for, and an immediate operand.
    ModRmThen(Immediate),
}

/// A register operand.
#[derive(Clone, Copy)]
pub enum Operand {
    /// None.
    Nothing,
    /// That of the ModRM byte's r/m, if it is a register.
    Rm,
    /// That of the ModRM byte's reg.
    Reg,
    /// Those of r/m and of reg.
    RmAndReg,
    /// That of the opcode's low three bits.
    OpcodeRegister,
    /// That of VEX.vvvv.
    Vvvv,
    /// Those of reg and of VEX.vvvv.
    RegAndVvvv,
}

/// What an instruction does.
#[derive(Clone, Copy)]
pub enum Operation {
    /// Writes no general register by its operands.
    Keep,
    /// Writes a register.
    Write(Operand),
    /// Writes 8 bits of a register.
    WriteByte(Operand),
    /// Writes a general register after a prefix F2 or F3, else a vector register.
    WriteIfRepeated(Operand),
    /// Writes a register after a prefix 66, F2 or F3, else memory.
    WriteIfPrefixed(Operand),
    /// Writes a vector register after a prefix F2 or F3, else a general register.
    WriteUnlessRepeated(Operand),
    /// Pushes a word.
    Push,
    /// Pops a word to an operand.
    Pop(Operand),
    /// Jumps if a condition holds.
    Branch,
    /// Jumps.
    Jump,
    /// Calls a function.
    Call,
    /// Returns from the function.
    Return,
    /// Leads to no place that is known.
    Stop,
    /// Does nothing.
    Nop,
    /// XCHG of r8 and rax, or NOP.
    ExchangeOrNop,
    /// MOV from reg to r/m.
    MoveToRm,
    /// MOV from r/m to reg.
    MoveToReg,
    /// LEA.
    LoadAddress,
    /// ENTER.
    Enter,
    /// LEAVE.
    Leave,
    /// ADD, OR, ADC, SBB, AND, SUB, XOR or CMP, by reg.
    Group1,
    /// Group 1 of 8 bits.
    Group1Byte,
    /// TEST, NOT, NEG, MUL, IMUL, DIV or IDIV, by reg.
    Group3,
    /// Group 3 of 8 bits.
    Group3Byte,
    /// INC, DEC, CALL, JMP or PUSH, by reg.
    Group5,
    /// SLDT, STR and others, by reg.
    Group6,
    /// SMSW and others, by reg.
    Group7,
    /// BT, BTS, BTR or BTC, by reg.
    Group8,
    /// RDFSBASE, RDGSBASE and others, by the prefix and reg.
    Group15,
    /// RDSSP, or a hint, by the prefix and reg.
    ReadShadowStack,
}

/// The opcodes from a first to a last one.
#[derive(Clone, Copy)]
pub struct Opcodes(pub u8, pub u8, pub Operands, pub Operation);

/// Each six opcodes below 38 with one operation, by their low three bits: ADD, OR, ADC, SBB, AND, SUB and XOR.
static ARITHMETIC: [Opcodes; 6] = [
    Opcodes(0x00, 0x00, ModRm, WriteByte(Rm)),
    Opcodes(0x01, 0x01, ModRm, Write(Rm)),
    Opcodes(0x02, 0x02, ModRm, WriteByte(Reg)),
    Opcodes(0x03, 0x03, ModRm, Write(Reg)),
    Opcodes(0x04, 0x04, Then(Byte), Keep),
    Opcodes(0x05, 0x05, Then(Long), Keep),
];

/// Opcodes of one byte, from 38 on.
static ONE_BYTE: [Opcodes; 72] = [
    // CMP
    Opcodes(0x38, 0x3b, ModRm, Keep),
    Opcodes(0x3c, 0x3c, Then(Byte), Keep),
    Opcodes(0x3d, 0x3d, Then(Long), Keep),
    // PUSH r64, POP r64
    Opcodes(0x50, 0x57, Bare, Push),
    Opcodes(0x58, 0x5f, Bare, Pop(OpcodeRegister)),
    // MOVSXD
    Opcodes(0x63, 0x63, ModRm, Write(Reg)),
    // PUSH imm, IMUL with an immediate
    Opcodes(0x68, 0x68, Then(Long), Push),
    Opcodes(0x69, 0x69, ModRmThen(Long), Write(Reg)),
    Opcodes(0x6a, 0x6a, Then(Byte), Push),
    Opcodes(0x6b, 0x6b, ModRmThen(Byte), Write(Reg)),
    // INS, OUTS
    Opcodes(0x6c, 0x6f, Bare, Keep),
    // Jcc rel8
    Opcodes(0x70, 0x7f, Then(Byte), Branch),
    // group 1
    Opcodes(0x80, 0x80, ModRmThen(Byte), Group1Byte),
    Opcodes(0x81, 0x81, ModRmThen(Long), Group1),
    Opcodes(0x83, 0x83, ModRmThen(Byte), Group1),
    // TEST, XCHG
    Opcodes(0x84, 0x85, ModRm, Keep),
    Opcodes(0x86, 0x86, ModRm, WriteByte(RmAndReg)),
    Opcodes(0x87, 0x87, ModRm, Write(RmAndReg)),
    // MOV, LEA
    Opcodes(0x88, 0x88, ModRm, WriteByte(Rm)),
    Opcodes(0x89, 0x89, ModRm, MoveToRm),
    Opcodes(0x8a, 0x8a, ModRm, WriteByte(Reg)),
    Opcodes(0x8b, 0x8b, ModRm, MoveToReg),
    Opcodes(0x8c, 0x8c, ModRm, Write(Rm)),
    Opcodes(0x8d, 0x8d, ModRm, LoadAddress),
    Opcodes(0x8e, 0x8e, ModRm, Keep),
    // POP r/m64
    Opcodes(0x8f, 0x8f, ModRm, Pop(Rm)),
    // NOP, XCHG with rax
    Opcodes(0x90, 0x90, Bare, ExchangeOrNop),
    Opcodes(0x91, 0x97, Bare, Write(OpcodeRegister)),
    // CBW, CWD and their kin, FWAIT
    Opcodes(0x98, 0x99, Bare, Keep),
    Opcodes(0x9b, 0x9b, Bare, Keep),
    // PUSHF, POPF, SAHF, LAHF
    Opcodes(0x9c, 0x9c, Bare, Push),
    Opcodes(0x9d, 0x9d, Bare, Pop(Nothing)),
    Opcodes(0x9e, 0x9f, Bare, Keep),
    // MOV of rax and an address, MOVS, CMPS, TEST, STOS, LODS, SCAS
    Opcodes(0xa0, 0xa3, Then(Address), Keep),
    Opcodes(0xa4, 0xa7, Bare, Keep),
    Opcodes(0xa8, 0xa8, Then(Byte), Keep),
    Opcodes(0xa9, 0xa9, Then(Long), Keep),
    Opcodes(0xaa, 0xaf, Bare, Keep),
    // MOV of an immediate
    Opcodes(0xb0, 0xb7, Then(Byte), WriteByte(OpcodeRegister)),
    Opcodes(0xb8, 0xbf, Then(Full), Write(OpcodeRegister)),
    // shifts by an immediate: group 2
    Opcodes(0xc0, 0xc0, ModRmThen(Byte), WriteByte(Rm)),
    Opcodes(0xc1, 0xc1, ModRmThen(Byte), Write(Rm)),
    // RET
    Opcodes(0xc2, 0xc2, Then(Word), Return),
    Opcodes(0xc3, 0xc3, Bare, Return),
    // MOV of an immediate: group 11
    Opcodes(0xc6, 0xc6, ModRmThen(Byte), WriteByte(Rm)),
    Opcodes(0xc7, 0xc7, ModRmThen(Long), Write(Rm)),
    Opcodes(0xc8, 0xc8, Then(WordAndByte), Enter),
    Opcodes(0xc9, 0xc9, Bare, Leave),
    // far RET, INT3, INT, IRET
    Opcodes(0xca, 0xca, Then(Word), Stop),
    Opcodes(0xcb, 0xcc, Bare, Stop),
    Opcodes(0xcd, 0xcd, Then(Byte), Keep),
    Opcodes(0xcf, 0xcf, Bare, Stop),
    // shifts by 1 and by cl: group 2
    Opcodes(0xd0, 0xd0, ModRm, WriteByte(Rm)),
    Opcodes(0xd1, 0xd1, ModRm, Write(Rm)),
    Opcodes(0xd2, 0xd2, ModRm, WriteByte(Rm)),
    Opcodes(0xd3, 0xd3, ModRm, Write(Rm)),
    // XLAT, x87
    Opcodes(0xd7, 0xd7, Bare, Keep),
    Opcodes(0xd8, 0xdf, ModRm, Keep),
    // LOOP, JrCXZ, IN, OUT
    Opcodes(0xe0, 0xe3, Then(Byte), Branch),
    Opcodes(0xe4, 0xe7, Then(Byte), Keep),
    Opcodes(0xe8, 0xe8, Then(Near), Call),
    Opcodes(0xe9, 0xe9, Then(Near), Jump),
    Opcodes(0xeb, 0xeb, Then(Byte), Jump),
    Opcodes(0xec, 0xef, Bare, Keep),
    // INT1, HLT, CMC
    Opcodes(0xf1, 0xf1, Bare, Keep),
    Opcodes(0xf4, 0xf4, Bare, Stop),
    Opcodes(0xf5, 0xf5, Bare, Keep),
    Opcodes(0xf6, 0xf6, ModRmThen(ByteOfTest), Group3Byte),
    Opcodes(0xf7, 0xf7, ModRmThen(LongOfTest), Group3),
    // CLC, STC, CLI, STI, CLD, STD
    Opcodes(0xf8, 0xfd, Bare, Keep),
    // INC and DEC of 8 bits: group 4
    Opcodes(0xfe, 0xfe, ModRm, WriteByte(Rm)),
    Opcodes(0xff, 0xff, ModRm, Group5),
];

/// Opcodes after 0F.
static TWO_BYTE: [Opcodes; 69] = [
    Opcodes(0x00, 0x00, ModRm, Group6),
    Opcodes(0x01, 0x01, ModRm, Group7),
    // LAR, LSL
    Opcodes(0x02, 0x03, ModRm, Write(Reg)),
    // SYSCALL, CLTS, SYSRET, INVD, WBINVD, UD2
    Opcodes(0x05, 0x06, Bare, Keep),
    Opcodes(0x07, 0x07, Bare, Stop),
    Opcodes(0x08, 0x09, Bare, Keep),
    Opcodes(0x0b, 0x0b, Bare, Stop),
    // PREFETCHW, FEMMS, 3DNow!
    Opcodes(0x0d, 0x0d, ModRm, Keep),
    Opcodes(0x0e, 0x0e, Bare, Keep),
    Opcodes(0x0f, 0x0f, ModRmThen(Byte), Keep),
    // moves of vectors, hints
    Opcodes(0x10, 0x1d, ModRm, Keep),
    Opcodes(0x1e, 0x1e, ModRm, ReadShadowStack),
    Opcodes(0x1f, 0x1f, ModRm, Nop),
    // MOV of control and debug registers
    Opcodes(0x20, 0x21, ModRm, Write(Rm)),
    Opcodes(0x22, 0x23, ModRm, Keep),
    Opcodes(0x28, 0x2b, ModRm, Keep),
    // CVTTSS2SI, CVTSS2SI and their kin
    Opcodes(0x2c, 0x2d, ModRm, WriteIfRepeated(Reg)),
    Opcodes(0x2e, 0x2f, ModRm, Keep),
    // WRMSR, RDTSC, RDMSR, RDPMC, SYSENTER, SYSEXIT, GETSEC
    Opcodes(0x30, 0x34, Bare, Keep),
    Opcodes(0x35, 0x35, Bare, Stop),
    Opcodes(0x37, 0x37, Bare, Keep),
    // CMOVcc, MOVMSKPS
    Opcodes(0x40, 0x50, ModRm, Write(Reg)),
    Opcodes(0x51, 0x6f, ModRm, Keep),
    // PSHUFW and shifts of vectors
    Opcodes(0x70, 0x73, ModRmThen(Byte), Keep),
    Opcodes(0x74, 0x76, ModRm, Keep),
    // EMMS, VMWRITE, HADDPD, HSUBPD
    Opcodes(0x77, 0x77, Bare, Keep),
    Opcodes(0x79, 0x79, ModRm, Keep),
    Opcodes(0x7c, 0x7d, ModRm, Keep),
    // MOVD and MOVQ from a vector register; after F3 to one
    Opcodes(0x7e, 0x7e, ModRm, WriteUnlessRepeated(Rm)),
    Opcodes(0x7f, 0x7f, ModRm, Keep),
    // Jcc rel32, SETcc
    Opcodes(0x80, 0x8f, Then(Near), Branch),
    Opcodes(0x90, 0x9f, ModRm, WriteByte(Rm)),
    // PUSH FS, POP FS, CPUID, BT
    Opcodes(0xa0, 0xa0, Bare, Push),
    Opcodes(0xa1, 0xa1, Bare, Pop(Nothing)),
    Opcodes(0xa2, 0xa2, Bare, Keep),
    Opcodes(0xa3, 0xa3, ModRm, Keep),
    // SHLD, the instructions of VIA PadLock
    Opcodes(0xa4, 0xa4, ModRmThen(Byte), Write(Rm)),
    Opcodes(0xa5, 0xa5, ModRm, Write(Rm)),
    Opcodes(0xa6, 0xa7, ModRm, Keep),
    // PUSH GS, POP GS, RSM, BTS, SHRD
    Opcodes(0xa8, 0xa8, Bare, Push),
    Opcodes(0xa9, 0xa9, Bare, Pop(Nothing)),
    Opcodes(0xaa, 0xaa, Bare, Stop),
    Opcodes(0xab, 0xab, ModRm, Write(Rm)),
    Opcodes(0xac, 0xac, ModRmThen(Byte), Write(Rm)),
    Opcodes(0xad, 0xad, ModRm, Write(Rm)),
    Opcodes(0xae, 0xae, ModRm, Group15),
    // IMUL, CMPXCHG, LSS, BTR, LFS, LGS, MOVZX, POPCNT, UD1
    Opcodes(0xaf, 0xaf, ModRm, Write(Reg)),
    Opcodes(0xb0, 0xb0, ModRm, WriteByte(Rm)),
    Opcodes(0xb1, 0xb1, ModRm, Write(Rm)),
    Opcodes(0xb2, 0xb2, ModRm, Write(Reg)),
    Opcodes(0xb3, 0xb3, ModRm, Write(Rm)),
    Opcodes(0xb4, 0xb8, ModRm, Write(Reg)),
    Opcodes(0xb9, 0xb9, ModRm, Stop),
    // group 8, BTC, BSF, BSR, MOVSX
    Opcodes(0xba, 0xba, ModRmThen(Byte), Group8),
    Opcodes(0xbb, 0xbb, ModRm, Write(Rm)),
    Opcodes(0xbc, 0xbf, ModRm, Write(Reg)),
    // XADD, CMPPS, MOVNTI, PINSRW, PEXTRW, SHUFPS
    Opcodes(0xc0, 0xc0, ModRm, WriteByte(RmAndReg)),
    Opcodes(0xc1, 0xc1, ModRm, Write(RmAndReg)),
    Opcodes(0xc2, 0xc2, ModRmThen(Byte), Keep),
    Opcodes(0xc3, 0xc3, ModRm, Keep),
    Opcodes(0xc4, 0xc4, ModRmThen(Byte), Keep),
    Opcodes(0xc5, 0xc5, ModRmThen(Byte), Write(Reg)),
    Opcodes(0xc6, 0xc6, ModRmThen(Byte), Keep),
    // CMPXCHG8B, RDRAND, RDSEED, RDPID: group 9
    Opcodes(0xc7, 0xc7, ModRm, Write(Rm)),
    // BSWAP
    Opcodes(0xc8, 0xcf, Bare, Write(OpcodeRegister)),
    // operations on vectors, PMOVMSKB, UD0
    Opcodes(0xd0, 0xd6, ModRm, Keep),
    Opcodes(0xd7, 0xd7, ModRm, Write(Reg)),
    Opcodes(0xd8, 0xfe, ModRm, Keep),
    Opcodes(0xff, 0xff, ModRm, Stop),
];

/// Opcodes after 0F 38.
static THREE_BYTE_38: [Opcodes; 5] = [
    // MOVBE and CRC32; MOVBE to memory
    Opcodes(0xf0, 0xf0, ModRm, Write(Reg)),
    Opcodes(0xf1, 0xf1, ModRm, WriteIfRepeated(Reg)),
    // WRSS; ADCX after 66, ADOX after F3
    Opcodes(0xf6, 0xf6, ModRm, WriteIfPrefixed(Reg)),
    // ENCODEKEY
    Opcodes(0xfa, 0xfb, ModRm, Write(Reg)),
    Opcodes(0x00, 0xff, ModRm, Keep),
];

/// Opcodes after 0F 3A.
static THREE_BYTE_3A: [Opcodes; 2] = [
    // PEXTRB, PEXTRW, PEXTRD, EXTRACTPS
    Opcodes(0x14, 0x17, ModRmThen(Byte), Write(Rm)),
    Opcodes(0x00, 0xff, ModRmThen(Byte), Keep),
];

/// Opcodes of map 1 of VEX and EVEX, which is that of 0F.
static VECTOR_1: [Opcodes; 13] = [
    // VCVTTSS2SI, VCVTSS2SI and their kin
    Opcodes(0x2c, 0x2d, ModRm, WriteIfRepeated(Reg)),
    // VMOVMSKPS
    Opcodes(0x50, 0x50, ModRm, Write(Reg)),
    Opcodes(0x70, 0x73, ModRmThen(Byte), Keep),
    // VZEROUPPER, VZEROALL
    Opcodes(0x77, 0x77, Bare, Keep),
    // VCVTTSS2USI, VCVTSS2USI and their kin
    Opcodes(0x78, 0x79, ModRm, WriteIfRepeated(Reg)),
    // VMOVD and VMOVQ from a vector register; after F3 to one
    Opcodes(0x7e, 0x7e, ModRm, WriteUnlessRepeated(Rm)),
    // KMOV to a general register
    Opcodes(0x93, 0x93, ModRm, Write(Reg)),
    Opcodes(0xc2, 0xc2, ModRmThen(Byte), Keep),
    Opcodes(0xc4, 0xc4, ModRmThen(Byte), Keep),
    // VPEXTRW
    Opcodes(0xc5, 0xc5, ModRmThen(Byte), Write(Reg)),
    Opcodes(0xc6, 0xc6, ModRmThen(Byte), Keep),
    // VPMOVMSKB
    Opcodes(0xd7, 0xd7, ModRm, Write(Reg)),
    Opcodes(0x00, 0xff, ModRm, Keep),
];

/// Opcodes of map 2 of VEX and EVEX, which is that of 0F 38.
static VECTOR_2: [Opcodes; 7] = [
    // CMPccXADD
    Opcodes(0xe0, 0xef, ModRm, Write(Reg)),
    // ANDN; BLSR, BLSMSK, BLSI; BZHI, PDEP, PEXT; MULX; BEXTR, SARX, SHLX, SHRX
    Opcodes(0xf2, 0xf2, ModRm, Write(Reg)),
    Opcodes(0xf3, 0xf3, ModRm, Write(Vvvv)),
    Opcodes(0xf5, 0xf5, ModRm, Write(Reg)),
    Opcodes(0xf6, 0xf6, ModRm, Write(RegAndVvvv)),
    Opcodes(0xf7, 0xf7, ModRm, Write(Reg)),
    Opcodes(0x00, 0xff, ModRm, Keep),
];

/// Opcodes of map 3 of VEX and EVEX, which is that of 0F 3A.
static VECTOR_3: [Opcodes; 3] = [
    // VPEXTRB, VPEXTRW, VPEXTRD, VEXTRACTPS
    Opcodes(0x14, 0x17, ModRmThen(Byte), Write(Rm)),
    // RORX
    Opcodes(0xf0, 0xf0, ModRmThen(Byte), Write(Reg)),
    Opcodes(0x00, 0xff, ModRmThen(Byte), Keep),
];

/// Opcodes of map 5 of EVEX: half precision.
static VECTOR_5: [Opcodes; 4] = [
    // VCVTTSH2SI, VCVTSH2SI, VCVTTSH2USI, VCVTSH2USI
    Opcodes(0x2c, 0x2d, ModRm, WriteIfRepeated(Reg)),
    Opcodes(0x78, 0x79, ModRm, WriteIfRepeated(Reg)),
    // VMOVW from a vector register
    Opcodes(0x7e, 0x7e, ModRm, WriteUnlessRepeated(Rm)),
    Opcodes(0x00, 0xff, ModRm, Keep),
];

/// Opcodes of map 6 of EVEX: half precision.
static VECTOR_6: [Opcodes; 1] = [Opcodes(0x00, 0xff, ModRm, Keep)];

/// Opcodes of map 8 of XOP.
static XOP_8: [Opcodes; 1] = [Opcodes(0x00, 0xff, ModRmThen(Byte), Keep)];

/// Opcodes of map 9 of XOP.
static XOP_9: [Opcodes; 2] = [
    // BLCFILL, BLSFILL, BLCI and their kin
    Opcodes(0x01, 0x02, ModRm, Write(Vvvv)),
    Opcodes(0x00, 0xff, ModRm, Keep),
];

/// Opcodes of map 10 of XOP.
static XOP_10: [Opcodes; 2] = [
    // BEXTR, LWPINS, LWPVAL
    Opcodes(0x10, 0x10, ModRmThen(Near), Write(Reg)),
    Opcodes(0x12, 0x12, ModRmThen(Near), Keep),
];

/// Returns the row of an opcode of one byte, or `None` where 64-bit mode has none.
#[tactic(auto, unfolding(crate::specs::X86_64::Opcodes::one_byte))]
pub(crate) fn one_byte(opcode: u8) -> Option<Opcodes>
    ensures { result ≡ one_byte opcode }
{
    if opcode < 0x38 {
        row_of(&ARITHMETIC, opcode % 8)
    } else {
        from_38(opcode)
    }
}

/// Returns the row of an opcode of one byte from 38 on.
fn from_38(opcode: u8) -> Option<Opcodes>
    ensures { result ≡ row_of one_byte_rows opcode }
{
    row_of(&ONE_BYTE, opcode)
}

/// Returns the row of an opcode after 0F, or `None` where there is none.
#[tactic(auto, unfolding(crate::specs::X86_64::Opcodes::two_byte))]
pub(crate) fn two_byte(opcode: u8) -> Option<Opcodes>
    ensures { result ≡ two_byte opcode }
{
    row_of(&TWO_BYTE, opcode)
}

/// Returns the row of an opcode after 0F 38.
#[tactic(auto, unfolding(crate::specs::X86_64::Opcodes::three_byte_38))]
pub(crate) fn three_byte_38(opcode: u8) -> Option<Opcodes>
    ensures { result ≡ three_byte_38 opcode }
{
    row_of(&THREE_BYTE_38, opcode)
}

/// Returns the row of an opcode after 0F 3A.
#[tactic(auto, unfolding(crate::specs::X86_64::Opcodes::three_byte_3a))]
pub(crate) fn three_byte_3a(opcode: u8) -> Option<Opcodes>
    ensures { result ≡ three_byte_3a opcode }
{
    row_of(&THREE_BYTE_3A, opcode)
}

/// Returns the row of an opcode after a prefix VEX, EVEX or XOP, by the prefix's map.
#[tactic(auto, unfolding(crate::specs::X86_64::Opcodes::vector))]
pub fn vector(map: u8, opcode: u8) -> Option<Opcodes>
    ensures { result ≡ vector map opcode }
{
    match map {
        1 => row_of(&VECTOR_1, opcode),
        2 => row_of(&VECTOR_2, opcode),
        3 => row_of(&VECTOR_3, opcode),
        5 => row_of(&VECTOR_5, opcode),
        6 => row_of(&VECTOR_6, opcode),
        8 => row_of(&XOP_8, opcode),
        9 => row_of(&XOP_9, opcode),
        10 => row_of(&XOP_10, opcode),
        _ => None,
    }
}

/// Returns the first row that has an opcode.
#[tactic(auto, unfolding(crate::specs::X86_64::Opcodes::row_of))]
fn row_of(rows: &[Opcodes], opcode: u8) -> Option<Opcodes>
    ensures { result ≡ row_of rows.now opcode }
{
    rows.iter()
        .copied()
        .find(|row| row.0 <= opcode && opcode <= row.1)
}
