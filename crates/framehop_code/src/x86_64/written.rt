//! What instructions write besides what their actions tell: registers that no operand names, and memory (Intel 64 and
//! IA-32 Architectures Software Developer's Manual, volume 2, "Instruction Set Reference").
ghost use Rattle.std.specs.Prelude.{◌≡◌, ◌<◌};
ghost use Rattle.framehop_code.specs.X86_64.Written.{has_member, row_of, one_byte_writes, two_byte_writes, vector_row, writes_of, amount_by_operation, names_rm, amount_of, vector_size, amount_long, scalar_or, narrowed, mask_size, bytes_of, unit_of, stored, set_of, set_numbered, rm_set, vvvv_set, registers_of, registers_if, registers_by_group, operand_registers, implied_registers, forgotten};

use super::instruction::{Map, Opcode, Parts};
use super::opcode::{Operand, Operation};
use super::operand::{is_register, numbered, operand_size, place_of, reg_of};
use crate::action::{Action, Place, Registers, Stored};
use Amount::{
    Around, Bytes, DoubleLong, Elements, Elsewhere, General, GeneralUnlessRepeated, HalfVector,
    Long, LongUnlessRepeated, Mask, Narrowed, Nothing, Undescribed, Vector, VectorOrEight,
    VectorOrScalar,
};
use framehop_cfi::rule::Register;

/// How many bytes of its memory operand an instruction writes.
#[derive(Clone, Copy)]
pub enum Amount {
    /// None.
    Nothing,
    /// So many.
    Bytes(u64),
    /// As many as a general operand has.
    General,
    /// As many as a general operand has, or none after a prefix F2 or F3.
    GeneralUnlessRepeated,
    /// Four, or eight with REX.W.
    Long,
    /// Four, or eight with REX.W, or none after a prefix F2 or F3.
    LongUnlessRepeated,
    /// Eight, or 16 with REX.W.
    DoubleLong,
    /// As many as a vector has.
    Vector,
    /// Half as many as a vector has.
    HalfVector,
    /// Eight after a prefix F2, four after F3, else a vector's.
    VectorOrScalar,
    /// A vector's after a prefix 66, F2 or F3, else the eight of an MMX register.
    VectorOrEight,
    /// After a prefix F3 a half, a quarter or an eighth of a vector's, by the opcode, else none.
    Narrowed,
    /// At most a vector's. A displacement of one byte counts elements of so many bytes, or twice as many with REX.W.
    Elements(u8),
    /// A mask register's: two, or with REX.W eight; after a prefix 66 one, or with REX.W four.
    Mask,
    /// Bytes around the memory operand, whose place or number a register or the processor decides.
    Around,
    /// Bytes at an address that no operand tells.
    Elsewhere,
    /// No action describes the instruction.
    Undescribed,
}

/// What the opcodes from a first to a last one write besides their register operands, if bit number reg of the third
/// field is set, as it is for members of a group by reg of the ModRM byte: the registers of the set, and an amount of
/// memory.
#[derive(Clone, Copy)]
pub struct Writes(pub u8, pub u8, pub u8, pub u16, pub Amount);

/// Opcodes of one byte.
static ONE_BYTE: [Writes; 43] = [
    // ADD, OR, ADC, SBB, AND, SUB and XOR of AL
    Writes(0x04, 0x04, 0xff, 0x0001, Nothing),
    Writes(0x0c, 0x0c, 0xff, 0x0001, Nothing),
    Writes(0x14, 0x14, 0xff, 0x0001, Nothing),
    Writes(0x1c, 0x1c, 0xff, 0x0001, Nothing),
    Writes(0x24, 0x24, 0xff, 0x0001, Nothing),
    Writes(0x2c, 0x2c, 0xff, 0x0001, Nothing),
    Writes(0x34, 0x34, 0xff, 0x0001, Nothing),
    // INS, OUTS; all string instructions with the rcx of REP
    Writes(0x6c, 0x6d, 0xff, 0x0024, Elsewhere),
    Writes(0x6e, 0x6f, 0xff, 0x0014, Nothing),
    // MOV of a segment register
    Writes(0x8c, 0x8c, 0xff, 0x0000, Bytes(2)),
    // only the first member is POP
    Writes(0x8f, 0x8f, 0xfe, 0x0000, Undescribed),
    // XCHG with rax
    Writes(0x91, 0x97, 0xff, 0x0001, Nothing),
    // CBW and CWD with their kin, LAHF
    Writes(0x98, 0x98, 0xff, 0x0001, Nothing),
    Writes(0x99, 0x99, 0xff, 0x0002, Nothing),
    Writes(0x9f, 0x9f, 0xff, 0x0001, Nothing),
    // MOV of rax and an address
    Writes(0xa0, 0xa1, 0xff, 0x0001, Nothing),
    Writes(0xa2, 0xa3, 0xff, 0x0000, Elsewhere),
    // MOVS, CMPS, STOS, LODS, SCAS
    Writes(0xa4, 0xa5, 0xff, 0x0034, Elsewhere),
    Writes(0xa6, 0xa7, 0xff, 0x0034, Nothing),
    Writes(0xaa, 0xab, 0xff, 0x0024, Elsewhere),
    Writes(0xac, 0xad, 0xff, 0x0015, Nothing),
    Writes(0xae, 0xaf, 0xff, 0x0024, Nothing),
    // XABORT, XBEGIN
    Writes(0xc6, 0xc7, 0xfe, 0x0000, Undescribed),
    // INT
    Writes(0xcd, 0xcd, 0xff, 0x0000, Undescribed),
    // XLAT
    Writes(0xd7, 0xd7, 0xff, 0x0001, Nothing),
    // FST and FSTP of single precision, FNSTENV, FNSTCW
    Writes(0xd9, 0xd9, 0x0c, 0x0000, Bytes(4)),
    Writes(0xd9, 0xd9, 0x40, 0x0000, Bytes(28)),
    Writes(0xd9, 0xd9, 0x80, 0x0000, Bytes(2)),
    // FISTTP, FIST and FISTP of 32 bits, FSTP of extended precision
    Writes(0xdb, 0xdb, 0x0e, 0x0000, Bytes(4)),
    Writes(0xdb, 0xdb, 0x80, 0x0000, Bytes(10)),
    // FISTTP of 64 bits, FST and FSTP of double precision, FNSAVE, FNSTSW
    Writes(0xdd, 0xdd, 0x0e, 0x0000, Bytes(8)),
    Writes(0xdd, 0xdd, 0x40, 0x0000, Bytes(108)),
    Writes(0xdd, 0xdd, 0x80, 0x0000, Bytes(2)),
    // FISTTP, FIST and FISTP of 16 bits, FNSTSW of AX, FBSTP, FISTP of 64 bits
    Writes(0xdf, 0xdf, 0x0e, 0x0000, Bytes(2)),
    Writes(0xdf, 0xdf, 0x10, 0x0001, Nothing),
    Writes(0xdf, 0xdf, 0x40, 0x0000, Bytes(10)),
    Writes(0xdf, 0xdf, 0x80, 0x0000, Bytes(8)),
    // IN
    Writes(0xe4, 0xe5, 0xff, 0x0001, Nothing),
    Writes(0xec, 0xed, 0xff, 0x0001, Nothing),
    // INT1
    Writes(0xf1, 0xf1, 0xff, 0x0000, Undescribed),
    // MUL, IMUL, DIV, IDIV
    Writes(0xf6, 0xf6, 0xf0, 0x0001, Nothing),
    Writes(0xf7, 0xf7, 0xf0, 0x0003, Nothing),
    // only the first two members are INC and DEC
    Writes(0xfe, 0xfe, 0xfc, 0x0000, Undescribed),
];

/// Opcodes after 0F.
static TWO_BYTE: [Writes; 33] = [
    // SLDT, STR; SGDT, SIDT, SMSW
    Writes(0x00, 0x00, 0x03, 0x0000, Bytes(2)),
    Writes(0x01, 0x01, 0x03, 0x0000, Bytes(10)),
    Writes(0x01, 0x01, 0x10, 0x0000, Bytes(2)),
    // SYSCALL
    Writes(0x05, 0x05, 0xff, 0x0805, Elsewhere),
    // MOVUPS and MOVSS, MOVLPS, MOVHPS, BNDMOV, MOVAPS, MOVNTPS
    Writes(0x11, 0x11, 0xff, 0x0000, VectorOrScalar),
    Writes(0x13, 0x13, 0xff, 0x0000, Bytes(8)),
    Writes(0x17, 0x17, 0xff, 0x0000, Bytes(8)),
    Writes(0x1b, 0x1b, 0xff, 0x0000, Bytes(16)),
    Writes(0x29, 0x29, 0xff, 0x0000, Vector),
    Writes(0x2b, 0x2b, 0xff, 0x0000, VectorOrScalar),
    // RDTSC, RDMSR, RDPMC, SYSENTER, GETSEC
    Writes(0x31, 0x33, 0xff, 0x0003, Nothing),
    Writes(0x34, 0x34, 0xff, 0x0000, Undescribed),
    Writes(0x37, 0x37, 0xff, 0x0000, Undescribed),
    // MOVD and MOVQ, MOVDQA
    Writes(0x7e, 0x7e, 0xff, 0x0000, LongUnlessRepeated),
    Writes(0x7f, 0x7f, 0xff, 0x0000, VectorOrEight),
    // CPUID
    Writes(0xa2, 0xa2, 0xff, 0x000f, Nothing),
    // the instructions of VIA PadLock
    Writes(0xa6, 0xa7, 0xff, 0x0037, Elsewhere),
    // BTS, BTR and BTC by a register
    Writes(0xab, 0xab, 0xff, 0x0000, Around),
    Writes(0xb3, 0xb3, 0xff, 0x0000, Around),
    Writes(0xbb, 0xbb, 0xff, 0x0000, Around),
    // FXSAVE, STMXCSR, XSAVE, XSAVEOPT
    Writes(0xae, 0xae, 0x01, 0x0000, Bytes(512)),
    Writes(0xae, 0xae, 0x08, 0x0000, Bytes(4)),
    Writes(0xae, 0xae, 0x50, 0x0000, Around),
    // CMPXCHG
    Writes(0xb0, 0xb0, 0xff, 0x0001, Bytes(1)),
    Writes(0xb1, 0xb1, 0xff, 0x0001, General),
    // group 8 has four members
    Writes(0xba, 0xba, 0x0f, 0x0000, Undescribed),
    // MOVNTI
    Writes(0xc3, 0xc3, 0xff, 0x0000, Long),
    // CMPXCHG8B, XSAVEC, XSAVES, VMPTRST
    Writes(0xc7, 0xc7, 0x02, 0x0003, DoubleLong),
    Writes(0xc7, 0xc7, 0x30, 0x0000, Around),
    Writes(0xc7, 0xc7, 0x80, 0x0000, Bytes(8)),
    // MOVQ, MOVNTQ, MASKMOVQ
    Writes(0xd6, 0xd6, 0xff, 0x0000, Bytes(8)),
    Writes(0xe7, 0xe7, 0xff, 0x0000, VectorOrEight),
    Writes(0xf7, 0xf7, 0xff, 0x0000, Elsewhere),
];

/// Opcodes after 0F 38.
static THREE_BYTE_38: [Writes; 4] = [
    // MOVBE
    Writes(0xf1, 0xf1, 0xff, 0x0000, GeneralUnlessRepeated),
    // MOVDIR64B, ENQCMD, MOVDIRI, AADD and its kin
    Writes(0xf8, 0xf8, 0xff, 0x0000, Elsewhere),
    Writes(0xf9, 0xf9, 0xff, 0x0000, Long),
    Writes(0xfc, 0xfc, 0xff, 0x0000, Long),
];

/// Opcodes after 0F 3A.
static THREE_BYTE_3A: [Writes; 6] = [
    // PEXTRB, PEXTRW, PEXTRD, EXTRACTPS
    Writes(0x14, 0x14, 0xff, 0x0000, Bytes(1)),
    Writes(0x15, 0x15, 0xff, 0x0000, Bytes(2)),
    Writes(0x16, 0x16, 0xff, 0x0000, Long),
    Writes(0x17, 0x17, 0xff, 0x0000, Bytes(4)),
    // PCMPESTRI, PCMPISTRI
    Writes(0x61, 0x61, 0xff, 0x0004, Nothing),
    Writes(0x63, 0x63, 0xff, 0x0004, Nothing),
];

/// Opcodes of map 1 of VEX and EVEX.
static VECTOR_1: [Writes; 12] = [
    // VMOVUPS and VMOVSS, VMOVLPS, VMOVHPS, VMOVAPS, VMOVNTPS
    Writes(0x11, 0x11, 0xff, 0x0000, VectorOrScalar),
    Writes(0x13, 0x13, 0xff, 0x0000, Bytes(8)),
    Writes(0x17, 0x17, 0xff, 0x0000, Bytes(8)),
    Writes(0x29, 0x29, 0xff, 0x0000, Vector),
    Writes(0x2b, 0x2b, 0xff, 0x0000, Vector),
    // VMOVD and VMOVQ, VMOVDQA
    Writes(0x7e, 0x7e, 0xff, 0x0000, LongUnlessRepeated),
    Writes(0x7f, 0x7f, 0xff, 0x0000, Vector),
    // KMOV, VSTMXCSR, VMOVQ, VMOVNTDQ, VMASKMOVDQU
    Writes(0x91, 0x91, 0xff, 0x0000, Mask),
    Writes(0xae, 0xae, 0x08, 0x0000, Bytes(4)),
    Writes(0xd6, 0xd6, 0xff, 0x0000, Bytes(8)),
    Writes(0xe7, 0xe7, 0xff, 0x0000, Vector),
    Writes(0xf7, 0xf7, 0xff, 0x0000, Elsewhere),
];

/// Opcodes of map 2 of VEX and EVEX.
static VECTOR_2: [Writes; 11] = [
    // VPMOVWB and its kin
    Writes(0x10, 0x15, 0xff, 0x0000, Narrowed),
    Writes(0x20, 0x25, 0xff, 0x0000, Narrowed),
    Writes(0x30, 0x35, 0xff, 0x0000, Narrowed),
    // VMASKMOVPS, VMASKMOVPD, STTILECFG, TILESTORED, VPCOMPRESSB, VCOMPRESSPS, VPCOMPRESSD, VPMASKMOVD
    Writes(0x2e, 0x2f, 0xff, 0x0000, Vector),
    Writes(0x49, 0x49, 0xff, 0x0000, Around),
    Writes(0x4b, 0x4b, 0xff, 0x0000, Around),
    Writes(0x63, 0x63, 0xff, 0x0000, Elements(1)),
    Writes(0x8a, 0x8b, 0xff, 0x0000, Elements(4)),
    Writes(0x8e, 0x8e, 0xff, 0x0000, Vector),
    // scattered elements, CMPccXADD
    Writes(0xa0, 0xa3, 0xff, 0x0000, Around),
    Writes(0xe0, 0xef, 0xff, 0x0000, Long),
];

/// Opcodes of map 3 of VEX and EVEX.
static VECTOR_3: [Writes; 11] = [
    // VPEXTRB, VPEXTRW, VPEXTRD, VEXTRACTPS
    Writes(0x14, 0x14, 0xff, 0x0000, Bytes(1)),
    Writes(0x15, 0x15, 0xff, 0x0000, Bytes(2)),
    Writes(0x16, 0x16, 0xff, 0x0000, Long),
    Writes(0x17, 0x17, 0xff, 0x0000, Bytes(4)),
    // VEXTRACTF128, VEXTRACTF32X8, VCVTPS2PH, VEXTRACTI128, VEXTRACTI32X8
    Writes(0x19, 0x19, 0xff, 0x0000, Bytes(16)),
    Writes(0x1b, 0x1b, 0xff, 0x0000, Bytes(32)),
    Writes(0x1d, 0x1d, 0xff, 0x0000, HalfVector),
    Writes(0x39, 0x39, 0xff, 0x0000, Bytes(16)),
    Writes(0x3b, 0x3b, 0xff, 0x0000, Bytes(32)),
    // VPCMPESTRI, VPCMPISTRI
    Writes(0x61, 0x61, 0xff, 0x0004, Nothing),
    Writes(0x63, 0x63, 0xff, 0x0004, Nothing),
];

/// Opcodes of map 5 of EVEX.
static VECTOR_5: [Writes; 2] = [
    // VMOVSH, VMOVW
    Writes(0x11, 0x11, 0xff, 0x0000, Bytes(2)),
    Writes(0x7e, 0x7e, 0xff, 0x0000, Bytes(2)),
];

/// Opcodes of map 9 of XOP.
static XOP_9: [Writes; 1] = [
    // LLWPCB, SLWPCB
    Writes(0x12, 0x12, 0xff, 0x0000, Undescribed),
];

/// Returns the first row that has an opcode with reg of its ModRM byte.
#[tactic(auto, unfolding(crate::specs::X86_64::Written::row_of))]
fn row_of(rows: &[Writes], opcode: u8, reg: u8) -> Option<Writes>
    ensures { result ≡ row_of rows.now opcode reg }
{
    rows.iter().copied().find(|row| row.0 <= opcode && opcode <= row.1 && has_member(row.2, reg))
}

/// Returns whether the bit of a number below 8 is set.
fn has_member(members: u8, reg: u8) -> bool
    ensures { result ≡ has_member members reg }
{
    (members >> (reg % 8)) % 2 == 1
}

/// Returns the row of an instruction, if its opcode has one.
#[tactic(auto, unfolding(crate::specs::X86_64::Written::writes_of))]
fn writes_of(parts: Parts) -> Option<Writes>
    ensures { result ≡ writes_of parts }
{
    let opcode = parts.opcode.byte;
    let reg = reg_of(parts);
    match parts.opcode.map {
        Map::OneByte => one_byte_row(opcode, reg),
        Map::TwoByte => two_byte_row(opcode, reg),
        Map::ThreeByte38 => row_of(&THREE_BYTE_38, opcode, reg),
        Map::ThreeByte3a => row_of(&THREE_BYTE_3A, opcode, reg),
        Map::Vector(fields) => vector_row(fields.map, opcode, reg),
    }
}

/// Returns the row of an opcode of one byte.
fn one_byte_row(opcode: u8, reg: u8) -> Option<Writes>
    ensures { result ≡ row_of one_byte_writes opcode reg }
{
    row_of(&ONE_BYTE, opcode, reg)
}

/// Returns the row of an opcode after 0F.
fn two_byte_row(opcode: u8, reg: u8) -> Option<Writes>
    ensures { result ≡ row_of two_byte_writes opcode reg }
{
    row_of(&TWO_BYTE, opcode, reg)
}

/// Returns the row of an opcode after a prefix VEX, EVEX or XOP, by the prefix's map.
#[tactic(auto, unfolding(crate::specs::X86_64::Written::vector_row))]
fn vector_row(map: u8, opcode: u8, reg: u8) -> Option<Writes>
    ensures { result ≡ vector_row map opcode reg }
{
    match map {
        1 => row_of(&VECTOR_1, opcode, reg),
        2 => row_of(&VECTOR_2, opcode, reg),
        3 => row_of(&VECTOR_3, opcode, reg),
        5 => row_of(&VECTOR_5, opcode, reg),
        9 => row_of(&XOP_9, opcode, reg),
        _ => None,
    }
}

/// Returns the action of an instruction that is only described by what it writes.
#[tactic(auto, unfolding(crate::specs::X86_64::Written::forgotten))]
pub(crate) fn forgotten(parts: Parts) -> Action
    ensures { result ≡ forgotten parts }
{
    Action::Forget {
        registers: Registers(u32::from(operand_registers(parts) | implied_registers(parts))),
        memory: stored(parts, amount_of(parts)),
    }
}

/// Returns the registers that an instruction writes and no operand names.
fn implied_registers(parts: Parts) -> u16
    ensures { result ≡ implied_registers parts }
{
    match writes_of(parts) {
        Some(row) => row.3,
        None => 0,
    }
}

/// Returns how much memory an instruction writes.
pub(crate) fn amount_of(parts: Parts) -> Amount
    ensures { result ≡ amount_of parts }
{
    match writes_of(parts) {
        Some(row) => row.4,
        None => amount_by_operation(parts),
    }
}

/// Returns how much memory an instruction without a row writes: its memory operand is written where the register would
/// be.
fn amount_by_operation(parts: Parts) -> Amount
    ensures { result ≡ amount_by_operation parts }
{
    let reg = reg_of(parts);
    let prefixes = parts.opcode.prefixes;
    match parts.opcode.operation {
        Operation::Write(operand) if names_rm(operand) => General,
        Operation::WriteByte(operand) if names_rm(operand) => Bytes(1),
        // WRSS
        Operation::WriteIfPrefixed(_) if !prefixes.repeated && !prefixes.operand_size => Around,
        // all but CMP
        Operation::Group1Byte if reg != 7 => Bytes(1),
        // NOT and NEG
        Operation::Group3 if reg == 2 || reg == 3 => General,
        Operation::Group3Byte if reg == 2 || reg == 3 => Bytes(1),
        // all but BT
        Operation::Group8 if reg != 4 => General,
        _ => Nothing,
    }
}

/// Returns whether r/m is among the operands.
fn names_rm(operand: Operand) -> bool
    ensures { result ≡ names_rm operand }
{
    match operand {
        Operand::Rm | Operand::RmAndReg => true,
        _ => false,
    }
}

/// Returns the bytes of an amount, where there are any.
fn stored(parts: Parts, amount: Amount) -> Option<Stored>
    ensures { result ≡ stored parts amount }
{
    let bytes = bytes_of(parts, amount);
    match amount {
        Elsewhere => Some(Stored {
            at: Place::Elsewhere,
            bytes: 0,
        }),
        _ if is_register(parts) => None,
        Around => Some(Stored {
            at: Place::Elsewhere,
            bytes: 0,
        }),
        _ if bytes == 0 => None,
        _ => Some(Stored {
            at: place_of(parts, unit_of(parts, amount)),
            bytes,
        }),
    }
}

/// Returns how many bytes an amount is, or 0 where that is not known.
fn bytes_of(parts: Parts, amount: Amount) -> u64
    ensures { result ≡ bytes_of parts amount }
{
    let prefixes = parts.opcode.prefixes;
    let vector = vector_size(parts);
    let has_prefix = prefixes.operand_size || prefixes.repeated;
    match amount {
        Nothing | Around | Elsewhere | Undescribed => 0,
        Bytes(bytes) => bytes,
        General => operand_size(prefixes),
        GeneralUnlessRepeated => if prefixes.repeated {
            0
        } else {
            operand_size(prefixes)
        },
        Long => amount_long(parts),
        LongUnlessRepeated => if prefixes.repeated {
            0
        } else {
            amount_long(parts)
        },
        DoubleLong => 2 * amount_long(parts),
        Vector | Elements(_) => vector,
        HalfVector => vector / 2,
        VectorOrScalar => scalar_or(parts, vector),
        VectorOrEight => if has_prefix { vector } else { 8 },
        Narrowed => if prefixes.repeated {
            vector / narrowed(parts.opcode.byte)
        } else {
            0
        },
        Mask => mask_size(prefixes.operand_size, prefixes.rex.w),
    }
}

/// Returns four, or eight with REX.W.
fn amount_long(parts: Parts) -> u64
    ensures { result ≡ amount_long parts }
{
    if parts.opcode.prefixes.rex.w { 8 } else { 4 }
}

/// Returns the size of a scalar, in bytes: eight after a prefix F2 and four after F3. Without one it is a vector's.
fn scalar_or(parts: Parts, vector: u64) -> u64
    ensures { result ≡ scalar_or parts vector }
{
    if parts.opcode.prefixes.repeated_unequal {
        8
    } else if parts.opcode.prefixes.repeated {
        4
    } else {
        vector
    }
}

/// Returns how many times the elements that are stored are narrower than those of the vector.
fn narrowed(opcode: u8) -> u64
    ensures exact { result ≡ narrowed opcode }
    ensures positive { 0 < result }
{
    match opcode % 8 {
        1 | 4 => 4,
        2 => 8,
        _ => 2,
    }
}

/// Returns the size of a mask register, in bytes, by the prefix 66 and W.
fn mask_size(operand_size: bool, w: bool) -> u64
    ensures { result ≡ mask_size operand_size w }
{
    match (operand_size, w) {
        (false, false) => 2,
        (false, true) => 8,
        (true, false) => 1,
        (true, true) => 4,
    }
}

/// Returns the size of a vector, in bytes.
fn vector_size(parts: Parts) -> u64
    ensures { result ≡ vector_size parts }
{
    match parts.opcode.map {
        Map::Vector(fields) => u64::from(fields.size),
        _ => 16,
    }
}

/// Returns how many bytes a displacement of one byte counts by EVEX: as many as are written, or those of an element.
fn unit_of(parts: Parts, amount: Amount) -> u64
    ensures { result ≡ unit_of parts amount }
{
    match amount {
        Elements(bytes) => u64::from(bytes) * (amount_long(parts) / 4),
        _ => bytes_of(parts, amount),
    }
}

/// Returns the set of the registers that an instruction's operands name and it writes.
fn operand_registers(parts: Parts) -> u16
    ensures { result ≡ operand_registers parts }
{
    let prefixes = parts.opcode.prefixes;
    let has_prefix = prefixes.repeated || prefixes.operand_size;
    match parts.opcode.operation {
        Operation::Write(operand) => registers_of(parts, operand, false),
        Operation::WriteByte(operand) => registers_of(parts, operand, true),
        Operation::WriteIfRepeated(operand) => registers_if(parts, operand, prefixes.repeated),
        Operation::WriteIfPrefixed(operand) => registers_if(parts, operand, has_prefix),
        Operation::WriteUnlessRepeated(operand) => {
            registers_if(parts, operand, !prefixes.repeated)
        }
        // XCHG of r8 and rax
        Operation::ExchangeOrNop => if prefixes.rex.b { 0x0101 } else { 0 },
        _ => registers_by_group(parts),
    }
}

/// Returns the register of r/m for those members of a group that write it.
fn registers_by_group(parts: Parts) -> u16
    ensures { result ≡ registers_by_group parts }
{
    let reg = reg_of(parts);
    let repeated = parts.opcode.prefixes.repeated;
    match parts.opcode.operation {
        // all but CMP
        Operation::Group1Byte if reg != 7 => registers_of(parts, Operand::Rm, true),
        // NOT and NEG
        Operation::Group3Byte if reg == 2 || reg == 3 => registers_of(parts, Operand::Rm, true),
        Operation::Group3 => registers_if(parts, Operand::Rm, reg == 2 || reg == 3),
        // SLDT and STR
        Operation::Group6 => registers_if(parts, Operand::Rm, reg < 2),
        // SMSW
        Operation::Group7 => registers_if(parts, Operand::Rm, reg == 4),
        // all but BT
        Operation::Group8 => registers_if(parts, Operand::Rm, reg != 4),
        // RDFSBASE and RDGSBASE
        Operation::Group15 => registers_if(parts, Operand::Rm, repeated && reg < 2),
        // RDSSP
        Operation::ReadShadowStack => registers_if(parts, Operand::Rm, repeated && reg == 1),
        _ => 0,
    }
}

/// Returns the set of the registers of an operand if a condition holds, else none.
fn registers_if(parts: Parts, operand: Operand, condition: bool) -> u16
    ensures { result ≡ registers_if parts operand condition }
{
    if condition {
        registers_of(parts, operand, false)
    } else {
        0
    }
}

/// Returns the set of the registers of an operand, or of those that its 8 bits are in.
pub(crate) fn registers_of(parts: Parts, operand: Operand, is_byte: bool) -> u16
    ensures { result ≡ registers_of parts operand is_byte }
{
    let rex = parts.opcode.prefixes.rex;
    let is_second = is_byte && !rex.present;
    let reg = set_numbered(parts.address.modrm / 8, rex.r, is_second);
    match operand {
        Operand::Nothing => 0,
        Operand::Rm => rm_set(parts, is_second),
        Operand::Reg => reg,
        Operand::RmAndReg => rm_set(parts, is_second) | reg,
        Operand::OpcodeRegister => set_numbered(parts.opcode.byte, rex.b, is_second),
        Operand::Vvvv => vvvv_set(parts.opcode),
        Operand::RegAndVvvv => vvvv_set(parts.opcode) | reg,
    }
}

/// Returns the set of the register of r/m, if that is one.
fn rm_set(parts: Parts, is_second: bool) -> u16
    ensures { result ≡ rm_set parts is_second }
{
    if is_register(parts) {
        set_numbered(parts.address.modrm, parts.opcode.prefixes.rex.b, is_second)
    } else {
        0
    }
}

/// Returns the set of the register of VEX.vvvv.
fn vvvv_set(opcode: Opcode) -> u16
    ensures { result ≡ vvvv_set opcode }
{
    set_numbered(opcode.vvvv, opcode.vvvv >= 8, false)
}

/// Returns the set of a register by the low three bits of its number and the fourth one. Of those of 8 bits, without
/// REX the numbers 4 to 7 are AH, CH, DH and BH.
fn set_numbered(number: u8, high: bool, is_second: bool) -> u16
    ensures { result ≡ set_numbered number high is_second }
{
    if is_second && number % 8 >= 4 {
        set_of(numbered(number % 8 - 4, false))
    } else {
        set_of(numbered(number, high))
    }
}

/// Returns the set of one register.
pub(crate) fn set_of(register: Register) -> u16
    ensures { result ≡ set_of register }
{
    1 << (register.0 % 16)
}
