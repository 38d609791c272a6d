//! The encodings of aarch64 instructions, as far as they can write `sp` or `x29` or lead elsewhere (Arm Architecture
//! Reference Manual for A-profile, "A64 instruction set encoding").
ghost use Rattle.std.specs.Prelude.{◌≡◌};
ghost use Rattle.framehop_code.specs.Aarch64.Encodings.{encoding_in, class_of};

use Class::{
    AddImmediate, Branch, BranchRegister, Call, ComparePair, Exclusive, Indexed, Jump, Keep,
    LoadIndexed, LoadPairIndexed, MemoryCopy, Padding, PairIndexed, SetRd, Stop, TagIndexed,
    TestBranch, VectorPairIndexed, WriteBack, WriteRd, WriteRt2, WriteRtAndBack,
};

/// What an instruction does, by its encoding.
#[derive(Clone, Copy)]
pub(crate) enum Class {
    /// Writes neither `sp` nor `x29`.
    Keep,
    /// Does nothing.
    Padding,
    /// Leads to no place that is known.
    Stop,
    /// B.
    Jump,
    /// BL.
    Call,
    /// B.cond, BC.cond, CBZ and CBNZ: the distance has 19 bits.
    Branch,
    /// TBZ and TBNZ: the distance has 14 bits.
    TestBranch,
    /// BR, BLR, RET and their kin, by opc.
    BranchRegister,
    /// Writes Rd or Rt, of which 31 is no register.
    WriteRd,
    /// Writes Rd, of which 31 is `sp`.
    SetRd,
    /// ADD and SUB (immediate), 64-bit: writes Rd, of which 31 is `sp`.
    AddImmediate,
    /// Writes Rt and Rt2.
    WriteRt2,
    /// Adds imm9 to the base register.
    Indexed,
    /// Writes Rt and adds imm9 to the base register.
    LoadIndexed,
    /// Adds imm9 in units of 16 bytes to the base register.
    TagIndexed,
    /// Stores a pair and adds imm7 to the base register.
    PairIndexed,
    /// Loads a pair and adds imm7 to the base register.
    LoadPairIndexed,
    /// Loads or stores a pair of vector registers and adds imm7 to the base register.
    VectorPairIndexed,
    /// Changes the base register by a number of bytes that is not told.
    WriteBack,
    /// Writes Rt and changes the base register by a number of bytes that is not told.
    WriteRtAndBack,
    /// Writes Rs, and where it loads Rt and Rt2.
    Exclusive,
    /// CASP: writes Rs and the register after it.
    ComparePair,
    /// CPY and SET: writes Rd, Rs and Rn.
    MemoryCopy,
}

/// The words that have these bits of a mask.
#[derive(Clone, Copy)]
pub(crate) struct Encoding(pub u32, pub u32, pub Class);

/// The encodings; of several that fit the first one counts.
static ENCODINGS: [Encoding; 65] = [
    // UDF
    Encoding(0xffff_0000, 0x0000_0000, Stop),
    // ---- data processing (immediate)
    // ADDS and SUBS, ADD and SUB of 64 and of 32 bits
    Encoding(0x3f80_0000, 0x3100_0000, WriteRd),
    Encoding(0xbf80_0000, 0x9100_0000, AddImmediate),
    Encoding(0xbf80_0000, 0x1100_0000, SetRd),
    // ADDG and SUBG; SMAX, UMAX, SMIN and UMIN
    Encoding(0x1fc0_0000, 0x1180_0000, SetRd),
    Encoding(0x1fc0_0000, 0x11c0_0000, WriteRd),
    // ANDS; AND, ORR and EOR
    Encoding(0x7f80_0000, 0x7200_0000, WriteRd),
    Encoding(0x1f80_0000, 0x1200_0000, SetRd),
    // ADR, MOVZ, MOVN, MOVK, bit fields, EXTR
    Encoding(0x1c00_0000, 0x1000_0000, WriteRd),
    // ---- branches, exceptions and system instructions
    Encoding(0xfc00_0000, 0x1400_0000, Jump),
    Encoding(0xfc00_0000, 0x9400_0000, Call),
    Encoding(0xff00_0000, 0x5400_0000, Branch),
    Encoding(0x7e00_0000, 0x3400_0000, Branch),
    Encoding(0x7e00_0000, 0x3600_0000, TestBranch),
    Encoding(0xfe00_0000, 0xd600_0000, BranchRegister),
    // NOP, BRK
    Encoding(0xffff_ffff, 0xd503_201f, Padding),
    Encoding(0xffe0_0000, 0xd420_0000, Stop),
    // MRS, SYSL
    Encoding(0xfff0_0000, 0xd530_0000, WriteRd),
    Encoding(0xfff8_0000, 0xd528_0000, WriteRd),
    Encoding(0x1c00_0000, 0x1400_0000, Keep),
    // ---- data processing (register)
    // ADD and SUB (extended register) without flags
    Encoding(0x3f20_0000, 0x0b20_0000, SetRd),
    // CCMN and CCMP, which have flags in place of Rd
    Encoding(0x1fe0_0000, 0x1a40_0000, Keep),
    // IRG
    Encoding(0xffe0_fc00, 0x9ac0_1000, SetRd),
    Encoding(0x0e00_0000, 0x0a00_0000, WriteRd),
    // ---- pairs
    // STP and STGP; LDP and LDPSW
    Encoding(0x3ec0_0000, 0x2800_0000, Keep),
    Encoding(0x3ec0_0000, 0x2840_0000, WriteRt2),
    Encoding(0x3ec0_0000, 0x2880_0000, PairIndexed),
    Encoding(0x3ec0_0000, 0x28c0_0000, LoadPairIndexed),
    Encoding(0x3e80_0000, 0x2c00_0000, Keep),
    Encoding(0x3e80_0000, 0x2c80_0000, VectorPairIndexed),
    // ---- loads and stores of one register
    // PRFM
    Encoding(0xffc0_0000, 0xf980_0000, Keep),
    Encoding(0xffe0_0c00, 0xf880_0000, Keep),
    Encoding(0xffe0_0c00, 0xf8a0_0800, Keep),
    // unsigned offset: stores, loads
    Encoding(0x3fc0_0000, 0x3900_0000, Keep),
    Encoding(0x3f00_0000, 0x3900_0000, WriteRd),
    // LDRAA and LDRAB, with write-back and without
    Encoding(0xff20_0c00, 0xf820_0c00, WriteRtAndBack),
    Encoding(0xff20_0c00, 0xf820_0400, WriteRd),
    // atomic operations
    Encoding(0x3f20_0c00, 0x3820_0000, WriteRd),
    // register offset: stores, loads
    Encoding(0x3fe0_0c00, 0x3820_0800, Keep),
    Encoding(0x3f20_0c00, 0x3820_0800, WriteRd),
    // post-indexed and pre-indexed: stores, loads, vectors
    Encoding(0x3fe0_0400, 0x3800_0400, Indexed),
    Encoding(0x3f20_0400, 0x3800_0400, LoadIndexed),
    Encoding(0x3f20_0400, 0x3c00_0400, Indexed),
    // unscaled and unprivileged: stores, loads
    Encoding(0x3fe0_0400, 0x3800_0000, Keep),
    Encoding(0x3f20_0400, 0x3800_0000, WriteRd),
    Encoding(0x3a00_0000, 0x3800_0000, Keep),
    // ---- other loads and stores
    // PRFM (literal), LDR (literal)
    Encoding(0xff00_0000, 0xd800_0000, Keep),
    Encoding(0x3f00_0000, 0x1800_0000, WriteRd),
    // STLUR, LDAPUR; LDIAPP, STILP and their kin
    Encoding(0x3fe0_0c00, 0x1900_0000, Keep),
    Encoding(0x3f20_0c00, 0x1900_0000, WriteRd),
    Encoding(0x3f20_0c00, 0x1900_0800, WriteRtAndBack),
    // STG and its kin with write-back, LDG
    Encoding(0xff20_0400, 0xd920_0400, TagIndexed),
    Encoding(0xff60_0c00, 0xd960_0000, WriteRd),
    // CPY, SET
    Encoding(0x3b20_0c00, 0x1900_0400, MemoryCopy),
    Encoding(0x3a00_0000, 0x1800_0000, Keep),
    // CASP; exclusive and ordered accesses, CAS
    Encoding(0xbfa0_7c00, 0x0820_7c00, ComparePair),
    Encoding(0x3f00_0000, 0x0800_0000, Exclusive),
    // vectors of structures, post-indexed
    Encoding(0xbe80_0000, 0x0c80_0000, WriteBack),
    // ---- SVE and vectors
    // ADDVL, ADDPL, RDVL, ADDSVL, ADDSPL
    Encoding(0xff20_f000, 0x0420_5000, SetRd),
    // SCVTF, UCVTF and FMOV to a vector register
    Encoding(0x5f26_fc00, 0x1e22_0000, Keep),
    Encoding(0x5f27_fc00, 0x1e27_0000, Keep),
    // FCVT and FMOV to a general register, FCVTZS and FCVTZU (fixed-point)
    Encoding(0x5f20_fc00, 0x1e20_0000, WriteRd),
    Encoding(0x5f26_0000, 0x1e00_0000, WriteRd),
    // SMOV, UMOV
    Encoding(0xbfe0_fc00, 0x0e00_2c00, WriteRd),
    Encoding(0xbfe0_fc00, 0x0e00_3c00, WriteRd),
];

/// Returns what an instruction does, by its word. One of no encoding here writes neither `sp` nor `x29`; of SVE that is
/// taken to be so.
#[tactic(auto, unfolding(crate::specs::Aarch64::Encodings::class_of))]
pub(crate) fn class_of(word: u32) -> Class
    ensures { result ≡ class_of word }
{
    match encoding_in(&ENCODINGS, word) {
        Some(Encoding(_, _, class)) => class,
        None => Class::Keep,
    }
}

/// Returns the first encoding that a word has.
#[tactic(auto, unfolding(crate::specs::Aarch64::Encodings::encoding_in))]
fn encoding_in(encodings: &[Encoding], word: u32) -> Option<Encoding>
    ensures { result ≡ encoding_in encodings.now word }
{
    encodings
        .iter()
        .copied()
        .find(|encoding| word & encoding.0 == encoding.1)
}
