//! The encodings of aarch64 instructions, by what they do to general registers and memory and where they lead (Arm
//! Architecture Reference Manual for A-profile, "A64 instruction set encoding").
ghost use Rattle.std.specs.Prelude.{◌≡◌};
ghost use Rattle.framehop_code.specs.Aarch64.Forms.{row_in, form_of};

use Addressing::{Indexed, Offset, PostIndexed, PreIndexed, Unscaled};
use Bytes::{AtBase, AtOffset, Elsewhere, PairAtBase, Zero};
use Form::{
    Access, AddImmediate, AddShifted, AddsImmediate, Adr, Branch, Call, CallRegister, Forget, Jump,
    JumpRegister, Literal, MoveInverted, MoveRegister, MoveWide, Pair, Return, ReturnByLink,
    Structure, Structures, Tag, TestBranch, Undescribed,
};
use Written::{Nothing, Rd, RdAndRn, RdAndRt2, RdOrSp, RdRnAndRs, Rs, RsPair, X16};

/// What an instruction does, by its encoding.
#[derive(Clone, Copy)]
pub(crate) enum Form {
    /// Not described.
    Undescribed,
    /// Leaves any value in registers and memory, and leads to the next instruction.
    Forget(Written, Bytes),
    /// ADD and SUB (immediate): of Rd and Rn 31 is `sp`.
    AddImmediate,
    /// ADDS and SUBS (immediate): of Rn 31 is `sp`.
    AddsImmediate,
    /// ADD and ADDS (shifted register), with LSL by 0 to 3.
    AddShifted,
    /// ORR (shifted register) of the zero register and Rm: MOV.
    MoveRegister,
    /// MOVZ.
    MoveWide,
    /// MOVN.
    MoveInverted,
    /// ADR.
    Adr,
    /// B.
    Jump,
    /// BL.
    Call,
    /// B.cond, BC.cond, CBZ and CBNZ: the distance has 19 bits.
    Branch,
    /// TBZ and TBNZ: the distance has 14 bits.
    TestBranch,
    /// BR and its kin.
    JumpRegister,
    /// BLR and its kin.
    CallRegister,
    /// RET.
    Return,
    /// RETAA and RETAB: a return to the address in `x30`.
    ReturnByLink,
    /// LDR and LDRSW (literal).
    Literal,
    /// A load or store of one register, by size, V and opc.
    Access(Addressing),
    /// A load or store of a pair of registers, by opc, V and L.
    Pair(Addressing),
    /// LD1 to LD4 and ST1 to ST4 (multiple structures).
    Structures(Addressing),
    /// LD1 to LD4 and ST1 to ST4 (single structure), LD1R to LD4R.
    Structure(Addressing),
    /// STG, STZG, ST2G and STZ2G.
    Tag(Addressing),
}

/// How a load or store has its address.
#[derive(Clone, Copy)]
pub(crate) enum Addressing {
    /// The base and an offset, if the form has one, in units of what is accessed.
    Offset,
    /// The base and imm9.
    Unscaled,
    /// The base and a register.
    Indexed,
    /// The base, which is moved.
    PostIndexed,
    /// The base after it was moved.
    PreIndexed,
}

/// Registers that an instruction writes. Of those but Rn and `RdOrSp` 31 is none.
#[derive(Clone, Copy)]
pub(crate) enum Written {
    Nothing,
    Rd,
    /// Rd, of which 31 is `sp`.
    RdOrSp,
    RdAndRt2,
    /// Rd and the base register Rn.
    RdAndRn,
    /// Those of CPY and SET.
    RdRnAndRs,
    Rs,
    /// An even register Rs and the one after it.
    RsPair,
    X16,
}

/// Memory that an instruction writes.
#[derive(Clone, Copy)]
pub(crate) enum Bytes {
    Zero,
    /// 1, 2, 4 or 8 bytes at the base, by size.
    AtBase,
    /// 8 or 16 bytes at the base, by the low bit of size.
    PairAtBase,
    /// 1, 2, 4 or 8 bytes at the base and imm9, by size.
    AtOffset,
    /// At an address that is not described.
    Elsewhere,
}

/// The words that have these bits of a mask.
#[derive(Clone, Copy)]
pub(crate) struct Row(pub u32, pub u32, pub Form);

/// The encodings; of several that fit the first one counts.
static ROWS: [Row; 95] = [
    // ---- SME and SVE
    // SME
    Row(0x9e00_0000, 0x8000_0000, Forget(Rd, Elsewhere)),
    // ADDVL, ADDPL, RDVL, ADDSVL, ADDSPL
    Row(0xff20_f000, 0x0420_5000, Forget(RdOrSp, Zero)),
    // stores; loads and prefetches; others
    Row(0xfe00_0000, 0xe400_0000, Forget(Nothing, Elsewhere)),
    Row(0x9e00_0000, 0x8400_0000, Forget(Nothing, Zero)),
    Row(0x1e00_0000, 0x0400_0000, Forget(Rd, Zero)),
    // ---- data processing (immediate)
    // ADR, ADRP
    Row(0x9f00_0000, 0x1000_0000, Adr),
    Row(0x9f00_0000, 0x9000_0000, Forget(Rd, Zero)),
    // ADD and SUB; ADDS and SUBS
    Row(0x3f80_0000, 0x1100_0000, AddImmediate),
    Row(0x3f80_0000, 0x3100_0000, AddsImmediate),
    // ADDG and SUBG; SMAX, UMAX, SMIN and UMIN
    Row(0xbfc0_0000, 0x9180_0000, Forget(RdOrSp, Zero)),
    Row(0x7fc0_0000, 0x11c0_0000, Forget(Rd, Zero)),
    // ANDS; AND, ORR and EOR
    Row(0x7f80_0000, 0x7200_0000, Forget(Rd, Zero)),
    Row(0x1f80_0000, 0x1200_0000, Forget(RdOrSp, Zero)),
    // of 32 bits none has an upper half; MOVN, MOVZ, MOVK
    Row(0x9fc0_0000, 0x12c0_0000, Undescribed),
    Row(0x7f80_0000, 0x1280_0000, MoveInverted),
    Row(0x7f80_0000, 0x5280_0000, MoveWide),
    Row(0x7f80_0000, 0x7280_0000, Forget(Rd, Zero)),
    // bit fields, EXTR
    Row(0x1f00_0000, 0x1300_0000, Forget(Rd, Zero)),
    // ---- branches and system instructions
    Row(0xfc00_0000, 0x1400_0000, Jump),
    Row(0xfc00_0000, 0x9400_0000, Call),
    Row(0xff00_0000, 0x5400_0000, Branch),
    Row(0x7e00_0000, 0x3400_0000, Branch),
    Row(0x7e00_0000, 0x3600_0000, TestBranch),
    // BR; BRAAZ and BRABZ; BRAA and BRAB
    Row(0xffff_fc1f, 0xd61f_0000, JumpRegister),
    Row(0xffff_f81f, 0xd61f_081f, JumpRegister),
    Row(0xffff_f800, 0xd71f_0800, JumpRegister),
    // BLR; BLRAAZ and BLRABZ; BLRAA and BLRAB
    Row(0xffff_fc1f, 0xd63f_0000, CallRegister),
    Row(0xffff_f81f, 0xd63f_081f, CallRegister),
    Row(0xffff_f800, 0xd73f_0800, CallRegister),
    // RET; RETAA and RETAB
    Row(0xffff_fc1f, 0xd65f_0000, Return),
    Row(0xffff_fbe0, 0xd65f_0be0, ReturnByLink),
    // CHKFEAT; DC ZVA and DC GZVA; MSR SPSel
    Row(0xffff_ffff, 0xd503_251f, Forget(X16, Zero)),
    Row(0xffff_ffe0, 0xd50b_7420, Forget(Nothing, Elsewhere)),
    Row(0xffff_ffe0, 0xd50b_7480, Forget(Nothing, Elsewhere)),
    Row(0xffff_f0ff, 0xd500_40bf, Undescribed),
    Row(0xffff_ffe0, 0xd518_4200, Undescribed),
    // hints, barriers, MSR and SYS; MRS and SYSL
    Row(0xffe0_0000, 0xd500_0000, Forget(Nothing, Zero)),
    Row(0xffe0_0000, 0xd520_0000, Forget(Rd, Zero)),
    // ---- data processing (register)
    Row(0x5fe0_f000, 0x0b00_0000, AddShifted),
    Row(0x7fe0_ffe0, 0x2a00_03e0, MoveRegister),
    // ADD and SUB (extended register) without flags
    Row(0x3fe0_0000, 0x0b20_0000, Forget(RdOrSp, Zero)),
    // CCMN and CCMP, which have flags in place of Rd
    Row(0x3fe0_0000, 0x3a40_0000, Forget(Nothing, Zero)),
    // IRG; ADDPT and SUBPT
    Row(0xffe0_fc00, 0x9ac0_1000, Forget(RdOrSp, Zero)),
    Row(0xbfe0_e000, 0x9a00_2000, Forget(RdOrSp, Zero)),
    Row(0x0e00_0000, 0x0a00_0000, Forget(Rd, Zero)),
    // ---- floating point and vectors
    // SCVTF, UCVTF and FMOV to a vector register
    Row(0x5f26_fc00, 0x1e22_0000, Forget(Nothing, Zero)),
    Row(0x5f27_fc00, 0x1e27_0000, Forget(Nothing, Zero)),
    // FCVT and FMOV to a general register, FCVTZS and FCVTZU (fixed-point)
    Row(0x5f20_fc00, 0x1e20_0000, Forget(Rd, Zero)),
    Row(0x5f26_0000, 0x1e00_0000, Forget(Rd, Zero)),
    // SMOV, UMOV
    Row(0xbfe0_fc00, 0x0e00_2c00, Forget(Rd, Zero)),
    Row(0xbfe0_fc00, 0x0e00_3c00, Forget(Rd, Zero)),
    Row(0x0e00_0000, 0x0e00_0000, Forget(Nothing, Zero)),
    // ---- exclusive and ordered accesses
    // LDXR, STXR, LDXP, STXP and their kin
    Row(0x3fe0_0000, 0x0840_0000, Forget(Rd, Zero)),
    Row(0x3fe0_0000, 0x0800_0000, Forget(Rs, AtBase)),
    Row(0xbfe0_0000, 0x8860_0000, Forget(RdAndRt2, Zero)),
    Row(0xbfe0_0000, 0x8820_0000, Forget(Rs, PairAtBase)),
    // CASP; LDAR and LDLAR; STLR and STLLR; CAS
    Row(0xbfa0_7c00, 0x0820_7c00, Forget(RsPair, PairAtBase)),
    Row(0x3fe0_0000, 0x08c0_0000, Forget(Rd, Zero)),
    Row(0x3fe0_0000, 0x0880_0000, Forget(Nothing, AtBase)),
    Row(0x3fa0_7c00, 0x08a0_7c00, Forget(Rs, AtBase)),
    // ---- vectors of structures
    Row(0xbfbf_0000, 0x0c00_0000, Structures(Offset)),
    Row(0xbfa0_0000, 0x0c80_0000, Structures(PostIndexed)),
    Row(0xbf9f_0000, 0x0d00_0000, Structure(Offset)),
    Row(0xbf80_0000, 0x0d80_0000, Structure(PostIndexed)),
    // ---- literals
    // PRFM; LDR and LDRSW; LDR of a vector register
    Row(0xff00_0000, 0xd800_0000, Forget(Nothing, Zero)),
    Row(0x3f00_0000, 0x1800_0000, Literal),
    Row(0xff00_0000, 0xdc00_0000, Undescribed),
    Row(0x3f00_0000, 0x1c00_0000, Forget(Nothing, Zero)),
    // ---- pairs
    Row(0xfa00_0000, 0xe800_0000, Undescribed),
    Row(0xff80_0000, 0x6800_0000, Undescribed),
    // LDNP and STNP; with an offset; post-indexed; pre-indexed
    Row(0x3b80_0000, 0x2800_0000, Pair(Offset)),
    Row(0x3b80_0000, 0x2900_0000, Pair(Offset)),
    Row(0x3b80_0000, 0x2880_0000, Pair(PostIndexed)),
    Row(0x3b80_0000, 0x2980_0000, Pair(PreIndexed)),
    // ---- loads and stores of one register
    // STLUR; LDAPUR and its kin
    Row(0x3fe0_0c00, 0x1900_0000, Forget(Nothing, AtOffset)),
    Row(0x3f20_0c00, 0x1900_0000, Forget(Rd, Zero)),
    // CPY, SET
    Row(0xfb20_0c00, 0x1900_0400, Forget(RdRnAndRs, Elsewhere)),
    // STG and its kin; LDG
    Row(0xff20_0c00, 0xd920_0400, Tag(PostIndexed)),
    Row(0xff20_0c00, 0xd920_0800, Tag(Offset)),
    Row(0xff20_0c00, 0xd920_0c00, Tag(PreIndexed)),
    Row(0xffe0_0c00, 0xd960_0000, Forget(Rd, Zero)),
    // PRFM, PRFUM
    Row(0xffc0_0000, 0xf980_0000, Forget(Nothing, Zero)),
    Row(0xffe0_0c00, 0xf880_0000, Forget(Nothing, Zero)),
    Row(0xffe0_4c00, 0xf8a0_4800, Forget(Nothing, Zero)),
    Row(0x3b00_0000, 0x3900_0000, Access(Offset)),
    // LDRAA and LDRAB, with write-back and without
    Row(0xff20_0c00, 0xf820_0c00, Forget(RdAndRn, Zero)),
    Row(0xff20_0c00, 0xf820_0400, Forget(Rd, Zero)),
    // LDAPR; atomic operations; SWP
    Row(0x3fff_fc00, 0x38bf_c000, Forget(Rd, Zero)),
    Row(0x3f20_8c00, 0x3820_0000, Forget(Rd, AtBase)),
    Row(0x3f20_fc00, 0x3820_8000, Forget(Rd, AtBase)),
    Row(0x3b20_4c00, 0x3820_4800, Access(Indexed)),
    // unscaled and unprivileged
    Row(0x3b20_0c00, 0x3800_0000, Access(Unscaled)),
    Row(0x3f20_0c00, 0x3800_0800, Access(Unscaled)),
    Row(0x3b20_0c00, 0x3800_0400, Access(PostIndexed)),
    Row(0x3b20_0c00, 0x3800_0c00, Access(PreIndexed)),
];

/// Returns what an instruction does, by its word. One of no encoding here is not described.
#[tactic(auto, unfolding(crate::specs::Aarch64::Forms::form_of, crate::specs::Aarch64::Forms::row_in))]
pub(crate) fn form_of(word: u32) -> Form
    ensures { result ≡ form_of word }
{
    match row_in(&ROWS, word) {
        Some(Row(_, _, form)) => form,
        None => Undescribed,
    }
}

/// Returns the first encoding that a word has.
#[tactic(auto, unfolding(crate::specs::Aarch64::Forms::row_in))]
fn row_in(rows: &[Row], word: u32) -> Option<Row>
    ensures { result ≡ row_in rows.now word }
{
    rows.iter().copied().find(|row| word & row.0 == row.1)
}
