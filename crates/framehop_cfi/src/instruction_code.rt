//! The codes of call frame instructions, by their names in DWARF 5, section 7.24; two of them in the DWARF for the Arm
//! 64-bit architecture and in the LSB, "DWARF extensions".
//!
//! The last three have their first operand in the low six bits of the code's byte.

pub(crate) const DW_CFA_NOP: u8 = 0x00;

pub(crate) const DW_CFA_SET_LOC: u8 = 0x01;

pub(crate) const DW_CFA_ADVANCE_LOC1: u8 = 0x02;

pub(crate) const DW_CFA_ADVANCE_LOC2: u8 = 0x03;

pub(crate) const DW_CFA_ADVANCE_LOC4: u8 = 0x04;

pub(crate) const DW_CFA_OFFSET_EXTENDED: u8 = 0x05;

pub(crate) const DW_CFA_RESTORE_EXTENDED: u8 = 0x06;

pub(crate) const DW_CFA_UNDEFINED: u8 = 0x07;

pub(crate) const DW_CFA_SAME_VALUE: u8 = 0x08;

pub(crate) const DW_CFA_REGISTER: u8 = 0x09;

pub(crate) const DW_CFA_REMEMBER_STATE: u8 = 0x0a;

pub(crate) const DW_CFA_RESTORE_STATE: u8 = 0x0b;

pub(crate) const DW_CFA_DEF_CFA: u8 = 0x0c;

pub(crate) const DW_CFA_DEF_CFA_REGISTER: u8 = 0x0d;

pub(crate) const DW_CFA_DEF_CFA_OFFSET: u8 = 0x0e;

pub(crate) const DW_CFA_DEF_CFA_EXPRESSION: u8 = 0x0f;

pub(crate) const DW_CFA_EXPRESSION: u8 = 0x10;

pub(crate) const DW_CFA_OFFSET_EXTENDED_SF: u8 = 0x11;

pub(crate) const DW_CFA_DEF_CFA_SF: u8 = 0x12;

pub(crate) const DW_CFA_DEF_CFA_OFFSET_SF: u8 = 0x13;

pub(crate) const DW_CFA_VAL_OFFSET: u8 = 0x14;

pub(crate) const DW_CFA_VAL_OFFSET_SF: u8 = 0x15;

pub(crate) const DW_CFA_VAL_EXPRESSION: u8 = 0x16;

pub(crate) const DW_CFA_AARCH64_NEGATE_RA_STATE: u8 = 0x2d;

pub(crate) const DW_CFA_GNU_ARGS_SIZE: u8 = 0x2e;

pub(crate) const DW_CFA_ADVANCE_LOC: u8 = 0x40;

pub(crate) const DW_CFA_OFFSET: u8 = 0x80;

pub(crate) const DW_CFA_RESTORE: u8 = 0xc0;
