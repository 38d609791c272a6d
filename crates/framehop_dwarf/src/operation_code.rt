//! The codes of the operations of DWARF expressions, by their names in DWARF 5, section 7.7.1.

pub(crate) const DW_OP_CONST1U: u8 = 0x08;

pub(crate) const DW_OP_CONST1S: u8 = 0x09;

pub(crate) const DW_OP_CONST2U: u8 = 0x0a;

pub(crate) const DW_OP_CONST2S: u8 = 0x0b;

pub(crate) const DW_OP_CONST4U: u8 = 0x0c;

pub(crate) const DW_OP_CONST4S: u8 = 0x0d;

pub(crate) const DW_OP_CONST8U: u8 = 0x0e;

pub(crate) const DW_OP_CONST8S: u8 = 0x0f;

pub(crate) const DW_OP_CONSTU: u8 = 0x10;

pub(crate) const DW_OP_CONSTS: u8 = 0x11;

pub(crate) const DW_OP_DUP: u8 = 0x12;

pub(crate) const DW_OP_DROP: u8 = 0x13;

pub(crate) const DW_OP_OVER: u8 = 0x14;

pub(crate) const DW_OP_PICK: u8 = 0x15;

pub(crate) const DW_OP_SWAP: u8 = 0x16;

pub(crate) const DW_OP_ROT: u8 = 0x17;

pub(crate) const DW_OP_ABS: u8 = 0x19;

pub(crate) const DW_OP_AND: u8 = 0x1a;

pub(crate) const DW_OP_DIV: u8 = 0x1b;

pub(crate) const DW_OP_MINUS: u8 = 0x1c;

pub(crate) const DW_OP_MOD: u8 = 0x1d;

pub(crate) const DW_OP_MUL: u8 = 0x1e;

pub(crate) const DW_OP_NEG: u8 = 0x1f;

pub(crate) const DW_OP_NOT: u8 = 0x20;

pub(crate) const DW_OP_OR: u8 = 0x21;

pub(crate) const DW_OP_PLUS: u8 = 0x22;

pub(crate) const DW_OP_PLUS_UCONST: u8 = 0x23;

pub(crate) const DW_OP_SHL: u8 = 0x24;

pub(crate) const DW_OP_SHR: u8 = 0x25;

pub(crate) const DW_OP_SHRA: u8 = 0x26;

pub(crate) const DW_OP_XOR: u8 = 0x27;

pub(crate) const DW_OP_BRA: u8 = 0x28;

pub(crate) const DW_OP_EQ: u8 = 0x29;

pub(crate) const DW_OP_GE: u8 = 0x2a;

pub(crate) const DW_OP_GT: u8 = 0x2b;

pub(crate) const DW_OP_LE: u8 = 0x2c;

pub(crate) const DW_OP_LT: u8 = 0x2d;

pub(crate) const DW_OP_NE: u8 = 0x2e;

pub(crate) const DW_OP_SKIP: u8 = 0x2f;

pub(crate) const DW_OP_LIT0: u8 = 0x30;

pub(crate) const DW_OP_LIT31: u8 = 0x4f;

pub(crate) const DW_OP_BREG0: u8 = 0x70;

pub(crate) const DW_OP_BREG31: u8 = 0x8f;

pub(crate) const DW_OP_BREGX: u8 = 0x92;

pub(crate) const DW_OP_NOP: u8 = 0x96;
