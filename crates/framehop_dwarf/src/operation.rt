//! The operations of DWARF expressions (DWARF 5 sections 2.5.1 and 7.7.1), as far as they compute
//! addresses from registers and numbers.
ghost use Rattle.std.specs.Prelude.{◌≡◌};
ghost use Rattle.framehop_dwarf.specs.Operation.{constant_at, unary_of, binary_of, plain_of, coded_at, operation_at, offset_at, register_offset_at, jump_at, changed, combined, quotient, shifted_right, bit_of, compared};

use crate::operation_code::*;
use framehop_cfi::leb128::{read_sleb128, read_uleb128};
use framehop_cfi::numbers::{read_u8, read_u16, read_u32, read_u64};
use framehop_cfi::read_error::ReadError;
use framehop_cfi::rule::Register;

/// An operation on the top value.
#[derive(Clone, Copy, PartialEq, Eq)]
pub enum UnaryOperation {
    /// `DW_OP_abs`
    Absolute,
    /// `DW_OP_neg`
    Negate,
    /// `DW_OP_not`
    Not,
}

/// An operation on the second value and the top one.
#[derive(Clone, Copy, PartialEq, Eq)]
pub enum BinaryOperation {
    /// `DW_OP_and`
    And,
    /// `DW_OP_div`, with signs
    Divide,
    /// `DW_OP_minus`
    Minus,
    /// `DW_OP_mod`, without signs
    Modulo,
    /// `DW_OP_mul`
    Multiply,
    /// `DW_OP_or`
    Or,
    /// `DW_OP_plus`
    Plus,
    /// `DW_OP_shl`
    ShiftLeft,
    /// `DW_OP_shr`
    ShiftRight,
    /// `DW_OP_shra`, with a sign
    ShiftRightArithmetic,
    /// `DW_OP_xor`
    Xor,
    /// `DW_OP_eq`
    Equal,
    /// `DW_OP_ge`, with signs
    GreaterOrEqual,
    /// `DW_OP_gt`, with signs
    Greater,
    /// `DW_OP_le`, with signs
    LessOrEqual,
    /// `DW_OP_lt`, with signs
    Less,
    /// `DW_OP_ne`
    NotEqual,
}

/// An operation of an expression.
#[derive(Clone, Copy, PartialEq, Eq)]
pub enum Operation {
    /// `DW_OP_nop`
    Nop,
    /// Pushes a number: `DW_OP_const..` and `DW_OP_lit..`.
    Constant(u64),
    /// Pushes a register's value plus an offset: `DW_OP_breg..` and `DW_OP_bregx`.
    RegisterOffset { register: Register, offset: i64 },
    /// Pushes the value so many places below the top: `DW_OP_pick`, `DW_OP_dup` and `DW_OP_over`.
    Pick(u8),
    /// `DW_OP_drop`
    Discard,
    /// `DW_OP_swap`
    Swap,
    /// `DW_OP_rot`
    Rot,
    Unary(UnaryOperation),
    Binary(BinaryOperation),
    /// `DW_OP_plus_uconst`
    PlusConstant(u64),
    /// Jumps by so many bytes from the next operation on: `DW_OP_skip`.
    Skip(i16),
    /// Pops a value, and jumps where it is not 0: `DW_OP_bra`.
    Branch(i16),
}

/// Reads the operation at an offset, and the offset after it.
#[tactic(auto, unfolding(crate::specs::Operation::operation_at))]
pub fn read_operation(bytes: &[u8], at: usize) -> Result<(Operation, usize), ReadError>
    ensures { result ≡ operation_at bytes.now at }
{
    let (code, next) = read_u8(bytes, at)?;
    if code >= DW_OP_LIT0 && code <= DW_OP_LIT31 {
        return Ok((Operation::Constant(u64::from(code - DW_OP_LIT0)), next));
    }
    if code >= DW_OP_BREG0 && code <= DW_OP_BREG31 {
        return read_offset(Register(u16::from(code - DW_OP_BREG0)), bytes, next);
    }
    if code >= DW_OP_CONST1U && code <= DW_OP_CONSTS {
        let (number, next) = read_constant(code, bytes, next)?;
        return Ok((Operation::Constant(number), next));
    }
    read_coded(code, bytes, next)
}

/// Reads a number that is pushed, by the operation's code, and the offset after it.
fn read_constant(code: u8, bytes: &[u8], at: usize) -> Result<(u64, usize), ReadError>
    ensures { result ≡ constant_at code bytes.now at }
{
    match code {
        DW_OP_CONST1U => {
            let (number, next) = read_u8(bytes, at)?;
            Ok((u64::from(number), next))
        }
        DW_OP_CONST1S => {
            let (number, next) = read_u8(bytes, at)?;
            Ok((i64::from(number.cast_signed()).cast_unsigned(), next))
        }
        DW_OP_CONST2U => {
            let (number, next) = read_u16(bytes, at)?;
            Ok((u64::from(number), next))
        }
        DW_OP_CONST2S => {
            let (number, next) = read_u16(bytes, at)?;
            Ok((i64::from(number.cast_signed()).cast_unsigned(), next))
        }
        DW_OP_CONST4U => {
            let (number, next) = read_u32(bytes, at)?;
            Ok((u64::from(number), next))
        }
        DW_OP_CONST4S => {
            let (number, next) = read_u32(bytes, at)?;
            Ok((i64::from(number.cast_signed()).cast_unsigned(), next))
        }
        DW_OP_CONST8U | DW_OP_CONST8S => read_u64(bytes, at),
        DW_OP_CONSTU => read_uleb128(bytes, at),
        DW_OP_CONSTS => {
            let (number, next) = read_sleb128(bytes, at)?;
            Ok((number.cast_unsigned(), next))
        }
        _ => Err(ReadError::UnknownInstruction),
    }
}

/// Reads the operands of an operation with its own code, and the offset after them.
fn read_coded(code: u8, bytes: &[u8], at: usize) -> Result<(Operation, usize), ReadError>
    ensures { result ≡ coded_at code bytes.now at }
{
    match code {
        DW_OP_PICK => {
            let (depth, next) = read_u8(bytes, at)?;
            Ok((Operation::Pick(depth), next))
        }
        DW_OP_PLUS_UCONST => {
            let (number, next) = read_uleb128(bytes, at)?;
            Ok((Operation::PlusConstant(number), next))
        }
        DW_OP_BRA => {
            let (distance, next) = read_jump(bytes, at)?;
            Ok((Operation::Branch(distance), next))
        }
        DW_OP_SKIP => {
            let (distance, next) = read_jump(bytes, at)?;
            Ok((Operation::Skip(distance), next))
        }
        DW_OP_BREGX => read_register_offset(bytes, at),
        _ => match plain_of(code) {
            Some(operation) => Ok((operation, at)),
            None => Err(ReadError::UnknownInstruction),
        },
    }
}

/// Reads how far a jump goes, and the offset after it.
#[tactic(auto, unfolding(crate::specs::Operation::jump_at))]
fn read_jump(bytes: &[u8], at: usize) -> Result<(i16, usize), ReadError>
    ensures { result ≡ jump_at bytes.now at }
{
    let (distance, next) = read_u16(bytes, at)?;
    Ok((distance.cast_signed(), next))
}

/// Reads a register by its number, and an offset, and the offset after it.
#[tactic(auto, unfolding(crate::specs::Operation::register_offset_at))]
fn read_register_offset(bytes: &[u8], at: usize) -> Result<(Operation, usize), ReadError>
    ensures { result ≡ register_offset_at bytes.now at }
{
    let (number, next) = read_uleb128(bytes, at)?;
    let Ok(number) = u16::try_from(number) else {
        return Err(ReadError::NumberTooBig);
    };
    read_offset(Register(number), bytes, next)
}

/// Reads an offset from a register, and the offset after it.
#[tactic(auto, unfolding(crate::specs::Operation::offset_at))]
fn read_offset(register: Register, bytes: &[u8], at: usize) -> Result<(Operation, usize), ReadError>
    ensures { result ≡ offset_at register bytes.now at }
{
    let (offset, next) = read_sleb128(bytes, at)?;
    Ok((Operation::RegisterOffset { register, offset }, next))
}

/// Returns the operation without operands that has this code.
fn plain_of(code: u8) -> Option<Operation>
    ensures { result ≡ plain_of code }
{
    match code {
        DW_OP_DUP => Some(Operation::Pick(0)),
        DW_OP_DROP => Some(Operation::Discard),
        DW_OP_OVER => Some(Operation::Pick(1)),
        DW_OP_SWAP => Some(Operation::Swap),
        DW_OP_ROT => Some(Operation::Rot),
        DW_OP_NOP => Some(Operation::Nop),
        _ => match (unary_of(code), binary_of(code)) {
            (Some(unary), _) => Some(Operation::Unary(unary)),
            (None, Some(binary)) => Some(Operation::Binary(binary)),
            (None, None) => None,
        },
    }
}

/// Returns the operation on the top value that has this code.
fn unary_of(code: u8) -> Option<UnaryOperation>
    ensures { result ≡ unary_of code }
{
    match code {
        DW_OP_ABS => Some(UnaryOperation::Absolute),
        DW_OP_NEG => Some(UnaryOperation::Negate),
        DW_OP_NOT => Some(UnaryOperation::Not),
        _ => None,
    }
}

/// Returns the operation on two values that has this code.
fn binary_of(code: u8) -> Option<BinaryOperation>
    ensures { result ≡ binary_of code }
{
    match code {
        DW_OP_AND => Some(BinaryOperation::And),
        DW_OP_DIV => Some(BinaryOperation::Divide),
        DW_OP_MINUS => Some(BinaryOperation::Minus),
        DW_OP_MOD => Some(BinaryOperation::Modulo),
        DW_OP_MUL => Some(BinaryOperation::Multiply),
        DW_OP_OR => Some(BinaryOperation::Or),
        DW_OP_PLUS => Some(BinaryOperation::Plus),
        DW_OP_SHL => Some(BinaryOperation::ShiftLeft),
        DW_OP_SHR => Some(BinaryOperation::ShiftRight),
        DW_OP_SHRA => Some(BinaryOperation::ShiftRightArithmetic),
        DW_OP_XOR => Some(BinaryOperation::Xor),
        DW_OP_EQ => Some(BinaryOperation::Equal),
        DW_OP_GE => Some(BinaryOperation::GreaterOrEqual),
        DW_OP_GT => Some(BinaryOperation::Greater),
        DW_OP_LE => Some(BinaryOperation::LessOrEqual),
        DW_OP_LT => Some(BinaryOperation::Less),
        DW_OP_NE => Some(BinaryOperation::NotEqual),
        _ => None,
    }
}

impl UnaryOperation {
    /// Returns what the operation makes of the top value.
    pub fn apply(self, top: u64) -> u64
        ensures { result ≡ changed self top }
    {
        match self {
            UnaryOperation::Absolute => top.cast_signed().unsigned_abs(),
            UnaryOperation::Negate => 0u64.wrapping_sub(top),
            UnaryOperation::Not => !top,
        }
    }
}

impl BinaryOperation {
    /// Returns what the operation makes of the second value and the top one. A division by zero has
    /// no value.
    pub fn apply(self, second: u64, top: u64) -> Option<u64>
        ensures { result ≡ combined self second top }
    {
        match self {
            BinaryOperation::And => Some(second & top),
            BinaryOperation::Divide => quotient(second, top),
            BinaryOperation::Minus => Some(second.wrapping_sub(top)),
            BinaryOperation::Modulo => if top == 0 { None } else { Some(second % top) },
            BinaryOperation::Multiply => Some(second.wrapping_mul(top)),
            BinaryOperation::Or => Some(second | top),
            BinaryOperation::Plus => Some(second.wrapping_add(top)),
            BinaryOperation::ShiftLeft => { Some(if top < 64 { second << top } else { 0 }) }
            BinaryOperation::ShiftRight => { Some(if top < 64 { second >> top } else { 0 }) }
            BinaryOperation::ShiftRightArithmetic => Some(shifted_right(second, top)),
            BinaryOperation::Xor => Some(second ^ top),
            BinaryOperation::Equal => Some(bit_of(second == top)),
            BinaryOperation::NotEqual => Some(bit_of(second != top)),
            _ => {
                let is = compared(self, second.cast_signed(), top.cast_signed());
                Some(bit_of(is))
            }
        }
    }
}

/// Returns the quotient of two signed numbers, toward zero.
fn quotient(second: u64, top: u64) -> Option<u64>
    ensures { result ≡ quotient second top }
{
    if top == 0 {
        return None;
    }
    Some(
        second
            .cast_signed()
            .wrapping_div(top.cast_signed())
            .cast_unsigned(),
    )
}

/// Returns a signed number shifted right; all bits are its sign's from 64 places on.
fn shifted_right(second: u64, top: u64) -> u64
    ensures { result ≡ shifted_right second top }
{
    let places = if top < 64 { top as u32 } else { 63 };
    (second.cast_signed() >> places).cast_unsigned()
}

/// Returns 1 or 0.
fn bit_of(is: bool) -> u64
    ensures { result ≡ bit_of is }
{
    if is { 1 } else { 0 }
}

/// Returns whether two signed numbers compare so. Other operations compare nothing.
fn compared(operation: BinaryOperation, second: i64, top: i64) -> bool
    ensures { result ≡ compared operation second top }
{
    match operation {
        BinaryOperation::GreaterOrEqual => second >= top,
        BinaryOperation::Greater => second > top,
        BinaryOperation::LessOrEqual => second <= top,
        BinaryOperation::Less => second < top,
        _ => false,
    }
}
