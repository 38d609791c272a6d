//! The evaluation of DWARF expressions (DWARF 5 section 2.5).
//!
//! An expression can jump back, so at most 4,096 operations are carried out. Values are on a stack whose room is
//! the caller's choice.
ghost use Rattle.std.specs.Prelude.{◌≡◌, ℕ, List, [], ◌∷◌, slice_get, Option, Some, None, IfOk, IfErr, IfSome, IfNone, MatchOption, OnErr, option_to_list, Result, pos, ◌+ℤ◌};
ghost use Rattle.framehop_cfi.specs.declared.rule.Register.{Register as RegisterNumber};
ghost use Rattle.framehop_dwarf.specs.Evaluation.{Evaluation, pushed, within, stack_after, position_after, step, value_from, value_of, value_in, IsValueIn};
ghost use Rattle.framehop_dwarf.specs.Refusal.{Leaves, Returns, Reaches};

use crate::operation::{BinaryOperation, Operation, UnaryOperation, read_operation};
use arrayvec::ArrayVec;
use framehop_cfi::read_error::ReadError;
use framehop_cfi::rule::{Expression, Register};
use framehop_cfi::storage::{StoreOnHeap, StoreOnStack};
use std::alloc::{AllocFailed, Global};

/// The registers of a frame, by their DWARF numbers.
pub trait DwarfUnwindRegs {
    ghost column: { Self → RegisterNumber → Option ℕ };

    /// Returns the value of a register, or `None` for one that is not among the unwind registers.
    fn get(&self, register: Register) -> Option<u64>
        ensures { result ≡ column self.now register };
}

/// Why an evaluation gives no value.
#[derive(Clone, Copy, PartialEq, Eq)]
pub enum Refusal {
    /// The expression has no value.
    NoValue,
    /// Memory ran out.
    OutOfMemory,
}

impl<T: Drop> From<AllocFailed<T>> for Refusal {
    ghost use Rattle.framehop_dwarf.specs.declared.evaluation.Refusal.{Refusal};

    ghost from_gives = { λ value error. error ≡ Refusal.OutOfMemory };

    fn from(_value: AllocFailed<T>) -> Self {
        Refusal::OutOfMemory
    }
}

/// A stack of values, with or without a limit.
pub trait ValueStack: Drop {
    // the values, the top first
    ghost values: { Self → List ℕ };

    // the most values that fit; without a limit the stack grows in memory
    ghost limit: { Option ℕ };

    /// Makes an empty stack.
    fn new_in(alloc: Global) -> Self
        ensures { values result ≡ [] };

    /// Puts a value on top.
    fn push(&mut self, value: u64) -> Result<(), Refusal>
        ensures { Leaves limit result (pushed limit value (values self.old)) (values self.new) };

    /// Takes the top value away.
    fn pop(&mut self) -> Option<u64>
        ensures { MatchOption result
            ((values self.old ≡ []) × (values self.new ≡ []))
            (λ value. values self.old ≡ value ∷ values self.new) };

    /// Returns the value so many places below the top.
    fn peek(&self, depth: usize) -> Option<u64>
        ensures { result ≡ slice_get (values self.now) depth };
}

/// Whether the values of an evaluation have a limit, or grow in memory.
pub trait EvaluationStorage {
    type Stack: ValueStack;
}

/// A stack that grows in memory.
#[derive(Drop)]
pub struct HeapStack(Vec<u64>);

impl ValueStack for HeapStack {
    ghost use Rattle.std.specs.Prelude.{reverse};

    ghost values = { λ stack. reverse stack.0.items };

    ghost limit = { None };

    fn new_in(alloc: Global) -> Self {
        HeapStack(Vec::new(alloc))
    }

    fn push(&mut self, value: u64) -> Result<(), Refusal> {
        Ok(self.0.push(value)?)
    }

    fn pop(&mut self) -> Option<u64> {
        self.0.pop()
    }

    fn peek(&self, depth: usize) -> Option<u64> {
        self.0.iter().rev().nth(depth).copied()
    }
}

/// A stack of at most 64 values, with its room in itself.
#[derive(Drop)]
pub struct FixedStack(ArrayVec<u64, 64>);

impl ValueStack for FixedStack {
    ghost use Rattle.std.specs.Prelude.{reverse};

    ghost values = { λ stack. reverse stack.0.items };

    ghost limit = { Some 64 };

    fn new_in(_alloc: Global) -> Self {
        FixedStack(ArrayVec::new())
    }

    fn push(&mut self, value: u64) -> Result<(), Refusal> {
        if self.0.is_full() {
            return Err(Refusal::NoValue);
        }
        self.0.push(value);
        Ok(())
    }

    fn pop(&mut self) -> Option<u64> {
        self.0.pop()
    }

    fn peek(&self, depth: usize) -> Option<u64> {
        self.0.as_slice().iter().rev().nth(depth).copied()
    }
}

impl EvaluationStorage for StoreOnHeap {
    type Stack = HeapStack;
}

impl EvaluationStorage for StoreOnStack {
    type Stack = FixedStack;
}

/// Returns the value of an expression that lies in a section, or `None` where it has none. Its stack
/// begins with the first value, if there is one.
///
/// # Errors
///
/// `OutOfMemory` where the stack has no limit and an allocation fails; no other.
pub fn evaluate<R: DwarfUnwindRegs, S: EvaluationStorage>(
    alloc: Global,
    section: &[u8],
    expression: Expression,
    regs: &R,
    first: Option<u64>,
) -> Result<Option<u64>, ReadError>
    ensures exact { IfOk result (λ answer. answer ≡ value_in section.now (R.column regs.now) S.Stack.limit expression first) }
    ensures value { IfOk result (λ answer. IfSome answer (IsValueIn section.now (R.column regs.now) S.Stack.limit expression first)) }
    ensures none { IfOk result (λ answer. IfNone answer ((value : ℕ) → IsValueIn section.now (R.column regs.now) S.Stack.limit expression first value → ⊥)) }
    ensures memory { OnErr result (S.Stack.limit ≡ None) }
    ensures error { IfErr result (λ error. error ≡ ReadError.OutOfMemory) }
{
    match value_in::<R, S::Stack>(alloc, section, expression, regs, first) {
        Ok(value) => Ok(Some(value)),
        Err(refusal) => match refusal {
            Refusal::NoValue => Ok(None),
            Refusal::OutOfMemory => Err(ReadError::OutOfMemory),
        },
    }
}

/// Returns the value of an expression of a section.
fn value_in<R: DwarfUnwindRegs, V: ValueStack>(
    alloc: Global,
    section: &[u8],
    expression: Expression,
    regs: &R,
    first: Option<u64>,
) -> Result<u64, Refusal>
    ensures { Returns V.limit result (value_in section.now (R.column regs.now) V.limit expression first) }
{
    match section.get(expression.start..expression.end) {
        Some(code) => begin::<R, V>(alloc, code, regs, first),
        None => Err(Refusal::NoValue),
    }
}

/// Puts the first value, if there is one, on an empty stack, and runs an expression's bytes.
#[tactic(auto, unfolding(crate::specs::Evaluation::value_of))]
fn begin<R: DwarfUnwindRegs, V: ValueStack>(
    alloc: Global,
    code: &[u8],
    regs: &R,
    first: Option<u64>,
) -> Result<u64, Refusal>
    ensures { Returns V.limit result (value_of (record { code = code.now; columns = R.column regs.now; limit = V.limit }) (option_to_list first)) }
{
    let mut values = V::new_in(alloc);
    if let Some(value) = first {
        values.push(value)?;
    }
    run(code, regs, &mut values)
}

/// Does the operations from position 0 to the end, at most 4,096 of them, and returns the top value.
fn run<R: DwarfUnwindRegs, V: ValueStack>(
    code: &[u8],
    regs: &R,
    values: &mut V,
) -> Result<u64, Refusal>
    ensures { Returns V.limit result (value_from (record { code = code.now; columns = R.column regs.now; limit = V.limit }) 4096 (record { position = 0; stack = V.values values.old })) }
{
    let mut at = 0;
    let mut left = 4096u32;
    while at != code.len() {
        if left == 0 {
            return Err(Refusal::NoValue);
        }
        left -= 1;
        at = step(code, regs, at, values)?;
    }
    pop(values)
}

/// Does the operation at a position of an expression's bytes over the registers, and returns the position after it.
///
/// # Errors
///
/// `NoValue` where no operation can be read at the position, or it has no result; `OutOfMemory` where the stack has no
/// limit and an allocation fails.
#[tactic(auto, unfolding(crate::specs::Evaluation::step))]
pub fn step<R: DwarfUnwindRegs, V: ValueStack>(
    code: &[u8],
    regs: &R,
    at: usize,
    values: &mut V,
) -> Result<usize, Refusal>
    ensures { Reaches V.limit result (step (record { code = code.now; columns = R.column regs.now; limit = V.limit }) (record { position = at; stack = V.values values.old })) (V.values values.new) }
{
    let Ok((operation, next)) = read_operation(code, at) else {
        return Err(Refusal::NoValue);
    };
    let Some(position) = position_after(code.len(), operation, next, values.peek(0)) else {
        return Err(Refusal::NoValue);
    };
    apply(operation, regs, values)?;
    Ok(position)
}

/// Returns the position after an operation, by the offset after it and the top value.
fn position_after(end: usize, operation: Operation, next: usize, top: Option<u64>) -> Option<usize>
    ensures { result ≡ position_after end operation next top }
{
    match operation {
        Operation::Skip(distance) => within(end, next, distance),
        Operation::Branch(distance) => match top {
            Some(0) => Some(next),
            Some(_) => within(end, next, distance),
            None => None,
        },
        _ => Some(next),
    }
}

/// Returns a place that is not beyond the end.
fn within(end: usize, next: usize, distance: i16) -> Option<usize>
    ensures { result ≡ within end (pos next +ℤ distance) }
{
    let place = next as i128 + i128::from(distance);
    let Ok(place) = usize::try_from(place) else {
        return None;
    };
    if place <= end { Some(place) } else { None }
}

/// Does what an operation says, but for a jump.
fn apply<R: DwarfUnwindRegs, V: ValueStack>(
    operation: Operation,
    regs: &R,
    values: &mut V,
) -> Result<(), Refusal>
    ensures { Leaves V.limit result (stack_after V.limit (R.column regs.now) operation (V.values values.old)) (V.values values.new) }
{
    match operation {
        Operation::Nop | Operation::Skip(_) => Ok(()),
        Operation::Constant(value) => values.push(value),
        Operation::RegisterOffset { register, offset } => {
            push_register(regs, register, offset, values)
        }
        Operation::Pick(depth) => pick(depth, values),
        Operation::Discard => discard(values),
        Operation::Branch(_) => discard(values),
        Operation::Swap => swap(values),
        Operation::Rot => rotate(values),
        Operation::Unary(operation) => apply_unary(operation, values),
        Operation::Binary(operation) => apply_binary(operation, values),
        Operation::PlusConstant(value) => add_constant(value, values),
    }
}

/// Puts a register's value plus an offset on top.
fn push_register<R: DwarfUnwindRegs, V: ValueStack>(
    regs: &R,
    register: Register,
    offset: i64,
    values: &mut V,
) -> Result<(), Refusal>
    ensures { Leaves V.limit result (stack_after V.limit (R.column regs.now) (Operation.RegisterOffset register offset) (V.values values.old)) (V.values values.new) }
{
    match regs.get(register) {
        Some(value) => values.push(value.wrapping_add(offset.cast_unsigned())),
        None => Err(Refusal::NoValue),
    }
}

/// Puts the value so many places below the top on top.
fn pick<V: ValueStack>(depth: u8, values: &mut V) -> Result<(), Refusal>
    ensures { (columns : RegisterNumber → Option ℕ) → Leaves V.limit result (stack_after V.limit columns (Operation.Pick depth) (V.values values.old)) (V.values values.new) }
{
    match values.peek(usize::from(depth)) {
        Some(value) => values.push(value),
        None => Err(Refusal::NoValue),
    }
}

/// Takes the top value away.
fn discard<V: ValueStack>(values: &mut V) -> Result<(), Refusal>
    ensures { (columns : RegisterNumber → Option ℕ) → Leaves V.limit result (stack_after V.limit columns Operation.Discard (V.values values.old)) (V.values values.new) }
{
    let _ = pop(values)?;
    Ok(())
}

/// Exchanges the top value and the second one.
fn swap<V: ValueStack>(values: &mut V) -> Result<(), Refusal>
    ensures { (columns : RegisterNumber → Option ℕ) → Leaves V.limit result (stack_after V.limit columns Operation.Swap (V.values values.old)) (V.values values.new) }
{
    let top = pop(values)?;
    let second = pop(values)?;
    values.push(top)?;
    values.push(second)
}

/// Puts the top value below the second and the third one.
fn rotate<V: ValueStack>(values: &mut V) -> Result<(), Refusal>
    ensures { (columns : RegisterNumber → Option ℕ) → Leaves V.limit result (stack_after V.limit columns Operation.Rot (V.values values.old)) (V.values values.new) }
{
    let top = pop(values)?;
    let second = pop(values)?;
    let third = pop(values)?;
    values.push(top)?;
    values.push(third)?;
    values.push(second)
}

/// Puts what an operation makes of the top value in its place.
fn apply_unary<V: ValueStack>(operation: UnaryOperation, values: &mut V) -> Result<(), Refusal>
    ensures { (columns : RegisterNumber → Option ℕ) → Leaves V.limit result (stack_after V.limit columns (Operation.Unary operation) (V.values values.old)) (V.values values.new) }
{
    let top = pop(values)?;
    values.push(operation.apply(top))
}

/// Puts what an operation makes of the second value and the top one in their place.
fn apply_binary<V: ValueStack>(operation: BinaryOperation, values: &mut V) -> Result<(), Refusal>
    ensures { (columns : RegisterNumber → Option ℕ) → Leaves V.limit result (stack_after V.limit columns (Operation.Binary operation) (V.values values.old)) (V.values values.new) }
{
    let top = pop(values)?;
    let second = pop(values)?;
    match operation.apply(second, top) {
        Some(value) => values.push(value),
        None => Err(Refusal::NoValue),
    }
}

/// Adds a number to the top value.
fn add_constant<V: ValueStack>(value: u64, values: &mut V) -> Result<(), Refusal>
    ensures { (columns : RegisterNumber → Option ℕ) → Leaves V.limit result (stack_after V.limit columns (Operation.PlusConstant value) (V.values values.old)) (V.values values.new) }
{
    let top = pop(values)?;
    values.push(top.wrapping_add(value))
}

/// Takes the top value away. `NoValue` is refused where the stack is empty.
pub fn pop<V: ValueStack>(values: &mut V) -> Result<u64, Refusal>
    ensures top { IfOk result (λ top. V.values values.old ≡ top ∷ V.values values.new) }
    ensures none { IfErr result (λ error. (error ≡ Refusal.NoValue) × (V.values values.old ≡ [])) }
{
    match values.pop() {
        Some(value) => Ok(value),
        None => Err(Refusal::NoValue),
    }
}
