//! The evaluation of DWARF expressions that may read memory (DWARF 5 section 2.5).
//!
//! An expression can jump back, so at most 4,096 operations are carried out. At most 64 values are on the stack.
ghost use Rattle.std.specs.Prelude.{◌≡◌, ℕ, Option, Some, None, IfSome, IfNone, option_to_list};
ghost use Rattle.framehop_dwarf.specs.Refusal.{Leaves, Returns, Reaches};
ghost use Rattle.framehop_callers.specs.Evaluation.{stack_loaded, step_over, value_from, value_of, value_in, IsValueIn};

use crate::load::{Width, load, read_load};
use crate::memory::WordMemory;
use framehop_cfi::rule::Expression;
use framehop_dwarf::evaluation::{DwarfUnwindRegs, FixedStack, Refusal, ValueStack, pop, step};
use std::alloc::Global;

/// Returns the value of an expression that lies in a section over registers and a memory, or `None` where it has none.
/// Its stack begins with the first value, if there is one. The allocator is not used.
pub fn evaluate<R: DwarfUnwindRegs, M: WordMemory>(
    alloc: Global,
    section: &[u8],
    expression: Expression,
    regs: &R,
    memory: &M,
    first: Option<u64>,
) -> Option<u64>
    ensures exact { result ≡ value_in section.now (R.column regs.now) (M.memory memory.now) expression first }
    ensures value { IfSome result (IsValueIn section.now (R.column regs.now) (M.memory memory.now) expression first) }
    ensures none { IfNone result ((value : ℕ) → IsValueIn section.now (R.column regs.now) (M.memory memory.now) expression first value → ⊥) }
{
    match value_in(alloc, section, expression, regs, memory, first) {
        Some(value) => Some(value),
        None => None,
    }
}

/// Returns the value of an expression of a section.
fn value_in<R: DwarfUnwindRegs, M: WordMemory>(
    alloc: Global,
    section: &[u8],
    expression: Expression,
    regs: &R,
    memory: &M,
    first: Option<u64>,
) -> Option<u64>
    ensures { result ≡ value_in section.now (R.column regs.now) (M.memory memory.now) expression first }
{
    match section.get(expression.start..expression.end) {
        Some(code) => value_of(alloc, code, regs, memory, first),
        None => None,
    }
}

/// Returns the value of an expression's bytes.
fn value_of<R: DwarfUnwindRegs, M: WordMemory>(
    alloc: Global,
    code: &[u8],
    regs: &R,
    memory: &M,
    first: Option<u64>,
) -> Option<u64>
    ensures { result ≡ value_of (record { code = code.now; columns = R.column regs.now; limit = Some 64 }) (M.memory memory.now) (option_to_list first) }
{
    match begin::<R, M, FixedStack>(alloc, code, regs, memory, first) {
        Ok(value) => Some(value),
        Err(_) => None,
    }
}

/// Puts the first value, if there is one, on an empty stack, and runs an expression's bytes.
#[tactic(auto, unfolding(crate::specs::Evaluation::value_of))]
fn begin<R: DwarfUnwindRegs, M: WordMemory, V: ValueStack>(
    alloc: Global,
    code: &[u8],
    regs: &R,
    memory: &M,
    first: Option<u64>,
) -> Result<u64, Refusal>
    ensures { Returns V.limit result (value_of (record { code = code.now; columns = R.column regs.now; limit = V.limit }) (M.memory memory.now) (option_to_list first)) }
{
    let mut values = V::new_in(alloc);
    if let Some(value) = first {
        values.push(value)?;
    }
    run(code, regs, memory, &mut values)
}

/// Does the operations from position 0 to the end, at most 4,096 of them, and returns the top value.
fn run<R: DwarfUnwindRegs, M: WordMemory, V: ValueStack>(
    code: &[u8],
    regs: &R,
    memory: &M,
    values: &mut V,
) -> Result<u64, Refusal>
    ensures { Returns V.limit result (value_from (record { code = code.now; columns = R.column regs.now; limit = V.limit }) (M.memory memory.now) 4096 (record { position = 0; stack = V.values values.old })) }
{
    let mut at = 0;
    let mut left = 4096u32;
    while at != code.len() {
        if left == 0 {
            return Err(Refusal::NoValue);
        }
        left -= 1;
        at = step_over(code, regs, memory, at, values)?;
    }
    pop(values)
}

/// Does the operation at a position, and returns the position after it.
#[tactic(auto, unfolding(crate::specs::Evaluation::step_over))]
fn step_over<R: DwarfUnwindRegs, M: WordMemory, V: ValueStack>(
    code: &[u8],
    regs: &R,
    memory: &M,
    at: usize,
    values: &mut V,
) -> Result<usize, Refusal>
    ensures { Reaches V.limit result (step_over (record { code = code.now; columns = R.column regs.now; limit = V.limit }) (M.memory memory.now) (record { position = at; stack = V.values values.old })) (V.values values.new) }
{
    match read_load(code, at) {
        Some((width, next)) => {
            load_top(memory, width, values)?;
            Ok(next)
        }
        None => step(code, regs, at, values),
    }
}

/// Puts the number at the address on top in the place of that address.
fn load_top<M: WordMemory, V: ValueStack>(
    memory: &M,
    width: Width,
    values: &mut V,
) -> Result<(), Refusal>
    ensures { Leaves V.limit result (stack_loaded (M.memory memory.now) V.limit width (V.values values.old)) (V.values values.new) }
{
    let address = pop(values)?;
    match load(memory, width, address) {
        Some(value) => values.push(value),
        None => Err(Refusal::NoValue),
    }
}
