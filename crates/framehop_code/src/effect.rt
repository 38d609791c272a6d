//! What an instruction does to the stack pointer and the frame pointer, and where it leads.
ghost use Rattle.std.specs.Prelude.{◌≡◌, ℕ, ℤ, ◌+◌, ◌<◌, ◌≤◌, pos, List, length, Option, IfSome};
ghost use Rattle.framehop_code.specs.declared.effect.Base.{Base};
ghost use Rattle.framehop_code.specs.declared.effect.Effect.{Effect};
ghost use Rattle.framehop_code.specs.Effect.{kept, plain, with_register};

/// A register by which a frame is found.
#[derive(Clone, Copy, PartialEq, Eq)]
pub enum Base {
    /// The stack pointer: `rsp`, or `sp` on aarch64.
    Sp,
    /// The frame pointer: `rbp`, or `x29` on aarch64.
    Fp,
}

/// The value of a register after an instruction, by the values before it.
#[derive(Clone, Copy, PartialEq, Eq)]
pub enum Change {
    /// The value of a register plus a number of bytes.
    Sum { base: Base, offset: i64 },
    /// Any value.
    Unknown,
}

/// Where an instruction leads.
#[derive(Clone, Copy, PartialEq, Eq)]
pub enum Flow {
    /// To the next instruction.
    Next,
    /// To the next instruction; the instruction does nothing, and can be padding between functions.
    Padding,
    /// To another function, which returns to the next instruction or does not return.
    Call,
    /// To the next instruction, or to the one so many bytes after the next one's first byte.
    Branch(i64),
    /// To the instruction so many bytes after the next one's first byte.
    Jump(i64),
    /// Out of the function, by a return.
    Return,
    /// To no place that is known: an indirect jump, or a trap.
    Leaves,
}

/// An instruction, as far as unwinding needs it.
#[derive(Clone, Copy)]
pub struct Effect {
    /// The size, in bytes.
    pub size: usize,
    /// The stack pointer after the instruction.
    pub sp: Change,
    /// The frame pointer after the instruction.
    pub fp: Change,
    /// Where it leads.
    pub flow: Flow,
}

/// The instructions of an architecture.
pub trait Code {
    /// The instruction at an offset of code, as a function of the bytes.
    ghost instruction: { List ℕ → ℕ → Option Effect };

    /// The register that has a number in DWARF.
    ghost numbered: { ℕ → Option Base };

    /// How far above the stack pointer the CFA is at a function's entry, in bytes.
    ghost entry: { ℤ };

    /// The number of the return address in DWARF.
    ghost return_column: { ℕ };

    /// The name of a register in assembly.
    ghost named: { Base → List ℕ };

    /// Returns the instruction at an offset of code, or `None` where the bytes end or none is recognised.
    fn effect_at(code: &[u8], at: usize) -> Option<Effect>
        ensures exact { result ≡ instruction code.now at }
        ensures sized { IfSome result (λ effect. (0 < effect.size) × (at + effect.size ≤ length code.now)) };

    /// Returns which of the two registers has a number in DWARF.
    fn base_of(register: u16) -> Option<Base>
        ensures { result ≡ numbered register };

    /// Returns how far above the stack pointer the CFA is where a function begins and where it returns, in bytes.
    fn entry_offset() -> i64
        ensures { result ≡ entry };

    /// Returns the number of the return address in DWARF.
    fn return_address() -> u16
        ensures { result ≡ return_column };

    /// Returns the name of a register in assembly.
    fn name_of(base: Base) -> &'static str
        ensures { result.now ≡ named base };
}

/// Returns the effect of an instruction of so many bytes that changes neither register and leads to the next one.
pub fn plain(size: usize) -> Effect
    ensures exact { result ≡ plain size }
    ensures size { result.size ≡ size }
{
    Effect {
        size,
        sp: kept(Base::Sp),
        fp: kept(Base::Fp),
        flow: Flow::Next,
    }
}

/// Returns the change that keeps a register's value.
pub fn kept(base: Base) -> Change
    ensures { result ≡ kept base }
{
    Change::Sum { base, offset: 0 }
}

/// Returns the effect with another change of a register; `None` is any other register.
pub fn with_register(effect: Effect, base: Option<Base>, change: Change) -> Effect
    ensures exact { result ≡ with_register effect base change }
    ensures size { result.size ≡ effect.size }
{
    match base {
        Some(Base::Sp) => Effect {
            sp: change,
            ..effect
        },
        Some(Base::Fp) => Effect {
            fp: change,
            ..effect
        },
        None => effect,
    }
}
