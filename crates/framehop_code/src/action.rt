//! What an instruction does to general registers and to memory, and where it leads.
//!
//! What is followed has an action of its own. Of every other instruction the action says which registers and which
//! bytes of memory it may change. Flags and vector registers are not described.
use framehop_cfi::rule::Register;

/// An instruction.
#[derive(Clone, Copy, PartialEq, Eq)]
pub struct Instruction {
    /// In bytes.
    pub size: usize,
    pub action: Action,
}

/// What an instruction does.
#[derive(Clone, Copy, PartialEq, Eq)]
pub enum Action {
    /// An operand gets a value: MOV, MOVSXD and LEA, and XOR or SUB of a register with itself; of aarch64 loads and stores,
    /// MOV, ADR, and ADD or SUB of a number.
    Move {
        to: Operand,
        from: Source,
        width: Width,
    },
    /// An operand gets what is computed of its value and another: ADD, SUB, AND, OR, XOR, INC and DEC.
    Compute {
        computation: Computation,
        to: Operand,
        from: Source,
        width: Width,
    },
    /// PUSH: the stack pointer becomes 8 less, and a value of eight bytes is stored at it. An address by the stack
    /// pointer counts from its value before.
    Push(Source),
    /// POP: eight bytes are loaded from the stack pointer, which becomes 8 more, and then an operand gets them. An
    /// address by the stack pointer counts from its value after that.
    Pop(Operand),
    /// LEAVE: the stack pointer becomes the frame pointer, and the frame pointer is popped.
    Leave,
    /// Any other: the registers have any value after it, and so have so many bytes of memory from an operand on. No
    /// others are written.
    Forget {
        registers: Registers,
        memory: Option<Stored>,
    },
    /// A conditional jump: to the address or to the next instruction.
    Branch(Address),
    /// LOOP, LOOPE or LOOPNE: `rcx` becomes 1 less, and the instruction leads as a conditional jump does.
    Loop(Address),
    Jump(Source),
    /// A call: the address of the next instruction is pushed, and the function at the source's value is entered.
    Call(Source),
    /// A return, by the word at the stack pointer. The stack pointer becomes 8 and so many bytes more.
    Return(u64),
    /// BL and BLR: `x30` becomes the address of the next instruction, and the function at the source's value is entered.
    BranchWithLink(Source),
    /// RET: a return to the address in a register.
    ReturnTo(Register),
}

/// Bytes of memory that get any value.
#[derive(Clone, Copy, PartialEq, Eq)]
pub struct Stored {
    /// Where they begin.
    pub at: Place,
    /// How many there are, at most. Where the place isn't described, it need not be told, and is 0.
    pub bytes: u64,
}

/// A place in memory.
#[derive(Clone, Copy, PartialEq, Eq)]
pub enum Place {
    At(Address),
    /// At an address that is not described: by FS or GS, in 32 bits (a prefix 67), by a register that no operand names,
    /// around a memory operand, or by a vector.
    Elsewhere,
}

/// An operand that can be written.
#[derive(Clone, Copy, PartialEq, Eq)]
pub enum Operand {
    /// A general register.
    Register(Register),
    /// Memory.
    Memory(Place),
}

/// A value.
#[derive(Clone, Copy, PartialEq, Eq)]
pub enum Source {
    /// The value of an operand.
    Operand(Operand),
    /// The four bytes of an operand, with their sign extended to eight.
    SignExtended(Operand),
    /// A number, with its sign extended to eight bytes.
    Immediate(u64),
    /// An address: that of LEA or ADR, a sum, and the target of a direct jump or call.
    Address(Address),
    /// Any value.
    Unknown,
}

/// How many bytes are written and computed with. Four of a register make its upper half 0.
#[derive(Clone, Copy, PartialEq, Eq)]
pub enum Width {
    Four,
    Eight,
}

/// What is computed of two numbers. A carry is lost.
#[derive(Clone, Copy, PartialEq, Eq)]
pub enum Computation {
    Add,
    Subtract,
    And,
    Or,
    ExclusiveOr,
}

/// An address (AVMA): the sum of its parts modulo 2^64.
#[derive(Clone, Copy, PartialEq, Eq)]
pub struct Address {
    /// The register that is added.
    pub base: Option<Register>,
    /// The register of which a multiple is added.
    pub index: Option<Index>,
    /// The number that is added, with its sign extended to eight bytes.
    pub displacement: u64,
    /// Whether the address of the next instruction is added.
    pub from_next: bool,
}

/// An index register of an address.
#[derive(Clone, Copy, PartialEq, Eq)]
pub struct Index {
    pub register: Register,
    /// 1, 2, 4 or 8.
    pub scale: u8,
}

/// A set of general registers: a bit for each, from the lowest, by its DWARF number.
#[derive(Clone, Copy, PartialEq, Eq)]
pub struct Registers(pub u32);
