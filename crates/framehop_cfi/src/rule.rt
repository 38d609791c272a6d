//! How a caller's registers are found: the CFA's rule and a register's (DWARF 5 section 6.4.1).

/// A DWARF register number.
#[derive(Clone, Copy, PartialEq, Eq)]
pub struct Register(pub u16);

/// An expression's bytes, as offsets into the section.
#[derive(Clone, Copy, PartialEq, Eq)]
pub struct Expression {
    /// Where it begins.
    pub start: usize,
    /// The offset after it.
    pub end: usize,
}

/// How the canonical frame address (CFA) is found.
#[derive(Clone, Copy, PartialEq, Eq)]
pub enum CfaRule {
    /// A register plus a number of bytes.
    RegisterAndOffset { register: Register, offset: i64 },
    /// The value of an expression.
    Expression(Expression),
}

/// How a register of the caller is found.
#[derive(Clone, Copy, PartialEq, Eq)]
pub enum RegisterRule {
    /// It can't be found.
    Undefined,
    /// It has the value that it has now.
    SameValue,
    /// It is the word at the CFA plus that many bytes.
    Offset(i64),
    /// It is the CFA plus that many bytes.
    ValOffset(i64),
    /// It is another register.
    Register(Register),
    /// It is the word at the expression's value.
    Expression(Expression),
    /// It is the expression's value.
    ValExpression(Expression),
}
