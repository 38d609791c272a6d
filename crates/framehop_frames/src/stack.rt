//! The stack of a thread at a time.
use framehop::FrameAddress;
use framehop_backtrace::{BacktraceEnd, FoundBy};

/// A frame of a stack.
#[derive(Clone, Copy, Drop)]
pub struct StackFrame<R: Copy> {
    /// Where it is in its code.
    pub address: FrameAddress,
    /// Its registers, as the library's step takes them.
    pub regs: R,
    /// How it was found.
    pub found: FoundBy,
    /// Whether it is in a trampoline, to which the handler of a signal returns.
    pub is_trampoline: bool,
}

/// The frames of a stack, the innermost first, and how the walk ended.
#[derive(Drop)]
pub struct Stack<R: Copy> {
    pub frames: Vec<StackFrame<R>>,
    /// How the walk ended: at a word that can't be read, where this is why.
    pub end: BacktraceEnd,
    /// How the step from the last frame ended, which the frame's note explains.
    pub step_end: BacktraceEnd,
}
