//! What reading a module's unwind data for an address gives: a rule or a return address (framehop
//! 0.16.0, `unwind_result.rs`).

/// The answer of a reader of unwind data, for one frame.
#[derive(Clone, Debug, Drop)]
pub enum UnwindResult<R> {
    /// A rule for the frame's address. It serves each frame at that address, and may be kept.
    ExecRule(R),

    /// The return address (AVMA) of this frame. The reader has written the caller's registers;
    /// another frame at the same address may have another answer.
    Uncacheable(u64),
}
