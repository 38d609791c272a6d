//! The registers and the stack that operations work on.
ghost use Rattle.std.specs.Prelude.{◌≡◌, ℕ, Result, Ok, Err, MatchResult, IfErr};
ghost use Rattle.std.specs.Borrow.{GName};
ghost use Rattle.std.specs.Fn.{Mut};
ghost use Rattle.framehop_core.specs.Memory.{Answering};
ghost use Rattle.framehop_core.specs.X86_64.Registers.{Registers, register, with_register};
ghost use Rattle.framehop_pe.specs.Answer.{IsMissingStackData};
ghost use Rattle.framehop_pe.specs.Resolve.{popped_word};

use crate::pe::PeUnwinderError;
use framehop_core::x86_64::Reg;

/// The registers of a frame, and its stack.
pub trait UnwindState {
    // the registers
    ghost registers: { Self → Registers };

    // the stack can be read at any address
    ghost can_read: { Self → Type 0 };

    // the callback that reads the stack, and what its calls do
    ghost Callback: { Type 0 };

    ghost calls: { Mut Callback (ℕ × Unit {0}) (Result ℕ (Unit {0})) };

    ghost callback: { Self → Callback };

    // the loan of what reads the stack, which each call keeps
    ghost loan: { Self → GName };

    /// Returns the value of a register.
    fn read_register(&self, reg: Reg) -> u64
        ensures { result ≡ register (registers self.now) reg };

    /// Reads the stack word at an address (AVMA), or `None` where it can't be read.
    fn read_stack(&mut self, address: u64) -> Option<u64>
        requires { can_read self.old }
        ensures callable { can_read self.new }
        ensures kept { registers self.new ≡ registers self.old }
        ensures same_loan { loan self.new ≡ loan self.old }
        ensures answers { Answering calls (callback self.old) (callback self.new) (λ memory. result ≡ memory address) };

    /// Sets a register.
    fn write_register(&mut self, reg: Reg, value: u64)
        ensures written { registers self.new ≡ with_register (registers self.old) reg value }
        ensures callable { can_read self.old → can_read self.new }
        ensures same_loan { loan self.new ≡ loan self.old }
        ensures unread { callback self.new ≡ callback self.old };
}

/// Pops the word at rsp. Where that is not done, the registers stay as they are.
pub(crate) fn pop_word<S: UnwindState>(state: &mut S) -> Result<u64, PeUnwinderError>
    requires { S.can_read state.old }
    ensures callable { S.can_read state.new }
    ensures same_loan { S.loan state.new ≡ S.loan state.old }
    ensures kept { IfErr result (λ _. S.registers state.new ≡ S.registers state.old) }
    ensures stack { IfErr result IsMissingStackData }
    ensures answers { Answering S.calls (S.callback state.old) (S.callback state.new) (λ memory. MatchResult result
        (λ word. popped_word memory (S.registers state.old) ≡ Ok (word, S.registers state.new))
        (λ error. popped_word memory (S.registers state.old) ≡ Err error)) }
{
    let sp = state.read_register(Reg::RSP);
    let Some(word) = state.read_stack(sp) else {
        return Err(PeUnwinderError::MissingStackData(Some(sp)));
    };
    let Some(new_sp) = sp.checked_add(8) else {
        return Err(PeUnwinderError::MissingStackData(None));
    };
    state.write_register(Reg::RSP, new_sp);
    Ok(word)
}
