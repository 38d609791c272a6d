//! What a run knows after an instruction.
ghost use Rattle.std.specs.Prelude.{◌≡◌, ℕ, List, Bool, Some, None, option_map, nat_lt};
ghost use Rattle.framehop_code.specs.X86_64.Action.{action_at};
ghost use Rattle.framehop_code.specs.Aarch64.Action.{actions_at};
ghost use Rattle.framehop_callers.specs.State.{left_by};
ghost use Rattle.framehop_callers.specs.declared.convention.Convention.{Convention};
ghost use Rattle.framehop_callers.specs.Step.{Source as RunSource, after, on_at, changed, takes, with_loop, met, branched, jumped, counted, passed_over, with_call_at, entered, linked, is_entered, has_some, called, called_by_link, returned, returned_by, is_own_return, returned_to, done, then_done, all_done, checked, stepped, stepped_by, read_at, is_branch, is_conditional, step_by};

use crate::convention::Convention;
use crate::memory::WordMemory;
use crate::state::{State, computed_of};
use framehop_cfi::aarch64::X30;
use framehop_cfi::rule::Register;
use framehop_cfi::x86_64::RSP;
use framehop_code::aarch64::action::{Actions, actions_at};
use framehop_code::action::{Action, Instruction, Stored, Width};

/// The register that LOOP counts down.
const RCX: Register = Register(2);

/// The size of each instruction of aarch64, in bytes.
const SIZE_AARCH64: u64 = 4;

/// How much below the stack pointer a function may write that is passed over, in bytes.
const BELOW: u64 = 0x10000;

/// What a run reads.
pub trait RunMemory: WordMemory {
    ghost convention: { Self → Convention };

    ghost code: { Self → ℕ → List ℕ };

    ghost covers: { Self → ℕ → Bool };

    /// Returns the calling convention of the processor.
    fn convention(&self) -> Convention
        ensures { result ≡ convention self.now };

    /// Returns at most 15 bytes of code from an address (AVMA) on, or none where no code is at hand.
    fn code_at(&self, address: u64) -> &[u8]
        ensures { result.now ≡ code self.now address };

    /// Returns the instruction of x86_64 at an address (AVMA), by that code.
    fn instruction_at(&self, address: u64) -> Option<Instruction>
        ensures { result ≡ action_at (code self.now address) 0 };

    /// Returns whether unwind data covers the function at an address (AVMA). Its call is passed over.
    fn is_covered(&self, address: u64) -> bool
        ensures { result ≡ covers self.now address };
}

/// How a run goes on.
#[derive(Clone, Copy, PartialEq, Eq)]
pub enum Step {
    /// To another instruction of the function, or of one that it has entered.
    Goes,
    /// To the function's caller.
    Returns,
    /// It is given up: where it leads isn't known.
    GivenUp,
}

/// What is read at an address of code.
#[derive(Clone, Copy)]
pub(crate) enum Read {
    /// An instruction of x86_64, if it is described.
    X86_64(Option<Instruction>),
    /// What an instruction of aarch64 does, if it is described.
    Aarch64(Option<Actions>),
}

impl Read {
    /// Reads the instruction at an address (AVMA).
    pub(crate) fn at<M: RunMemory>(memory: &M, address: u64) -> Self
        ensures { result ≡ read_at (M.convention memory.now) (M.code memory.now address) }
    {
        match memory.convention() {
            Convention::X86_64 => Read::X86_64(memory.instruction_at(address)),
            Convention::Aarch64 => Read::Aarch64(actions_at(memory.code_at(address), 0)),
        }
    }

    /// Returns whether it is a conditional jump: what it leads to differs in the two runs.
    pub(crate) fn is_conditional(&self) -> bool
        ensures { result ≡ is_conditional self.now }
    {
        match self {
            Read::X86_64(Some(instruction)) => is_branch(instruction.action),
            Read::Aarch64(Some(actions)) => {
                is_branch(actions.first)
                    || actions.second.is_some_and(is_branch)
                    || actions.third.is_some_and(is_branch)
            }
            Read::X86_64(None) | Read::Aarch64(None) => false,
        }
    }
}

/// Returns whether an action is a conditional jump.
fn is_branch(action: Action) -> bool
    ensures { result ≡ is_branch action }
{
    matches!(action, Action::Branch(_) | Action::Loop(_))
}

impl State {
    /// Does an instruction that was read at the state's address. Where `forward` is set it takes conditional jumps, else only
    /// where it meets them again.
    pub(crate) fn step<M: RunMemory>(&mut self, memory: &M, forward: bool, read: Read) -> Step
        ensures { after result self.new ≡ step_by (record { convention = M.convention memory.now; memory = M.WordMemory.memory memory.now; code = M.code memory.now; is_covered = M.covers memory.now }) forward self.old read }
    {
        match read {
            Read::X86_64(Some(instruction)) => self.step_by(memory, forward, instruction),
            Read::Aarch64(Some(actions)) => self.step_by_actions(memory, forward, actions),
            Read::X86_64(None) | Read::Aarch64(None) => Step::GivenUp,
        }
    }

    /// Does an instruction of aarch64 at the state's address.
    fn step_by_actions<M: RunMemory>(&mut self, memory: &M, forward: bool, actions: Actions) -> Step
        ensures { after result self.new ≡ stepped_by (record { convention = M.convention memory.now; memory = M.WordMemory.memory memory.now; code = M.code memory.now; is_covered = M.covers memory.now }) forward self.old (Some actions) }
    {
        let next = self.address.wrapping_add(SIZE_AARCH64);
        let step = self.carry_out_all(memory, forward, next, actions);
        self.checked(memory.convention(), step)
    }

    /// Does the actions of an instruction, one after another.
    fn carry_out_all<M: RunMemory>(
        &mut self,
        memory: &M,
        forward: bool,
        next: u64,
        actions: Actions,
    ) -> Step
        ensures { after result self.new ≡ all_done (record { convention = M.convention memory.now; memory = M.WordMemory.memory memory.now; code = M.code memory.now; is_covered = M.covers memory.now }) forward self.old next actions }
    {
        let first = self.carry_out(memory, forward, next, actions.first);
        let second = self.carry_on(memory, forward, next, actions.second, first);
        self.carry_on(memory, forward, next, actions.third, second)
    }

    /// Does another action of an instruction, if the one before it leads on.
    fn carry_on<M: RunMemory>(
        &mut self,
        memory: &M,
        forward: bool,
        next: u64,
        action: Option<Action>,
        step: Step,
    ) -> Step
        ensures { after result self.new ≡ then_done (record { convention = M.convention memory.now; memory = M.WordMemory.memory memory.now; code = M.code memory.now; is_covered = M.covers memory.now }) forward next action (after step self.old) }
    {
        match (action, step) {
            (Some(action), Step::Goes) => self.carry_out(memory, forward, next, action),
            _ => step,
        }
    }

    /// Does an instruction of x86_64 at the state's address.
    fn step_by<M: RunMemory>(&mut self, memory: &M, forward: bool, instruction: Instruction) -> Step
        ensures { after result self.new ≡ stepped (record { convention = M.convention memory.now; memory = M.WordMemory.memory memory.now; code = M.code memory.now; is_covered = M.covers memory.now }) forward self.old (Some instruction) }
    {
        let next = self.address.wrapping_add(instruction.size as u64);
        let step = self.carry_out(memory, forward, next, instruction.action);
        self.checked(memory.convention(), step)
    }

    /// Closes the calls whose return address is no longer on the stack, and gives a run up whose stack pointer isn't
    /// known.
    fn checked(&mut self, convention: Convention, step: Step) -> Step
        ensures { after result self.new ≡ checked convention (after step self.old) }
    {
        match self.registers.get(convention.stack_pointer()) {
            Some(sp) => {
                self.calls.close_below(sp);
                step
            }
            None => Step::GivenUp,
        }
    }

    /// Does what an instruction does. `next` is the address of the next one (AVMA).
    fn carry_out<M: RunMemory>(
        &mut self,
        memory: &M,
        forward: bool,
        next: u64,
        action: Action,
    ) -> Step
        ensures { after result self.new ≡ done (record { convention = M.convention memory.now; memory = M.WordMemory.memory memory.now; code = M.code memory.now; is_covered = M.covers memory.now }) forward self.old next action }
    {
        match action {
            Action::Move { to, from, width } => {
                let value = self.value_of(memory, next, width, from);
                let is_kept = self.put(next, width, to, value);
                self.go_on(is_kept, next)
            }
            Action::Compute {
                computation,
                to,
                from,
                width,
            } => {
                let left = self.operand_of(memory, next, width, to);
                let right = self.value_of(memory, next, width, from);
                let value = computed_of(computation, width, left, right);
                let is_kept = self.put(next, width, to, value);
                self.go_on(is_kept, next)
            }
            Action::Push(from) => {
                let value = self.value_of(memory, next, Width::Eight, from);
                let is_kept = self.push(value);
                self.go_on(is_kept, next)
            }
            Action::Pop(to) => {
                let is_kept = self.pop(memory, next, to);
                self.go_on(is_kept, next)
            }
            Action::Leave => {
                self.leave(memory);
                self.go_on(true, next)
            }
            Action::Forget { registers, memory } => {
                let is_kept = self.forget_bytes(next, memory);
                self.forget(registers);
                self.go_on(is_kept, next)
            }
            Action::Branch(address) => {
                let target = self.address_of(next, address);
                self.branch(forward, next, target)
            }
            Action::Loop(address) => {
                let target = self.address_of(next, address);
                self.count_down();
                self.branch(forward, next, target)
            }
            Action::Jump(from) => {
                let target = self.value_of(memory, next, Width::Eight, from);
                self.jump(target)
            }
            Action::Call(from) => {
                let target = self.value_of(memory, next, Width::Eight, from);
                self.call(memory, next, target)
            }
            Action::Return(bytes) => {
                let address = self.word_at(memory, RSP);
                self.go_back(bytes, address)
            }
            Action::BranchWithLink(from) => {
                let target = self.value_of(memory, next, Width::Eight, from);
                self.call_by_link(memory, next, target)
            }
            Action::ReturnTo(register) => {
                let address = self.registers.get(register);
                self.go_back_by(address)
            }
        }
    }

    /// Goes on at an address (AVMA), if the run isn't given up.
    fn go_on(&mut self, is_kept: bool, address: u64) -> Step
        ensures { after result self.new ≡ on_at address (left_by is_kept self.old) }
    {
        self.address = address;
        if is_kept { Step::Goes } else { Step::GivenUp }
    }

    /// Forgets the bytes that an instruction may have changed. Returns `false` where the run can't keep more writes.
    fn forget_bytes(&mut self, next: u64, stored: Option<Stored>) -> bool
        ensures { left_by result self.new ≡ changed self.old next stored }
    {
        match stored {
            Some(stored) => {
                let address = self.place_of(next, stored.at);
                self.store(address, stored.bytes, None)
            }
            None => true,
        }
    }

    /// Counts rcx down.
    fn count_down(&mut self)
        ensures { self.new ≡ counted self.old }
    {
        let count = match self.registers.get(RCX) {
            Some(count) => Some(count.wrapping_sub(1)),
            None => None,
        };
        self.registers.set(RCX, count);
    }

    /// Goes on at a conditional jump.
    fn branch(&mut self, forward: bool, next: u64, target: Option<u64>) -> Step
        ensures { after result self.new ≡ branched self.old forward next target }
    {
        let Some(target) = target else {
            return Step::GivenUp;
        };
        if self.takes(forward, next, target) {
            self.note_loop(next, target);
            self.address = target;
        } else {
            self.note_met(forward, next);
            self.address = next;
        }
        Step::Goes
    }

    /// Returns whether a conditional jump is taken.
    fn takes(&self, forward: bool, next: u64, target: u64) -> bool
        ensures { result ≡ takes self.now forward next target }
    {
        if forward {
            return next < target || self.looped < next;
        }
        next < target && next <= self.looped
    }

    /// Notes a conditional jump that the run meets and doesn't take.
    fn note_met(&mut self, forward: bool, next: u64)
        ensures { self.new ≡ met forward self.old next }
    {
        if !forward && self.looped < next {
            self.looped = next;
        }
    }

    /// Notes a conditional jump that is taken, if it leads back.
    fn note_loop(&mut self, next: u64, target: u64)
        ensures { self.new ≡ with_loop (nat_lt next target) self.old next }
    {
        if target <= next {
            self.looped = next;
        }
    }

    /// Goes on at the target of a jump.
    fn jump(&mut self, target: Option<u64>) -> Step
        ensures { after result self.new ≡ jumped self.old target }
    {
        let Some(target) = target else {
            return Step::GivenUp;
        };
        self.address = target;
        Step::Goes
    }

    /// Enters a function that no unwind data covers, or passes over it.
    fn call<M: RunMemory>(&mut self, memory: &M, next: u64, target: Option<u64>) -> Step
        ensures { after result self.new ≡ called (record { convention = M.convention memory.now; memory = M.WordMemory.memory memory.now; code = M.code memory.now; is_covered = M.covers memory.now }) self.old next target }
    {
        match target {
            Some(target) => {
                if is_entered(memory, target) {
                    self.enter(next, target)
                } else {
                    self.pass_over(memory.convention(), next)
                }
            }
            None => self.pass_over(memory.convention(), next),
        }
    }

    /// Enters a function that no unwind data covers, with its return address in x30, or passes over it.
    fn call_by_link<M: RunMemory>(&mut self, memory: &M, next: u64, target: Option<u64>) -> Step
        ensures { after result self.new ≡ called_by_link (record { convention = M.convention memory.now; memory = M.WordMemory.memory memory.now; code = M.code memory.now; is_covered = M.covers memory.now }) self.old next target }
    {
        match target {
            Some(target) => {
                if is_entered(memory, target) {
                    self.enter_by_link(next, target)
                } else {
                    self.pass_over(memory.convention(), next)
                }
            }
            None => self.pass_over(memory.convention(), next),
        }
    }

    /// Enters a function with its return address in x30, if not too many were entered.
    fn enter_by_link(&mut self, next: u64, target: u64) -> Step
        ensures { after result self.new ≡ linked self.old next target }
    {
        self.registers.set(X30, Some(next));
        let is_noted = self.after_calls.note(next);
        self.go_on(is_noted, target)
    }

    /// Enters a function, if not too many are open.
    fn enter(&mut self, next: u64, target: u64) -> Step
        ensures { after result self.new ≡ entered self.old next target }
    {
        if !self.push(Some(next)) {
            return Step::GivenUp;
        }
        let sp = self.registers.get(RSP);
        if !self.open(sp) {
            return Step::GivenUp;
        }
        let is_noted = self.after_calls.note(next);
        self.go_on(is_noted, target)
    }

    /// Opens a call whose return address is at the stack pointer. Returns `false` where too many are open.
    fn open(&mut self, sp: Option<u64>) -> bool
        ensures { left_by result self.new ≡ with_call_at self.old sp }
    {
        match sp {
            Some(sp) => self.calls.open(sp),
            None => false,
        }
    }

    /// Passes over a call, by what the calling convention keeps (System V ABI for AMD64, section 3.2.1; Procedure Call Standard
    /// for the Arm 64-bit Architecture, section 6.1.1).
    fn pass_over(&mut self, convention: Convention, next: u64) -> Step
        ensures { after result self.new ≡ passed_over convention self.old next }
    {
        let Some(sp) = self.registers.get(convention.stack_pointer()) else {
            return Step::GivenUp;
        };
        self.forget(convention.scratch());
        let is_kept = self.store(Some(sp.wrapping_sub(BELOW)), BELOW, None);
        self.go_on(is_kept, next)
    }

    /// Returns to an address (AVMA), and takes so many bytes besides it from the stack.
    fn go_back(&mut self, bytes: u64, address: Option<u64>) -> Step
        ensures { after result self.new ≡ returned self.old bytes address }
    {
        let Some(address) = address else {
            return Step::GivenUp;
        };
        self.raise(8);
        self.raise(bytes);
        self.go_back_to(address)
    }

    /// Returns to an address (AVMA) that a register had, if it is known.
    fn go_back_by(&mut self, address: Option<u64>) -> Step
        ensures { after result self.new ≡ returned_by self.old address }
    {
        match address {
            Some(address) => self.go_back_to(address),
            None => Step::GivenUp,
        }
    }

    /// Returns to an address (AVMA): to the caller, or from a call that the run has entered.
    fn go_back_to(&mut self, address: u64) -> Step
        ensures { after result self.new ≡ returned_to self.old address }
    {
        self.address = address;
        if self.is_own_return(address) {
            return Step::Returns;
        }
        self.after_calls.forget(address);
        Step::Goes
    }

    /// Returns whether a return to an address (AVMA) is the function's own: no call of the run is open, and the address is
    /// after none that it has entered and not returned from, which may have moved its return address on the stack.
    fn is_own_return(&self, address: u64) -> bool
        ensures { result ≡ is_own_return self.now address }
    {
        self.calls.is_none() && !self.after_calls.has(address)
    }
}

/// Returns whether a function is entered: its code is at hand, and no unwind data covers it.
fn is_entered<M: RunMemory>(memory: &M, target: u64) -> bool
    ensures { result ≡ is_entered (record { convention = M.convention memory.now; memory = M.WordMemory.memory memory.now; code = M.code memory.now; is_covered = M.covers memory.now }) target }
{
    !memory.is_covered(target) && has_some(memory.code_at(target))
}

/// Returns whether there are bytes.
fn has_some(bytes: &[u8]) -> bool
    ensures { result ≡ has_some bytes.now }
{
    !bytes.is_empty()
}
