//! The caller of a frame by runs of its code to the function's return.
ghost use Rattle.std.specs.Prelude.{◌≡◌, IfSome, true, false};
ghost use Rattle.framehop_callers.specs.Caller.{is_same};
ghost use Rattle.framehop_callers.specs.RegisterFile.{word_of, unknown};
ghost use Rattle.framehop_callers.specs.Run.{alike, alike_below, common, caller_of, run_from, IsTogether, agree, both, agreed, caller_by_runs};
ghost use Rattle.framehop_callers.specs.Sound.{IsSound};

use crate::convention::Convention;
use crate::register_file::RegisterFile;
use crate::state::State;
use crate::step::{Read, RunMemory, Step};
use framehop_cfi::rule::Register;

/// How many instructions a run does at most.
const MOST_STEPS: u32 = 4096;

/// The caller of a frame, by runs of the frame's code.
#[derive(Clone, Copy)]
pub struct RunCaller {
    /// The return address (AVMA).
    pub return_address: u64,
    /// The general registers after the return, each known or not, and the return address as rip or pc. The stack pointer is known.
    pub registers: RegisterFile,
}

/// Returns the caller of a frame by running its code from an address (AVMA) over its registers and the memory, or `None`
/// where the run is given up before the function returns, or where runs come to different callers.
///
/// Two runs are made: one takes a conditional jump only where it meets it again, the other each that leads forward, and those
/// that lead back once. Up to the first they are one. Where both return they must agree in return address and stack pointer,
/// and what is known of a register is what both know alike.
#[tactic(auto, unfolding(crate::specs::Run::caller_by_runs))]
pub fn caller_by_runs<M: RunMemory>(
    memory: &M,
    address: u64,
    registers: &RegisterFile,
) -> Option<RunCaller>
    ensures exact { result ≡ caller_by_runs (record { convention = M.convention memory.now; memory = M.WordMemory.memory memory.now; code = M.code memory.now; is_covered = M.covers memory.now }) address registers.now }
    ensures sound { IfSome result (IsSound (record { convention = M.convention memory.now; memory = M.WordMemory.memory memory.now; code = M.code memory.now; is_covered = M.covers memory.now }) address registers.now) }
{
    let mut state = State::new(address, registers);
    match run_together(memory, &mut state) {
        Together::Ends(caller) => ended(memory.convention(), caller),
        Together::Forks(left) => run_both(memory, &mut state, left),
    }
}

/// Returns the caller of both runs where both come to this one, or are given up.
fn ended(convention: Convention, caller: Option<RunCaller>) -> Option<RunCaller>
    ensures { result ≡ agreed convention caller caller }
{
    let caller = caller?;
    if agree(convention, &caller, &caller) {
        Some(both(convention, &caller, &caller))
    } else {
        None
    }
}

/// Returns the caller that both runs from a state come to in so many instructions.
fn run_both<M: RunMemory>(memory: &M, state: &mut State, left: u32) -> Option<RunCaller>
    ensures { result ≡ agreed (M.convention memory.now)
        (run_from (record { convention = M.convention memory.now; memory = M.WordMemory.memory memory.now; code = M.code memory.now; is_covered = M.covers memory.now }) false left state.old) (run_from (record { convention = M.convention memory.now; memory = M.WordMemory.memory memory.now; code = M.code memory.now; is_covered = M.covers memory.now }) true left state.old) }
{
    let mut other = state.copied();
    let straight = run_from(memory, false, state, left);
    let forward = run_from(memory, true, &mut other, left);
    agreed(memory.convention(), straight, forward)
}

/// How the two runs go on together.
enum Together {
    /// Both come to this caller, or both are given up.
    Ends(Option<RunCaller>),
    /// They meet a conditional jump, and may do so many instructions from there on.
    Forks(u32),
}

/// Goes on with a state up to the first conditional jump, where the two runs fork.
fn run_together<M: RunMemory>(memory: &M, state: &mut State) -> Together
    ensures { IsTogether (record { convention = M.convention memory.now; memory = M.WordMemory.memory memory.now; code = M.code memory.now; is_covered = M.covers memory.now }) state.old state.new result }
{
    let mut left = MOST_STEPS;
    while left > 0 {
        let read = Read::at(memory, state.address);
        if read.is_conditional() {
            return Together::Forks(left);
        }
        left -= 1;
        match state.step(memory, false, read) {
            Step::Goes => (),
            Step::Returns => return Together::Ends(Some(caller_of(memory.convention(), state))),
            Step::GivenUp => return Together::Ends(None),
        }
    }
    Together::Ends(None)
}

/// Returns the caller that a run from a state comes to in so many instructions.
fn run_from<M: RunMemory>(
    memory: &M,
    forward: bool,
    state: &mut State,
    most: u32,
) -> Option<RunCaller>
    ensures { result ≡ run_from (record { convention = M.convention memory.now; memory = M.WordMemory.memory memory.now; code = M.code memory.now; is_covered = M.covers memory.now }) forward most state.old }
{
    let mut left = most;
    while left > 0 {
        left -= 1;
        let read = Read::at(memory, state.address);
        match state.step(memory, forward, read) {
            Step::Goes => (),
            Step::Returns => return Some(caller_of(memory.convention(), state)),
            Step::GivenUp => return None,
        }
    }
    None
}

/// Returns the caller, by the state after the return.
fn caller_of(convention: Convention, state: &State) -> RunCaller
    ensures { result ≡ caller_of convention state.now }
{
    let mut registers = state.registers;
    registers.set(convention.program_counter(), Some(state.address));
    RunCaller {
        return_address: state.address,
        registers: common(convention, &registers, &registers),
    }
}

/// Returns the caller of both runs, or of the only one that returns.
fn agreed(
    convention: Convention,
    straight: Option<RunCaller>,
    forward: Option<RunCaller>,
) -> Option<RunCaller>
    ensures { result ≡ agreed convention straight forward }
{
    match (straight, forward) {
        (Some(straight), Some(forward)) => {
            if agree(convention, &straight, &forward) {
                Some(both(convention, &straight, &forward))
            } else {
                None
            }
        }
        (Some(straight), None) => Some(straight),
        (None, forward) => forward,
    }
}

/// Returns whether two callers have the same return address and stack pointer.
fn agree(convention: Convention, caller: &RunCaller, other: &RunCaller) -> bool
    ensures { result ≡ agree convention caller.now other.now }
{
    let register = convention.stack_pointer();
    let sp = caller.registers.get(register);
    let other_sp = other.registers.get(register);
    caller.return_address == other.return_address && is_same(sp, other_sp)
}

/// Returns a caller with what both know alike.
fn both(convention: Convention, caller: &RunCaller, other: &RunCaller) -> RunCaller
    ensures { result ≡ both convention caller.now other.now }
{
    RunCaller {
        return_address: caller.return_address,
        registers: common(convention, &caller.registers, &other.registers),
    }
}

/// Returns what two register files know alike of the general registers, whose columns are below the program counter's, and of
/// that.
fn common(convention: Convention, left: &RegisterFile, right: &RegisterFile) -> RegisterFile
    ensures { result ≡ common convention left.now right.now }
{
    alike_below(convention.program_counter().0 + 1, left, right)
}

/// Returns what two register files know alike of the columns below one.
fn alike_below(columns: u16, left: &RegisterFile, right: &RegisterFile) -> RegisterFile
    ensures { result ≡ alike_below columns left.now right.now unknown }
{
    let mut both = RegisterFile::new();
    let mut columns = columns;
    while columns > 0 {
        columns -= 1;
        let register = Register(columns);
        both.set(register, alike(left.get(register), right.get(register)));
    }
    both
}

/// Returns a value that both are.
fn alike(word: Option<u64>, other: Option<u64>) -> Option<u64>
    ensures { result ≡ alike word other }
{
    if is_same(word, other) { word } else { None }
}

/// Returns whether two words are known and equal.
fn is_same(word: Option<u64>, other: Option<u64>) -> bool
    ensures { result ≡ is_same word other }
{
    match (word, other) {
        (Some(word), Some(other)) => word == other,
        _ => false,
    }
}
