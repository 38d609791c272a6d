//! Signals of Linux as text.
ghost use Rattle.std.specs.Prelude.{◌≡◌, ◌++◌, IfOk, codes, option_map, string_bytes};
ghost use Rattle.framehop_dump_stacks.specs.Signal.{name_in, codes_of_any, illegal_codes, trap_codes, bus_codes, arithmetic_codes, segment_codes, call_codes, codes_of, signal_name, code_name, is_fault, is_sent, signed, number_text, code_text, fields_text, sent_text, signal_text};

use framehop_dumps::dump::{Sent, Signal};
use std::alloc::{AllocError, Global};

/// `SIGILL`.
const SIGILL: u32 = 4;

/// `SIGTRAP`.
const SIGTRAP: u32 = 5;

/// `SIGBUS`.
const SIGBUS: u32 = 7;

/// `SIGFPE`.
const SIGFPE: u32 = 8;

/// `SIGSEGV`.
const SIGSEGV: u32 = 11;

/// `SIGSYS`.
const SIGSYS: u32 = 31;

/// `SI_USER`: sent by `kill(2)`.
const SI_USER: u32 = 0;

/// `SI_KERNEL`: sent by the kernel.
const SI_KERNEL: u32 = 0x80;

/// `SI_QUEUE`, -1: sent by `sigqueue(3)`.
const SI_QUEUE: u32 = 0xffff_ffff;

/// `SI_MESGQ`, -3: sent by `mq_notify(3)`.
const SI_MESGQ: u32 = 0xffff_fffd;

/// `SI_TKILL`, -6: sent by `tgkill(2)`.
const SI_TKILL: u32 = 0xffff_fffa;

/// The first code that is below 0, as 32 bits.
const FIRST_NEGATIVE: u32 = 0x8000_0000;

/// Returns a signal as it is printed: its name, and why it was sent, with the address of a fault or the process that sent
/// it, where that is told.
pub(crate) fn signal_text(alloc: Global, signal: Signal) -> Result<String, AllocError>
    ensures { IfOk result (λ text. string_bytes text ≡ signal_text signal) }
{
    let mut text = number_text(alloc, signal.number)?;
    let sent = sent_text(alloc, signal.number, signal.sent)?;
    text.push_str(sent.as_str())?;
    Ok(text)
}

/// Returns the name of a signal, or its number.
fn number_text(alloc: Global, signal: u32) -> Result<String, AllocError>
    ensures { IfOk result (λ text. string_bytes text ≡ number_text signal) }
{
    match signal_name(signal) {
        Some(name) => String::from_str(alloc, name),
        None => Ok(format!(in alloc; "signal {signal}")?),
    }
}

/// Returns why a signal was sent, in parentheses, where it is told.
fn sent_text(alloc: Global, signal: u32, sent: Option<Sent>) -> Result<String, AllocError>
    ensures { IfOk result (λ text. string_bytes text ≡ sent_text signal sent) }
{
    let Some(sent) = sent else {
        return Ok(String::new(alloc));
    };
    let code = code_text(alloc, signal, sent.code)?;
    let fields = fields_text(alloc, signal, sent)?;
    let (code, fields) = (code.as_str(), fields.as_str());
    Ok(format!(in alloc; " ({code}{fields})")?)
}

/// Returns the name of a code, or the code.
fn code_text(alloc: Global, signal: u32, code: u32) -> Result<String, AllocError>
    ensures { IfOk result (λ text. string_bytes text ≡ code_text signal code) }
{
    match code_name(signal, code) {
        Some(name) => String::from_str(alloc, name),
        None => unnamed_code(alloc, code),
    }
}

/// Returns a code that has no name, as a signed number.
fn unnamed_code(alloc: Global, code: u32) -> Result<String, AllocError>
    ensures { IfOk result (λ text. string_bytes text ≡ codes "code " ++ signed code) }
{
    if code < FIRST_NEGATIVE {
        return Ok(format!(in alloc; "code {code}")?);
    }
    let below = 0x1_0000_0000 - u64::from(code);
    Ok(format!(in alloc; "code -{below}")?)
}

/// Returns the address of a fault, or the process that sent the signal.
fn fields_text(alloc: Global, signal: u32, sent: Sent) -> Result<String, AllocError>
    ensures { IfOk result (λ text. string_bytes text ≡ fields_text signal sent.code sent.fields) }
{
    if is_fault(signal, sent.code) {
        let address = sent.fields;
        return Ok(format!(in alloc; " at 0x{address:x}")?);
    }
    if is_sent(sent.code) {
        let process = sent.fields % 0x1_0000_0000;
        return Ok(format!(in alloc; " from process {process}")?);
    }
    Ok(String::new(alloc))
}

/// Returns whether the kernel found a fault of an instruction, and says at which address.
///
/// Source: `sigaction(2)`; Linux, `kernel/signal.c`, `siginfo_layout`.
pub(crate) fn is_fault(signal: u32, code: u32) -> bool
    ensures { result ≡ is_fault signal code }
{
    (signal == SIGILL
        || signal == SIGTRAP
        || signal == SIGBUS
        || signal == SIGFPE
        || signal == SIGSEGV)
        && 0 < code
        && code < SI_KERNEL
}

/// Returns whether a process sent a signal.
fn is_sent(code: u32) -> bool
    ensures { result ≡ is_sent code }
{
    code == SI_USER || code == SI_QUEUE || code == SI_MESGQ || code == SI_TKILL
}

/// Returns the name of a signal: none of those of real time.
fn signal_name(signal: u32) -> Option<&'static str>
    ensures { option_map (λ name. name.now) result ≡ signal_name signal }
{
    match signal {
        1 => Some("SIGHUP"),
        2 => Some("SIGINT"),
        3 => Some("SIGQUIT"),
        4 => Some("SIGILL"),
        5 => Some("SIGTRAP"),
        6 => Some("SIGABRT"),
        7 => Some("SIGBUS"),
        8 => Some("SIGFPE"),
        9 => Some("SIGKILL"),
        10 => Some("SIGUSR1"),
        11 => Some("SIGSEGV"),
        12 => Some("SIGUSR2"),
        13 => Some("SIGPIPE"),
        14 => Some("SIGALRM"),
        15 => Some("SIGTERM"),
        16 => Some("SIGSTKFLT"),
        17 => Some("SIGCHLD"),
        18 => Some("SIGCONT"),
        19 => Some("SIGSTOP"),
        20 => Some("SIGTSTP"),
        21 => Some("SIGTTIN"),
        22 => Some("SIGTTOU"),
        23 => Some("SIGURG"),
        24 => Some("SIGXCPU"),
        25 => Some("SIGXFSZ"),
        26 => Some("SIGVTALRM"),
        27 => Some("SIGPROF"),
        28 => Some("SIGWINCH"),
        29 => Some("SIGIO"),
        30 => Some("SIGPWR"),
        31 => Some("SIGSYS"),
        _ => None,
    }
}

/// Returns the name of a code.
fn code_name(signal: u32, code: u32) -> Option<&'static str>
    ensures { option_map (λ name. name.now) result ≡ code_name signal code }
{
    match any_code_name(code) {
        Some(name) => Some(name),
        None => own_code_name(signal, code),
    }
}

/// Returns the name of a code of a signal's own.
fn own_code_name(signal: u32, code: u32) -> Option<&'static str>
    ensures { option_map (λ name. name.now) result ≡ name_in (codes_of signal) code }
{
    match signal {
        SIGILL => illegal_code_name(code),
        SIGTRAP => trap_code_name(code),
        SIGBUS => bus_code_name(code),
        SIGFPE => arithmetic_code_name(code),
        SIGSEGV => segment_code_name(code),
        SIGSYS => call_code_name(code),
        _ => None,
    }
}

/// Returns the name of a code that any signal may have.
fn any_code_name(code: u32) -> Option<&'static str>
    ensures { option_map (λ name. name.now) result ≡ name_in codes_of_any code }
{
    match code {
        0 => Some("SI_USER"),
        128 => Some("SI_KERNEL"),
        0xffff_ffff => Some("SI_QUEUE"),
        0xffff_fffe => Some("SI_TIMER"),
        0xffff_fffd => Some("SI_MESGQ"),
        0xffff_fffc => Some("SI_ASYNCIO"),
        0xffff_fffb => Some("SI_SIGIO"),
        0xffff_fffa => Some("SI_TKILL"),
        0xffff_fff9 => Some("SI_DETHREAD"),
        0xffff_ffc4 => Some("SI_ASYNCNL"),
        _ => None,
    }
}

/// Returns the name of a code of `SIGILL`.
fn illegal_code_name(code: u32) -> Option<&'static str>
    ensures { option_map (λ name. name.now) result ≡ name_in illegal_codes code }
{
    match code {
        1 => Some("ILL_ILLOPC"),
        2 => Some("ILL_ILLOPN"),
        3 => Some("ILL_ILLADR"),
        4 => Some("ILL_ILLTRP"),
        5 => Some("ILL_PRVOPC"),
        6 => Some("ILL_PRVREG"),
        7 => Some("ILL_COPROC"),
        8 => Some("ILL_BADSTK"),
        9 => Some("ILL_BADIADDR"),
        _ => None,
    }
}

/// Returns the name of a code of `SIGTRAP`.
fn trap_code_name(code: u32) -> Option<&'static str>
    ensures { option_map (λ name. name.now) result ≡ name_in trap_codes code }
{
    match code {
        1 => Some("TRAP_BRKPT"),
        2 => Some("TRAP_TRACE"),
        3 => Some("TRAP_BRANCH"),
        4 => Some("TRAP_HWBKPT"),
        5 => Some("TRAP_UNK"),
        6 => Some("TRAP_PERF"),
        _ => None,
    }
}

/// Returns the name of a code of `SIGBUS`.
fn bus_code_name(code: u32) -> Option<&'static str>
    ensures { option_map (λ name. name.now) result ≡ name_in bus_codes code }
{
    match code {
        1 => Some("BUS_ADRALN"),
        2 => Some("BUS_ADRERR"),
        3 => Some("BUS_OBJERR"),
        4 => Some("BUS_MCEERR_AR"),
        5 => Some("BUS_MCEERR_AO"),
        _ => None,
    }
}

/// Returns the name of a code of `SIGFPE`.
fn arithmetic_code_name(code: u32) -> Option<&'static str>
    ensures { option_map (λ name. name.now) result ≡ name_in arithmetic_codes code }
{
    match code {
        1 => Some("FPE_INTDIV"),
        2 => Some("FPE_INTOVF"),
        3 => Some("FPE_FLTDIV"),
        4 => Some("FPE_FLTOVF"),
        5 => Some("FPE_FLTUND"),
        6 => Some("FPE_FLTRES"),
        7 => Some("FPE_FLTINV"),
        8 => Some("FPE_FLTSUB"),
        14 => Some("FPE_FLTUNK"),
        15 => Some("FPE_CONDTRAP"),
        _ => None,
    }
}

/// Returns the name of a code of `SIGSEGV`.
fn segment_code_name(code: u32) -> Option<&'static str>
    ensures { option_map (λ name. name.now) result ≡ name_in segment_codes code }
{
    match code {
        1 => Some("SEGV_MAPERR"),
        2 => Some("SEGV_ACCERR"),
        3 => Some("SEGV_BNDERR"),
        4 => Some("SEGV_PKUERR"),
        5 => Some("SEGV_ACCADI"),
        6 => Some("SEGV_ADIDERR"),
        7 => Some("SEGV_ADIPERR"),
        8 => Some("SEGV_MTEAERR"),
        9 => Some("SEGV_MTESERR"),
        10 => Some("SEGV_CPERR"),
        _ => None,
    }
}

/// Returns the name of a code of `SIGSYS`.
fn call_code_name(code: u32) -> Option<&'static str>
    ensures { option_map (λ name. name.now) result ≡ name_in call_codes code }
{
    match code {
        1 => Some("SYS_SECCOMP"),
        2 => Some("SYS_USER_DISPATCH"),
        _ => None,
    }
}
