//! Why the thread of a minidump ended: the signal or the exception of its exception stream.
ghost use Rattle.std.specs.Prelude.{◌≡◌};
ghost use Rattle.framehop_dumps.specs.Minidump.{sent_of, only_stops, signal_of, access_of, windows_exception, cause_by, cause_of};

use crate::dump::{Access, Cause, Exception as WindowsException, Sent, Signal};
use crate::minidump::WINDOWS;
use framehop_dump_files::minidump::exception::Exception;

/// The platform of Linux, `MD_OS_LINUX` of Breakpad.
const LINUX: u32 = 0x8201;

/// The platform of Android, `MD_OS_ANDROID` of Breakpad.
const ANDROID: u32 = 0x8203;

/// The code of a minidump of Linux that was asked for without a crash, `MD_EXCEPTION_CODE_LIN_DUMP_REQUESTED` of
/// Breakpad.
const DUMP_REQUESTED: u32 = 0xffff_ffff;

/// The first of the signals that stop a process.
const SIGSTOP: u32 = 19;

/// The last of them.
const SIGTTOU: u32 = 22;

/// `EXCEPTION_ACCESS_VIOLATION`.
const ACCESS_VIOLATION: u32 = 0xc000_0005;

/// `EXCEPTION_IN_PAGE_ERROR`.
const IN_PAGE_ERROR: u32 = 0xc000_0006;

/// Returns what a thread got, if the exception is of it.
pub(crate) fn cause_of(platform: u32, tid: u32, exception: Option<Exception>) -> Option<Cause>
    ensures { result ≡ cause_of platform tid exception }
{
    match exception {
        Some(exception) if exception.tid == tid => cause_by(platform, exception),
        _ => None,
    }
}

/// Returns what an exception is the cause of.
fn cause_by(platform: u32, exception: Exception) -> Option<Cause>
    ensures { result ≡ cause_by platform exception }
{
    match platform {
        LINUX | ANDROID => signal_of(exception),
        WINDOWS => Some(Cause::Exception(windows_exception(exception))),
        _ => Some(Cause::Other(exception.code)),
    }
}

/// Returns what an exception of Linux is the cause of: the signal of its code, if there is one, and it does not only stop the
/// process, as debuggers do that write minidumps of living ones.
fn signal_of(exception: Exception) -> Option<Cause>
    ensures { result ≡ signal_of exception }
{
    let number = exception.code;
    if number == 0 || number == DUMP_REQUESTED || only_stops(number) {
        return None;
    }
    Some(Cause::Signal(Signal {
        number,
        sent: sent_of(exception),
    }))
}

/// Returns whether a signal stops a process that does not handle it, and ends none: SIGSTOP, SIGTSTP, SIGTTIN or SIGTTOU.
///
/// Source: signal(7), "Standard signals".
fn only_stops(number: u32) -> bool
    ensures { result ≡ only_stops number }
{
    SIGSTOP <= number && number <= SIGTTOU
}

/// Returns why the signal of an exception of Linux was sent, if its flags tell it.
fn sent_of(exception: Exception) -> Option<Sent>
    ensures { result ≡ sent_of exception }
{
    if exception.flags == 0 {
        return None;
    }
    Some(Sent {
        code: exception.flags,
        fields: exception.address,
    })
}

/// Returns an exception of Windows.
fn windows_exception(exception: Exception) -> WindowsException
    ensures { result ≡ windows_exception exception }
{
    WindowsException {
        code: exception.code,
        address: exception.address,
        access: access_of(exception),
    }
}

/// Returns the access to memory that failed, if an exception of Windows is of one.
///
/// Source: `winnt.h`, `EXCEPTION_RECORD`, `ExceptionInformation`.
fn access_of(exception: Exception) -> Option<Access>
    ensures { result ≡ access_of exception }
{
    let is_access = exception.code == ACCESS_VIOLATION || exception.code == IN_PAGE_ERROR;
    if is_access && exception.parameter_count >= 2 {
        return Some(Access {
            kind: exception.first_parameter,
            address: exception.second_parameter,
        });
    }
    None
}
