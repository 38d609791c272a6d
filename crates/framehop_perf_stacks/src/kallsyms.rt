//! The names of the kernel's functions, as the kernel tells them.
ghost use Rattle.std.specs.Prelude.{◌≡◌, ◌<◌, Some, IfOk, IfSome, option_map};
ghost use Rattle.framehop_perf_stacks.specs.Kallsyms.{digit_of, next_value, value_after, is_function, function_by, function_of, function_view, functions_in, AreNamesOf};
ghost use Rattle.framehop_perf_stacks.specs.Window.{lines_of};

use crate::kernel::{KernelFunction, KernelNames};
use crate::window::{after_byte, before_byte, lines_of};
use std::alloc::{AllocError, Global};

/// Reads the names of the kernel's functions from the text of `/proc/kallsyms` or of a `System.map`: lines of an address
/// in hexadecimal, a letter that says what is there, and a name, and after a tab the module. Of functions at one address
/// the last has its name. Lines of data, of the address 0 and others are passed over.
///
/// Source: Linux, `kernel/kallsyms.c`, `s_show`; nm(1), the letters T, t, W and w.
pub fn read_kallsyms(alloc: Global, text: &[u8]) -> Result<KernelNames, AllocError>
    ensures { IfOk result (λ names. AreNamesOf (functions_in (lines_of text.now)) names.by_start) }
{
    let lines = lines_of(alloc, text)?;
    let mut names = KernelNames::new(alloc);
    for line in lines.as_slice() {
        if let Some(function) = function_of(line) {
            names.add(alloc, function)?;
        }
    }
    Ok(names)
}

/// Returns the function that a line tells of, if it does.
#[tactic(auto, unfolding(crate::specs::Kallsyms::function_of))]
pub fn function_of(line: &[u8]) -> Option<KernelFunction<'_>>
    ensures { option_map function_view result ≡ function_of line.entry.now }
{
    let start = value_of(before_byte(b' ', line))?;
    function_by(start, after_byte(b' ', line))
}

/// Returns the function that starts at an address, by its letter and its name, if the letter is that of a function.
fn function_by(start: u64, after: &[u8]) -> Option<KernelFunction<'_>>
    ensures { option_map function_view result ≡ function_by start after.entry.now }
{
    let (letter, name) = after.split_first()?;
    if !is_function(*letter) || start == 0 {
        return None;
    }
    Some(KernelFunction {
        start,
        name: before_byte(b'\t', name.get(1..).unwrap_or(&[])),
    })
}

/// Returns whether a letter says that there is a function.
fn is_function(letter: u8) -> bool
    ensures { result ≡ is_function letter }
{
    letter == b't' || letter == b'T' || letter == b'w' || letter == b'W'
}

/// Returns the value of digits in hexadecimal, below 2^64: 0 of none.
pub(crate) fn value_of(digits: &[u8]) -> Option<u64>
    ensures { result ≡ value_after (Some 0) digits.now }
{
    let mut value: u64 = 0;
    for byte in digits {
        value = next_value(value, digit_of(*byte))?;
    }
    Some(value)
}

/// Returns a number with a digit in hexadecimal after it, if that is one and the number is below 2^64.
fn next_value(value: u64, digit: Option<u64>) -> Option<u64>
    requires { IfSome digit (λ d. d < 16) }
    ensures { result ≡ next_value value digit }
{
    value.checked_mul(16)?.checked_add(digit?)
}

/// Returns the value of a digit in hexadecimal.
fn digit_of(byte: u8) -> Option<u64>
    ensures digit { result ≡ digit_of byte }
    ensures small { IfSome result (λ digit. digit < 16) }
{
    match byte {
        b'0'..=b'9' => Some(u64::from(byte) - 48),
        b'a'..=b'f' => Some(u64::from(byte) - 87),
        b'A'..=b'F' => Some(u64::from(byte) - 55),
        _ => None,
    }
}
