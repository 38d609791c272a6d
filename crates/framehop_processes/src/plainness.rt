//! Which of the names of a function is the plainest.
ghost use Rattle.std.specs.Prelude.{◌≡◌, ◌≤◌, IfOk};
ghost use Rattle.framehop_processes.specs.ObjectFiles.{is_internal, has_version, is_underscored, plainness_of, plainness_in, by_plainness};

use framehop_bytes::bytes::{back, front};
use framehop_bytes::string::before_nul;
use framehop_object::elf::symbol::Symbol;
use std::alloc::{AllocError, Global};

/// How many bytes of a symbol's name are looked at to choose among those of one function.
const LOOKED_AT: usize = 256;

/// Returns functions with the plainest names last: of functions that begin at one address the last is found.
pub(crate) fn by_plainness(
    alloc: Global,
    functions: &[Symbol],
    names: &[u8],
) -> Result<Vec<Symbol>, AllocError>
    ensures { IfOk result (λ ordered. ordered.items ≡ by_plainness functions.now names.now) }
{
    let mut plainest = Vec::new(alloc);
    let mut underscored = Vec::new(alloc);
    let mut ordered = Vec::new(alloc);
    for function in functions {
        match plainness_in(names, *function) {
            0 => ordered.push(*function)?,
            1 => underscored.push(*function)?,
            _ => plainest.push(*function)?,
        }
    }
    ordered.extend_from_slice(underscored.as_slice())?;
    ordered.extend_from_slice(plainest.as_slice())?;
    Ok(ordered)
}

/// Returns how plain the name of a function is.
fn plainness_in(names: &[u8], function: Symbol) -> u8
    ensures exact { result ≡ plainness_in names.now function }
    ensures most { result ≤ 2 }
{
    let name = front(back(names, u64::from(function.st_name)), LOOKED_AT);
    plainness_of(before_nul(name))
}

/// Returns how plain a name is: 0 with a version (`free@@GLIBC_2.2.5`) or where it begins with `__GI_`, as the C library's
/// names for itself do, 1 where it begins with `_`, else 2.
fn plainness_of(name: &[u8]) -> u8
    ensures exact { result ≡ plainness_of name.now }
    ensures most { result ≤ 2 }
{
    if is_internal(name) || has_version(name) {
        0
    } else if is_underscored(name) {
        1
    } else {
        2
    }
}

/// Returns whether a name is one of the C library's for itself.
fn is_internal(name: &[u8]) -> bool
    ensures { result ≡ is_internal name.now }
{
    name.starts_with(b"__GI_")
}

/// Returns whether a name has a version.
fn has_version(name: &[u8]) -> bool
    ensures { result ≡ has_version name.now }
{
    name.iter().any(|byte| *byte == b'@')
}

/// Returns whether a name begins with an underscore.
fn is_underscored(name: &[u8]) -> bool
    ensures { result ≡ is_underscored name.now }
{
    name.starts_with(b"_")
}
