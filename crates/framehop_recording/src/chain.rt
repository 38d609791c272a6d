//! The addresses of a call chain.
ghost use Rattle.std.specs.Prelude.{◌≡◌, ◌≤◌, ◌+◌, ◌==◌, length, nat_le, IfOk};
ghost use Rattle.std.specs.List.{position_or_len};
ghost use Rattle.framehop_bytes.specs.Bytes.{le8};
ghost use Rattle.framehop_recording.specs.Chain.{words_of, before_mark, part_after, kernel_part, user_part};

use crate::sample::CallChain;
use framehop_bytes::bytes::read_u64;
use std::alloc::{AllocError, Global};

/// PERF_CONTEXT_KERNEL.
const CONTEXT_KERNEL: u64 = 0xffff_ffff_ffff_ff80;

/// PERF_CONTEXT_USER.
const CONTEXT_USER: u64 = 0xffff_ffff_ffff_fe00;

/// PERF_CONTEXT_MAX.
const CONTEXT_MAX: u64 = 0xffff_ffff_ffff_f001;

/// Returns the addresses of the kernel in a call chain, from the innermost on: none where it has none.
///
/// Source: Linux, `include/uapi/linux/perf_event.h`, `enum perf_callchain_context`.
pub fn kernel_part(alloc: Global, chain: CallChain<'_>) -> Result<Vec<u64>, AllocError>
    ensures { IfOk result (λ part. part.items ≡ kernel_part chain.entry.bytes.now) }
{
    let words = words_of(alloc, chain.bytes)?;
    Vec::from_slice(alloc, part_after(CONTEXT_KERNEL, words.as_slice()))
}

/// Returns the addresses of the user's side in a call chain, from the innermost on: none where it has none.
///
/// Source: Linux, `include/uapi/linux/perf_event.h`, `enum perf_callchain_context`.
pub fn user_part(alloc: Global, chain: CallChain<'_>) -> Result<Vec<u64>, AllocError>
    ensures { IfOk result (λ part. part.items ≡ user_part chain.entry.bytes.now) }
{
    let words = words_of(alloc, chain.bytes)?;
    Vec::from_slice(alloc, part_after(CONTEXT_USER, words.as_slice()))
}

/// Returns the numbers of eight bytes of a chain.
fn words_of(alloc: Global, bytes: &[u8]) -> Result<Vec<u64>, AllocError>
    ensures { IfOk result (λ words. words.items ≡ words_of bytes.now) }
{
    let mut words = Vec::new(alloc);
    let mut at = 0;
    let mut left = bytes.len() / 8;
    while left > 0 {
        words.push(word_at(bytes, at))?;
        at += 8;
        left -= 1;
    }
    Ok(words)
}

/// Returns the number of eight bytes at an offset of bytes that have it.
fn word_at(bytes: &[u8], at: usize) -> u64
    requires { at + 8 ≤ length bytes.now }
    ensures { result ≡ le8 bytes.now at }
{
    match read_u64(bytes, at) {
        Some((word, _)) => word,
        None => unreachable!(),
    }
}

/// Returns the addresses after a mark, up to the next one.
fn part_after(mark: u64, words: &[u64]) -> &[u64]
    ensures { result.now ≡ part_after mark words.entry.now }
{
    before_mark(words.get(place_of(mark, words) + 1..).unwrap_or(&[]))
}

/// Returns where a mark is among words, or how many there are.
fn place_of(mark: u64, words: &[u64]) -> usize
    ensures place { result ≡ position_or_len (λ word. word == mark) words.now }
    ensures within { result ≤ length words.now }
{
    words.iter().take_while(|word| **word != mark).count()
}

/// Returns the words before the first mark.
fn before_mark(words: &[u64]) -> &[u64]
    ensures { result.now ≡ before_mark words.entry.now }
{
    &words[..count_before_mark(words)]
}

/// Returns how many words are before the first mark.
fn count_before_mark(words: &[u64]) -> usize
    ensures count { result ≡ position_or_len (λ word. nat_le 0xfffffffffffff001 word) words.now }
    ensures within { result ≤ length words.now }
{
    words.iter().take_while(|word| **word < CONTEXT_MAX).count()
}
