//! Instruction bytes of x86_64 (Intel 64 and IA-32 Architectures Software Developer's Manual,
//! volume 2): the register of `push` and `pop` is in the low three bits of the opcode, and in the
//! low bit of a REX prefix before it.
ghost use Rattle.std.specs.Prelude.{◌≡◌, ◌<◌, slice_get, length, OnSome};
ghost use Rattle.framehop_analysis.specs.X86_64.Bytes.{is_prefix, is_push, is_pop_opcode};

/// Returns the byte at an offset, if the slice has it.
#[inline]
pub(crate) fn byte_at(bytes: &[u8], at: usize) -> Option<u8>
    ensures value { result ≡ slice_get bytes.now at }
    ensures within { OnSome result (at < length bytes.now) }
{
    bytes.get(at).copied()
}

/// Returns whether the byte is one of the REX prefixes `40` and `41`, which `push` and `pop` can have.
#[inline]
pub(crate) fn is_prefix(byte: u8) -> bool
    ensures { result ≡ is_prefix byte }
{
    byte & 0xfe == 0x40
}

/// Returns whether the byte is the opcode of a `push` of a register.
#[inline]
pub(crate) fn is_push(byte: u8) -> bool
    ensures { result ≡ is_push byte }
{
    byte & 0xf8 == 0x50
}

/// Returns whether the byte is the opcode of a `pop` of a register.
#[inline]
pub(crate) fn is_pop_opcode(byte: u8) -> bool
    ensures { result ≡ is_pop_opcode byte }
{
    byte & 0xf8 == 0x58
}
