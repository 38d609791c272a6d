//! The operations of DWARF expressions that read memory (DWARF 5 section 2.5.1.3).
ghost use Rattle.std.specs.Prelude.{◌≡◌};
ghost use Rattle.framehop_callers.specs.Load.{width_of, width_at, load_at, low_part, loaded};

use crate::memory::WordMemory;
use framehop_cfi::numbers::read_u8;

/// The code of the operation that reads a word of eight bytes (DWARF 5 section 7.7.1).
const DW_OP_DEREF: u8 = 0x06;

/// The code of the operation that reads as many bytes as its operand says.
const DW_OP_DEREF_SIZE: u8 = 0x94;

/// How many bytes an operation reads.
#[derive(Clone, Copy, PartialEq, Eq)]
pub enum Width {
    One,
    Two,
    Four,
    Eight,
}

/// Reads the operation at an offset of an expression, if it is one that reads memory: how many bytes it reads, and the
/// offset after it. `None` for every other operation, and for one that the bytes don't hold whole.
#[tactic(auto, unfolding(crate::specs::Load::load_at))]
pub(crate) fn read_load(code: &[u8], at: usize) -> Option<(Width, usize)>
    ensures { result ≡ load_at code.now at }
{
    let Ok((operation, next)) = read_u8(code, at) else {
        return None;
    };
    match operation {
        DW_OP_DEREF => Some((Width::Eight, next)),
        DW_OP_DEREF_SIZE => read_width(code, next),
        _ => None,
    }
}

/// Reads the operand of `DW_OP_deref_size`, and the offset after it.
fn read_width(code: &[u8], at: usize) -> Option<(Width, usize)>
    ensures { result ≡ width_at code.now at }
{
    let Ok((size, next)) = read_u8(code, at) else {
        return None;
    };
    match width_of(size) {
        Some(width) => Some((width, next)),
        None => None,
    }
}

/// Returns the width of so many bytes.
fn width_of(size: u8) -> Option<Width>
    ensures { result ≡ width_of size }
{
    match size {
        1 => Some(Width::One),
        2 => Some(Width::Two),
        4 => Some(Width::Four),
        8 => Some(Width::Eight),
        _ => None,
    }
}

/// Returns the number of a width at an address (AVMA), if the word of eight bytes there can be read.
pub fn load<M: WordMemory>(memory: &M, width: Width, address: u64) -> Option<u64>
    ensures { result ≡ loaded (M.memory memory.now) width address }
{
    match memory.word(address) {
        Some(word) => Some(low_part(width, word)),
        None => None,
    }
}

/// Returns the number that the first bytes of a little-endian word are.
fn low_part(width: Width, word: u64) -> u64
    ensures { result ≡ low_part width word }
{
    match width {
        Width::One => word % 0x100,
        Width::Two => word % 0x1_0000,
        Width::Four => word % 0x1_0000_0000,
        Width::Eight => word,
    }
}
