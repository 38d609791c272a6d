//! Numbers for lists of registers, so that a rule can name the registers that it pops.
// Numbers for the orders in which registers are popped: an unwind rule keeps a count and a number
// in place of a list of registers.
ghost use Rattle.std.specs.Prelude.{◌≡◌, ◌+◌, ◌<◌, ◌↔◌, length, IsSome, IfSome, MatchOption, slice_index_or, swap, All, ◌≢◌};
ghost use Rattle.framehop_core.specs.X86_64.Ordering.{ordering, is_ordering, IsArrangement, IsEncoding};

use super::unwindregs::Reg;
use arrayvec::ArrayVec;

const ENCODE_REGISTERS: [Reg; 8] = [
    Reg::RBX,
    Reg::RBP,
    Reg::RDI,
    Reg::RSI,
    Reg::R12,
    Reg::R13,
    Reg::R14,
    Reg::R15,
];

/// Returns whether `decode` may be asked for the ordering of this many registers with this number: the
/// count is at most 8, and the number below 40320.
pub fn is_ordering(count: u8, encoded_ordering: u16) -> bool
    ensures { result ≡ is_ordering count encoded_ordering }
{
    count <= 8 && encoded_ordering < 40320
}

/// Returns the ordering of this many registers that has this number. A count above 8 counts as 8.
pub fn decode(count: u8, encoded_ordering: u16) -> ArrayVec<Reg, 8>
    ensures { result.items ≡ ordering count encoded_ordering }
{
    let mut registers = ENCODE_REGISTERS;
    let mut rest = encoded_ordering;
    for place in 0..8 {
        if rest == 0 {
            break;
        }
        let radix = 8 - place as u16;
        exchange(&mut registers, place, usize::from(rest % radix));
        rest /= radix;
    }
    let mut registers = ArrayVec::from(registers);
    registers.truncate(usize::from(count));
    registers
}

/// Returns the number of registers and the least number of their ordering, or `None` where a register
/// is in the list twice, or is not one of the eight that can be ordered.
pub fn encode(registers: &[Reg]) -> Option<(u8, u16)>
    ensures exact { IsSome result ↔ IsArrangement registers.now }
    ensures encoding { IfSome result (λ p. IsEncoding registers.now p.0 p.1) }
{
    if registers.len() > ENCODE_REGISTERS.len() {
        return None;
    }
    let mut order = ENCODE_REGISTERS;
    let mut encoded: u16 = 0;
    let mut scale: u16 = 1;
    for (place, register) in registers.iter().enumerate() {
        let digit = position_of(&order[place..], *register)?;
        exchange(&mut order, place, digit);
        encoded += digit as u16 * scale;
        scale *= 8 - place as u16;
    }
    Some((registers.len() as u8, encoded))
}

/// Exchanges the register at a place with the one a digit after it.
#[inline(always)]
fn exchange(registers: &mut [Reg], place: usize, digit: usize)
    requires { place + digit < length registers.old }
    ensures { registers.new ≡ swap registers.old place (place + digit) }
{
    if digit != 0 {
        registers.swap(place, place + digit);
    }
}

/// Returns the first place of a register in a list.
fn position_of(registers: &[Reg], register: Reg) -> Option<usize>
    ensures { MatchOption result (All (λ r. r ≢ register) registers.now)
        (λ place. (place < length registers.now)
        × (slice_index_or registers.now place register ≡ register)) }
{
    for (place, at_place) in registers.iter().enumerate() {
        if *at_place == register {
            return Some(place);
        }
    }
    None
}
