//! Numbers printed in hexadecimal.
use std::fmt;
use std::fmt::LowerHex;

/// A number whose `Debug` prints it in lower-case hexadecimal, without a prefix.
#[derive(Drop)]
pub struct HexNum<N: LowerHex>(pub N);

impl<N: LowerHex> fmt::Debug for HexNum<N> {
    fn fmt<W: fmt::Write>(&self, f: &mut fmt::Formatter<W>) -> fmt::Result {
        LowerHex::fmt(&self.0, f)
    }
}
