//! Files with other bytes.

/// Returns a file with other bytes at offsets.
pub(crate) fn changed<const N: usize>(file: &[u8; N], changes: &[(usize, u8)]) -> [u8; N] {
    let mut other = *file;
    for (offset, byte) in changes {
        if let Some(place) = other.get_mut(*offset) {
            *place = *byte;
        }
    }
    other
}
