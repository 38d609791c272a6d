//! A place in a table of starts, found by halving in place.
ghost use Rattle.std.specs.Prelude.{◌≡◌, ◌<◌, ◌≤◌, ◌^◌, ℕ, List, length, slice_index};
ghost use Rattle.framehop_bytes.specs.Place.{place_of, IsPlace, AreOrdered};

/// A table whose rows begin at addresses.
pub trait Starts {
    ghost starts: { Self → List ℕ };

    /// Returns how many rows there are: fewer than 2^63.
    fn count(&self) -> usize
        ensures count { result ≡ length (starts self.now) }
        ensures few { result < 2 ^ 63 };

    /// Returns where a row begins.
    fn start(&self, index: usize) -> u64
        requires { index < length (starts self.now) }
        ensures { result ≡ slice_index (starts self.now) index };
}

/// Returns the place of an address in a table: the last row that begins at or below it, or the first row
/// where none does. In a table that is not in order it is the place that halving reaches.
pub fn place<T: Starts>(table: &T, address: u64) -> usize
    requires { 0 < length (T.starts table.now) }
    ensures reached { result ≡ place_of (T.starts table.now) address }
    ensures law { IsPlace (T.starts table.now) address result }
    ensures last { AreOrdered (T.starts table.now) → (j : ℕ) → j < length (T.starts table.now) → slice_index (T.starts table.now) j ≤ address → j ≤ result }
{
    let mut low = 0;
    let mut size = table.count();
    // The number of turns depends on the count only, and no turn branches on what it reads: so a processor foresees
    // all branches. `size` is at most one more than `most`, and is rounded up where the upper half is taken.
    let mut most = size - 1;
    while most > 0 {
        let half = size / 2;
        let is_upper = table.start(low + half) <= address;
        if is_upper {
            low += half;
        }
        size = (size + usize::from(is_upper)) / 2;
        most /= 2;
    }
    low
}
