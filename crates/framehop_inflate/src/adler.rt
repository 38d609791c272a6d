//! Adler-32, the checksum of a zlib stream (RFC 1950 section 8.2).
ghost use Rattle.std.specs.Prelude.{◌≡◌, ◌+◌, ◌%◌, ◌<◌, ◌≤◌, length};
ghost use Rattle.framehop_inflate.specs.Adler.{adler, first_sum, second_sum};

/// How many bytes are summed up before both sums are reduced.
const PART: usize = 4096;

/// Returns the Adler-32 of the bytes.
#[tactic(auto, unfolding(crate::specs::Adler::adler))]
pub(crate) fn adler32(bytes: &[u8]) -> u32
    ensures { result ≡ adler bytes.now }
{
    let mut first = 1;
    let mut second = 0;
    let mut at = 0;
    while at < bytes.len() {
        let stop = at + (bytes.len() - at).min(PART);
        (first, second) = sums(bytes, at, stop, first, second);
        at = stop;
    }
    (second * 65536 + first) as u32
}

/// Returns both sums at `stop` modulo 65521, from those at an earlier byte.
fn sums(
    bytes: &[u8],
    start: usize,
    stop: usize,
    first_before: u64,
    second_before: u64,
) -> (u64, u64)
    requires order { start ≤ stop }
    requires few { stop ≤ start + 4096 }
    requires within { stop ≤ length bytes.now }
    requires first { first_before ≡ first_sum bytes.now start % 65521 }
    requires second { second_before ≡ second_sum bytes.now start % 65521 }
    ensures first { result.0 ≡ first_sum bytes.now stop % 65521 }
    ensures second { result.1 ≡ second_sum bytes.now stop % 65521 }
{
    let mut first = first_before;
    let mut second = second_before;
    for i in start..stop {
        first += u64::from(bytes[i]);
        second += first;
    }
    (first % 65521, second % 65521)
}
