//! Characters that are not seen, end a line, or turn the order in which it is read.
ghost use Rattle.std.specs.Prelude.{◌≡◌};
ghost use Rattle.framehop_frames.specs.Unseen.{is_between, is_unseen_point, ends_unseen, has_unseen_after};

/// Returns whether UTF-8 has such a character.
pub(crate) fn has_unseen(text: &[u8]) -> bool
    ensures { result ≡ has_unseen_after 0 0 text.now }
{
    let (mut first, mut second) = (0u8, 0u8);
    for third in text {
        if ends_unseen(first, second, *third) {
            return true;
        }
        first = second;
        second = *third;
    }
    false
}

/// Returns whether three bytes end with such a character: with the soft hyphen (C2 AD), U+FEFF (EF BB BF), or one of General
/// Punctuation.
fn ends_unseen(first: u8, second: u8, third: u8) -> bool
    ensures { result ≡ ends_unseen first second third }
{
    (second == 0xc2 && third == 0xad)
        || (first == 0xe2 && is_unseen_point(second, third))
        || (first == 0xef && second == 0xbb && third == 0xbf)
}

/// Returns whether these are the last bytes of U+200B to U+200F, U+2028 to U+202E, or U+2060 to U+206F.
fn is_unseen_point(second: u8, third: u8) -> bool
    ensures { result ≡ is_unseen_point second third }
{
    (second == 0x80 && (is_between(0x8b, 0x8f, third) || is_between(0xa8, 0xae, third)))
        || (second == 0x81 && is_between(0xa0, 0xaf, third))
}

/// Returns whether a byte is one of these two, or between them.
fn is_between(least: u8, greatest: u8, byte: u8) -> bool
    ensures { result ≡ is_between least greatest byte }
{
    least <= byte && byte <= greatest
}
