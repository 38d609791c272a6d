//! Numbers printed in hexadecimal.
ghost use Rattle.std.specs.Prelude.{◌≡◌, ◌≤◌, ◌<◌, ◌++◌, OnOk, drop, string_bytes, false};
ghost use Rattle.std.specs.Fmt.{digit_glyph};
ghost use Rattle.framehop_walk.specs.Text.{hexadecimal as hexadecimal_text};

use std::alloc::AllocError;

const DIGITS: &[u8; 16] = b"0123456789abcdef";

/// Room for the digits of any number.
const MAX_DIGITS: usize = 64;

/// Appends a number in lower-case hexadecimal, without leading zeros.
pub(crate) fn print_hexadecimal(number: u64, out: &mut String) -> Result<(), AllocError>
    ensures { OnOk result (string_bytes out.new ≡ string_bytes out.old ++ hexadecimal_text number) }
{
    let mut text = [0; MAX_DIGITS];
    let start = write_digits(number, &mut text);
    out.push_str(str::from_utf8(&text[start..]).unwrap())
}

/// Writes the digits of a number at the end of `text`, and returns where they begin.
fn write_digits(number: u64, text: &mut [u8; MAX_DIGITS]) -> usize
    ensures bound { result ≤ 64 }
    ensures digits { drop result text.new ≡ hexadecimal_text number }
{
    let mut start = MAX_DIGITS;
    let mut rest = number;
    while start > 0 {
        start -= 1;
        text[start] = digit(rest % 16);
        rest /= 16;
        if rest == 0 {
            break;
        }
    }
    start
}

/// Returns the ASCII digit of a number below 16.
#[inline(always)]
fn digit(number: u64) -> u8
    requires { number < 16 }
    ensures { result ≡ digit_glyph false number }
{
    DIGITS[number as usize]
}
