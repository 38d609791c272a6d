//! Names that others gave, as they are printed.
ghost use Rattle.std.specs.Prelude.{◌≡◌, Some};
ghost use Rattle.std.specs.Fmt.{WritesOnOk};
ghost use Rattle.std.specs.List.{flat_map};
ghost use Rattle.framehop_cli.specs.Printed.{is_unseen, byte_text, character_text, printed_name};

use std::fmt;

/// How many bytes of a name are printed.
const LONGEST_NAME: usize = 2048;

/// A name that others gave, as of a file or of a function. Printed, each byte of a control character is `\xNN`, so that a
/// terminal takes none for a command, and so is each of a character that is not seen or turns the order of a line; of a name
/// of more than 2,048 bytes the rest is `...`.
#[derive(Clone, Copy)]
pub struct Printed<'a>(pub &'a str);

impl fmt::Display for Printed<'_> {
    ghost output = { λ name. Some (printed_name name.0.now) };

    fn fmt<W: fmt::Write>(&self, f: &mut fmt::Formatter<W>) -> fmt::Result {
        let mut left = LONGEST_NAME;
        for character in self.0.chars() {
            let size = character.len_utf8();
            if size > left {
                return f.write_str("...");
            }
            left -= size;
            print_character(character, f)?;
        }
        Ok(())
    }
}

/// Prints a character of a name.
fn print_character<W: fmt::Write>(character: char, f: &mut fmt::Formatter<W>) -> fmt::Result
    ensures { WritesOnOk W.write_str_gives f.old result (character_text character) f.new }
{
    if character.is_control() || is_unseen(character) {
        return print_bytes(character.encode_utf8(&mut [0; 4]).as_bytes(), f);
    }
    f.write_char(character)
}

/// Prints bytes, each as `\xNN`.
fn print_bytes<W: fmt::Write>(bytes: &[u8], f: &mut fmt::Formatter<W>) -> fmt::Result
    ensures { WritesOnOk W.write_str_gives f.old result (flat_map byte_text bytes.now) f.new }
{
    for byte in bytes {
        print_byte(*byte, f)?;
    }
    Ok(())
}

/// Prints a byte as `\xNN`.
fn print_byte<W: fmt::Write>(byte: u8, f: &mut fmt::Formatter<W>) -> fmt::Result
    ensures { WritesOnOk W.write_str_gives f.old result (byte_text byte) f.new }
{
    let (high, low) = (byte / 16, byte % 16);
    write!(f, "\\x{high:x}{low:x}")
}

/// Returns whether a character is not seen, ends a line or turns the order in which a line is read: of the characters of
/// Unicode's general categories Cf, Zl and Zp those of the blocks General Punctuation and Arabic Presentation Forms-B, and
/// the soft hyphen.
fn is_unseen(character: char) -> bool
    ensures { result ≡ is_unseen character }
{
    matches!(
        character,
        '\u{ad}' | '\u{200b}'..='\u{200f}' | '\u{2028}'..='\u{202e}' | '\u{2060}'..='\u{206f}' | '\u{feff}'
    )
}
