//! Names of frames as text of an SVG.
ghost use Rattle.std.specs.Prelude.{◌≡◌, ◌≤◌, ◌++◌, IfOk, OnOk};
ghost use Rattle.std.specs.String.{string_bytes};
ghost use Rattle.framehop_folded.specs.FlameGraph.Names.{characters_of, is_unprintable, escaped_character, escaped, fitting, cut, hash_of, colour_of};

use std::alloc::{AllocError, Global};

/// Returns the characters of a name, with U+FFFD in the place of what is not UTF-8.
pub(crate) fn characters_of(alloc: Global, name: &[u8]) -> Result<Vec<char>, AllocError>
    ensures { IfOk result (λ characters. characters.items ≡ characters_of name.now) }
{
    let text = String::from_utf8_lossy(alloc, name)?;
    text.as_str().chars().collect(alloc)
}

/// Returns how many characters fit into a box of a width in hundredths of a pixel: each takes 7.25 pixels, and 3
/// are left free at either side.
pub fn fitting(width: u64) -> u64
    ensures { result ≡ fitting width }
{
    width.saturating_sub(600) / 725
}

/// Appends a name, of which at most `fit` characters fit, escaped.
pub(crate) fn push_cut(out: &mut String, characters: &[char], fit: usize) -> Result<(), AllocError>
    requires { 3 ≤ fit }
    ensures { OnOk result (string_bytes out.new ≡ string_bytes out.old ++ escaped (cut fit characters.now)) }
{
    if characters.len() <= fit {
        push_escaped(out, characters)
    } else {
        push_escaped(out, &characters[..fit - 2])?;
        out.push_str("..")?;
        Ok(())
    }
}

/// Appends characters, escaped.
pub(crate) fn push_escaped(out: &mut String, characters: &[char]) -> Result<(), AllocError>
    ensures { OnOk result (string_bytes out.new ≡ string_bytes out.old ++ escaped characters.now) }
{
    for character in characters {
        push_escaped_character(out, *character)?;
    }
    Ok(())
}

/// Appends a character, escaped.
fn push_escaped_character(out: &mut String, character: char) -> Result<(), AllocError>
    ensures { OnOk result (string_bytes out.new ≡ string_bytes out.old ++ escaped_character character) }
{
    match character {
        '&' => out.push_str("&amp;")?,
        '<' => out.push_str("&lt;")?,
        '>' => out.push_str("&gt;")?,
        '"' => out.push_str("&quot;")?,
        other if is_unprintable(other) => out.push('\u{fffd}')?,
        other => out.push(other)?,
    }
    Ok(())
}

/// Returns whether a character is a control character, or not allowed in XML 1.0.
fn is_unprintable(character: char) -> bool
    ensures { result ≡ is_unprintable character }
{
    character < ' ' || character == '\u{fffe}' || character == '\u{ffff}'
}

/// Appends the colour of a frame by its name.
#[tactic(auto, unfolding(crate::specs::FlameGraph::Names::colour_of))]
pub(crate) fn push_colour(alloc: Global, out: &mut String, name: &[u8]) -> Result<(), AllocError>
    ensures { OnOk result (string_bytes out.new ≡ string_bytes out.old ++ colour_of name.now) }
{
    let hash = hash_of(name);
    let (red, green, blue) = (205 + hash % 50, 80 + hash / 50 % 150, hash / 7500 % 55);
    let text = format!(in alloc; "rgb({red},{green},{blue})")?;
    out.push_str(text.as_str())?;
    Ok(())
}

/// Returns the FNV-1a hash of a name, at 32 bits.
fn hash_of(name: &[u8]) -> u32
    ensures { result ≡ hash_of name.now }
{
    let mut hash: u32 = 2_166_136_261;
    for byte in name {
        hash = (hash ^ u32::from(*byte)).wrapping_mul(16_777_619);
    }
    hash
}
