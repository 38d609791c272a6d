//! The lines of the report.
ghost use Rattle.std.specs.Prelude.{◌≡◌, ◌++◌, ◌-◌, ◌∷◌, [], OnOk, codes, option_map, string_bytes};
ghost use Rattle.std.specs.List.{flat_map};
ghost use Rattle.framehop_check_cli.specs.Text.{text_of, signed_text, owner_text, place_text, cfa_text, claim_text, claims_text, lost_text, overwritten_text, target_text, jumps_text, fault_text, size_or_one, byte_digits, before_text, alarm_text, note_text, offset_text, function_text, range_text, missing_text, count_text, share_text, parts_text, shares_text, counts_text, rows_text, others_text, summary_text};

use crate::findings::Others;
use crate::missing::Sizes;
use framehop_bytes::bytes::{back, front};
use framehop_check::missing::{Range, share};
use framehop_check::report::{Alarm, Counts};
use framehop_check::tracked::Fault;
use framehop_cli::Printed;
use framehop_code::effect::{Base, Code};
use std::alloc::AllocError;

/// Appends the line of an alarm in a function whose FDE begins at an address (SVMA).
#[tactic(auto, unfolding(crate::specs::Text::alarm_text))]
pub fn push_alarm<C: Code>(
    name: Option<(&str, u64)>,
    start: u64,
    code: &[u8],
    alarm: Alarm,
    out: &mut String,
) -> Result<(), AllocError>
    ensures { OnOk result (string_bytes out.new ≡ string_bytes out.old
        ++ alarm_text C.named C.instruction (option_map (λ n. (n.0.now, n.1)) name.entry) start code.now alarm) }
{
    push_place(name, start, alarm.address, out)?;
    push_fault::<C>(alarm.fault, out)?;
    push_before::<C>(start, code, alarm.before, out)
}

/// Appends what contradicts what.
fn push_fault<C: Code>(fault: Fault, out: &mut String) -> Result<(), AllocError>
    ensures { OnOk result (string_bytes out.new ≡ string_bytes out.old ++ fault_text C.named fault) }
{
    match fault {
        Fault::Differs { base, row, code } => push_claims::<C>("row: ", base, row, code, out),
        Fault::Overwritten { base, row } => push_overwritten::<C>(base, row, out),
        Fault::Returns { code } => push_claim::<C>("returns where ", Base::Sp, code, out),
        Fault::Jumps {
            target,
            base,
            row,
            code,
        } => push_jumps::<C>(target, base, row, code, out),
    }
}

/// Appends what a row and the code say of the CFA, after words for the row.
#[tactic(auto, unfolding(crate::specs::Text::claims_text))]
fn push_claims<C: Code>(
    words: &str,
    base: Base,
    row: i64,
    code: i64,
    out: &mut String,
) -> Result<(), AllocError>
    ensures { OnOk result (string_bytes out.new ≡ string_bytes out.old ++ claims_text words.now (C.named base) row code) }
{
    push_claim::<C>(words, base, row, out)?;
    push_claim::<C>(", code: ", base, code, out)
}

/// Appends words, and then how many bytes above a register the CFA is.
#[tactic(auto, unfolding(crate::specs::Text::claim_text))]
fn push_claim<C: Code>(
    words: &str,
    base: Base,
    offset: i64,
    out: &mut String,
) -> Result<(), AllocError>
    ensures { OnOk result (string_bytes out.new ≡ string_bytes out.old ++ claim_text words.now (C.named base) offset) }
{
    out.push_str(words)?;
    push_cfa::<C>(base, offset, out)
}

/// Appends that a register is overwritten from which a row counts.
#[tactic(auto, unfolding(crate::specs::Text::overwritten_text))]
fn push_overwritten<C: Code>(base: Base, row: i64, out: &mut String) -> Result<(), AllocError>
    ensures { OnOk result (string_bytes out.new ≡ string_bytes out.old ++ overwritten_text (C.named base) row) }
{
    push_claim::<C>("row: ", base, row, out)?;
    push_lost::<C>(base, out)
}

/// Appends that the code overwrites a register.
#[tactic(auto, unfolding(crate::specs::Text::lost_text))]
fn push_lost<C: Code>(base: Base, out: &mut String) -> Result<(), AllocError>
    ensures { OnOk result (string_bytes out.new ≡ string_bytes out.old ++ lost_text (C.named base)) }
{
    let name = C::name_of(base);
    write!(out, ", code: {name} is overwritten")
}

/// Appends that an instruction jumps to an address (SVMA) whose row differs.
#[tactic(auto, unfolding(crate::specs::Text::jumps_text))]
fn push_jumps<C: Code>(
    target: u64,
    base: Base,
    row: i64,
    code: i64,
    out: &mut String,
) -> Result<(), AllocError>
    ensures { OnOk result (string_bytes out.new ≡ string_bytes out.old ++ jumps_text (C.named base) target row code) }
{
    push_target(target, out)?;
    push_claims::<C>("row there: ", base, row, code, out)
}

/// Appends where an instruction jumps to (SVMA).
#[tactic(auto, unfolding(crate::specs::Text::target_text))]
fn push_target(target: u64, out: &mut String) -> Result<(), AllocError>
    ensures { OnOk result (string_bytes out.new ≡ string_bytes out.old ++ target_text target) }
{
    write!(out, "jumps to 0x{target:x}, ")
}

/// Appends the CFA, so many bytes above a register.
#[tactic(auto, unfolding(crate::specs::Text::cfa_text))]
fn push_cfa<C: Code>(base: Base, offset: i64, out: &mut String) -> Result<(), AllocError>
    ensures { OnOk result (string_bytes out.new ≡ string_bytes out.old ++ cfa_text (C.named base) offset) }
{
    out.push_str("CFA = ")?;
    out.push_str(C::name_of(base))?;
    push_signed(offset, out)
}

/// Appends a number of bytes with its sign.
#[tactic(auto, unfolding(crate::specs::Text::signed_text))]
fn push_signed(number: i64, out: &mut String) -> Result<(), AllocError>
    ensures { OnOk result (string_bytes out.new ≡ string_bytes out.old ++ signed_text number) }
{
    let bytes = number.unsigned_abs();
    if number < 0 {
        write!(out, "-{bytes}")
    } else {
        write!(out, "+{bytes}")
    }
}

/// Ends a line with the address (SVMA) and the bytes of the instruction that an alarm follows, in a function that begins at an
/// address.
#[tactic(auto, unfolding(crate::specs::Text::before_text))]
fn push_before<C: Code>(
    start: u64,
    code: &[u8],
    before: u64,
    out: &mut String,
) -> Result<(), AllocError>
    ensures { OnOk result (string_bytes out.new ≡ string_bytes out.old ++ before_text C.instruction start code.now before) }
{
    write!(out, "; after 0x{before:x}: ")?;
    let at = before.saturating_sub(start) as usize;
    let size = size_at::<C>(code, at);
    push_bytes(front(back(code, at as u64), size), out)?;
    out.push_str("\n")
}

/// Returns how many bytes the instruction at an offset of code has, or 1 where none is recognised.
fn size_at<C: Code>(code: &[u8], at: usize) -> usize
    ensures { result ≡ size_or_one (C.instruction code.now at) }
{
    match C::effect_at(code, at) {
        Some(effect) => effect.size,
        None => 1,
    }
}

/// Appends bytes in hexadecimal.
fn push_bytes(bytes: &[u8], out: &mut String) -> Result<(), AllocError>
    ensures { OnOk result (string_bytes out.new ≡ string_bytes out.old ++ flat_map byte_digits bytes.now) }
{
    for byte in bytes {
        push_byte(*byte, out)?;
    }
    Ok(())
}

/// Appends a byte in hexadecimal.
fn push_byte(byte: u8, out: &mut String) -> Result<(), AllocError>
    ensures { OnOk result (string_bytes out.new ≡ string_bytes out.old ++ byte_digits byte) }
{
    let (high, low) = (byte / 16, byte % 16);
    write!(out, "{high:x}{low:x}")
}

/// Appends the line of a note: another row begins inside the instruction.
#[tactic(auto, unfolding(crate::specs::Text::note_text))]
pub fn push_note(
    name: Option<(&str, u64)>,
    start: u64,
    address: u64,
    out: &mut String,
) -> Result<(), AllocError>
    ensures { OnOk result (string_bytes out.new ≡ string_bytes out.old
        ++ note_text (option_map (λ n. (n.0.now, n.1)) name.entry) start address) }
{
    push_place(name, start, address, out)?;
    writeln!(out, "note: another row begins inside this instruction")
}

/// Appends an address (SVMA) with the function that it is in.
#[tactic(auto, unfolding(crate::specs::Text::place_text))]
fn push_place(
    name: Option<(&str, u64)>,
    start: u64,
    address: u64,
    out: &mut String,
) -> Result<(), AllocError>
    ensures { OnOk result (string_bytes out.new ≡ string_bytes out.old
        ++ place_text (option_map (λ n. (n.0.now, n.1)) name.entry) start address) }
{
    write!(out, "0x{address:x} ")?;
    push_owner(name, start, address, out)
}

/// Appends the function that an address is in, by its name and where that begins, or by where its FDE begins.
fn push_owner(
    name: Option<(&str, u64)>,
    start: u64,
    address: u64,
    out: &mut String,
) -> Result<(), AllocError>
    ensures { OnOk result (string_bytes out.new ≡ string_bytes out.old
        ++ owner_text (option_map (λ n. (n.0.now, n.1)) name.entry) start address) }
{
    match name {
        Some((name, begin)) => {
            let distance = address.wrapping_sub(begin);
            write!(out, "{}+0x{distance:x}: ", Printed(name))
        }
        None => {
            let distance = address.wrapping_sub(start);
            write!(out, "0x{start:x}+0x{distance:x}: ")
        }
    }
}

/// Appends the line of a range of code that no FDE covers: its addresses, its size, and the function that it begins in.
#[tactic(auto, unfolding(crate::specs::Text::missing_text))]
pub fn push_missing(
    name: Option<(&str, u64)>,
    range: Range,
    out: &mut String,
) -> Result<(), AllocError>
    ensures { OnOk result (string_bytes out.new ≡ string_bytes out.old
        ++ missing_text (option_map (λ n. (n.0.now, n.1)) name.entry) range) }
{
    push_range(range, out)?;
    push_function(name, range.start, out)?;
    out.push_str("\n")
}

/// Appends a range of addresses and its size.
#[tactic(auto, unfolding(crate::specs::Text::range_text))]
fn push_range(range: Range, out: &mut String) -> Result<(), AllocError>
    ensures { OnOk result (string_bytes out.new ≡ string_bytes out.old ++ range_text range) }
{
    let (start, end, size) = (range.start, range.end, range.size());
    write!(out, "0x{start:x}-0x{end:x} {size}")
}

/// Appends the function that an address is in, if it has a name.
#[tactic(auto, unfolding(crate::specs::Text::function_text))]
fn push_function(
    name: Option<(&str, u64)>,
    address: u64,
    out: &mut String,
) -> Result<(), AllocError>
    ensures { OnOk result (string_bytes out.new ≡ string_bytes out.old
        ++ function_text (option_map (λ n. (n.0.now, n.1)) name.entry) address) }
{
    let Some((name, begin)) = name else {
        return Ok(());
    };
    write!(out, " {}", Printed(name))?;
    push_offset(address.wrapping_sub(begin), out)
}

/// Appends how far an address is from the start of its function, where it is not the start.
fn push_offset(offset: u64, out: &mut String) -> Result<(), AllocError>
    ensures { OnOk result (string_bytes out.new ≡ string_bytes out.old ++ offset_text offset) }
{
    if offset == 0 {
        return Ok(());
    }
    write!(out, "+0x{offset:x}")
}

/// Appends how much of a file's code has rows, has none, and is padding.
#[tactic(auto, unfolding(crate::specs::Text::shares_text))]
pub fn push_shares(path: &str, sizes: Sizes, out: &mut String) -> Result<(), AllocError>
    ensures { OnOk result (string_bytes out.new ≡ string_bytes out.old ++ shares_text path.now sizes) }
{
    let code = sizes.code;
    write!(out, "{}: {code} bytes of code, ", Printed(path))?;
    push_parts(sizes, out)?;
    push_unreadable(sizes.unreadable, out)
}

/// Appends how much of the code has rows, has none, and is padding.
#[tactic(auto, unfolding(crate::specs::Text::parts_text))]
fn push_parts(sizes: Sizes, out: &mut String) -> Result<(), AllocError>
    ensures { OnOk result (string_bytes out.new ≡ string_bytes out.old ++ parts_text sizes) }
{
    let covered = sizes.code.saturating_sub(sizes.missing);
    push_share(covered, sizes.code, "with rows", out)?;
    out.push_str(", ")?;
    push_uncovered(sizes, out)
}

/// Appends how much of the code has no rows, and is padding.
fn push_uncovered(sizes: Sizes, out: &mut String) -> Result<(), AllocError>
    ensures { OnOk result (string_bytes out.new ≡ string_bytes out.old
        ++ text_of (share_text sizes.listed sizes.code (codes "without") ∷ codes ", "
        ∷ share_text (sizes.missing - sizes.listed) sizes.code (codes "of padding") ∷ [])) }
{
    push_share(sizes.listed, sizes.code, "without", out)?;
    out.push_str(", ")?;
    let padding = sizes.missing.saturating_sub(sizes.listed);
    push_share(padding, sizes.code, "of padding", out)
}

/// Ends a line with the count of entries that can't be read.
fn push_unreadable(count: u64, out: &mut String) -> Result<(), AllocError>
    ensures { OnOk result (string_bytes out.new ≡ string_bytes out.old
        ++ (count_text count (codes "entries unreadable") ++ 10 ∷ [])) }
{
    push_count(count, "entries unreadable", out)?;
    out.push_str("\n")
}

/// Appends a part of the code, in bytes and in percent.
#[tactic(auto, unfolding(crate::specs::Text::share_text))]
fn push_share(part: u64, code: u64, what: &str, out: &mut String) -> Result<(), AllocError>
    ensures { OnOk result (string_bytes out.new ≡ string_bytes out.old ++ share_text part code what.now) }
{
    let tenths = share(part, code);
    let (percent, rest) = (tenths / 10, tenths % 10);
    write!(out, "{part} {what} ({percent}.{rest} %)")
}

/// Appends the summary of a file.
#[tactic(auto, unfolding(crate::specs::Text::summary_text))]
pub fn push_summary(
    path: &str,
    counts: Counts,
    others: Others,
    out: &mut String,
) -> Result<(), AllocError>
    ensures { OnOk result (string_bytes out.new ≡ string_bytes out.old ++ summary_text path.now counts others) }
{
    push_checked(path, counts, out)?;
    push_others(others, out)?;
    out.push_str("\n")
}

/// Appends what was checked.
fn push_checked(path: &str, counts: Counts, out: &mut String) -> Result<(), AllocError>
    ensures { OnOk result (string_bytes out.new ≡ string_bytes out.old ++ (counts_text path.now counts ++ rows_text counts)) }
{
    push_counts(path, counts, out)?;
    push_rows(counts, out)
}

/// Appends how many functions and instructions were checked.
#[tactic(auto, unfolding(crate::specs::Text::counts_text))]
fn push_counts(path: &str, counts: Counts, out: &mut String) -> Result<(), AllocError>
    ensures { OnOk result (string_bytes out.new ≡ string_bytes out.old ++ counts_text path.now counts) }
{
    let (functions, unread, instructions) = (counts.functions, counts.unread, counts.instructions);
    write!(
        out,
        "{}: {functions} functions, {unread} not wholly read, {instructions} instructions, ",
        Printed(path)
    )
}

/// Appends how many rows and jumps were checked.
#[tactic(auto, unfolding(crate::specs::Text::rows_text))]
fn push_rows(counts: Counts, out: &mut String) -> Result<(), AllocError>
    ensures { OnOk result (string_bytes out.new ≡ string_bytes out.old ++ rows_text counts) }
{
    let (checked, believed, jumps) = (counts.checked, counts.believed, counts.jumps);
    let (calls, alarmed) = (counts.calls, counts.alarmed);
    write!(
        out,
        "{checked} rows checked, {believed} believed, {jumps} jumps checked, {calls} rows changed after calls, {alarmed} functions with alarms"
    )
}

/// Appends what was not checked, and how many alarms are allowed.
#[tactic(auto, unfolding(crate::specs::Text::others_text))]
fn push_others(others: Others, out: &mut String) -> Result<(), AllocError>
    ensures { OnOk result (string_bytes out.new ≡ string_bytes out.old ++ others_text others) }
{
    push_allowed(others, out)?;
    push_unchecked(others, out)
}

/// Appends how many functions with alarms are allowed to have them, and how many entries can't be read.
fn push_allowed(others: Others, out: &mut String) -> Result<(), AllocError>
    ensures { OnOk result (string_bytes out.new ≡ string_bytes out.old
        ++ (count_text others.allowed (codes "of them allowed") ++ count_text others.unreadable (codes "entries unreadable"))) }
{
    push_count(others.allowed, "of them allowed", out)?;
    push_count(others.unreadable, "entries unreadable", out)
}

/// Appends how many functions were not checked.
fn push_unchecked(others: Others, out: &mut String) -> Result<(), AllocError>
    ensures { OnOk result (string_bytes out.new ≡ string_bytes out.old
        ++ (count_text others.without_code (codes "functions without code")
        ++ count_text others.sharing (codes "functions not checked, as they share code or a CIE with too many"))) }
{
    push_count(others.without_code, "functions without code", out)?;
    push_count(
        others.sharing,
        "functions not checked, as they share code or a CIE with too many",
        out,
    )
}

/// Appends a count, where there is something to count.
#[tactic(auto, unfolding(crate::specs::Text::count_text))]
fn push_count(count: u64, what: &str, out: &mut String) -> Result<(), AllocError>
    ensures { OnOk result (string_bytes out.new ≡ string_bytes out.old ++ count_text count what.now) }
{
    if count == 0 {
        return Ok(());
    }
    write!(out, ", {count} {what}")
}
