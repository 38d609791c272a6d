//! Stacks as text.
//!
//! A frame is named by the nearest symbol at or before its address, as debuggers do, and otherwise by its place in
//! the file.
ghost use Rattle.std.specs.Prelude.{◌≡◌, ◌<◌, ◌++◌, ◌∷◌, [], map, OnOk, IfOk, codes, string_bytes, true, ◌||◌, if◌then◌else◌};
ghost use Rattle.std.specs.List.{flat_map, list_any};
ghost use Rattle.framehop_explain.specs.Note.{has_c1_after};
ghost use Rattle.framehop_processes.specs.Mappings.{IsInOrder};
ghost use Rattle.framehop_processes.specs.Place.{place_view};
ghost use Rattle.framehop_frames.specs.Stack.{shown_frame};
ghost use Rattle.framehop_frames.specs.Unseen.{has_unseen_after};
ghost use Rattle.framehop_frames.specs.Line.{is_text, hex_digit, is_changed, is_escaped, printed_byte, printed, plain, base_name, hexadecimal, label_of, unnamed_text, refusal_name, end_name, is_sure_by, is_guess, has_guess, part_of, address_of_end, end_text, mark, mark_of, frames_text, frame_label, described, found_text, trampoline_text, frame_line, last_line, time_text, head_of};

use crate::place::frame_place;
use crate::stack::StackFrame;
use crate::unseen::has_unseen;
use framehop::Error;
use framehop_backtrace::{BacktraceEnd, FoundBy};
use framehop_bytes::bytes::front;
use framehop_explain::note::has_c1;
use framehop_processes::Mapping;
use framehop_processes::files::Files;
use framehop_processes::place::{Place, place_of};
use std::alloc::{AllocError, Global};

/// How many bytes of a name are printed.
const LONGEST_NAME: usize = 2048;

/// Returns a name as it is printed.
pub fn printed_name(alloc: Global, name: &[u8]) -> Result<Vec<u8>, AllocError>
    ensures { IfOk result (λ printed. printed.items ≡ plain name.now) }
{
    let mut printed = Vec::new(alloc);
    push_name(&mut printed, name)?;
    Ok(printed)
}

/// Returns the frames of a folded stack: all, or those before the first that is not sure.
pub fn part_of<R: Copy>(frames: &[StackFrame<R>], sure: bool) -> &[StackFrame<R>]
    ensures { map shown_frame result.now ≡ part_of sure (map shown_frame frames.entry.now) }
{
    if sure {
        return sure_part(frames);
    }
    frames
}

/// Returns the frames before the first that is not sure.
pub fn sure_part<R: Copy>(frames: &[StackFrame<R>]) -> &[StackFrame<R>]
    ensures { map shown_frame result.now ≡ part_of true (map shown_frame frames.entry.now) }
{
    let mut count = 0;
    for frame in frames {
        if !is_sure(frame.found) {
            return &frames[..count];
        }
        count += 1;
    }
    frames
}

/// Returns whether unwind data tells a frame, or it is the first.
fn is_sure(found: FoundBy) -> bool
    ensures { result ≡ is_sure_by found }
{
    match found {
        FoundBy::First | FoundBy::Cfi | FoundBy::Signal => true,
        FoundBy::Run | FoundBy::FramePointer | FoundBy::Guess => false,
    }
}

/// Returns whether one of frames was found by a guess.
pub fn has_guess<R: Copy>(frames: &[StackFrame<R>]) -> bool
    ensures { result ≡ has_guess (map shown_frame frames.now) }
{
    for frame in frames {
        if is_guess(frame) {
            return true;
        }
    }
    false
}

/// Returns whether a frame is a guess.
fn is_guess<R: Copy>(frame: &StackFrame<R>) -> bool
    ensures { result ≡ is_guess (shown_frame frame.now) }
{
    match frame.found {
        FoundBy::Guess => true,
        FoundBy::First | FoundBy::Cfi | FoundBy::Signal | FoundBy::Run | FoundBy::FramePointer =>
            false,
    }
}

/// Appends the mark of a walk that did not reach the root.
pub fn push_end(line: &mut Vec<u8>, end: BacktraceEnd) -> Result<(), AllocError>
    ensures { OnOk result (line.new.items ≡ line.old.items ++ mark_of end) }
{
    match end {
        BacktraceEnd::Root => Ok(()),
        end => push_mark(line, end_name(end)),
    }
}

/// Appends the frames of a stack from the outermost on, each after a `;`.
pub fn push_frames<R: Copy>(
    alloc: Global,
    line: &mut Vec<u8>,
    files: &Files<'_>,
    mappings: &[Mapping],
    frames: &[StackFrame<R>],
) -> Result<(), AllocError>
    requires { IsInOrder 0 mappings.now }
    ensures { OnOk result (line.new.items ≡ line.old.items
        ++ frames_text (frame_label files.now mappings.now) (map shown_frame frames.now)) }
{
    for frame in frames.iter().rev() {
        line.push(b';')?;
        push_frame(alloc, line, files, mappings, frame)?;
    }
    Ok(())
}

/// Appends what a frame is called, by mappings in order.
fn push_frame<R: Copy>(
    alloc: Global,
    line: &mut Vec<u8>,
    files: &Files<'_>,
    mappings: &[Mapping],
    frame: &StackFrame<R>,
) -> Result<(), AllocError>
    requires { IsInOrder 0 mappings.now }
    ensures { OnOk result (line.new.items ≡ line.old.items ++ frame_label files.now mappings.now (shown_frame frame.now)) }
{
    if frame.is_trampoline {
        line.extend_from_slice(b"<signal handler called>")?;
        return Ok(());
    }
    let place = place_of(files, mappings, frame.address.address_for_lookup());
    push_label(alloc, line, place)
}

/// Appends what a place is called.
#[tactic(auto, unfolding(crate::specs::Line::label_of))]
fn push_label(alloc: Global, line: &mut Vec<u8>, place: Place<'_>) -> Result<(), AllocError>
    ensures { OnOk result (line.new.items ≡ line.old.items ++ label_of (place_view place.entry)) }
{
    match place {
        Place::Function { name, .. } => push_name(line, name)?,
        Place::Unnamed { file, start, .. } => {
            push_name(line, base_name(file))?;
            push_offset(alloc, line, start)?;
        }
        Place::File { file, address } => {
            push_name(line, base_name(file))?;
            push_offset(alloc, line, address)?;
        }
        Place::Unmapped => line.extend_from_slice(b"[unknown]")?,
    }
    Ok(())
}

/// Returns a file's name without its folders.
fn base_name(path: &[u8]) -> &[u8]
    ensures { result.now ≡ base_name path.entry.now }
{
    let mut start = 0;
    for (at, byte) in path.iter().enumerate() {
        if *byte == b'/' {
            start = at + 1;
        }
    }
    &path[start..]
}

/// Appends a mark after a `;`.
pub fn push_mark(line: &mut Vec<u8>, name: &str) -> Result<(), AllocError>
    ensures { OnOk result (line.new.items ≡ line.old.items ++ mark name.now) }
{
    line.extend_from_slice(b";[")?;
    line.extend_from_slice(name.as_bytes())?;
    line.extend_from_slice(b"]")?;
    Ok(())
}

/// Appends the lines of a stack's frames, the innermost first, by mappings in order.
pub fn push_frame_lines<R: Copy>(
    alloc: Global,
    block: &mut Vec<u8>,
    files: &Files<'_>,
    mappings: &[Mapping],
    frames: &[StackFrame<R>],
) -> Result<(), AllocError>
    requires { IsInOrder 0 mappings.now }
    ensures { OnOk result (block.new.items ≡ block.old.items
        ++ flat_map (frame_line files.now mappings.now) (map shown_frame frames.now)) }
{
    for frame in frames {
        push_frame_line(alloc, block, files, mappings, frame)?;
    }
    Ok(())
}

/// Appends the line of a frame in a block, by mappings in order.
#[tactic(auto, unfolding(crate::specs::Line::frame_line))]
pub(crate) fn push_frame_line<R: Copy>(
    alloc: Global,
    block: &mut Vec<u8>,
    files: &Files<'_>,
    mappings: &[Mapping],
    frame: &StackFrame<R>,
) -> Result<(), AllocError>
    requires { IsInOrder 0 mappings.now }
    ensures { OnOk result (block.new.items ≡ block.old.items ++ frame_line files.now mappings.now (shown_frame frame.now)) }
{
    let address = frame.address.address();
    let text = format!(in alloc; "{address:x} ")?;
    block.extend_from_slice(text.as_bytes())?;
    push_trampoline(block, frame.is_trampoline)?;
    let place = frame_place(files, mappings, frame);
    push_place(alloc, block, place)?;
    block.extend_from_slice(found_text(frame.found).as_bytes())?;
    block.push(b'\n')?;
    Ok(())
}

/// Appends that a frame is in a trampoline, if it is.
fn push_trampoline(block: &mut Vec<u8>, is_trampoline: bool) -> Result<(), AllocError>
    ensures { OnOk result (block.new.items ≡ block.old.items ++ trampoline_text is_trampoline) }
{
    if is_trampoline {
        block.extend_from_slice(b"<signal handler called> ")?;
    }
    Ok(())
}

/// Appends where a place is.
#[tactic(auto, unfolding(crate::specs::Line::described))]
fn push_place(alloc: Global, line: &mut Vec<u8>, place: Place<'_>) -> Result<(), AllocError>
    ensures { OnOk result (line.new.items ≡ line.old.items ++ described (place_view place.entry)) }
{
    match place {
        Place::Function { file, name, offset } => {
            push_name(line, name)?;
            push_offset(alloc, line, offset)?;
            line.extend_from_slice(b" (")?;
            push_name(line, file)?;
            line.extend_from_slice(b")")?;
        }
        Place::Unnamed { file, address, .. } => push_unnamed(alloc, line, file, address)?,
        Place::File { file, address } => push_unnamed(alloc, line, file, address)?,
        Place::Unmapped => line.extend_from_slice(b"[unknown] ([unknown])")?,
    }
    Ok(())
}

/// Appends where an address of a file is that is in no function with a name.
fn push_unnamed(
    alloc: Global,
    line: &mut Vec<u8>,
    file: &[u8],
    address: u64,
) -> Result<(), AllocError>
    ensures { OnOk result (line.new.items ≡ line.old.items ++ unnamed_text file.now address) }
{
    line.extend_from_slice(b"[unknown] (")?;
    push_name(line, file)?;
    push_offset(alloc, line, address)?;
    line.extend_from_slice(b")")?;
    Ok(())
}

/// Appends an offset or an address after a plus sign.
fn push_offset(alloc: Global, line: &mut Vec<u8>, offset: u64) -> Result<(), AllocError>
    ensures { OnOk result (line.new.items ≡ line.old.items ++ codes "+0x" ++ hexadecimal offset) }
{
    let text = format!(in alloc; "+0x{offset:x}")?;
    line.extend_from_slice(text.as_bytes())?;
    Ok(())
}

/// Returns what is said of how a frame was found.
fn found_text(found: FoundBy) -> &'static str
    ensures { result.now ≡ found_text found }
{
    match found {
        FoundBy::First => "",
        FoundBy::Cfi => " [cfi]",
        FoundBy::Signal => " [signal]",
        FoundBy::Run => " [code]",
        FoundBy::FramePointer => " [frame-pointer]",
        FoundBy::Guess => " [guess]",
    }
}

/// Returns what the end of a walk is called, with its address, if it has one.
pub fn end_text(alloc: Global, end: BacktraceEnd) -> Result<Vec<u8>, AllocError>
    ensures { IfOk result (λ text. text.items ≡ end_text end) }
{
    let mut text = Vec::from_slice(alloc, end_name(end).as_bytes())?;
    if let Some(address) = address_of_end(end) {
        let address = format!(in alloc; " {address:x}")?;
        text.extend_from_slice(address.as_bytes())?;
    }
    Ok(text)
}

/// Returns the address (AVMA) at which a walk ended: that of a word which can't be read, or the one that lies in no code.
pub fn address_of_end(end: BacktraceEnd) -> Option<u64>
    ensures { result ≡ address_of_end end }
{
    match end {
        BacktraceEnd::Refused(Error::CouldNotReadStack(address)) | BacktraceEnd::NotCode(address) =>
            Some(address),
        _ => None,
    }
}

/// Returns what the end of a walk is called.
pub fn end_name(end: BacktraceEnd) -> &'static str
    ensures { result.now ≡ end_name end }
{
    match end {
        BacktraceEnd::Root => "root",
        BacktraceEnd::FramePointerZero => "frame-pointer-0",
        BacktraceEnd::Limit => "limit",
        BacktraceEnd::SignalFrameUnread => "signal-frame-unread",
        BacktraceEnd::CfaUnknown => "cfa-unknown",
        BacktraceEnd::ReturnAddressUnknown => "return-address-unknown",
        BacktraceEnd::DidNotAdvance => "did-not-advance",
        BacktraceEnd::RegistersUnknown => "registers-unknown",
        BacktraceEnd::Refused(error) => refusal_name(error),
        BacktraceEnd::NoCaller => "no-caller",
        BacktraceEnd::NotCode(_) => "not-code",
    }
}

/// Returns what a refusal is called.
fn refusal_name(error: Error) -> &'static str
    ensures { result.now ≡ refusal_name error }
{
    match error {
        Error::CouldNotReadStack(_) => "cannot-access-memory",
        Error::FramepointerUnwindingMovedBackwards => "moved-backwards",
        Error::DidNotAdvance => "did-not-advance",
        Error::IntegerOverflow => "integer-overflow",
        Error::ReturnAddressIsNull => "null-return-address",
        Error::OutOfMemory => "out-of-memory",
    }
}

/// Returns the last line of the block of a sample that has no stack.
pub fn refused_block(alloc: Global, why: &str) -> Result<Vec<u8>, AllocError>
    ensures { IfOk result (λ block. block.items ≡ last_line why.now) }
{
    let mut block = Vec::new(alloc);
    push_last_line(&mut block, why.as_bytes())?;
    Ok(block)
}

/// Appends the last line of a block, and a blank line.
pub fn push_last_line(block: &mut Vec<u8>, end: &[u8]) -> Result<(), AllocError>
    ensures { OnOk result (block.new.items ≡ block.old.items ++ last_line end.now) }
{
    block.extend_from_slice(b"[")?;
    block.extend_from_slice(end)?;
    block.extend_from_slice(b"]\n\n")?;
    Ok(())
}

/// Returns the head of a sample's block, by the name of its thread.
#[tactic(auto, unfolding(crate::specs::Line::head_of))]
pub fn block_head(
    alloc: Global,
    name: &[u8],
    pid: u32,
    tid: u32,
    time: Option<u64>,
) -> Result<Vec<u8>, AllocError>
    ensures { IfOk result (λ head. head.items ≡ head_of name.now pid tid time) }
{
    let mut head = Vec::new(alloc);
    push_name(&mut head, name)?;
    let numbers = format!(in alloc; " {pid}/{tid}")?;
    head.extend_from_slice(numbers.as_bytes())?;
    let time = time_text(alloc, time)?;
    head.extend_from_slice(time.as_bytes())?;
    Ok(head)
}

/// Appends a name as it is printed: a `;` becomes a colon, and a control character `\xNN`; in a name that is no UTF-8, or
/// has a control character of C1 or a character that is not seen, so does each byte beyond ASCII. Of a name of more than 2,048 bytes the rest is `...`.
#[tactic(auto, unfolding(crate::specs::Line::plain))]
pub fn push_name(line: &mut Vec<u8>, name: &[u8]) -> Result<(), AllocError>
    ensures { OnOk result (line.new.items ≡ line.old.items ++ plain name.now) }
{
    push_printed(line, front(name, LONGEST_NAME))?;
    if name.len() > LONGEST_NAME {
        line.extend_from_slice(b"...")?;
    }
    Ok(())
}

/// Appends the part of a name that is printed.
#[tactic(auto, using(crate::proofs::PrintedLemmas::printed_as_it_is))]
fn push_printed(line: &mut Vec<u8>, part: &[u8]) -> Result<(), AllocError>
    ensures { OnOk result (line.new.items ≡ line.old.items ++ printed part.now) }
{
    let is_text = is_text(part);
    if !is_any_changed(is_text, part) {
        line.extend_from_slice(part)?;
        return Ok(());
    }
    for byte in part {
        push_byte(line, is_text, *byte)?;
    }
    Ok(())
}

/// Returns whether a part of a name has a byte that is printed as something else, by whether the name is a text.
fn is_any_changed(is_text: bool, part: &[u8]) -> bool
    ensures { result ≡ list_any (is_changed is_text) part.now }
{
    part.iter().any(|byte| is_changed(is_text, *byte))
}

/// Returns whether a byte of a name is printed as something else, by whether the name is a text.
fn is_changed(is_text: bool, byte: u8) -> bool
    ensures { result ≡ is_changed is_text byte }
{
    byte == b';' || is_escaped(is_text, byte)
}

/// Appends a byte of a name as it is printed, by whether the name is a text.
fn push_byte(line: &mut Vec<u8>, is_text: bool, byte: u8) -> Result<(), AllocError>
    ensures { OnOk result (line.new.items ≡ line.old.items ++ printed_byte is_text byte) }
{
    if byte == b';' {
        line.push(b':')?;
    } else if is_escaped(is_text, byte) {
        line.extend_from_slice(&[b'\\', b'x', hex_digit(byte / 16), hex_digit(byte % 16)])?;
    } else {
        line.push(byte)?;
    }
    Ok(())
}

/// Returns whether a byte of a name is printed as a number, by whether the name is a text.
fn is_escaped(is_text: bool, byte: u8) -> bool
    ensures { result ≡ is_escaped is_text byte }
{
    byte < 32 || byte == 127 || (byte >= 128 && !is_text)
}

/// Returns the digit of a number below 16 in hexadecimal.
fn hex_digit(number: u8) -> u8
    requires { number < 16 }
    ensures { result ≡ hex_digit number }
{
    if number < 10 {
        b'0' + number
    } else {
        b'a' - 10 + number
    }
}

/// Returns whether a name is UTF-8 without control characters of C1 and without characters that are not seen.
#[tactic(auto, unfolding(crate::specs::Line::is_text))]
fn is_text(name: &[u8]) -> bool
    ensures { result ≡ is_text name.now }
{
    match std::str::from_utf8(name) {
        Ok(_) => !has_unprinted(name),
        Err(_) => false,
    }
}

/// Returns whether UTF-8 has a control character of C1, or a character that is not seen.
fn has_unprinted(name: &[u8]) -> bool
    ensures { result ≡ (has_c1_after 0 name.now || has_unseen_after 0 0 name.now) }
{
    has_c1(name) || has_unseen(name)
}

/// Returns the time of a sample with which the head of its block ends.
fn time_text(alloc: Global, time: Option<u64>) -> Result<String, AllocError>
    ensures { IfOk result (λ text. string_bytes text ≡ time_text time) }
{
    match time {
        Some(time) => Ok(format!(in alloc; " {time}:\n")?),
        None => Ok(format!(in alloc; ":\n")?),
    }
}
