//! The lines of a reply.
ghost use Rattle.std.specs.Prelude.{◌≡◌, ◌++◌, OnOk, string_bytes, map};
ghost use Rattle.framehop.specs.CodeAddress.{location_of};
ghost use Rattle.framehop.specs.SessionView.{end_of, reply_view};
ghost use Rattle.framehop_walk.specs.Text.{line, hexadecimal, frame_line, frame_lines, end_line, step_line, count_text, stats_line, registers_line, reply_lines};

use crate::printing::print_hexadecimal;
use crate::registers::Registers;
use framehop::session::{Reply, WalkEnd};
use framehop::{CacheStats, Error, FrameAddress};
use std::alloc::AllocError;

/// Prints the reply to a command, each line ended by a line feed. `verb` is the command's field
/// `do`.
pub(crate) fn print_reply<A: Registers>(
    verb: &str,
    reply: &Reply<A::UnwindRegs>,
    out: &mut String,
) -> Result<(), AllocError>
    ensures { OnOk result (string_bytes out.new
        ≡ string_bytes out.old ++ reply_lines A.text verb.now (reply_view reply.now)) }
{
    match reply {
        Reply::Made(unwinder) => writeln!(out, "{verb} {unwinder}"),
        Reply::Done => writeln!(out, "{verb}"),
        Reply::Step { result, regs } => {
            print_step(*result, out)?;
            print_registers::<A>(regs, out)
        }
        Reply::Walk { frames, end, regs } => {
            print_frames(frames, out)?;
            print_end(*end, out)?;
            print_registers::<A>(regs, out)
        }
        Reply::Stats(stats) => print_stats(stats, out),
    }
}

fn print_step(answer: Result<Option<u64>, Error>, out: &mut String) -> Result<(), AllocError>
    ensures { OnOk result (string_bytes out.new ≡ string_bytes out.old ++ step_line answer) }
{
    match answer {
        Ok(Some(address)) => print_address("step ", address, out),
        Ok(None) => writeln!(out, "step end"),
        Err(error) => writeln!(out, "step stopped: {error}"),
    }
}

fn print_frames(frames: &Vec<FrameAddress>, out: &mut String) -> Result<(), AllocError>
    ensures { OnOk result (string_bytes out.new
        ≡ string_bytes out.old ++ frame_lines (map location_of frames.now.items)) }
{
    for frame in frames {
        print_frame(*frame, out)?;
    }
    Ok(())
}

fn print_frame(frame: FrameAddress, out: &mut String) -> Result<(), AllocError>
    ensures { OnOk result (string_bytes out.new
        ≡ string_bytes out.old ++ frame_line (location_of frame)) }
{
    match frame {
        FrameAddress::InstructionPointer(address) => print_address("ip ", address, out),
        FrameAddress::ReturnAddress(address) => print_address("ra ", address.get(), out),
    }
}

/// Prints a line: the label, and the address in hexadecimal.
fn print_address(label: &str, address: u64, out: &mut String) -> Result<(), AllocError>
    ensures { OnOk result (string_bytes out.new
        ≡ string_bytes out.old ++ line (label.now ++ hexadecimal address)) }
{
    out.push_str(label)?;
    print_hexadecimal(address, out)?;
    out.push('\n')
}

fn print_end(end: WalkEnd, out: &mut String) -> Result<(), AllocError>
    ensures { OnOk result (string_bytes out.new ≡ string_bytes out.old ++ end_line (end_of end)) }
{
    match end {
        WalkEnd::Root => writeln!(out, "end"),
        WalkEnd::Refused(error) => writeln!(out, "stopped: {error}"),
        WalkEnd::Limit => writeln!(out, "limit"),
    }
}

fn print_registers<A: Registers>(regs: &A::UnwindRegs, out: &mut String) -> Result<(), AllocError>
    ensures { OnOk result (string_bytes out.new
        ≡ string_bytes out.old ++ registers_line (A.text regs.now)) }
{
    write!(out, "regs")?;
    A::print(regs, out)?;
    writeln!(out, "")
}

fn print_stats(stats: &CacheStats, out: &mut String) -> Result<(), AllocError>
    ensures { OnOk result (string_bytes out.new ≡ string_bytes out.old ++ stats_line stats.now) }
{
    write!(out, "stats")?;
    print_count("hits", stats.hit_count, out)?;
    print_count("empty", stats.miss_empty_slot_count, out)?;
    print_count("modules", stats.miss_wrong_modules_count, out)?;
    print_count("address", stats.miss_wrong_address_count, out)?;
    writeln!(out, "")
}

#[tactic(auto, unfolding(crate::specs::Text::count_text))]
fn print_count(name: &str, count: u64, out: &mut String) -> Result<(), AllocError>
    ensures { OnOk result (string_bytes out.new
        ≡ string_bytes out.old ++ count_text name.now count) }
{
    write!(out, " {name}={count}")
}
