//! The frames of the kernel in the call chain of a sample, and the names of its functions.
ghost use Rattle.std.specs.Prelude.{ℕ, ◌≡◌, ◌++◌, ◌∷◌, ◌==◌, if◌then◌else◌, map, codes, Some, None, option_map, IfOk, OnOk};
ghost use Rattle.std.specs.List.{flat_map};
ghost use Rattle.framehop_core.specs.CodeAddress.{location_of, address_of};
ghost use Rattle.framehop_frames.specs.Line.{frames_text, hexadecimal};
ghost use Rattle.framehop_recording.specs.Chain.{kernel_part};
ghost use Rattle.framehop_recording.specs.Sample.{read_chain_view};
ghost use Rattle.framehop_perf_stacks.specs.Chain.{name_from, chain_locations, function_at, label_by, kernel_label, place_by, kernel_line, kernel_text, kernel_lines};

use crate::chain::chain_locations;
use crate::run::Options;
use framehop_core::code_address::FrameAddress;
use framehop_frames::line::push_name;
use framehop_recording::chain::kernel_part;
use framehop_recording::error::RecordingError;
use framehop_recording::sample::CallChain;
use std::alloc::{AllocError, Global};
use std::collections::BTreeMap;

/// The names of the kernel's functions.
#[derive(Drop)]
pub struct KernelNames {
    /// By where they start (AVMA).
    pub by_start: BTreeMap<u64, Vec<u8>>,
}

/// A function of the kernel.
#[derive(Clone, Copy, Drop)]
pub struct KernelFunction<'a> {
    /// Where it starts (AVMA).
    pub start: u64,
    /// Its name.
    pub name: &'a [u8],
}

impl KernelNames {
    /// Returns no names.
    pub fn new(alloc: Global) -> Self
        ensures { (start : ℕ) → name_from result.by_start start ≡ None }
    {
        KernelNames {
            by_start: BTreeMap::new(alloc),
        }
    }

    /// Gives a function its name, in the place of one that starts where it does.
    pub fn add(&mut self, alloc: Global, function: KernelFunction<'_>) -> Result<(), AllocError>
        ensures { OnOk result ((start : ℕ) → name_from self.new.by_start start
            ≡ (if function.entry.start == start then Some function.entry.name.now else name_from self.old.by_start start)) }
    {
        let name = Vec::from_slice(alloc, function.name)?;
        self.by_start.insert(function.start, name)?;
        Ok(())
    }

    /// Returns the function of an address: of those that start at or before it the last.
    #[tactic(auto, unfolding(crate::specs::Chain::function_at))]
    pub fn function_at(&self, address: u64) -> Option<KernelFunction<'_>>
        ensures { option_map (λ function. (function.start, function.name.now)) result ≡ function_at self.now.by_start address }
    {
        let (start, name) = self.by_start.range(..=address).next_back()?;
        Some(KernelFunction {
            start: *start,
            name: name.as_slice(),
        })
    }

    /// Appends what frames of the kernel are called to a folded stack, from the outermost on, each after a `;`.
    fn push_labels(
        &self,
        alloc: Global,
        line: &mut Vec<u8>,
        frames: &[FrameAddress],
    ) -> Result<(), AllocError>
        ensures { OnOk result (line.new.items ≡ line.old.items ++ frames_text (λ frame. kernel_label self.now.by_start (location_of frame)) frames.now) }
    {
        for frame in frames.iter().rev() {
            line.push(b';')?;
            self.push_label(alloc, line, *frame)?;
        }
        Ok(())
    }

    /// Appends what a frame of the kernel is called.
    #[tactic(auto, unfolding(crate::specs::Chain::kernel_label))]
    fn push_label(
        &self,
        alloc: Global,
        line: &mut Vec<u8>,
        frame: FrameAddress,
    ) -> Result<(), AllocError>
        ensures { OnOk result (line.new.items ≡ line.old.items ++ kernel_label self.now.by_start (location_of frame)) }
    {
        match self.function_at(frame.address_for_lookup()) {
            Some(function) => push_name(line, function.name)?,
            None => push_hexadecimal(alloc, line, "0x", frame.address())?,
        }
        line.extend_from_slice(b"_[k]")?;
        Ok(())
    }

    /// Appends the lines of frames of the kernel to a block, from the innermost on.
    fn push_lines(
        &self,
        alloc: Global,
        block: &mut Vec<u8>,
        frames: &[FrameAddress],
    ) -> Result<(), AllocError>
        ensures { OnOk result (block.new.items ≡ block.old.items ++ flat_map (λ frame. kernel_line self.now.by_start (location_of frame)) frames.now) }
    {
        for frame in frames {
            self.push_line(alloc, block, *frame)?;
        }
        Ok(())
    }

    /// Appends the line of a frame of the kernel.
    #[tactic(auto, unfolding(crate::specs::Chain::kernel_line))]
    fn push_line(
        &self,
        alloc: Global,
        block: &mut Vec<u8>,
        frame: FrameAddress,
    ) -> Result<(), AllocError>
        ensures { OnOk result (block.new.items ≡ block.old.items ++ kernel_line self.now.by_start (location_of frame)) }
    {
        let address = frame.address();
        push_hexadecimal(alloc, block, "", address)?;
        block.push(b' ')?;
        let function = self.function_at(frame.address_for_lookup());
        push_place(alloc, block, function, address)?;
        block.extend_from_slice(b" ([kernel])\n")?;
        Ok(())
    }
}

/// Appends the name of a function and how far an address is behind its start, or that it is not known.
fn push_place(
    alloc: Global,
    block: &mut Vec<u8>,
    function: Option<KernelFunction<'_>>,
    address: u64,
) -> Result<(), AllocError>
    ensures { OnOk result (block.new.items ≡ block.old.items
        ++ place_by (option_map (λ known. (known.start, known.name.now)) function.entry) address) }
{
    match function {
        Some(function) => {
            push_name(block, function.name)?;
            let offset = address.saturating_sub(function.start);
            push_hexadecimal(alloc, block, "+0x", offset)?;
        }
        None => block.extend_from_slice(b"[unknown]")?,
    }
    Ok(())
}

/// Appends a number in hexadecimal after a text.
fn push_hexadecimal(
    alloc: Global,
    line: &mut Vec<u8>,
    before: &str,
    number: u64,
) -> Result<(), AllocError>
    ensures { OnOk result (line.new.items ≡ line.old.items ++ before.now ++ hexadecimal number) }
{
    line.extend_from_slice(before.as_bytes())?;
    let text = format!(in alloc; "{number:x}")?;
    line.extend_from_slice(text.as_bytes())?;
    Ok(())
}

/// Appends the frames of the kernel in a call chain to a folded stack, where they are asked for and nothing is explained.
pub(crate) fn push_kernel_labels(
    alloc: Global,
    line: &mut Vec<u8>,
    options: Options<'_>,
    chain: Result<CallChain<'_>, RecordingError>,
) -> Result<(), AllocError>
    ensures { OnOk result (line.new.items ≡ line.old.items ++ kernel_text options.entry (read_chain_view chain.entry)) }
{
    let Some(names) = options.kernel else {
        return Ok(());
    };
    if options.explain {
        return Ok(());
    }
    let Ok(chain) = chain else {
        return Ok(());
    };
    let frames = kernel_frames(alloc, chain)?;
    names.push_labels(alloc, line, frames.as_slice())
}

/// Appends the lines of the frames of the kernel in a call chain to a block, where they are asked for and nothing is
/// explained.
pub(crate) fn push_kernel_lines(
    alloc: Global,
    block: &mut Vec<u8>,
    options: Options<'_>,
    chain: Result<CallChain<'_>, RecordingError>,
) -> Result<(), AllocError>
    ensures { OnOk result (block.new.items ≡ block.old.items ++ kernel_lines options.entry (read_chain_view chain.entry)) }
{
    let Some(names) = options.kernel else {
        return Ok(());
    };
    if options.explain {
        return Ok(());
    }
    let Ok(chain) = chain else {
        return Ok(());
    };
    let frames = kernel_frames(alloc, chain)?;
    names.push_lines(alloc, block, frames.as_slice())
}

/// Returns where the frames of the kernel in a call chain are.
fn kernel_frames(alloc: Global, chain: CallChain<'_>) -> Result<Vec<FrameAddress>, AllocError>
    ensures { IfOk result (λ frames. map location_of frames.items ≡ chain_locations (kernel_part chain.entry.bytes.now)) }
{
    let part = kernel_part(alloc, chain)?;
    chain_locations(alloc, part.as_slice())
}
