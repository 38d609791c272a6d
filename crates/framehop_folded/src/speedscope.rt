//! Folded stacks as speedscope reads them.
ghost use Rattle.std.specs.Prelude.{ℕ, ◌≡◌, ◌≤◌, ◌==◌, ◌∷◌, ◌++◌, [], List, length, map, IfOk, OnOk, false, true, string_bytes, unwrap_or, sum_by};
ghost use Rattle.std.specs.Io.Iter.{u64_saturate};
ghost use Rattle.std.specs.List.{position_or_len, slice_split};
ghost use Rattle.serde_json.specs.View.{view};
ghost use Rattle.serde_json.specs.Written.{compact_text};
ghost use Rattle.framehop_folded.specs.Folded.{entries_of};
ghost use Rattle.framehop_folded.specs.Speedscope.{StackView, stack_view, stack_of, stacks_of, names_of, number_in, with_name, with_names, names_among, frame_data, AreFrames, list_data, number_data, sample_data, profile_data, profile_with, file_data, file_of, AreThreadProfiles, AreByThread, IsFileByThread};

use crate::folded::Folded;
use serde_json::{Value, json};
use std::alloc::{AllocError, Global};
use std::collections::BTreeMap;

/// The schema of the file.
const SCHEMA: &str = "https://www.speedscope.app/file-format-schema.json";

/// Returns folded stacks as a file of speedscope, in which each stack is a sample, whose weight is its count: one profile, or
/// one for each thread, whose name is the outermost frame then, in the order of these.
///
/// Source: <https://www.speedscope.app/file-format-schema.json>, `SampledProfile`.
pub fn speedscope_file(
    alloc: Global,
    folded: &Folded,
    title: &str,
    by_thread: bool,
) -> Result<String, AllocError>
    ensures whole { by_thread ≡ false → IfOk result (λ text. string_bytes text
        ≡ compact_text (file_of title.now (stacks_of title.now by_thread (entries_of folded.now)))) }
    ensures threads { by_thread ≡ true → IfOk result (λ text.
        IsFileByThread title.now (stacks_of title.now by_thread (entries_of folded.now)) (string_bytes text)) }
{
    let stacks = stacks_of(alloc, folded, title, by_thread)?;
    let frames = frames_of(alloc, stacks.as_slice())?;
    let profiles = profiles_of(alloc, &frames, title, by_thread, stacks.as_slice())?;
    let file = file_value(alloc, title, frames, profiles)?;
    file.to_string(alloc)
}

/// Returns a file of frames and profiles.
fn file_value(
    alloc: Global,
    title: &str,
    frames: Frames,
    profiles: Vec<Value>,
) -> Result<Value, AllocError>
    ensures { (names : List (List ℕ)) → AreFrames names frames
        → IfOk result (λ value. view value ≡ file_data title.now names (map view profiles.items)) }
{
    let frames = Value::Array(frames.list);
    let shared = json!(in alloc; {"frames": frames})?;
    let profiles = Value::Array(profiles);
    json!(in alloc; {
        "$schema": SCHEMA,
        "exporter": "framehop-stacks",
        "name": title,
        "activeProfileIndex": 0u64,
        "shared": shared,
        "profiles": profiles
    })
}

// ---- stacks

/// A folded stack of a profile.
#[derive(Clone, Copy, Drop)]
struct Stack<'a> {
    /// The name of the profile.
    profile: &'a [u8],
    /// The names of its frames from the outermost on, joined by `;`.
    frames: &'a [u8],
    /// How often it was counted.
    count: u64,
}

/// Returns folded stacks with the names of their profiles.
fn stacks_of<'a>(
    alloc: Global,
    folded: &'a Folded,
    title: &'a str,
    by_thread: bool,
) -> Result<Vec<Stack<'a>>, AllocError>
    ensures { IfOk result (λ stacks. map stack_view stacks.items ≡ stacks_of title.entry.now by_thread (entries_of folded.entry.now)) }
{
    let mut stacks = Vec::new(alloc);
    for (stack, count) in folded.iter() {
        stacks.push(stack_of(title, by_thread, stack.as_slice(), *count))?;
    }
    Ok(stacks)
}

/// Returns a folded stack with the name of its profile: a title or, of a thread, the outermost frame.
fn stack_of<'a>(title: &'a str, by_thread: bool, stack: &'a [u8], count: u64) -> Stack<'a>
    ensures { stack_view result ≡ stack_of title.entry.now by_thread stack.entry.now count }
{
    if by_thread {
        let size = thread_size(stack);
        Stack {
            profile: &stack[..size],
            frames: stack.get(size + 1..).unwrap_or(&[]),
            count,
        }
    } else {
        Stack {
            profile: title.as_bytes(),
            frames: stack,
            count,
        }
    }
}

/// Returns how long the outermost frame of a stack is, in bytes.
fn thread_size(stack: &[u8]) -> usize
    ensures size { result ≡ position_or_len (λ byte. byte == 59) stack.now }
    ensures within { result ≤ length stack.now }
{
    stack.iter().take_while(|byte| **byte != b';').count()
}

/// Returns the names of a stack's frames, from the outermost on.
fn names_of(alloc: Global, frames: &[u8]) -> Result<Vec<&[u8]>, AllocError>
    ensures { IfOk result (λ names. map (λ name. name.now) names.items ≡ names_of frames.entry.now) }
{
    if frames.is_empty() {
        return Ok(Vec::new(alloc));
    }
    split_names(alloc, frames)
}

/// Returns the names between `;`.
fn split_names(alloc: Global, frames: &[u8]) -> Result<Vec<&[u8]>, AllocError>
    ensures { IfOk result (λ names. map (λ name. name.now) names.items ≡ slice_split (λ byte. byte == 59) frames.entry.now) }
{
    frames.split(|byte| *byte == b';').collect(alloc)
}

// ---- frames

/// The frames of stacks, each once, by the order in which they are met.
#[derive(Drop)]
struct Frames {
    numbers: BTreeMap<Vec<u8>, usize>,
    list: Vec<Value>,
}

/// Returns the frames of stacks.
fn frames_of(alloc: Global, stacks: &[Stack<'_>]) -> Result<Frames, AllocError>
    ensures { IfOk result (AreFrames (names_among [] (map stack_view stacks.now))) }
{
    let mut frames = Frames {
        numbers: BTreeMap::new(alloc),
        list: Vec::new(alloc),
    };
    for stack in stacks {
        frames.add_names(alloc, names_of(alloc, stack.frames)?.as_slice())?;
    }
    Ok(frames)
}

impl Frames {
    /// Adds those of some names that are not there.
    fn add_names(&mut self, alloc: Global, others: &[&[u8]]) -> Result<(), AllocError>
        ensures { (names : List (List ℕ)) → AreFrames names self.old
            → OnOk result (AreFrames (with_names names (map (λ name. name.now) others.now)) self.new) }
    {
        for name in others {
            self.add(alloc, name)?;
        }
        Ok(())
    }

    /// Adds the frame of a name, if it is not there.
    #[tactic(auto, unfolding(crate::specs::Speedscope::with_name))]
    fn add(&mut self, alloc: Global, name: &[u8]) -> Result<(), AllocError>
        ensures { (names : List (List ℕ)) → AreFrames names self.old → OnOk result (AreFrames (with_name names name.now) self.new) }
    {
        if self.numbers.contains_key(name) {
            return Ok(());
        }
        let number = self.list.len();
        let frame = frame_value(alloc, name)?;
        let name = Vec::from_slice(alloc, name)?;
        self.list.push(frame)?;
        self.numbers.insert(name, number)?;
        Ok(())
    }

    /// Returns the number of a frame: 0 of one that is not there.
    fn number(&self, name: &[u8]) -> usize
        ensures { (names : List (List ℕ)) → AreFrames names self.now → result ≡ unwrap_or (number_in names name.now) 0 }
    {
        self.numbers.get(name).copied().unwrap_or(0)
    }
}

/// Returns a frame as speedscope reads it.
fn frame_value(alloc: Global, name: &[u8]) -> Result<Value, AllocError>
    ensures { IfOk result (λ value. view value ≡ frame_data name.now) }
{
    let name = String::from_utf8_lossy(alloc, name)?;
    json!(in alloc; {"name": name.as_str()})
}

// ---- profiles

/// Returns the profiles of stacks: one, or one for each thread.
fn profiles_of(
    alloc: Global,
    frames: &Frames,
    title: &str,
    by_thread: bool,
    stacks: &[Stack<'_>],
) -> Result<Vec<Value>, AllocError>
    ensures whole { (names : List (List ℕ)) → AreFrames names frames.now → by_thread ≡ false
        → IfOk result (λ profiles. map view profiles.items ≡ profile_data names title.now (map stack_view stacks.now) ∷ []) }
    ensures threads { (names : List (List ℕ)) → AreFrames names frames.now → by_thread ≡ true
        → IfOk result (λ profiles. AreThreadProfiles names (map stack_view stacks.now) (map view profiles.items)) }
{
    if by_thread {
        return thread_profiles(alloc, frames, stacks);
    }
    one_profile(alloc, frames, title, stacks)
}

/// Returns the profiles of stacks that all have one.
fn one_profile(
    alloc: Global,
    frames: &Frames,
    title: &str,
    stacks: &[Stack<'_>],
) -> Result<Vec<Value>, AllocError>
    ensures { (names : List (List ℕ)) → AreFrames names frames.now
        → IfOk result (λ profiles. map view profiles.items ≡ profile_data names title.now (map stack_view stacks.now) ∷ []) }
{
    let mut profiles = Vec::new(alloc);
    profiles.push(profile_value(alloc, frames, title.as_bytes(), stacks)?)?;
    Ok(profiles)
}

/// Returns a profile for each thread of stacks, in the order of the threads' names.
fn thread_profiles(
    alloc: Global,
    frames: &Frames,
    stacks: &[Stack<'_>],
) -> Result<Vec<Value>, AllocError>
    ensures { (names : List (List ℕ)) → AreFrames names frames.now
        → IfOk result (λ profiles. AreThreadProfiles names (map stack_view stacks.now) (map view profiles.items)) }
{
    let by_thread = stacks_by_thread(alloc, stacks)?;
    let mut profiles = Vec::new(alloc);
    for (thread, stacks) in by_thread.iter() {
        profiles.push(profile_value(alloc, frames, thread, stacks.as_slice())?)?;
    }
    Ok(profiles)
}

/// Returns the stacks of each thread, in their order.
fn stacks_by_thread<'a>(
    alloc: Global,
    stacks: &[Stack<'a>],
) -> Result<BTreeMap<&'a [u8], Vec<Stack<'a>>>, AllocError>
    ensures { IfOk result (AreByThread (map stack_view stacks.now)) }
{
    let mut by_thread = BTreeMap::new(alloc);
    for stack in stacks {
        add_stack(alloc, *stack, &mut by_thread)?;
    }
    Ok(by_thread)
}

/// Adds a stack to those of its thread.
fn add_stack<'a>(
    alloc: Global,
    stack: Stack<'a>,
    by_thread: &mut BTreeMap<&'a [u8], Vec<Stack<'a>>>,
) -> Result<(), AllocError>
    ensures { (stacks : List StackView) → AreByThread stacks by_thread.old
        → OnOk result (AreByThread (stacks ++ stack_view stack.entry ∷ []) by_thread.new) }
{
    let before = by_thread.remove(stack.profile);
    let mut stacks = before.unwrap_or(Vec::new(alloc));
    stacks.push(stack)?;
    by_thread.insert(stack.profile, stacks)?;
    Ok(())
}

/// Returns a profile as speedscope reads it. The unit is `none`: a weight is a number of samples.
fn profile_value(
    alloc: Global,
    frames: &Frames,
    name: &[u8],
    stacks: &[Stack<'_>],
) -> Result<Value, AllocError>
    ensures { (names : List (List ℕ)) → AreFrames names frames.now
        → IfOk result (λ value. view value ≡ profile_data names name.now (map stack_view stacks.now)) }
{
    let samples = samples_of(alloc, frames, stacks)?;
    let weights = weights_of(alloc, stacks)?;
    profile_with(alloc, name, total_of(stacks), samples, weights)
}

/// Returns a profile of samples and their weights, which are so many together.
fn profile_with(
    alloc: Global,
    name: &[u8],
    total: u64,
    samples: Vec<Value>,
    weights: Vec<Value>,
) -> Result<Value, AllocError>
    ensures { IfOk result (λ value. view value ≡ profile_with name.now total (map view samples.items) (map view weights.items)) }
{
    let name = String::from_utf8_lossy(alloc, name)?;
    let samples = Value::Array(samples);
    let weights = Value::Array(weights);
    json!(in alloc; {
        "type": "sampled",
        "name": name.as_str(),
        "unit": "none",
        "startValue": 0u64,
        "endValue": total,
        "samples": samples,
        "weights": weights
    })
}

/// Returns how often stacks were counted together, or 2^64 - 1 where that is more.
fn total_of(stacks: &[Stack<'_>]) -> u64
    ensures { result ≡ u64_saturate (sum_by (λ stack. stack.count) (map stack_view stacks.now)) }
{
    let mut total: u64 = 0;
    for stack in stacks {
        total = total.saturating_add(stack.count);
    }
    total
}

/// Returns how often each stack was counted.
fn weights_of(alloc: Global, stacks: &[Stack<'_>]) -> Result<Vec<Value>, AllocError>
    ensures { IfOk result (λ weights. map view weights.items ≡ map (λ stack. number_data stack.count) (map stack_view stacks.now)) }
{
    let mut weights = Vec::new(alloc);
    for stack in stacks {
        weights.push(Value::from(stack.count))?;
    }
    Ok(weights)
}

/// Returns each stack as the numbers of its frames.
fn samples_of(
    alloc: Global,
    frames: &Frames,
    stacks: &[Stack<'_>],
) -> Result<Vec<Value>, AllocError>
    ensures { (names : List (List ℕ)) → AreFrames names frames.now
        → IfOk result (λ samples. map view samples.items ≡ map (λ stack. sample_data names stack.frames) (map stack_view stacks.now)) }
{
    let mut samples = Vec::new(alloc);
    for stack in stacks {
        samples.push(sample_value(alloc, frames, stack.frames)?)?;
    }
    Ok(samples)
}

/// Returns a stack as the numbers of its frames, from the outermost on.
fn sample_value(alloc: Global, frames: &Frames, stack: &[u8]) -> Result<Value, AllocError>
    ensures { (names : List (List ℕ)) → AreFrames names frames.now → IfOk result (λ value. view value ≡ sample_data names stack.now) }
{
    let names = names_of(alloc, stack)?;
    Ok(Value::Array(numbers_of(alloc, frames, names.as_slice())?))
}

/// Returns the numbers of the frames of these names.
fn numbers_of(alloc: Global, frames: &Frames, stack: &[&[u8]]) -> Result<Vec<Value>, AllocError>
    ensures { (names : List (List ℕ)) → AreFrames names frames.now
        → IfOk result (λ numbers. map view numbers.items
        ≡ map (λ name. number_data (unwrap_or (number_in names name) 0)) (map (λ name. name.now) stack.now)) }
{
    let mut numbers = Vec::new(alloc);
    for name in stack {
        numbers.push(Value::from(frames.number(name) as u64))?;
    }
    Ok(numbers)
}
