//! What the check of a file finds, function by function.
ghost use Rattle.std.specs.Prelude.{◌≡◌, ◌++◌, ◌||◌, not, IfOk, OnOk, option_map, string_bytes};
ghost use Rattle.std.specs.List.{flat_map};
ghost use Rattle.framehop_check_cli.specs.Checked.{IsReported};
ghost use Rattle.framehop_check_cli.specs.Findings.{found_view, nothing_in, name_at, name_if, parts_view, is_allowed, machine_of, alarm_lines, note_lines, lines_if, with_allowed, with_checked, with_fde, with_fdes};
ghost use Rattle.framehop_check_cli.specs.Parts.{is_good};

use crate::allowed::Allowed;
use crate::file::{Checked, Options, Parts, name_of};
use crate::text::{push_alarm, push_note, push_summary};
use framehop_cfi::entry::{FrameDescriptionEntry, UnwindSection};
use framehop_cfi::storage::StoreOnHeap;
use framehop_check::check::Checker;
use framehop_check::report::{Alarm, Counts, Report};
use framehop_check::room::Room;
use framehop_code::effect::Code;
use std::alloc::{AllocError, Global};

/// Counts beside those of the report.
#[derive(Clone, Copy)]
pub struct Others {
    /// Functions with alarms that are allowed to have them.
    pub allowed: u64,
    /// Entries that can't be read.
    pub unreadable: u64,
    /// FDEs whose code is not in the file.
    pub without_code: u64,
    /// FDEs that are not checked, since they share code or a CIE with too many others.
    pub sharing: u64,
}

/// What the check of a file has found so far.
#[derive(Drop)]
pub struct Findings {
    /// The counts, and the alarms and notes of the function that was checked last.
    pub report: Report,
    pub others: Others,
    /// How much is checked yet.
    pub room: Room,
    /// The lines so far.
    pub text: String,
}

impl Findings {
    /// Returns no findings.
    pub fn new(alloc: Global, room: Room) -> Self
        ensures { found_view result ≡ nothing_in room }
    {
        Findings {
            report: Report::new(alloc),
            others: Others {
                allowed: 0,
                unreadable: 0,
                without_code: 0,
                sharing: 0,
            },
            room,
            text: String::new(alloc),
        }
    }

    /// Checks FDEs, one after another.
    pub fn check_fdes<C: Code>(
        &mut self,
        checker: &mut Checker<StoreOnHeap>,
        section: &UnwindSection<'_>,
        parts: &Parts<'_>,
        fdes: &[FrameDescriptionEntry],
        options: Options,
        allowed: &Allowed<'_>,
    ) -> Result<(), AllocError>
        ensures { OnOk result (found_view self.new
            ≡ with_fdes (machine_of C.instruction C.numbered C.return_column C.entry C.named) section.now parts.now options allowed.now
            fdes.now (found_view self.old)) }
    {
        for fde in fdes {
            self.check_fde::<C>(checker, section, parts, fde, options, allowed)?;
        }
        Ok(())
    }

    /// Checks an FDE, if the file has its code.
    #[tactic(auto, unfolding(crate::specs::Findings::with_fde))]
    fn check_fde<C: Code>(
        &mut self,
        checker: &mut Checker<StoreOnHeap>,
        section: &UnwindSection<'_>,
        parts: &Parts<'_>,
        fde: &FrameDescriptionEntry,
        options: Options,
        allowed: &Allowed<'_>,
    ) -> Result<(), AllocError>
        ensures { OnOk result (found_view self.new
            ≡ with_fde (machine_of C.instruction C.numbered C.return_column C.entry C.named) section.now parts.now options allowed.now
            (found_view self.old) fde.now) }
    {
        let Some(code) = parts.code.code_at(fde.initial_address, fde.address_range) else {
            self.others.without_code = self.others.without_code.saturating_add(1);
            return Ok(());
        };
        if !self.room.take(fde, code.len()) {
            self.others.sharing = self.others.sharing.saturating_add(1);
            return Ok(());
        }
        let is_allowed = allowed.allows(name_of(parts, fde.initial_address));
        self.check_code::<C>(checker, section, parts, fde, code, options, is_allowed)
    }

    /// Checks an FDE against its code.
    #[tactic(auto, unfolding(crate::specs::Findings::with_checked))]
    fn check_code<C: Code>(
        &mut self,
        checker: &mut Checker<StoreOnHeap>,
        section: &UnwindSection<'_>,
        parts: &Parts<'_>,
        fde: &FrameDescriptionEntry,
        code: &[u8],
        options: Options,
        is_allowed: bool,
    ) -> Result<(), AllocError>
        ensures { OnOk result (found_view self.new
            ≡ with_checked (machine_of C.instruction C.numbered C.return_column C.entry C.named) section.now parts.now options
            is_allowed fde.now code.now (found_view self.old)) }
    {
        self.report.alarms.clear();
        self.report.notes.clear();
        checker.check_function::<C>(section, fde, code, &mut self.report)?;
        self.others = with_allowed(self.others, is_allowed, &self.report.alarms);
        if is_allowed || options.is_quiet {
            return Ok(());
        }
        self.push_lines::<C>(Some(parts), fde.initial_address, code, options)
    }

    /// Appends the lines of the function that was checked last, which begins at an address (SVMA), by the parts of an ELF
    /// file, which have the names.
    pub(crate) fn push_lines<C: Code>(
        &mut self,
        parts: Option<&Parts<'_>>,
        start: u64,
        code: &[u8],
        options: Options,
    ) -> Result<(), AllocError>
        ensures { OnOk result (found_view self.new ≡ record (found_view self.old) {
          text = string_bytes self.old.text
              ++ (alarm_lines (machine_of C.instruction C.numbered C.return_column C.entry C.named) (parts_view parts.entry) start code.now self.old.report.alarms.items
              ++ lines_if options.has_notes (note_lines (parts_view parts.entry) start self.old.report.notes.items));
        }) }
    {
        push_alarms::<C>(parts, start, code, &self.report.alarms, &mut self.text)?;
        if options.has_notes {
            push_notes(parts, start, &self.report.notes, &mut self.text)?;
        }
        Ok(())
    }

    /// Returns the lines with the summary after them, and whether there are no alarms and each entry was read.
    pub fn into_checked(self, path: &str) -> Result<Checked, AllocError>
        ensures { IfOk result (IsReported path.now (found_view self)) }
    {
        let counts: Counts = self.report.counts;
        let others = self.others;
        let mut text = self.text;
        push_summary(path, counts, others, &mut text)?;
        Ok(Checked::Text {
            text,
            is_good: is_good(counts, others),
        })
    }
}

/// Returns the counts with a function that has these alarms, if it is allowed to have some.
fn with_allowed(others: Others, is_allowed: bool, alarms: &[Alarm]) -> Others
    ensures { result ≡ with_allowed is_allowed alarms.now others }
{
    if is_allowed && !alarms.is_empty() {
        Others {
            allowed: others.allowed.saturating_add(1),
            ..others
        }
    } else {
        others
    }
}

/// Appends a line for each alarm of a function that begins at an address (SVMA).
fn push_alarms<C: Code>(
    parts: Option<&Parts<'_>>,
    start: u64,
    code: &[u8],
    alarms: &[Alarm],
    out: &mut String,
) -> Result<(), AllocError>
    ensures { OnOk result (string_bytes out.new ≡ string_bytes out.old
        ++ alarm_lines (machine_of C.instruction C.numbered C.return_column C.entry C.named) (parts_view parts.entry) start code.now alarms.now) }
{
    for alarm in alarms {
        push_alarm::<C>(name_if(parts, alarm.address), start, code, *alarm, out)?;
    }
    Ok(())
}

/// Appends a line for each note of a function that begins at an address, by the addresses of instructions (SVMAs).
fn push_notes(
    parts: Option<&Parts<'_>>,
    start: u64,
    notes: &[u64],
    out: &mut String,
) -> Result<(), AllocError>
    ensures { OnOk result (string_bytes out.new ≡ string_bytes out.old ++ note_lines (parts_view parts.entry) start notes.now) }
{
    for address in notes {
        push_note(name_if(parts, *address), start, *address, out)?;
    }
    Ok(())
}

/// Returns the name of the function at an address (SVMA), and where the function begins, by the parts of an ELF file.
fn name_if<'a>(parts: Option<&Parts<'a>>, address: u64) -> Option<(&'a str, u64)>
    ensures { option_map (λ name. (name.0.now, name.1)) result ≡ name_if (parts_view parts.entry) address }
{
    name_of(parts?, address)
}

/// Returns whether there are no alarms but allowed ones, and each entry was read and checked.
fn is_good(counts: Counts, others: Others) -> bool
    ensures { result ≡ is_good counts others }
{
    counts.alarmed == others.allowed && others.unreadable == 0 && others.sharing == 0
}
