//! The row of an address: the instructions of a CIE and of an FDE, run up to it (DWARF 5 section 6.4.3).
//!
//! A row is changed in place, instruction by instruction. The room for rows is kept from one address to the next,
//! so that no memory is taken under `StoreOnStack`.
ghost use Rattle.std.specs.Prelude.{◌≡◌, ◌≢◌, ◌*◌, ◌+◌, ◌^◌, ◌<◌, ◌≤◌, [], length, true, false, IfOk, IfErr, OnOk, OnErr, IsErrOf, None, Err};
ghost use Rattle.framehop_cfi.specs.TableRows.{TableRows, effect, setting, restoring, remembering, restoring_state};
ghost use Rattle.framehop_cfi.specs.Outcome.{Becomes};
ghost use Rattle.framehop_cfi.specs.Row.{Row};
ghost use Rattle.framehop_cfi.specs.RowMeaning.{IsRowAt};
ghost use Rattle.framehop_cfi.specs.RowRoom.{needs_room, list_needs_room, row_needs_room};
ghost use Rattle.framehop_cfi.specs.RowAt.{location_after, risen, is_beyond, run_from, rows_at, row_at, start, begun, covers, instructions_of_cie, instructions_of_fde};
ghost use Rattle.framehop_cfi.specs.RowCursor.{HasReached, HaveRow, HaveNoRow};
ghost use Rattle.framehop_cfi.specs.Turn.{Turns, turn, obeyed, turn_needs_room, obeying_needs_room};

use crate::entry::{CommonInformationEntry, FrameDescriptionEntry, UnwindSection};
use crate::instruction::{
    CallFrameInstruction, read_next_factored, read_next_offset, read_next_register,
};
use crate::instruction_code::*;
use crate::numbers::{read_u8, read_u16};
use crate::pointer::SectionBaseAddresses;
use crate::read_error::ReadError;
use crate::remembered::RememberedRows;
use crate::row::UnwindTableRow;
use crate::rule::{CfaRule, Register, RegisterRule};
use crate::storage::UnwindContextStorage;
use framehop_bytes::bytes::front;
use std::alloc::{AllocError, Global};
use std::marker::Model;

/// The room in which rows are made. It is made once and used for any number of rows.
#[derive(Drop)]
pub struct UnwindContext<S: UnwindContextStorage> {
    /// The row after the CIE's instructions.
    initial: UnwindTableRow<S>,
    /// Whether the CIE's instructions have been run.
    has_initial: bool,
    row: UnwindTableRow<S>,
    /// The rows that were remembered: copies, or what changed in `row` since.
    remembered: RememberedRows<S>,
}

impl<S: UnwindContextStorage> Model for UnwindContext<S> {
    ghost use Rattle.framehop_cfi.specs.TableRows.{TableRows};
    ghost use Rattle.framehop_cfi.specs.Context.{initial_of};
    ghost use Rattle.framehop_cfi.specs.Remembered.{remembered_rows};

    ghost Value = { TableRows };

    ghost view = { λ context. record { initial = initial_of context.has_initial context.initial; row = context.row; remembered = remembered_rows S.limits context.remembered context.row.rules } };
}

/// Where the rows of an FDE have got to.
#[derive(Clone, Copy)]
pub struct RowCursor {
    /// The offset in the section of the instruction that is next.
    pub next: usize,
    /// The address at which the next row begins, an SVMA.
    pub location: u64,
}

impl<S: UnwindContextStorage> UnwindContext<S> {
    /// Makes the room. In a context with limits it is enough for every row: from here on no call
    /// returns `OutOfMemory`.
    pub fn new_in(alloc: Global) -> Result<Self, AllocError>
        ensures { IfOk result (λ context. context ≡ start) }
    {
        Ok(UnwindContext {
            initial: UnwindTableRow::new(alloc)?,
            has_initial: false,
            row: UnwindTableRow::new(alloc)?,
            remembered: RememberedRows::new(alloc)?,
        })
    }

    /// Returns the row that was made last.
    pub fn row(&self) -> &UnwindTableRow<S>
        ensures { result.now ≡ self.now.row }
    {
        &self.row
    }

    /// Makes the row of an address, an SVMA: the effects of the instructions of the FDE's CIE, and of its own
    /// before the first move of the location beyond the address.
    ///
    /// An address that the FDE does not cover is refused by `NoRow`. After a refusal the row is any. `OutOfMemory` is
    /// returned only where the storage has no limits and one of those instructions gives a register a rule or
    /// remembers the row.
    pub fn row_for_address(
        &mut self,
        section: &UnwindSection,
        fde: &FrameDescriptionEntry,
        address: u64,
    ) -> Result<(), ReadError>
        ensures row { OnOk result (IsRowAt S.limits section.now fde.now address self.new.row) }
        ensures none { IfErr result (λ error. error ≢ ReadError.OutOfMemory →
            (row : Row) → IsRowAt S.limits section.now fde.now address row → ⊥) }
        ensures exact { Becomes result self.new.row (row_at S.limits section.now fde.now address) }
        ensures memory { IsErrOf result ReadError.OutOfMemory → S.limits ≡ None }
        ensures room { IsErrOf result ReadError.OutOfMemory → row_needs_room section.now fde.now address ≡ true }
    {
        // apart, so that `row` and `none` are proved of an answer that is known exactly
        self.run_fde(section, fde, address)
    }

    /// Runs the instructions of the FDE's CIE, and then its own up to the address.
    #[tactic(auto, unfolding(crate::specs::RowAt::rows_at, crate::specs::RowRoom::row_needs_room))]
    fn run_fde(
        &mut self,
        section: &UnwindSection,
        fde: &FrameDescriptionEntry,
        address: u64,
    ) -> Result<(), ReadError>
        ensures exact { Becomes result self.new (rows_at S.limits section.now fde.now address) }
        ensures memory { IsErrOf result ReadError.OutOfMemory → S.limits ≡ None }
        ensures room { IsErrOf result ReadError.OutOfMemory → row_needs_room section.now fde.now address ≡ true }
    {
        if !covers(fde, address) {
            return Err(ReadError::NoRow);
        }
        self.clear();
        let cie = &fde.cie;
        let bytes = front(section.bytes, cie.end);
        self.run(cie, &section.bases, bytes, cie.instructions, 0, None)?;
        self.begin_fde()?;
        let bytes = front(section.bytes, fde.end);
        self.run(
            cie,
            &section.bases,
            bytes,
            fde.instructions,
            fde.initial_address,
            Some(address),
        )
    }

    /// Begins the rows of an FDE: runs the instructions of its CIE. The rows follow by `next_row`, each instruction being
    /// read once.
    ///
    /// An error is that of the row of each address. `OutOfMemory` is returned only where the storage has no limits and one
    /// of those instructions gives a register a rule or remembers the row.
    pub fn begin_rows(
        &mut self,
        section: &UnwindSection,
        fde: &FrameDescriptionEntry,
    ) -> Result<RowCursor, ReadError>
        ensures begun { IfOk result (λ cursor. HasReached S.limits section.now fde.now cursor.next cursor.location self.new) }
        ensures first { IfOk result (λ cursor. cursor.location ≡ fde.now.initial_address) }
        ensures refused { IfErr result (λ error. error ≢ ReadError.OutOfMemory →
            HaveNoRow S.limits section.now fde.now fde.now.initial_address error) }
        ensures memory { IsErrOf result ReadError.OutOfMemory → S.limits ≡ None }
        ensures room { IsErrOf result ReadError.OutOfMemory →
            list_needs_room (instructions_of_cie section.now fde.now.cie) fde.now.cie.instructions 0 ≡ true }
        ensures bare { list_needs_room (instructions_of_cie section.now fde.now.cie) fde.now.cie.instructions 0 ≡ false →
            OnOk result (self.new.remembered ≡ []) }
    {
        self.clear();
        let cie = &fde.cie;
        let bytes = front(section.bytes, cie.end);
        self.run(cie, &section.bases, bytes, cie.instructions, 0, None)?;
        self.begin_fde()?;
        Ok(RowCursor {
            next: fde.instructions,
            location: fde.initial_address,
        })
    }

    /// Forgets all rows.
    fn clear(&mut self)
        ensures { self.new ≡ start }
    {
        self.has_initial = false;
        self.remembered.clear();
        self.row.clear();
    }

    /// Runs the instructions from an offset on, up to the end of the bytes or to the first move beyond
    /// the address.
    fn run(
        &mut self,
        cie: &CommonInformationEntry,
        bases: &SectionBaseAddresses,
        bytes: &[u8],
        at: usize,
        start: u64,
        address: Option<u64>,
    ) -> Result<(), ReadError>
        requires near { is_beyond address start ≡ false }
        ensures exact { Becomes result self.new (run_from S.limits (record { cie = cie.now; bases = bases.now; bytes = bytes.now; address = address }) at start self.old) }
        ensures memory { IsErrOf result ReadError.OutOfMemory → S.limits ≡ None }
        ensures room { IsErrOf result ReadError.OutOfMemory → self.old.remembered ≡ [] →
            list_needs_room (record { cie = cie.now; bases = bases.now; bytes = bytes.now; address = address }) at start ≡ true }
    {
        let mut cursor = RowCursor {
            next: at,
            location: start,
        };
        while cursor.next < bytes.len() {
            match self.run_next(cie, bases, bytes, address, cursor)? {
                Some(after) => cursor = after,
                None => return Ok(()),
            }
        }
        Ok(())
    }

    /// Runs the instruction at a cursor, and returns the cursor after it, or `None` where the location moves beyond
    /// the address. Those that are common are read and run inlined, so that they are never in memory; another by a call.
    #[inline(always)]
    #[tactic(auto, unfolding(crate::specs::Instruction::instruction_at))]
    fn run_next(
        &mut self,
        cie: &CommonInformationEntry,
        bases: &SectionBaseAddresses,
        bytes: &[u8],
        address: Option<u64>,
        cursor: RowCursor,
    ) -> Result<Option<RowCursor>, ReadError>
        requires near { is_beyond address cursor.location ≡ false }
        ensures exact { Turns result self.new (turn S.limits (record { cie = cie.now; bases = bases.now; bytes = bytes.now; address = address }) cursor.next cursor.location self.old) }
        ensures memory { IsErrOf result ReadError.OutOfMemory → S.limits ≡ None }
        ensures room { IsErrOf result ReadError.OutOfMemory → self.old.remembered ≡ [] →
            turn_needs_room (record { cie = cie.now; bases = bases.now; bytes = bytes.now; address = address }) cursor.next cursor.location ≡ true }
    {
        let location = cursor.location;
        let (code, at) = read_u8(bytes, cursor.next)?;
        if DW_CFA_OFFSET <= code && code < DW_CFA_RESTORE {
            let register = Register(u16::from(code - DW_CFA_OFFSET));
            let (offset, next) = read_next_factored(cie.data_alignment_factor, bytes, at)?;
            let rule = RegisterRule::Offset(offset);
            let set_rule = CallFrameInstruction::SetRule { register, rule };
            return self.obey(cie, address, location, set_rule, next);
        }
        if DW_CFA_ADVANCE_LOC <= code && code < DW_CFA_OFFSET {
            let delta = u32::from(code - DW_CFA_ADVANCE_LOC);
            let advance = CallFrameInstruction::AdvanceLoc { delta };
            return self.obey(cie, address, location, advance, at);
        }
        if DW_CFA_RESTORE <= code {
            let register = Register(u16::from(code - DW_CFA_RESTORE));
            let restore = CallFrameInstruction::Restore { register };
            return self.obey(cie, address, location, restore, at);
        }
        self.run_coded(cie, bases, bytes, address, cursor)
    }

    /// Runs the instruction at a cursor: one of the common ones on the CFA, a `DW_CFA_nop`, or another.
    #[inline(always)]
    #[tactic(auto, unfolding(crate::specs::Instruction::instruction_at, crate::specs::Instruction::def_cfa_at))]
    fn run_coded(
        &mut self,
        cie: &CommonInformationEntry,
        bases: &SectionBaseAddresses,
        bytes: &[u8],
        address: Option<u64>,
        cursor: RowCursor,
    ) -> Result<Option<RowCursor>, ReadError>
        requires near { is_beyond address cursor.location ≡ false }
        ensures exact { Turns result self.new (turn S.limits (record { cie = cie.now; bases = bases.now; bytes = bytes.now; address = address }) cursor.next cursor.location self.old) }
        ensures memory { IsErrOf result ReadError.OutOfMemory → S.limits ≡ None }
        ensures room { IsErrOf result ReadError.OutOfMemory → self.old.remembered ≡ [] →
            turn_needs_room (record { cie = cie.now; bases = bases.now; bytes = bytes.now; address = address }) cursor.next cursor.location ≡ true }
    {
        let location = cursor.location;
        let (code, at) = read_u8(bytes, cursor.next)?;
        match code {
            DW_CFA_NOP => self.obey(cie, address, location, CallFrameInstruction::Nop, at),
            DW_CFA_DEF_CFA_OFFSET => {
                let (offset, next) = read_next_offset(bytes, at)?;
                let set_offset = CallFrameInstruction::DefCfaOffset { offset };
                self.obey(cie, address, location, set_offset, next)
            }
            DW_CFA_DEF_CFA => {
                let (register, next) = read_next_register(bytes, at)?;
                let (offset, next) = read_next_offset(bytes, next)?;
                let rule = CfaRule::RegisterAndOffset { register, offset };
                let set_cfa = CallFrameInstruction::DefCfa(rule);
                self.obey(cie, address, location, set_cfa, next)
            }
            _ => self.run_less_common(cie, bases, bytes, address, cursor),
        }
    }

    /// Runs the instruction at a cursor: an advance of one or two bytes, one on the remembered rows, or another.
    #[inline(always)]
    #[tactic(auto, unfolding(crate::specs::Instruction::instruction_at))]
    fn run_less_common(
        &mut self,
        cie: &CommonInformationEntry,
        bases: &SectionBaseAddresses,
        bytes: &[u8],
        address: Option<u64>,
        cursor: RowCursor,
    ) -> Result<Option<RowCursor>, ReadError>
        requires near { is_beyond address cursor.location ≡ false }
        ensures exact { Turns result self.new (turn S.limits (record { cie = cie.now; bases = bases.now; bytes = bytes.now; address = address }) cursor.next cursor.location self.old) }
        ensures memory { IsErrOf result ReadError.OutOfMemory → S.limits ≡ None }
        ensures room { IsErrOf result ReadError.OutOfMemory → self.old.remembered ≡ [] →
            turn_needs_room (record { cie = cie.now; bases = bases.now; bytes = bytes.now; address = address }) cursor.next cursor.location ≡ true }
    {
        let location = cursor.location;
        let (code, at) = read_u8(bytes, cursor.next)?;
        match code {
            DW_CFA_ADVANCE_LOC1 => {
                let (delta, next) = read_u8(bytes, at)?;
                let delta = u32::from(delta);
                let advance = CallFrameInstruction::AdvanceLoc { delta };
                self.obey(cie, address, location, advance, next)
            }
            DW_CFA_ADVANCE_LOC2 => {
                let (delta, next) = read_u16(bytes, at)?;
                let delta = u32::from(delta);
                let advance = CallFrameInstruction::AdvanceLoc { delta };
                self.obey(cie, address, location, advance, next)
            }
            DW_CFA_REMEMBER_STATE => {
                let remember = CallFrameInstruction::RememberState;
                self.obey(cie, address, location, remember, at)
            }
            DW_CFA_RESTORE_STATE => {
                let restore = CallFrameInstruction::RestoreState;
                self.obey(cie, address, location, restore, at)
            }
            DW_CFA_AARCH64_NEGATE_RA_STATE => {
                let negate = CallFrameInstruction::NegateRaState;
                self.obey(cie, address, location, negate, at)
            }
            _ => self.run_rare(cie, bases, bytes, address, cursor),
        }
    }

    /// Runs any instruction at a cursor, by a call. What it returns is taken apart, so that only here it is in memory.
    #[inline(always)]
    fn run_rare(
        &mut self,
        cie: &CommonInformationEntry,
        bases: &SectionBaseAddresses,
        bytes: &[u8],
        address: Option<u64>,
        cursor: RowCursor,
    ) -> Result<Option<RowCursor>, ReadError>
        requires near { is_beyond address cursor.location ≡ false }
        ensures exact { Turns result self.new (turn S.limits (record { cie = cie.now; bases = bases.now; bytes = bytes.now; address = address }) cursor.next cursor.location self.old) }
        ensures memory { IsErrOf result ReadError.OutOfMemory → S.limits ≡ None }
        ensures room { IsErrOf result ReadError.OutOfMemory → self.old.remembered ≡ [] →
            turn_needs_room (record { cie = cie.now; bases = bases.now; bytes = bytes.now; address = address }) cursor.next cursor.location ≡ true }
    {
        match self.run_other(cie, bases, bytes, address, cursor)? {
            Some(RowCursor { next, location }) => Ok(Some(RowCursor { next, location })),
            None => Ok(None),
        }
    }

    /// Runs any instruction at a cursor.
    #[cold]
    #[inline(never)]
    fn run_other(
        &mut self,
        cie: &CommonInformationEntry,
        bases: &SectionBaseAddresses,
        bytes: &[u8],
        address: Option<u64>,
        cursor: RowCursor,
    ) -> Result<Option<RowCursor>, ReadError>
        requires near { is_beyond address cursor.location ≡ false }
        ensures exact { Turns result self.new (turn S.limits (record { cie = cie.now; bases = bases.now; bytes = bytes.now; address = address }) cursor.next cursor.location self.old) }
        ensures memory { IsErrOf result ReadError.OutOfMemory → S.limits ≡ None }
        ensures room { IsErrOf result ReadError.OutOfMemory → self.old.remembered ≡ [] →
            turn_needs_room (record { cie = cie.now; bases = bases.now; bytes = bytes.now; address = address }) cursor.next cursor.location ≡ true }
    {
        let (instruction, next) = cie.read_instruction(bases, bytes, cursor.next)?;
        self.obey(cie, address, cursor.location, instruction, next)
    }

    /// Does what an instruction says, and returns the cursor after it, or `None` where it moves the location beyond the
    /// address.
    #[inline(always)]
    fn obey(
        &mut self,
        cie: &CommonInformationEntry,
        address: Option<u64>,
        location: u64,
        instruction: CallFrameInstruction,
        next: usize,
    ) -> Result<Option<RowCursor>, ReadError>
        requires near { is_beyond address location ≡ false }
        ensures exact { Turns result self.new (obeyed S.limits cie.now address location (instruction, next) self.old) }
        ensures memory { IsErrOf result ReadError.OutOfMemory → S.limits ≡ None }
        ensures room { IsErrOf result ReadError.OutOfMemory → self.old.remembered ≡ [] → obeying_needs_room cie.now address location instruction ≡ true }
    {
        let moved = location_after(cie, address, location, instruction)?;
        if moved != location && is_beyond(address, moved) {
            return Ok(None);
        }
        self.execute(instruction)?;
        Ok(Some(RowCursor {
            next,
            location: moved,
        }))
    }

    /// Keeps the row as the one that the CIE left.
    fn begin_fde(&mut self) -> Result<(), ReadError>
        ensures ok { OnOk result (self.new ≡ begun self.old) }
        ensures error { IfErr result (λ error. error ≡ ReadError.OutOfMemory) }
        ensures memory { OnErr result (S.limits ≡ None) }
        ensures room { OnErr result (0 < length self.old.row.rules) }
    {
        self.initial.copy_from(&self.row)?;
        self.has_initial = true;
        Ok(())
    }

    /// Makes the next row, and returns where it ends and the one after it begins: at the first address after the FDE's for
    /// its last row. A call begins where the one before it ended, with the rows as that left them.
    ///
    /// An error is that of the row of each address from the cursor's location on. `OutOfMemory` is returned only where the
    /// storage has no limits, and an instruction before the next row gives a register a rule or remembers the row, or a row
    /// was remembered.
    pub fn next_row(
        &mut self,
        section: &UnwindSection,
        fde: &FrameDescriptionEntry,
        cursor: RowCursor,
    ) -> Result<RowCursor, ReadError>
        ensures row { HasReached S.limits section.now fde.now cursor.next cursor.location self.old →
            IfOk result (λ after. HaveRow S.limits section.now fde.now cursor.location after.location self.new.row) }
        ensures reached { HasReached S.limits section.now fde.now cursor.next cursor.location self.old →
            IfOk result (λ after. HasReached S.limits section.now fde.now after.next after.location self.new) }
        ensures forward { IfOk result (λ after. cursor.location ≤ after.location) }
        ensures further { fde.now.initial_address + fde.now.address_range < 2 ^ 64 →
            cursor.location < fde.now.initial_address + fde.now.address_range →
            IfOk result (λ after. cursor.location < after.location) }
        ensures refused { HasReached S.limits section.now fde.now cursor.next cursor.location self.old →
            IfErr result (λ error. error ≢ ReadError.OutOfMemory →
            HaveNoRow S.limits section.now fde.now cursor.location error) }
        ensures memory { IsErrOf result ReadError.OutOfMemory → S.limits ≡ None }
        ensures room { IsErrOf result ReadError.OutOfMemory → self.old.remembered ≡ [] →
            list_needs_room (instructions_of_fde section.now fde.now cursor.location) cursor.next cursor.location ≡ true }
        ensures bare { self.old.remembered ≡ [] →
            list_needs_room (instructions_of_fde section.now fde.now cursor.location) cursor.next cursor.location ≡ false →
            OnOk result (self.new.remembered ≡ []) }
    {
        let bytes = front(section.bytes, fde.end);
        let mut next = cursor.next;
        while next < bytes.len() {
            let (instruction, after) = fde.cie.read_next(&section.bases, bytes, next)?;
            let moved = location_after(
                &fde.cie,
                Some(cursor.location),
                cursor.location,
                instruction,
            )?;
            if moved > cursor.location {
                return Ok(RowCursor {
                    next: after,
                    location: moved,
                });
            }
            self.execute(instruction)?;
            next = after;
        }
        Ok(RowCursor {
            next,
            location: end_of(fde).max(cursor.location),
        })
    }

    /// Does what an instruction says, but for a move of the location.
    #[inline(always)]
    fn execute(&mut self, instruction: CallFrameInstruction) -> Result<(), ReadError>
        ensures exact { Becomes result self.new (effect S.limits instruction self.old) }
        ensures memory { IsErrOf result ReadError.OutOfMemory → S.limits ≡ None }
        ensures room { IsErrOf result ReadError.OutOfMemory → self.old.remembered ≡ [] → needs_room instruction ≡ true }
    {
        match instruction {
            CallFrameInstruction::Nop
            | CallFrameInstruction::NegateRaState
            | CallFrameInstruction::ArgsSize { .. }
            | CallFrameInstruction::SetLoc { .. }
            | CallFrameInstruction::AdvanceLoc { .. } => Ok(()),
            CallFrameInstruction::SetRule { register, rule } => self.set_rule(register, rule),
            CallFrameInstruction::Restore { register } => self.restore(register),
            CallFrameInstruction::RememberState => self.remember(),
            CallFrameInstruction::RestoreState => self.restore_state(),
            CallFrameInstruction::DefCfa(rule) => {
                self.row.set_cfa(rule);
                Ok(())
            }
            CallFrameInstruction::DefCfaRegister { register } => self.set_cfa_register(register),
            CallFrameInstruction::DefCfaOffset { offset } => self.set_cfa_offset(offset),
        }
    }

    /// Gives a register the rule that the CIE gave it.
    #[inline(never)]
    fn restore(&mut self, register: Register) -> Result<(), ReadError>
        ensures exact { Becomes result self.new (restoring S.limits register self.old self.old.initial) }
        ensures memory { IsErrOf result ReadError.OutOfMemory → S.limits ≡ None }
    {
        if !self.has_initial {
            return Err(ReadError::InvalidContext);
        }
        match self.initial.register(register) {
            Some(rule) => self.set_rule(register, rule),
            None => {
                self.remembered.keep_for_removal(&self.row, register)?;
                self.row.remove_rule(register);
                Ok(())
            }
        }
    }

    #[inline(always)]
    fn set_rule(&mut self, register: Register, rule: RegisterRule) -> Result<(), ReadError>
        ensures exact { Becomes result self.new (setting S.limits register rule self.old) }
        ensures memory { IsErrOf result ReadError.OutOfMemory → S.limits ≡ None }
    {
        self.remembered.keep_for_setting(&self.row, register)?;
        self.row.set_rule(register, rule)
    }

    /// Remembers the row.
    #[inline(never)]
    fn remember(&mut self) -> Result<(), ReadError>
        ensures exact { Becomes result self.new (remembering S.limits self.old) }
        ensures memory { IsErrOf result ReadError.OutOfMemory → S.limits ≡ None }
    {
        self.remembered.push(*self.row.cfa())
    }

    /// Makes the row the one that was remembered last, which is then not remembered any more.
    #[inline(never)]
    fn restore_state(&mut self) -> Result<(), ReadError>
        ensures exact { Becomes result self.new (restoring_state self.old) }
        ensures memory { IsErrOf result ReadError.OutOfMemory → S.limits ≡ None }
        ensures room { IsErrOf result ReadError.OutOfMemory → self.old.remembered ≢ [] }
    {
        self.remembered.pop(&mut self.row)
    }

    #[inline(always)]
    fn set_cfa_register(&mut self, register: Register) -> Result<(), ReadError>
        ensures exact { Becomes result self.new (effect S.limits (CallFrameInstruction.DefCfaRegister register) self.old) }
        ensures memory { result ≢ Err ReadError.OutOfMemory }
    {
        match *self.row.cfa() {
            CfaRule::RegisterAndOffset { offset, .. } => {
                self.row
                    .set_cfa(CfaRule::RegisterAndOffset { register, offset });
                Ok(())
            }
            CfaRule::Expression(_) => Err(ReadError::InvalidContext),
        }
    }

    #[inline(always)]
    fn set_cfa_offset(&mut self, offset: i64) -> Result<(), ReadError>
        ensures exact { Becomes result self.new (effect S.limits (CallFrameInstruction.DefCfaOffset offset) self.old) }
        ensures memory { result ≢ Err ReadError.OutOfMemory }
    {
        match *self.row.cfa() {
            CfaRule::RegisterAndOffset { register, .. } => {
                self.row
                    .set_cfa(CfaRule::RegisterAndOffset { register, offset });
                Ok(())
            }
            CfaRule::Expression(_) => Err(ReadError::InvalidContext),
        }
    }
}

/// Returns whether the FDE covers the address.
fn covers(fde: &FrameDescriptionEntry, address: u64) -> bool
    ensures { result ≡ covers fde.now address }
{
    fde.initial_address <= address && address - fde.initial_address < fde.address_range
}

/// Returns the location that an instruction leaves. A CIE has no address that is looked for, and its
/// instructions do not move the location.
#[inline(always)]
fn location_after(
    cie: &CommonInformationEntry,
    address: Option<u64>,
    location: u64,
    instruction: CallFrameInstruction,
) -> Result<u64, ReadError>
    ensures exact { result ≡ location_after cie.now address location instruction }
    ensures memory { result ≢ Err ReadError.OutOfMemory }
{
    match instruction {
        CallFrameInstruction::SetLoc { address: target } => {
            if address.is_none() || target < location {
                return Err(ReadError::InvalidContext);
            }
            Ok(target)
        }
        CallFrameInstruction::AdvanceLoc { delta } => {
            if address.is_none() {
                return Err(ReadError::InvalidContext);
            }
            risen(location, delta, cie.code_alignment_factor)
        }
        _ => Ok(location),
    }
}

/// Returns the location after an advance of `delta` times the code alignment.
#[inline(always)]
fn risen(location: u64, delta: u32, code_alignment_factor: u64) -> Result<u64, ReadError>
    ensures exact { result ≡ risen location (delta * code_alignment_factor) }
    ensures memory { result ≢ Err ReadError.OutOfMemory }
{
    let bytes = u128::from(delta) * u128::from(code_alignment_factor);
    let moved = u128::from(location) + bytes;
    if bytes >= 1 << 63 {
        return Err(ReadError::NumberTooBig);
    }
    match u64::try_from(moved) {
        Ok(moved) => Ok(moved),
        Err(_) => Err(ReadError::NumberTooBig),
    }
}

/// Returns whether the location lies beyond the address that is looked for.
#[inline(always)]
fn is_beyond(address: Option<u64>, location: u64) -> bool
    ensures { result ≡ is_beyond address location }
{
    match address {
        Some(address) => address < location,
        None => false,
    }
}

/// Returns the first address after those that the FDE covers, or the last one of 64 bits.
fn end_of(fde: &FrameDescriptionEntry) -> u64
    ensures { fde.now.initial_address + fde.now.address_range < 2 ^ 64 →
        result ≡ fde.now.initial_address + fde.now.address_range }
{
    fde.initial_address.saturating_add(fde.address_range)
}
