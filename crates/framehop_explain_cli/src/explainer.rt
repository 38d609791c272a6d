//! The notes of a list of commands: what each of its frames came from.
ghost use Rattle.std.specs.Prelude.{◌≡◌, ◌++◌, ℕ, [], ◌∷◌, codes, IfOk, OnOk};
ghost use Rattle.std.specs.Global.{Global};
ghost use Rattle.std.specs.declared.vec.Vec.{Vec};
ghost use Rattle.serde_json.specs.Data.{Data};
ghost use Rattle.serde_json.specs.Find.{as_array};
ghost use Rattle.serde_json.specs.View.{view, items_view};
ghost use Rattle.framehop_explain.specs.Found.{explaining_by};
ghost use Rattle.framehop_walk.specs.Fields.{field_as};
ghost use Rattle.framehop_walk.specs.Program.{read_next};
ghost use Rattle.framehop_explain_cli.specs.SessionNotes.{IsAccepted, IsNoted, AreNotesOf, AreNotesIn};

use crate::notes::module_note;
use framehop::session::{Command, Memory};
use framehop::unwinder::UnwinderInternal;
use framehop::{AllocationPolicy, FrameAddress, Generations, Module, ModuleListError, Unwinder};
use framehop_explain::pe::Sources;
use framehop_explain::{DescribeRule, Note, note_frame, note_walk};
use framehop_walk::Refusal;
use framehop_walk::commands::read_command;
use framehop_walk::fields::{list, text};
use framehop_walk::registers::Registers;
use serde_json::Value;
use std::alloc::{AllocError, Global};

/// The unwinders of the commands so far, and the notes of their replies: one for each line, of which many are empty.
#[derive(Drop)]
struct Explainer<A: Sources, P: AllocationPolicy> {
    alloc: Global,
    generations: Generations,
    unwinders: Vec<UnwinderInternal<Vec<u8>, A, P>>,
    notes: Vec<Note>,
}

/// Returns the notes under the lines of the replies to the commands of the input. They end before the first command that
/// `framehop-walk` refuses.
///
/// # Errors
///
/// An allocation failed.
pub fn notes_of<A: Registers + Sources, P: AllocationPolicy>(
    alloc: Global,
    value: &Value,
) -> Result<Vec<Note>, AllocError>
where
    A::UnwindRule: DescribeRule,
    ensures { IfOk result (λ notes. AreNotesIn A.reading (explaining_by A.readers A.pe_source
        (record { by_code = A.by_code; prologue = A.prologue_rule; epilogue = A.epilogue_rule })
        A.UnwindRule.rule_text A.UnwindRule.fallback P.policy) (A.unwinding P.policy)
        (field_as as_array (codes "commands") (view value.now)) notes.items) }
{
    match list(value, "commands") {
        Ok(commands) => notes_of_commands::<A, P>(alloc, commands),
        Err(_) => Ok(Vec::new(alloc)),
    }
}

/// Returns the notes under the lines of the replies to commands, up to the first that is refused.
fn notes_of_commands<A: Registers + Sources, P: AllocationPolicy>(
    alloc: Global,
    commands: &Vec<Value>,
) -> Result<Vec<Note>, AllocError>
where
    A::UnwindRule: DescribeRule,
    ensures { IfOk result (λ notes. AreNotesOf A.reading (explaining_by A.readers A.pe_source
        (record { by_code = A.by_code; prologue = A.prologue_rule; epilogue = A.epilogue_rule })
        A.UnwindRule.rule_text A.UnwindRule.fallback P.policy) (A.unwinding P.policy)
        (items_view commands.now.items) (record { unwinders = []; next = 0 }) notes.items) }
{
    let generations = Generations::new();
    let unwinders = Vec::new(alloc);
    let notes = Vec::new(alloc);
    let mut explainer: Explainer<A, P> = Explainer {
        alloc,
        generations,
        unwinders,
        notes,
    };
    for command in commands {
        let read = accepted_command::<A>(alloc, command)?;
        let Some(accepted) = read else {
            return Ok(explainer.notes);
        };
        explainer.carry_out(command, accepted)?;
    }
    Ok(explainer.notes)
}

/// Reads a command, if `framehop-walk` takes it.
fn accepted_command<A: Registers>(
    alloc: Global,
    command: &Value,
) -> Result<Option<Command<Vec<u8>, A::UnwindRegs>>, AllocError>
    ensures { IfOk result (λ accepted. IsAccepted (read_next A.reading [] (view command.now)) accepted) }
{
    let Ok(verb) = text(command, "do") else {
        return Ok(None);
    };
    match read_command::<A>(alloc, verb, command) {
        Ok(accepted) => Ok(Some(accepted)),
        Err(Refusal::OutOfMemory) => Err(AllocError),
        Err(_) => Ok(None),
    }
}

impl<A: Sources, P: AllocationPolicy> Explainer<A, P>
where
    A::UnwindRule: DescribeRule,
{
    /// Carries out a command, and notes what its frames came from.
    fn carry_out(
        &mut self,
        command: &Value,
        accepted: Command<Vec<u8>, A::UnwindRegs>,
    ) -> Result<(), AllocError>
        ensures { OnOk result (IsNoted (explaining_by A.readers A.pe_source
            (record { by_code = A.by_code; prologue = A.prologue_rule; epilogue = A.epilogue_rule })
            A.UnwindRule.rule_text A.UnwindRule.fallback P.policy) (A.unwinding P.policy) (view command.now) accepted
            (record { unwinders = self.old.unwinders.items; next = self.old.generations })
            (record { unwinders = self.new.unwinders.items; next = self.new.generations })
            self.old.notes.items self.new.notes.items) }
    {
        match accepted {
            Command::New => self.make_unwinder(),
            Command::Clone { unwinder } => self.clone_unwinder(unwinder),
            Command::Add { unwinder, module } => self.add_module(unwinder, module, command),
            Command::Remove { unwinder, start } => self.remove_module(unwinder, start),
            Command::Step {
                unwinder,
                cache: _,
                address,
                regs,
                memory,
            } => self.step(unwinder, address, regs, &memory),
            Command::Walk {
                unwinder,
                cache: _,
                pc,
                regs,
                memory,
                limit,
            } => self.walk(unwinder, pc, regs, &memory, limit),
            Command::Stats { cache: _ } => self.note_stats(),
        }
    }

    fn make_unwinder(&mut self) -> Result<(), AllocError>
        ensures { (fields : Data) → let command : Command (Vec ℕ Global) A.UnwindRegs = Command.New in
            OnOk result (IsNoted (explaining_by A.readers A.pe_source
            (record { by_code = A.by_code; prologue = A.prologue_rule; epilogue = A.epilogue_rule })
            A.UnwindRule.rule_text A.UnwindRule.fallback P.policy) (A.unwinding P.policy) fields command
            (record { unwinders = self.old.unwinders.items; next = self.old.generations })
            (record { unwinders = self.new.unwinders.items; next = self.new.generations })
            self.old.notes.items self.new.notes.items) }
    {
        note_nothing(self.alloc, &mut self.notes)?;
        match UnwinderInternal::new(self.alloc, &mut self.generations) {
            Ok(unwinder) => Ok(self.unwinders.push(unwinder)?),
            Err(_) => Ok(()),
        }
    }

    fn clone_unwinder(&mut self, number: usize) -> Result<(), AllocError>
        ensures { (fields : Data) → let command : Command (Vec ℕ Global) A.UnwindRegs = Command.Clone number in
            OnOk result (IsNoted (explaining_by A.readers A.pe_source
            (record { by_code = A.by_code; prologue = A.prologue_rule; epilogue = A.epilogue_rule })
            A.UnwindRule.rule_text A.UnwindRule.fallback P.policy) (A.unwinding P.policy) fields command
            (record { unwinders = self.old.unwinders.items; next = self.old.generations })
            (record { unwinders = self.new.unwinders.items; next = self.new.generations })
            self.old.notes.items self.new.notes.items) }
    {
        note_nothing(self.alloc, &mut self.notes)?;
        if number >= self.unwinders.len() {
            return Ok(());
        }
        let copy = self.unwinders[number].clone()?;
        Ok(self.unwinders.push(copy)?)
    }

    fn add_module(
        &mut self,
        number: usize,
        module: Module<Vec<u8>>,
        command: &Value,
    ) -> Result<(), AllocError>
        ensures { let accepted : Command (Vec ℕ Global) A.UnwindRegs = Command.Add number «module» in
            OnOk result (IsNoted (explaining_by A.readers A.pe_source
            (record { by_code = A.by_code; prologue = A.prologue_rule; epilogue = A.epilogue_rule })
            A.UnwindRule.rule_text A.UnwindRule.fallback P.policy) (A.unwinding P.policy) (view command.now) accepted
            (record { unwinders = self.old.unwinders.items; next = self.old.generations })
            (record { unwinders = self.new.unwinders.items; next = self.new.generations })
            self.old.notes.items self.new.notes.items) }
    {
        self.notes.push(module_note(self.alloc, &module, command)?)?;
        if number >= self.unwinders.len() {
            return Ok(());
        }
        let target = &mut self.unwinders[number];
        match target.add_module(module, &mut self.generations) {
            Ok(()) => Ok(()),
            Err(refused) => match refused.cause {
                ModuleListError::OutOfMemory => Err(AllocError),
                ModuleListError::GenerationsExhausted => Ok(()),
            },
        }
    }

    fn remove_module(&mut self, number: usize, start: u64) -> Result<(), AllocError>
        ensures { (fields : Data) → let command : Command (Vec ℕ Global) A.UnwindRegs = Command.Remove number start in
            OnOk result (IsNoted (explaining_by A.readers A.pe_source
            (record { by_code = A.by_code; prologue = A.prologue_rule; epilogue = A.epilogue_rule })
            A.UnwindRule.rule_text A.UnwindRule.fallback P.policy) (A.unwinding P.policy) fields command
            (record { unwinders = self.old.unwinders.items; next = self.old.generations })
            (record { unwinders = self.new.unwinders.items; next = self.new.generations })
            self.old.notes.items self.new.notes.items) }
    {
        note_nothing(self.alloc, &mut self.notes)?;
        if number >= self.unwinders.len() {
            return Ok(());
        }
        let target = &mut self.unwinders[number];
        let _removed = target.remove_module(start, &mut self.generations);
        Ok(())
    }

    fn step(
        &mut self,
        number: usize,
        address: FrameAddress,
        regs: A::UnwindRegs,
        memory: &Memory,
    ) -> Result<(), AllocError>
        ensures { (fields : Data) (cache : ℕ) → let command : Command (Vec ℕ Global) A.UnwindRegs = Command.Step number cache address regs memory.now in
            OnOk result (IsNoted (explaining_by A.readers A.pe_source
            (record { by_code = A.by_code; prologue = A.prologue_rule; epilogue = A.epilogue_rule })
            A.UnwindRule.rule_text A.UnwindRule.fallback P.policy) (A.unwinding P.policy) fields command
            (record { unwinders = self.old.unwinders.items; next = self.old.generations })
            (record { unwinders = self.new.unwinders.items; next = self.new.generations })
            self.old.notes.items self.new.notes.items) }
    {
        if number >= self.unwinders.len() {
            return note_nothing(self.alloc, &mut self.notes);
        }
        let unwinder = &self.unwinders[number];
        let _caller = note_frame(self.alloc, unwinder, address, regs, memory, &mut self.notes)?;
        note_nothing(self.alloc, &mut self.notes)
    }

    fn walk(
        &mut self,
        number: usize,
        pc: u64,
        regs: A::UnwindRegs,
        memory: &Memory,
        limit: u32,
    ) -> Result<(), AllocError>
        ensures { (fields : Data) (cache : ℕ) → let command : Command (Vec ℕ Global) A.UnwindRegs = Command.Walk number cache pc regs memory.now limit in
            OnOk result (IsNoted (explaining_by A.readers A.pe_source
            (record { by_code = A.by_code; prologue = A.prologue_rule; epilogue = A.epilogue_rule })
            A.UnwindRule.rule_text A.UnwindRule.fallback P.policy) (A.unwinding P.policy) fields command
            (record { unwinders = self.old.unwinders.items; next = self.old.generations })
            (record { unwinders = self.new.unwinders.items; next = self.new.generations })
            self.old.notes.items self.new.notes.items) }
    {
        if number >= self.unwinders.len() {
            return note_end(self.alloc, &mut self.notes);
        }
        let unwinder = &self.unwinders[number];
        note_walk(
            self.alloc,
            unwinder,
            pc,
            regs,
            memory,
            limit,
            &mut self.notes,
        )?;
        note_end(self.alloc, &mut self.notes)
    }

    fn note_stats(&mut self) -> Result<(), AllocError>
        ensures { (fields : Data) (cache : ℕ) → let command : Command (Vec ℕ Global) A.UnwindRegs = Command.Stats cache in
            OnOk result (IsNoted (explaining_by A.readers A.pe_source
            (record { by_code = A.by_code; prologue = A.prologue_rule; epilogue = A.epilogue_rule })
            A.UnwindRule.rule_text A.UnwindRule.fallback P.policy) (A.unwinding P.policy) fields command
            (record { unwinders = self.old.unwinders.items; next = self.old.generations })
            (record { unwinders = self.new.unwinders.items; next = self.new.generations })
            self.old.notes.items self.new.notes.items) }
    {
        note_nothing(self.alloc, &mut self.notes)
    }
}

/// Appends the note of a line that says nothing.
fn note_nothing(alloc: Global, notes: &mut Vec<Note>) -> Result<(), AllocError>
    ensures { OnOk result (notes.new.items ≡ notes.old.items ++ [] ∷ []) }
{
    Ok(notes.push(Note::new(alloc))?)
}

/// Appends the notes of the end of a walk and of the registers there, which say nothing.
fn note_end(alloc: Global, notes: &mut Vec<Note>) -> Result<(), AllocError>
    ensures { OnOk result (notes.new.items ≡ notes.old.items ++ [] ∷ [] ∷ []) }
{
    notes.push(Note::new(alloc))?;
    Ok(notes.push(Note::new(alloc))?)
}
