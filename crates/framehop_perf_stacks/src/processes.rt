//! The processes of a recording at a time.
ghost use Rattle.std.specs.Prelude.{◌≡◌, ◌<◌, ◌≤◌, ◌+◌, ◌-◌, ◌^◌, ◌⊎◌, ℕ, IfOk, IfErr, ◌==◌, if◌then◌else◌, List, [], Some, None, IsSome, IfSome, OnOk, false};
ghost use Rattle.std.specs.BTreeMap.{get};
ghost use Rattle.std.specs.Ordering.{nat_cmp};
ghost use Rattle.framehop.specs.Modules.{ModuleView, UnwinderView};
ghost use Rattle.framehop_processes.specs.Mappings.{IsInOrder, with_mapping, changed_modules, left_by};
ghost use Rattle.framehop_processes.specs.Process.{HasModules};
ghost use Rattle.framehop_processes.specs.declared.error.ProcessesError.{ProcessesError};
ghost use Rattle.framehop_processes.specs.declared.mapping.Mapping.{Mapping};
ghost use Rattle.framehop_perf_stacks.specs.Ended.{drawn_by, IsWithoutAddress, MayEnd};
ghost use Rattle.framehop_perf_stacks.specs.Processes.{mapped_in, ready_in, with_process, after, IsFit, IsServed, IsMadeOf, Tells, LeadsTo, AreDrawn, AreMade, HaveSame, HaveReady, AreEarlier};
ghost use Rattle.framehop_perf_stacks.specs.declared.error.StacksError.TheVariants.{OutOfMemory, EmptyMapping};

use crate::changes::Change;
use crate::error::StacksError;
use framehop::generations::Generations;
use framehop_processes::{
    Mapping, ModuleMaker, Process, ProcessUnwinder, ProcessesError, SharedMappings,
};
use std::alloc::{AllocError, Global};
use std::collections::BTreeMap;

/// About how many mappings the processes may have together whose unwinders are kept: some 30 MB of modules.
const MOST_READY: usize = 0x4_0000;

/// Where there is no room, the last process that was made becomes one of at least so many mappings: of fewer it takes less time
/// to make all anew, once others have gone.
const LEAST_EXCHANGED: usize = 0x400;

/// It does where it has so many mappings more or fewer, at most: forks differ in few.
const MOST_DIFFERENT: usize = 32;

/// The mappings of a process.
#[derive(Drop)]
pub struct MappedProcess {
    version: Version,
    mappings: SharedMappings,
}

/// Which mappings these are.
#[derive(Clone, Copy)]
struct Version {
    /// A number that no others have. Forks have the same until one of them maps something.
    number: u64,
    /// Those of another number and one more, if it overlaps none of them.
    made_of: Option<MadeOf>,
}

/// Mappings of a number, and one more.
#[derive(Clone, Copy)]
struct MadeOf {
    number: u64,
    mapping: Mapping,
}

/// What makes mappings out of others: the one that starts at an address (AVMA) goes, if one is given, and one comes.
#[derive(Clone, Copy)]
struct Exchange {
    gone: Option<u64>,
    come: Mapping,
}

/// The processes at a time. Unwinders have only those whose samples came lately.
#[derive(Drop)]
pub struct Processes<U: ProcessUnwinder> {
    by_pid: BTreeMap<u32, MappedProcess>,
    /// Processes with unwinders, by the numbers of their mappings.
    ready: BTreeMap<u64, Process<U>>,
    /// How many mappings these had together when they were made, and one more for each.
    ready_mappings: usize,
    /// The mappings of the last of these that was made.
    latest: Version,
    /// The numbers of mappings are drawn from it, too.
    generations: Generations,
    ghost drawn: { AreDrawn by_pid ready latest generations },
    ghost same: { HaveSame by_pid ready latest },
    ghost made: { AreMade by_pid ready latest },
    ghost have_ready: { HaveReady by_pid ready },
    ghost earlier: { AreEarlier ready generations },
}

impl Clone for MappedProcess {
    ghost is_clone = { λ mapped copy. copy ≡ mapped };

    fn clone(&self) -> Result<Self, AllocError> {
        Ok(MappedProcess {
            version: self.version,
            mappings: self.mappings.clone()?,
        })
    }
}

impl Version {
    /// Returns what makes mappings of another version out of those of this one, where both differ in a mapping or two and tell so.
    fn exchange_for(&self, wanted: &Version) -> Option<Exchange>
        ensures { IfSome result (λ exchange. (of : MadeOf) × (wanted.now.made_of ≡ Some of) × (exchange.come ≡ of.mapping)
            × ((mappings : List Mapping) → Tells self.now mappings of.number (left_by exchange.gone mappings))) }
    {
        let wanted = wanted.made_of?;
        if wanted.number == self.number {
            return Some(Exchange {
                gone: None,
                come: wanted.mapping,
            });
        }
        let own = self.made_of?;
        if wanted.number != own.number {
            return None;
        }
        Some(Exchange {
            gone: Some(own.mapping.start),
            come: wanted.mapping,
        })
    }
}

impl<U: ProcessUnwinder> Processes<U> {
    /// Returns no processes.
    pub fn new(alloc: Global) -> Self
        ensures empty { (number : ℕ) → get nat_cmp result.ready number ≡ None }
        ensures none { (pid : ℕ) → mapped_in result.by_pid pid ≡ [] }
        ensures undrawn { result.generations ≡ 0 }
    {
        Processes {
            by_pid: BTreeMap::new(alloc),
            ready: BTreeMap::new(alloc),
            ready_mappings: 0,
            latest: Version {
                number: 0,
                made_of: None,
            },
            generations: Generations::new(),
        }
    }

    /// Returns the mappings of a process that is ready, in order of start.
    pub fn mappings(&self, pid: u32) -> &[Mapping]
        requires { IsSome (ready_in self.now.by_pid self.now.ready pid) }
        ensures value { result.now ≡ mapped_in self.now.by_pid pid }
        ensures ordered { IsInOrder 0 result.now }
    {
        self.known(pid).mappings()
    }

    /// Returns the process of a number that is ready.
    pub fn known(&self, pid: u32) -> &Process<U>
        requires { IsSome (ready_in self.now.by_pid self.now.ready pid) }
        ensures known { (number : ℕ) × (get nat_cmp self.now.ready number ≡ Some result.now) }
        ensures mapped { result.now.mappings ≡ mapped_in self.now.by_pid pid }
    {
        let Some(mapped) = self.by_pid.get(&pid) else {
            unreachable!()
        };
        match self.ready.get(&mapped.version.number) {
            Some(process) => process,
            None => unreachable!(),
        }
    }

    /// Makes a process ready: one with the modules of its mappings is made, unless there is one. Where those that are ready
    /// have too many mappings together, it is made of the last one, or the others are ready no more.
    pub(crate) fn make_ready<M: ModuleMaker<U>>(
        &mut self,
        alloc: Global,
        maker: &M,
        pid: u32,
    ) -> Result<(), StacksError>
    where
        U::Module: Drop,
        requires { (cache : U.Cache) × IsServed (M.module_of maker.now) (λ view. U.is_sound view cache) self.old.ready self.old.generations }
        ensures ready { OnOk result (IsSome (ready_in self.new.by_pid self.new.ready pid)) }
        ensures kept { OnOk result ((number : ℕ) → mapped_in self.new.by_pid number ≡ mapped_in self.old.by_pid number) }
        ensures served { OnOk result ((cache : U.Cache)
            → IsServed (M.module_of maker.now) (λ view. U.is_sound view cache) self.old.ready self.old.generations
            → IsServed (M.module_of maker.now) (λ view. U.is_sound view cache) self.new.ready self.new.generations) }
        ensures drawn { self.new.generations ≤ self.old.generations + 2 }
        ensures refused { IfErr result (MayEnd false None (self.old.generations + 2) 0) }
    {
        let mapped = self.met(alloc, pid)?;
        if self.ready.contains_key(&mapped.version.number) {
            return Ok(());
        }
        let exchange = self.latest.exchange_for(&mapped.version);
        let near = self.make_room(alloc, mapped.mappings.len());
        let generations = &mut self.generations;
        let process = process_with(alloc, maker, near, exchange, &mapped.mappings, generations)?;
        self.keep(pid, mapped.version, process)?;
        Ok(())
    }

    /// Makes a change.
    pub fn apply<M: ModuleMaker<U>>(
        &mut self,
        alloc: Global,
        maker: &M,
        change: Change,
    ) -> Result<(), StacksError>
    where
        U::Module: Drop,
        requires { (cache : U.Cache) × IsServed (M.module_of maker.now) (λ view. U.is_sound view cache) self.old.ready self.old.generations }
        ensures mapped { OnOk result ((number : ℕ) → mapped_in self.new.by_pid number ≡ after change (mapped_in self.old.by_pid) number) }
        ensures served { OnOk result ((cache : U.Cache)
            → IsServed (M.module_of maker.now) (λ view. U.is_sound view cache) self.old.ready self.old.generations
            → IsServed (M.module_of maker.now) (λ view. U.is_sound view cache) self.new.ready self.new.generations) }
        ensures drawn { OnOk result (self.new.generations ≤ self.old.generations + drawn_by change (mapped_in self.old.by_pid)) }
        ensures refused { IfErr result (λ error. MayEnd false None (self.old.generations + drawn_by change (mapped_in self.old.by_pid)) 0 error
            ⊎ ((error ≡ EmptyMapping) × IsWithoutAddress change)) }
    {
        match change {
            Change::Map { pid, mapping } => self.map(alloc, maker, pid, mapping)?,
            Change::Begin { pid } => self.begin(alloc, pid)?,
            Change::Fork { pid, parent } => self.fork(alloc, pid, parent)?,
        }
        Ok(())
    }

    /// Maps a file into a process, which begins with it if it is not known. After an error it may not be ready any more.
    fn map<M: ModuleMaker<U>>(
        &mut self,
        alloc: Global,
        maker: &M,
        pid: u32,
        mapping: Mapping,
    ) -> Result<(), StacksError>
    where
        U::Module: Drop,
        requires { (cache : U.Cache) × IsServed (M.module_of maker.now) (λ view. U.is_sound view cache) self.old.ready self.old.generations }
        ensures mapped { OnOk result ((number : ℕ) → mapped_in self.new.by_pid number ≡ with_process pid (with_mapping mapping (mapped_in self.old.by_pid pid)) (mapped_in self.old.by_pid) number) }
        ensures served { OnOk result ((cache : U.Cache)
            → IsServed (M.module_of maker.now) (λ view. U.is_sound view cache) self.old.ready self.old.generations
            → IsServed (M.module_of maker.now) (λ view. U.is_sound view cache) self.new.ready self.new.generations) }
        ensures drawn { OnOk result (self.new.generations ≤ self.old.generations + drawn_by (Change.Map pid mapping) (mapped_in self.old.by_pid)) }
        ensures refused { IfErr result (λ error. MayEnd false None (self.old.generations + drawn_by (Change.Map pid mapping) (mapped_in self.old.by_pid)) 0 error
            ⊎ ((error ≡ EmptyMapping) × (mapping.end ≤ mapping.start))) }
    {
        if mapping.end <= mapping.start {
            return Err(StacksError::EmptyMapping);
        }
        let process = self.take(pid);
        let (mappings, made_of) = self.mappings_with(alloc, pid, mapping)?;
        let version = self.put(pid, mappings, made_of)?;
        if let Some(process) = process {
            let process = self.mapped(alloc, maker, process, mapping)?;
            self.keep(pid, version, process)?;
        }
        Ok(())
    }

    /// Begins a process without mappings, in the place of the one that has its number.
    fn begin(&mut self, alloc: Global, pid: u32) -> Result<(), StacksError>
        ensures mapped { OnOk result ((number : ℕ) → mapped_in self.new.by_pid number ≡ with_process pid [] (mapped_in self.old.by_pid) number) }
        ensures served { OnOk result ((module_of : Mapping → ModuleView) (cache : U.Cache)
            → IsServed module_of (λ view. U.is_sound view cache) self.old.ready self.old.generations
            → IsServed module_of (λ view. U.is_sound view cache) self.new.ready self.new.generations) }
        ensures drawn { self.new.generations ≤ self.old.generations + 1 }
        ensures refused { IfErr result (MayEnd false None (self.old.generations + 1) 0) }
    {
        self.take(pid);
        self.put(pid, SharedMappings::new(alloc)?, None)?;
        Ok(())
    }

    /// Begins a process with the mappings of another: without any where that one is not known.
    fn fork(&mut self, alloc: Global, pid: u32, parent: u32) -> Result<(), StacksError>
        ensures mapped { OnOk result ((number : ℕ) → mapped_in self.new.by_pid number ≡ with_process pid (mapped_in self.old.by_pid parent) (mapped_in self.old.by_pid) number) }
        ensures served { OnOk result ((module_of : Mapping → ModuleView) (cache : U.Cache)
            → IsServed module_of (λ view. U.is_sound view cache) self.old.ready self.old.generations
            → IsServed module_of (λ view. U.is_sound view cache) self.new.ready self.new.generations) }
        ensures drawn { self.new.generations ≤ self.old.generations + 1 }
        ensures refused { IfErr result (MayEnd false None (self.old.generations + 1) 0) }
    {
        let mapped = self.met(alloc, parent)?;
        self.by_pid.insert(pid, mapped)?;
        Ok(())
    }

    /// Returns the mappings of a process: one that is not known begins without mappings.
    fn met(&mut self, alloc: Global, pid: u32) -> Result<MappedProcess, StacksError>
        ensures met { IfOk result (λ mapped. get nat_cmp self.new.by_pid pid ≡ Some mapped) }
        ensures kept { OnOk result ((number : ℕ) → mapped_in self.new.by_pid number ≡ mapped_in self.old.by_pid number) }
        ensures ready { self.new.ready ≡ self.old.ready }
        ensures drawn { (self.old.generations ≤ self.new.generations) × (self.new.generations ≤ self.old.generations + 1) }
        ensures refused { IfErr result (MayEnd false None (self.old.generations + 1) 0) }
    {
        if let Some(mapped) = self.by_pid.get(&pid) {
            return Ok(mapped.clone()?);
        }
        let mappings = SharedMappings::new(alloc)?;
        let version = self.put(pid, mappings.clone()?, None)?;
        Ok(MappedProcess { version, mappings })
    }

    /// Returns the mappings of a process with a new one, and what they are made of.
    fn mappings_with(
        &self,
        alloc: Global,
        pid: u32,
        mapping: Mapping,
    ) -> Result<(SharedMappings, Option<MadeOf>), AllocError>
        requires { mapping.start < mapping.end }
        ensures mapped { IfOk result (λ made. made.0 ≡ with_mapping mapping (mapped_in self.now.by_pid pid)) }
        ensures made_of { IfOk result (λ made. IfSome made.1 (IsMadeOf self.now.by_pid made.0)) }
    {
        let Some(process) = self.by_pid.get(&pid) else {
            let mappings = SharedMappings::new(alloc)?.with_mapping(alloc, mapping)?;
            return Ok((mappings, None));
        };
        let number = process.version.number;
        let mappings = process.mappings.with_mapping(alloc, mapping)?;
        if process.mappings.overlaps(mapping) {
            return Ok((mappings, None));
        }
        Ok((mappings, Some(MadeOf { number, mapping })))
    }

    /// Stores the mappings of a process under a number of their own, in the place of those that it has, and returns which they
    /// are.
    fn put(
        &mut self,
        pid: u32,
        mappings: SharedMappings,
        made_of: Option<MadeOf>,
    ) -> Result<Version, StacksError>
        requires { IfSome made_of (IsMadeOf self.old.by_pid mappings) }
        ensures put { IfOk result (λ version. get nat_cmp self.new.by_pid pid ≡ Some (record { version = version; mappings = mappings })) }
        ensures mapped { OnOk result ((number : ℕ) → mapped_in self.new.by_pid number ≡ with_process pid mappings (mapped_in self.old.by_pid) number) }
        ensures ready { self.new.ready ≡ self.old.ready }
        ensures drawn { (self.old.generations ≤ self.new.generations) × (self.new.generations ≤ self.old.generations + 1) }
        ensures refused { IfErr result (MayEnd false None (self.old.generations + 1) 0) }
    {
        let Some(number) = self.generations.next() else {
            return Err(StacksError::GenerationsExhausted);
        };
        let version = Version { number, made_of };
        self.by_pid
            .insert(pid, MappedProcess { version, mappings })?;
        Ok(version)
    }

    /// Takes what is ready of a process out of those that are ready, if no other process has the same mappings.
    fn take(&mut self, pid: u32) -> Option<Process<U>>
        ensures had { IfSome result (λ process. process.mappings ≡ mapped_in self.old.by_pid pid) }
        ensures kept { (self.new.by_pid ≡ self.old.by_pid) × (self.new.generations ≡ self.old.generations) }
        ensures served { (module_of : Mapping → ModuleView) (cache : U.Cache)
            → IsServed module_of (λ view. U.is_sound view cache) self.old.ready self.old.generations
            → IsServed module_of (λ view. U.is_sound view cache) self.new.ready self.new.generations }
        ensures fits { (module_of : Mapping → ModuleView) (cache : U.Cache)
            → IsServed module_of (λ view. U.is_sound view cache) self.old.ready self.old.generations
            → IfSome result (IsFit module_of (λ view. U.is_sound view cache) self.new.ready self.new.generations) }
    {
        let mapped = self.by_pid.get(&pid)?;
        if mapped.mappings.is_shared() {
            return None;
        }
        self.ready.remove(&mapped.version.number)
    }

    /// Maps a file into a process that was taken.
    fn mapped<M: ModuleMaker<U>>(
        &mut self,
        alloc: Global,
        maker: &M,
        process: Process<U>,
        mapping: Mapping,
    ) -> Result<Process<U>, StacksError>
    where
        U::Module: Drop,
        requires { HasModules (M.module_of maker.now) process }
        ensures mapped { IfOk result (λ after. after.mappings ≡ with_mapping mapping process.mappings) }
        ensures kept { (self.new.by_pid ≡ self.old.by_pid) × (self.new.ready ≡ self.old.ready) }
        ensures served { OnOk result ((cache : U.Cache)
            → IsServed (M.module_of maker.now) (λ view. U.is_sound view cache) self.old.ready self.old.generations
            → IsServed (M.module_of maker.now) (λ view. U.is_sound view cache) self.new.ready self.new.generations) }
        ensures fits { IfOk result (λ after. (cache : U.Cache)
            → IsServed (M.module_of maker.now) (λ view. U.is_sound view cache) self.old.ready self.old.generations
            → IsFit (M.module_of maker.now) (λ view. U.is_sound view cache) self.new.ready self.new.generations after) }
        ensures drawn { OnOk result (self.new.generations ≡ self.old.generations + changed_modules mapping process.mappings) }
        ensures refused { IfErr result (λ error. MayEnd false None (self.old.generations + changed_modules mapping process.mappings) 0 error
            ⊎ ((error ≡ EmptyMapping) × (mapping.end ≤ mapping.start))) }
    {
        Ok(process.mapped(alloc, maker, mapping, &mut self.generations)?)
    }

    /// Makes room for a process of so many mappings, where those that are ready have too many together: takes the last one that
    /// was made, if it is like it, and else lets all go.
    fn make_room(&mut self, alloc: Global, mappings: usize) -> Option<Process<U>>
        ensures kept { (self.new.by_pid ≡ self.old.by_pid) × (self.new.generations ≡ self.old.generations) }
        ensures latest { IfSome result (λ near. get nat_cmp self.old.ready self.old.latest.number ≡ Some near) }
        ensures served { (module_of : Mapping → ModuleView) (cache : U.Cache)
            → IsServed module_of (λ view. U.is_sound view cache) self.old.ready self.old.generations
            → IsServed module_of (λ view. U.is_sound view cache) self.new.ready self.new.generations }
        ensures fits { (module_of : Mapping → ModuleView) (cache : U.Cache)
            → IsServed module_of (λ view. U.is_sound view cache) self.old.ready self.old.generations
            → IfSome result (HasModules module_of) }
    {
        let more = mappings.saturating_add(1);
        let together = self.ready_mappings.saturating_add(more);
        if together <= MOST_READY {
            self.ready_mappings = together;
            return None;
        }
        let near = self.take_latest(mappings);
        if near.is_none() {
            self.ready = BTreeMap::new(alloc);
            self.ready_mappings = more;
        }
        near
    }

    /// Takes the last process that was made out of those that are ready, if it has about so many mappings, and not few.
    fn take_latest(&mut self, mappings: usize) -> Option<Process<U>>
        ensures kept { (self.new.by_pid ≡ self.old.by_pid) × (self.new.generations ≡ self.old.generations) }
        ensures latest { IfSome result (λ near. get nat_cmp self.old.ready self.old.latest.number ≡ Some near) }
        ensures served { (module_of : Mapping → ModuleView) (cache : U.Cache)
            → IsServed module_of (λ view. U.is_sound view cache) self.old.ready self.old.generations
            → IsServed module_of (λ view. U.is_sound view cache) self.new.ready self.new.generations }
        ensures fits { (module_of : Mapping → ModuleView) (cache : U.Cache)
            → IsServed module_of (λ view. U.is_sound view cache) self.old.ready self.old.generations
            → IfSome result (HasModules module_of) }
    {
        let latest = self.ready.get(&self.latest.number)?;
        let difference = latest.mappings().len().abs_diff(mappings);
        if mappings < LEAST_EXCHANGED || difference > MOST_DIFFERENT {
            return None;
        }
        self.ready.remove(&self.latest.number)
    }

    /// Keeps a process as the one of the number of a process's mappings, which it has.
    fn keep(&mut self, pid: u32, version: Version, process: Process<U>) -> Result<(), StacksError>
        requires { get nat_cmp self.old.by_pid pid ≡ Some (record { version = version; mappings = process.mappings }) }
        ensures ready { OnOk result (IsSome (ready_in self.new.by_pid self.new.ready pid)) }
        ensures kept { (self.new.by_pid ≡ self.old.by_pid) × (self.new.generations ≡ self.old.generations) }
        ensures served { OnOk result ((module_of : Mapping → ModuleView) (cache : U.Cache)
            → IsServed module_of (λ view. U.is_sound view cache) self.old.ready self.old.generations
            → IsFit module_of (λ view. U.is_sound view cache) self.old.ready self.old.generations process
            → IsServed module_of (λ view. U.is_sound view cache) self.new.ready self.new.generations) }
        ensures refused { IfErr result (λ error. error ≡ OutOfMemory) }
    {
        self.latest = version;
        self.ready.insert(version.number, process)?;
        Ok(())
    }
}

/// Returns a process with these mappings, and an unwinder with their modules, of the next generation: one that has exchanged its
/// own for them, if one is given, or only what is told.
fn process_with<U: ProcessUnwinder, M: ModuleMaker<U>>(
    alloc: Global,
    maker: &M,
    near: Option<Process<U>>,
    exchange: Option<Exchange>,
    mappings: &SharedMappings,
    generations: &mut Generations,
) -> Result<Process<U>, ProcessesError>
where
    U::Module: Drop,
    requires modules { IfSome near (HasModules (M.module_of maker.now)) }
    requires exchange { IfSome near (λ near. IfSome exchange (λ exchange. LeadsTo exchange near.mappings mappings.now)) }
    ensures served { IfOk result (λ made. HasModules (M.module_of maker.now) made) }
    ensures mapped { IfOk result (λ made. made.mappings ≡ mappings.now) }
    ensures drawn { IfOk result (λ made. (made.unwinder.generation ≡ generations.old)
        × (generations.new ≡ generations.old + 1)) }
    ensures refused { IfErr result (λ error. ((error ≡ ProcessesError.EmptyMapping) → ⊥)
        × ((error ≡ ProcessesError.GenerationsExhausted) → (generations.old ≡ 2 ^ 64 - 1))) }
    ensures never_back { (generations.old ≤ generations.new) × (generations.new ≤ generations.old + 1) }
{
    match (near, exchange) {
        (Some(near), Some(Exchange { gone, come })) => {
            near.one_exchanged(alloc, maker, gone, come, generations)
        }
        (Some(near), None) => near.exchanged(alloc, maker, mappings, generations),
        (None, _) => Process::with_mappings(alloc, maker, mappings, generations),
    }
}
