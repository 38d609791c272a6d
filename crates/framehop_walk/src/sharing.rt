//! Clones that are one unwinder with their original until one of the two is changed.
// The commands of the input become those of a session that clones an unwinder only where it is to be changed and is more than
// one of the input: a clone that is not changed takes no memory for modules.
ghost use Rattle.std.specs.Prelude.{◌≡◌, ◌<◌, ◌++◌, ◌∷◌, [], ℕ, true, false, IfOk, OnOk, map, length, slice_index_or};
ghost use Rattle.std.specs.Vec.Iter.{into_iter_items};
ghost use Rattle.framehop.specs.CachedWorld.{CachedWorld, cached_replies, empty_cached_world};
ghost use Rattle.framehop.specs.SessionView.{reply_view};
ghost use Rattle.framehop_walk.specs.Sharing.{tell, told_by, listed, told_reply, left_after, times, place_in, plan_of, IsCounted, Owns, Takes, IsSharedBy};

use crate::registers::Registers;
use framehop::AllocationPolicy;
use framehop::session::{Command, Reply};
use std::alloc::{AllocError, Global};
use std::vec;

/// Where the reply to a command of the input is among the replies of the session.
#[derive(Clone, Copy, Drop)]
pub(crate) enum Told {
    /// It is the next one.
    Next,

    /// It is the one after the next, which is to a clone that the input does not ask for.
    AfterClone,

    /// It is the number of the unwinder that is made, for which the session does nothing.
    Made(usize),

    /// It is the next one, with this number of the unwinder that is made.
    Numbered(usize),
}

/// The commands for a session, and where its replies to those of the input are.
#[derive(Drop)]
pub(crate) struct Shared<R> {
    pub(crate) commands: Vec<Command<Vec<u8>, R>>,
    pub(crate) told: Vec<Told>,
}

/// Which unwinder of the session each unwinder of the input is.
#[derive(Drop)]
pub(crate) struct Sharing<R> {
    /// For each unwinder of the input the number of the session's.
    places: Vec<usize>,
    /// For each unwinder of the session how many of the input it is.
    counts: Vec<usize>,
    /// The commands for the session.
    commands: Vec<Command<Vec<u8>, R>>,
    /// For each command of the input where its reply is.
    told: Vec<Told>,
}

/// Returns commands whose replies tell those to the commands of the input, and which clone an unwinder only where it is to be
/// changed.
pub(crate) fn share_clones<A: Registers, P: AllocationPolicy>(
    alloc: Global,
    commands: Vec<Command<Vec<u8>, A::UnwindRegs>>,
) -> Result<Shared<A::UnwindRegs>, AllocError>
    ensures { (caches next : ℕ) → IfOk result (λ shared.
        let start : CachedWorld A.UnwindRule = empty_cached_world caches next in
        cached_replies (A.unwinding P.policy) start commands.items
        ≡ told_by shared.told.items (cached_replies (A.unwinding P.policy) start shared.commands.items)) }
{
    let mut sharing: Sharing<A::UnwindRegs> = Sharing::new(alloc);
    for command in commands {
        take_command::<A, P>(&mut sharing, command)?;
    }
    Ok(Shared {
        commands: sharing.commands,
        told: sharing.told,
    })
}

/// Takes the next command of the input.
fn take_command<A: Registers, P: AllocationPolicy>(
    sharing: &mut Sharing<A::UnwindRegs>,
    command: Command<Vec<u8>, A::UnwindRegs>,
) -> Result<(), AllocError>
    requires { IsCounted sharing.old.places.items sharing.old.counts.items }
    ensures counted { OnOk result (IsCounted sharing.new.places.items sharing.new.counts.items) }
    ensures takes { OnOk result (Takes (A.unwinding P.policy) command (plan_of sharing.old) (plan_of sharing.new)) }
{
    match command {
        Command::New => sharing.make(),
        Command::Clone { unwinder } => sharing.share(unwinder),
        Command::Add { unwinder, module } => {
            let (place, told) = sharing.own(unwinder)?;
            let add = Command::Add {
                unwinder: place,
                module,
            };
            sharing.push(add, told)
        }
        Command::Remove { unwinder, start } => {
            let (place, told) = sharing.own(unwinder)?;
            let remove = Command::Remove {
                unwinder: place,
                start,
            };
            sharing.push(remove, told)
        }
        Command::Step {
            unwinder,
            cache,
            address,
            regs,
            memory,
        } => {
            let step = Command::Step {
                unwinder: sharing.place_of(unwinder),
                cache,
                address,
                regs,
                memory,
            };
            sharing.push(step, Told::Next)
        }
        Command::Walk {
            unwinder,
            cache,
            pc,
            regs,
            memory,
            limit,
        } => {
            let walk = Command::Walk {
                unwinder: sharing.place_of(unwinder),
                cache,
                pc,
                regs,
                memory,
                limit,
            };
            sharing.push(walk, Told::Next)
        }
        Command::Stats { cache } => sharing.push(Command::Stats { cache }, Told::Next),
    }
}

impl<R: Drop> Sharing<R> {
    /// No unwinder, and no command.
    fn new(alloc: Global) -> Self
        ensures { plan_of result ≡ record { places = []; counts = []; commands = []; told = [] } }
    {
        Sharing {
            places: Vec::new(alloc),
            counts: Vec::new(alloc),
            commands: Vec::new(alloc),
            told: Vec::new(alloc),
        }
    }

    /// Has the session do a command.
    fn push(&mut self, command: Command<Vec<u8>, R>, told: Told) -> Result<(), AllocError>
        ensures places { self.new.places.items ≡ self.old.places.items }
        ensures counts { self.new.counts.items ≡ self.old.counts.items }
        ensures commands { OnOk result (self.new.commands.items ≡ self.old.commands.items ++ command ∷ []) }
        ensures told { OnOk result (self.new.told.items ≡ self.old.told.items ++ told ∷ []) }
    {
        self.commands.push(command)?;
        self.told.push(told)?;
        Ok(())
    }

    /// Makes an unwinder.
    fn make(&mut self) -> Result<(), AllocError>
        ensures places { OnOk result (self.new.places.items ≡ self.old.places.items ++ length self.old.counts.items ∷ []) }
        ensures counts { OnOk result (self.new.counts.items ≡ self.old.counts.items ++ 1 ∷ []) }
        ensures commands { OnOk result (self.new.commands.items ≡ self.old.commands.items ++ Command.New ∷ []) }
        ensures told { OnOk result (self.new.told.items
            ≡ self.old.told.items ++ Told.Numbered (length self.old.places.items) ∷ []) }
    {
        let number = self.places.len();
        self.places.push(self.counts.len())?;
        self.counts.push(1)?;
        self.push(Command::New, Told::Numbered(number))
    }

    /// Makes a clone of an unwinder, which is the same one of the session. Where there is no such unwinder, the session refuses it.
    fn share(&mut self, unwinder: usize) -> Result<(), AllocError>
        requires { IsCounted self.old.places.items self.old.counts.items }
        ensures { OnOk result (IsSharedBy (plan_of self.old) (plan_of self.new) unwinder) }
    {
        let number = self.places.len();
        let place = self.place_of(unwinder);
        if unwinder >= number {
            return self.push(Command::Clone { unwinder: place }, Told::Next);
        }
        self.counts[place] += 1;
        self.places.push(place)?;
        self.told.push(Told::Made(number))?;
        Ok(())
    }

    /// Returns the session's unwinder for one of the input, and the number of one that is not there where there is none.
    fn place_of(&self, unwinder: usize) -> usize
        ensures { result ≡ place_in self.now.places.items self.now.counts.items unwinder }
    {
        match self.places.get(unwinder) {
            Some(place) => *place,
            None => self.counts.len(),
        }
    }

    /// Returns the session's unwinder for one of the input that is to be changed. Where it is others, too, the session clones it
    /// first.
    fn own(&mut self, unwinder: usize) -> Result<(usize, Told), AllocError>
        requires { IsCounted self.old.places.items self.old.counts.items }
        ensures counted { OnOk result (IsCounted self.new.places.items self.new.counts.items) }
        ensures owns { IfOk result (λ owned. Owns (plan_of self.old) (plan_of self.new) unwinder owned.0 owned.1) }
    {
        let place = self.place_of(unwinder);
        if !self.is_shared(unwinder) {
            return Ok((place, Told::Next));
        }
        let copy = self.counts.len();
        self.counts[place] -= 1;
        self.counts.push(1)?;
        self.places[unwinder] = copy;
        self.commands.push(Command::Clone { unwinder: place })?;
        Ok((copy, Told::AfterClone))
    }

    /// Returns whether the session's unwinder for one of the input is others, too.
    fn is_shared(&self, unwinder: usize) -> bool
        requires { IsCounted self.now.places.items self.now.counts.items }
        ensures shared { result ≡ true → unwinder < length self.now.places.items }
        ensures alone { result ≡ false → unwinder < length self.now.places.items
            → times (slice_index_or self.now.places.items unwinder 0) self.now.places.items ≡ 1 }
    {
        match self.places.get(unwinder) {
            Some(place) => self.counts[*place] != 1,
            None => false,
        }
    }
}

/// Returns the replies to the commands of the input, by those of the session.
pub(crate) fn replies_told<R: Drop>(
    alloc: Global,
    told: Vec<Told>,
    replies: Vec<Reply<R>>,
) -> Result<Vec<Reply<R>>, AllocError>
    ensures { IfOk result (λ all. map reply_view all.items ≡ tell told.items (map reply_view replies.items)) }
{
    let mut all = Vec::new(alloc);
    let mut left = replies.into_iter();
    for one in told {
        if let Some(reply) = next_reply(one, &mut left) {
            all.push(reply)?;
        }
    }
    Ok(all)
}

/// Returns the next reply, and takes those of the session that it is of.
fn next_reply<R: Drop>(told: Told, left: &mut vec::IntoIter<Reply<R>>) -> Option<Reply<R>>
    ensures reply { map reply_view (listed result) ≡ told_reply told (map reply_view (into_iter_items left.old)) }
    ensures left { map reply_view (into_iter_items left.new) ≡ left_after told (map reply_view (into_iter_items left.old)) }
{
    match told {
        Told::Next => left.next(),
        Told::AfterClone => {
            let _cloned = left.next();
            left.next()
        }
        Told::Made(number) => Some(Reply::Made(number)),
        Told::Numbered(number) => {
            let _made = left.next();
            Some(Reply::Made(number))
        }
    }
}
