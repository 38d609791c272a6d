//! Mappings that processes share until one of them maps something.
ghost use Rattle.std.specs.Prelude.{◌≡◌, ◌<◌, ◌-◌, ◌^◌, ◌++◌, ◌∷◌, [], length, min, IfOk, OnOk};
ghost use Rattle.std.specs.List.{list_any};
ghost use Rattle.framehop_processes.specs.Mappings.{IsInOrder, with_mapping, below, above, overlaps};
ghost use Rattle.framehop_processes.specs.Shared.{outweighs};

use crate::around::{part_above, part_below};
use crate::mapping::Mapping;
use std::alloc::{AllocError, Global};
use std::marker::Model;
use std::rc::Rc;

/// One side of a fork has at most so many times the weight of the other, which is one more than how many mappings it has.
///
/// Source: Y. Hirai, K. Yamamoto, "Balancing weight-balanced trees", Journal of Functional Programming 21 (2011).
const DELTA: usize = 3;

/// The inner part of a side that is too heavy moves with the outer one, unless it has at least so many times as many
/// mappings.
const RATIO: usize = 2;

/// Mappings in order of start. A clone shares them, and a change makes few of them anew.
#[derive(Drop)]
pub struct SharedMappings {
    tree: Rc<Tree>,
}

/// Mappings as a tree.
#[cycle(tree)]
#[derive(Drop)]
struct Tree {
    node: Node,
}

/// A mapping between those before it and those after it, or none.
#[cycle(tree)]
#[derive(Drop)]
enum Node {
    Empty,
    Fork {
        before: Rc<Tree>,
        mapping: Mapping,
        after: Rc<Tree>,
        /// How many mappings there are, with those of both sides.
        count: usize,
    },
}

impl Model for Tree {
    ghost use Rattle.std.specs.Prelude.{List, length};
    ghost use Rattle.framehop_processes.specs.declared.mapping.Mapping.{Mapping};

    ghost Value = { List Mapping };

    ghost use Rattle.framehop_processes.specs.Shared.{listed, IsCounted};

    ghost view = { λ tree. listed tree.node };

    ghost invariant = { λ tree. IsCounted tree.node };

    ghost size = { length };

    ghost use Rattle.std.proofs.Common.{arith, length-append};

    ghost size_decreases = { λ tree h. Prim.grind (arith, length-append) };
}

impl Model for SharedMappings {
    ghost use Rattle.std.specs.Prelude.{List};
    ghost use Rattle.framehop_processes.specs.declared.mapping.Mapping.{Mapping};
    ghost use Rattle.framehop_processes.specs.Mappings.{IsInOrder};

    ghost Value = { List Mapping };

    ghost view = { λ shared. shared.tree.value };

    ghost invariant = { λ shared. IsInOrder 0 shared.tree.value };
}

impl Clone for SharedMappings {
    ghost is_clone = { λ shared copy. copy ≡ shared };

    fn clone(&self) -> Result<Self, AllocError> {
        Ok(SharedMappings {
            tree: self.tree.clone()?,
        })
    }
}

impl SharedMappings {
    /// Returns no mappings.
    pub fn new(alloc: Global) -> Result<Self, AllocError>
        ensures { IfOk result (λ mappings. mappings ≡ []) }
    {
        Ok(SharedMappings {
            tree: Rc::new(alloc, Tree { node: Node::Empty })?,
        })
    }

    /// Returns how many mappings there are, at most 2^64 - 1.
    pub fn len(&self) -> usize
        ensures { result ≡ min (length self.now) (2 ^ 64 - 1) }
    {
        self.tree.len()
    }

    /// Returns whether other clones have these mappings, too. Nothing that is promised depends on it.
    pub fn is_shared(&self) -> bool {
        Rc::strong_count(&self.tree) > 1
    }

    /// Returns whether one of these mappings has an address of a new one.
    pub fn overlaps(&self, new: Mapping) -> bool
        ensures value { result ≡ list_any (overlaps new) self.now }
        ensures ordered { IsInOrder 0 self.now }
    {
        self.tree.overlaps(new)
    }

    /// Returns these mappings with a new one, which has an address, in the place of what it overlaps: of an overlapped
    /// mapping what lies outside the new one stays.
    ///
    /// Source: mmap(2), MAP_FIXED; munmap(2).
    pub fn with_mapping(&self, alloc: Global, new: Mapping) -> Result<SharedMappings, AllocError>
        requires { new.start < new.end }
        ensures { IfOk result (λ mappings. mappings ≡ with_mapping new self.now) }
    {
        let below = below(alloc, &self.tree, new.start)?;
        let above = above(alloc, &self.tree, new.end)?;
        let tree = joined(alloc, below, new, above)?;
        Ok(SharedMappings { tree })
    }

    /// Returns the mappings as a list, in order of start.
    pub(crate) fn to_list(&self, alloc: Global) -> Result<Vec<Mapping>, AllocError>
        ensures value { IfOk result (λ list. list.items ≡ self.now) }
        ensures ordered { IsInOrder 0 self.now }
    {
        let mut list = Vec::with_capacity(alloc, self.tree.len())?;
        self.tree.append_to(&mut list)?;
        Ok(list)
    }
}

impl Tree {
    /// Returns how many mappings there are, at most 2^64 - 1.
    fn len(&self) -> usize
        ensures { result ≡ min (length self.now) (2 ^ 64 - 1) }
    {
        match &self.node {
            Node::Empty => 0,
            Node::Fork { count, .. } => *count,
        }
    }

    /// Looks for a mapping that has an address of a new one, by a way down the tree.
    fn overlaps(&self, new: Mapping) -> bool
        requires { IsInOrder 0 self.now }
        ensures { result ≡ list_any (overlaps new) self.now }
    {
        match &self.node {
            Node::Empty => false,
            Node::Fork {
                before,
                mapping,
                after,
                ..
            } => {
                if new.end <= mapping.start {
                    return before.overlaps(new);
                }
                if mapping.end <= new.start {
                    return after.overlaps(new);
                }
                true
            }
        }
    }

    /// Appends the mappings to a list, in order.
    fn append_to(&self, list: &mut Vec<Mapping>) -> Result<(), AllocError>
        ensures { OnOk result (list.new.items ≡ list.old.items ++ self.now) }
    {
        match &self.node {
            Node::Empty => Ok(()),
            Node::Fork {
                before,
                mapping,
                after,
                ..
            } => {
                before.append_to(list)?;
                list.push(*mapping)?;
                after.append_to(list)
            }
        }
    }
}

/// Returns what of mappings lies below an address (AVMA).
fn below(alloc: Global, tree: &Rc<Tree>, address: u64) -> Result<Rc<Tree>, AllocError>
    requires { IsInOrder 0 tree.now.value }
    ensures { IfOk result (λ kept. kept.value ≡ below address tree.now.value) }
{
    match &tree.node {
        Node::Empty => tree.clone(),
        Node::Fork {
            before,
            mapping,
            after,
            ..
        } => {
            if address <= mapping.start {
                return below(alloc, before, address);
            }
            let after = below(alloc, after, address)?;
            joined(alloc, before.clone()?, part_below(address, *mapping), after)
        }
    }
}

/// Returns what of mappings lies at or above an address (AVMA).
fn above(alloc: Global, tree: &Rc<Tree>, address: u64) -> Result<Rc<Tree>, AllocError>
    requires { IsInOrder 0 tree.now.value }
    ensures { IfOk result (λ kept. kept.value ≡ above address tree.now.value) }
{
    match &tree.node {
        Node::Empty => tree.clone(),
        Node::Fork {
            before,
            mapping,
            after,
            ..
        } => {
            if mapping.end <= address {
                return above(alloc, after, address);
            }
            let before = above(alloc, before, address)?;
            joined(alloc, before, part_above(address, *mapping), after.clone()?)
        }
    }
}

/// Returns a tree of a mapping and those before and after it, of which one side may have any number of times as many as the
/// other.
fn joined(
    alloc: Global,
    left: Rc<Tree>,
    new: Mapping,
    right: Rc<Tree>,
) -> Result<Rc<Tree>, AllocError>
    ensures { IfOk result (λ tree. tree.value ≡ left.value ++ new ∷ right.value) }
{
    if let Node::Fork {
        before,
        mapping,
        after,
        ..
    } = &right.node
        && outweighs(right.len(), left.len())
    {
        let front = joined(alloc, left, new, before.clone()?)?;
        return balanced(alloc, front, *mapping, after.clone()?);
    }
    if let Node::Fork {
        before,
        mapping,
        after,
        ..
    } = &left.node
        && outweighs(left.len(), right.len())
    {
        let back = joined(alloc, after.clone()?, new, right)?;
        return balanced(alloc, before.clone()?, *mapping, back);
    }
    forked(alloc, left, new, right)
}

/// Returns a tree of a mapping and those before and after it, of which one side may have a few more than it should.
fn balanced(
    alloc: Global,
    left: Rc<Tree>,
    new: Mapping,
    right: Rc<Tree>,
) -> Result<Rc<Tree>, AllocError>
    ensures { IfOk result (λ tree. tree.value ≡ left.value ++ new ∷ right.value) }
{
    if let Node::Fork {
        before,
        mapping,
        after,
        ..
    } = &right.node
        && outweighs(right.len(), left.len())
    {
        return turned_left(alloc, left, new, before, *mapping, after);
    }
    if let Node::Fork {
        before,
        mapping,
        after,
        ..
    } = &left.node
        && outweighs(left.len(), right.len())
    {
        return turned_right(alloc, before, *mapping, after, new, right);
    }
    forked(alloc, left, new, right)
}

/// Returns a tree of two mappings and those before, between and after them, of which most are after the first.
fn turned_left(
    alloc: Global,
    left: Rc<Tree>,
    first: Mapping,
    middle: &Rc<Tree>,
    second: Mapping,
    right: &Rc<Tree>,
) -> Result<Rc<Tree>, AllocError>
    ensures { IfOk result (λ tree. tree.value ≡ left.value ++ first ∷ (middle.now.value ++ second ∷ right.now.value)) }
{
    if let Node::Fork {
        before,
        mapping,
        after,
        ..
    } = &middle.node
        && middle.len() / RATIO >= right.len()
    {
        let front = forked(alloc, left, first, before.clone()?)?;
        let back = forked(alloc, after.clone()?, second, right.clone()?)?;
        return forked(alloc, front, *mapping, back);
    }
    let front = forked(alloc, left, first, middle.clone()?)?;
    forked(alloc, front, second, right.clone()?)
}

/// Returns a tree of two mappings and those before, between and after them, of which most are before the second.
fn turned_right(
    alloc: Global,
    left: &Rc<Tree>,
    first: Mapping,
    middle: &Rc<Tree>,
    second: Mapping,
    right: Rc<Tree>,
) -> Result<Rc<Tree>, AllocError>
    ensures { IfOk result (λ tree. tree.value ≡ (left.now.value ++ first ∷ middle.now.value) ++ second ∷ right.value) }
{
    if let Node::Fork {
        before,
        mapping,
        after,
        ..
    } = &middle.node
        && middle.len() / RATIO >= left.len()
    {
        let front = forked(alloc, left.clone()?, first, before.clone()?)?;
        let back = forked(alloc, after.clone()?, second, right)?;
        return forked(alloc, front, *mapping, back);
    }
    let back = forked(alloc, middle.clone()?, second, right)?;
    forked(alloc, left.clone()?, first, back)
}

/// Returns a tree of a mapping and those before and after it.
fn forked(
    alloc: Global,
    before: Rc<Tree>,
    mapping: Mapping,
    after: Rc<Tree>,
) -> Result<Rc<Tree>, AllocError>
    ensures { IfOk result (λ tree. tree.value ≡ before.value ++ mapping ∷ after.value) }
{
    let count = before.len().saturating_add(after.len()).saturating_add(1);
    let node = Node::Fork {
        before,
        mapping,
        after,
        count,
    };
    Ok(Rc::new(alloc, Tree { node })?)
}

/// Returns whether one side of a fork has too many mappings for those of the other.
fn outweighs(count: usize, other: usize) -> bool
    ensures { result ≡ outweighs count other }
{
    count / DELTA > other
}
