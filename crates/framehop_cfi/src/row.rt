//! A row of a call frame table: how the CFA and the registers are found at an address.
ghost use Rattle.std.specs.Prelude.{◌≡◌, ◌<◌, length, position, IfOk, IfSome, IfErr, OnOk, OnErr, IsErrOf, None};
ghost use Rattle.framehop_cfi.specs.Row.{empty_row, rule_of, is_of, with_rule, without_rule};
ghost use Rattle.framehop_cfi.specs.RememberedLog.{undone};
ghost use Rattle.framehop_cfi.specs.Outcome.{Becomes};

use crate::read_error::ReadError;
use crate::rule::{CfaRule, Register, RegisterRule};
use crate::storage::UnwindContextStorage;
use std::alloc::{AllocError, Global};
use std::marker::{Model, PhantomData};

/// A change of a row's rules, as what undoes it.
#[derive(Clone, Copy)]
pub(crate) enum RuleChange {
    /// Another rule was set at a place.
    Set {
        place: usize,
        was: (Register, RegisterRule),
    },
    /// A rule was added at the end.
    Added,
    /// The rule at a place was taken away.
    Removed {
        place: usize,
        was: (Register, RegisterRule),
    },
}

/// A row of a call frame table.
#[derive(Drop)]
pub struct UnwindTableRow<S: UnwindContextStorage> {
    cfa: CfaRule,
    rules: Vec<(Register, RegisterRule)>,
    storage: PhantomData<S>,
}

impl<S: UnwindContextStorage> Model for UnwindTableRow<S> {
    ghost use Rattle.framehop_cfi.specs.Row.{Row, HasRoom};
    ghost use Rattle.std.specs.Prelude.{vec_len, vec_capacity};

    ghost Value = { Row };

    ghost view = { λ row. record { cfa = row.cfa; rules = row.rules.items } };

    ghost invariant = { λ row. HasRoom S.limits (vec_len row.rules) (vec_capacity row.rules) };
}

impl<S: UnwindContextStorage> UnwindTableRow<S> {
    /// Returns an empty row, whose CFA is register 0, with the room that the storage wants.
    pub(crate) fn new(alloc: Global) -> Result<Self, AllocError>
        ensures { IfOk result (λ row. row ≡ empty_row) }
    {
        let rules = match S::limits() {
            Some(limits) => Vec::with_capacity(alloc, limits.rules)?,
            None => Vec::new(alloc),
        };
        Ok(UnwindTableRow {
            cfa: CfaRule::RegisterAndOffset {
                register: Register(0),
                offset: 0,
            },
            rules,
            storage: PhantomData,
        })
    }

    /// Returns how the CFA is found.
    pub fn cfa(&self) -> &CfaRule
        ensures { result.now ≡ self.now.cfa }
    {
        &self.cfa
    }

    /// Sets how the CFA is found.
    pub(crate) fn set_cfa(&mut self, cfa: CfaRule)
        ensures { self.new ≡ record self.old { cfa = cfa } }
    {
        self.cfa = cfa;
    }

    /// Sets how a register is found. A refusal leaves the row as it was.
    #[inline]
    #[tactic(auto, unfolding(crate::specs::Row::with_rule))]
    pub(crate) fn set_rule(
        &mut self,
        register: Register,
        rule: RegisterRule,
    ) -> Result<(), ReadError>
        ensures cfa { self.new.cfa ≡ self.old.cfa }
        ensures rules { Becomes result self.new.rules (with_rule S.limits register rule self.old.rules) }
        ensures kept { OnErr result (self.new ≡ self.old) }
        ensures memory { IsErrOf result ReadError.OutOfMemory → S.limits ≡ None }
    {
        match place_of(&self.rules, register) {
            Some(place) => {
                self.rules[place] = (register, rule);
                Ok(())
            }
            None => {
                if let Some(limits) = S::limits()
                    && self.rules.len() >= limits.rules
                {
                    return Err(ReadError::TooManyRules);
                }
                Ok(self.rules.push((register, rule))?)
            }
        }
    }

    /// Takes a register's rule away, if it has one.
    #[tactic(auto, unfolding(crate::specs::Row::without_rule))]
    pub(crate) fn remove_rule(&mut self, register: Register)
        ensures { self.new ≡ record self.old { rules = without_rule register self.old.rules } }
    {
        if let Some(place) = place_of(&self.rules, register) {
            self.rules.remove(place);
        }
    }

    /// Undoes the latest change of the rules. A rule that was taken away has room where it was: the room never shrinks.
    pub(crate) fn undo(&mut self, change: RuleChange) -> Result<(), ReadError>
        requires { S.limits ≡ None }
        ensures ok { OnOk result (self.new ≡ record self.old { rules = undone change self.old.rules }) }
        ensures error { IfErr result (λ error. error ≡ ReadError.OutOfMemory) }
    {
        match change {
            RuleChange::Set { place, was } => {
                if place < self.rules.len() {
                    self.rules[place] = was;
                }
            }
            RuleChange::Added => {
                self.rules.pop();
            }
            RuleChange::Removed { place, was } => {
                self.rules.insert(place.min(self.rules.len()), was)?;
            }
        }
        Ok(())
    }

    /// Returns the place of that register's rule among the rules.
    pub(crate) fn place(&self, register: Register) -> Option<usize>
        ensures exact { result ≡ position (is_of register) self.now.rules }
        ensures within { IfSome result (λ place. place < length self.now.rules) }
    {
        place_of(&self.rules, register)
    }

    /// Returns how that register is found, or `None` where the row says nothing of it.
    pub fn register(&self, register: Register) -> Option<RegisterRule>
        ensures { result ≡ rule_of self.now.rules register }
    {
        rule_in(&self.rules, register)
    }

    /// Returns the registers that have a rule, with it: of each the first is its rule.
    #[inline]
    pub fn registers(&self) -> &[(Register, RegisterRule)]
        ensures { result.now ≡ self.now.rules }
    {
        self.rules.as_slice()
    }

    /// Gives this row the rules of another.
    pub(crate) fn copy_rules(&mut self, other: &Self) -> Result<(), ReadError>
        ensures ok { OnOk result (self.new ≡ record self.old { rules = other.now.rules }) }
        ensures memory { OnErr result (S.limits ≡ None) }
        ensures error { IfErr result (λ error. error ≡ ReadError.OutOfMemory) }
        ensures room { OnErr result (0 < length other.now.rules) }
    {
        self.rules.clear();
        self.rules.extend_from_slice(&other.rules)?;
        Ok(())
    }

    /// Makes this row equal to another.
    pub(crate) fn copy_from(&mut self, other: &Self) -> Result<(), ReadError>
        ensures ok { OnOk result (self.new ≡ other.now) }
        ensures memory { OnErr result (S.limits ≡ None) }
        ensures error { IfErr result (λ error. error ≡ ReadError.OutOfMemory) }
        ensures room { OnErr result (0 < length other.now.rules) }
    {
        self.copy_rules(other)?;
        self.cfa = other.cfa;
        Ok(())
    }

    /// Makes this row empty, its CFA register 0.
    pub(crate) fn clear(&mut self)
        ensures { self.new ≡ empty_row }
    {
        self.rules.clear();
        self.cfa = CfaRule::RegisterAndOffset {
            register: Register(0),
            offset: 0,
        };
    }
}

/// Returns the place of a register's rule.
fn place_of(rules: &[(Register, RegisterRule)], register: Register) -> Option<usize>
    ensures exact { result ≡ position (is_of register) rules.now }
    ensures within { IfSome result (λ place. place < length rules.now) }
{
    rules.iter().position(|entry| entry.0.0 == register.0)
}

/// Returns the rule of a register.
fn rule_in(rules: &[(Register, RegisterRule)], register: Register) -> Option<RegisterRule>
    ensures { result ≡ rule_of rules.now register }
{
    rules
        .iter()
        .find(|entry| entry.0.0 == register.0)
        .map(|entry| entry.1)
}
