ghost use Rattle.std.specs.Prelude.{◌≡◌, ◌↔◌, ◌<◌, ◌≤◌, ℕ, ◌&&◌, Bool, IsOk, OnOk, Option};
ghost use Rattle.fusion_rules.specs.Fusion.{AreRules, AddsTriple, Allowed, fuses, unit_fuses, place};
ghost use Rattle.fusion_rules.specs.First.{Answers};
ghost use Rattle.fusion_rules.specs.Check.{IsDual, RulesPass, dual_of, rules_fault};

use crate::check::first_fault;
use crate::label::{LABEL_LIMIT, UNIT};
use std::marker::Model;

/// One truth value for each triple of label numbers below [`LABEL_LIMIT`].
const PLACES: usize = 1728;

/// Why a triple isn't added to rules.
#[derive(Clone, Copy, Debug, PartialEq, Eq)]
pub enum RuleRefused {
    /// The first or the second label is the unit, whose triples are there from the start.
    Unit,
    /// The triple is there already.
    Repeated,
}

/// Why rules aren't those of a fusion category.
#[derive(Clone, Copy, Debug, PartialEq, Eq)]
pub enum RulesFault {
    /// Labels a, b, c with N(a,b,c) unlike N(b,a,c).
    NotCommutative(u8, u8, u8),
    /// Labels a, b, c, d for which the number of e with N(a,b,e) and N(e,c,d) isn't the number of f with
    /// N(b,c,f) and N(a,f,d).
    NotAssociative(u8, u8, u8, u8),
    /// A label a without exactly one b such that N(a,b,1).
    NoSingleDual(u8),
}

/// The fusion rules of 1 to 12 labels: a set of triples a, b, c, where c occurs in a times b.
///
/// The unit triples, `1 a a` and `a 1 a` for each label a, are always in the set. No call takes memory.
#[derive(Drop)]
pub struct Rules {
    count: u8,
    table: [bool; PLACES],
}

impl Model for Rules {
    ghost use Rattle.fusion_rules.specs.Fusion.{Fusion, AreRules};

    ghost Value = { Fusion };

    ghost view = { λ r. record { count = r.count; table = r.table } };

    ghost invariant = { λ r. AreRules (record { count = r.count; table = r.table }) };
}

fn place(a: u8, b: u8, c: u8) -> usize
    requires first { a < LABEL_LIMIT }
    requires second { b < LABEL_LIMIT }
    requires third { c < LABEL_LIMIT }
    ensures value { result ≡ place a b c }
    ensures inside { result < 1728 }
{
    (a as usize * LABEL_LIMIT + b as usize) * LABEL_LIMIT + c as usize
}

impl Rules {
    /// The rules of 1 to 12 labels that have the unit triples and no others.
    pub fn new(count: u8) -> Rules
        requires some { 0 < count }
        requires few { count ≤ LABEL_LIMIT }
        ensures count { result.count ≡ count }
        ensures triples { (a b c : ℕ) → fuses result a b c ≡ unit_fuses count a b c }
    {
        let mut table = [false; PLACES];
        for a in 0..count {
            table[place(UNIT, a, a)] = true;
            table[place(a, UNIT, a)] = true;
        }
        Rules { count, table }
    }

    /// Adds the triple a, b, c of labels below the count, so that c occurs in a times b.
    ///
    /// Refuses `Unit` exactly where a or b is the unit, else `Repeated` exactly where the triple is there.
    /// Refused, the rules are unchanged. The mirrored triple b, a, c is another triple.
    pub fn allow(&mut self, a: u8, b: u8, c: u8) -> Result<(), RuleRefused>
        requires first { a < self.old.count }
        requires second { b < self.old.count }
        requires third { c < self.old.count }
        ensures told { Allowed result self.old self.new a b c }
        ensures triples { OnOk result (AddsTriple self.old self.new a b c) }
    {
        let _ = &self.count;
        if a == UNIT || b == UNIT {
            return Err(RuleRefused::Unit);
        }
        let at = place(a, b, c);
        if self.table[at] {
            return Err(RuleRefused::Repeated);
        }
        self.table[at] = true;
        Ok(())
    }

    /// Whether c occurs in a times b, for labels below the count.
    pub fn allows(&self, a: u8, b: u8, c: u8) -> bool
        requires first { a < self.now.count }
        requires second { b < self.now.count }
        requires third { c < self.now.count }
        ensures { result ≡ fuses self.now a b c }
    {
        let _ = &self.count;
        self.table[place(a, b, c)]
    }

    /// How many labels there are: 1 to 12.
    pub fn count(&self) -> u8
        ensures count { result ≡ self.now.count }
        ensures rules { AreRules self.now }
    {
        self.count
    }

    /// Whether the rules commute, associate and have single duals.
    ///
    /// Answers the first fault: the first of all `NotCommutative` in the order of the labels a, b, c, else the
    /// first of all `NotAssociative` in the order of a, b, c, d, else the first `NoSingleDual`.
    #[tactic(auto, using(crate::proofs::PassLemmas::answers_pass))]
    pub fn check(&self) -> Result<(), RulesFault>
        ensures first { Answers result (rules_fault self.now.count (fuses self.now)) }
        ensures passes { IsOk result ↔ RulesPass self.now.count (fuses self.now) }
    {
        first_fault(self)
    }

    /// The dual of a label below the count: the one label b with N(a,b,1). Asks that the rules pass.
    #[tactic(auto, using(crate::proofs::FaultLemmas::next))]
    pub fn dual(&self, a: u8) -> u8
        requires label { a < self.now.count }
        requires pass { RulesPass self.now.count (fuses self.now) }
        ensures value { result ≡ dual_of self.now.count (fuses self.now) a }
        ensures dual { IsDual self.now.count (fuses self.now) a result }
    {
        for b in 0..self.count() {
            if self.allows(a, b, UNIT) {
                return b;
            }
        }
        unreachable!()
    }
}

#[cfg(test)]
mod tests {
    use super::*;
    use std::test::Fail;

    // Ising: s times s is 1 and p, s times p is s, p times p is 1.
    #[test]
    fn ising(rt: HostRuntime) -> Result<(), Fail> {
        let mut rules = Rules::new(3);
        rules.allow(1, 1, 0)?;
        rules.allow(1, 1, 2)?;
        rules.allow(1, 2, 1)?;
        assert_eq!(rt; rules.check(), Err(RulesFault::NotCommutative(1, 2, 1)));
        rules.allow(2, 1, 1)?;
        assert_eq!(rt; rules.check(), Err(RulesFault::NotAssociative(1, 1, 2, 0)));
        rules.allow(2, 2, 0)?;
        assert_eq!(rt; rules.count(), 3);
        assert!(rt; rules.allows(1, 1, 2) && !rules.allows(1, 1, 1));
        rules.check()?;
        assert_eq!(rt; rules.dual(2), 2);
        assert_eq!(rt; rules.allow(2, 2, 0), Err(RuleRefused::Repeated));
        assert_eq!(rt; Rules::new(2).allow(0, 1, 1), Err(RuleRefused::Unit));
        Ok(())
    }
}
