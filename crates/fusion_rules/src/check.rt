ghost use Rattle.std.specs.Prelude.{◌≡◌, ◌<◌, ◌≤◌};
ghost use Rattle.fusion_rules.specs.First.{Answers, first_below};
ghost use Rattle.fusion_rules.specs.Fusion.{fuses};
ghost use Rattle.fusion_rules.specs.Check.{associative_fault, commutative_fault, count_below, dual_fault, mirror_fault, rules_fault, single_dual_fault, ways_fault, ways_left, ways_right};

use crate::label::UNIT;
use crate::rules::{Rules, RulesFault};

/// The first fault of the rules: of commuting, else of associating, else of duals.
pub(crate) fn first_fault(rules: &Rules) -> Result<(), RulesFault>
    ensures { Answers result (rules_fault rules.now.count (fuses rules.now)) }
{
    commute(rules)?;
    associate(rules)?;
    have_duals(rules)
}

/// Whether N(a,b,c) is N(b,a,c) for all labels.
#[tactic(auto, using(crate::proofs::FaultLemmas::next))]
fn commute(rules: &Rules) -> Result<(), RulesFault>
    ensures { Answers result (commutative_fault rules.now.count (fuses rules.now)) }
{
    for a in 0..rules.count() {
        commute_with(rules, a)?;
    }
    Ok(())
}

#[tactic(auto, using(crate::proofs::FaultLemmas::next))]
fn commute_with(rules: &Rules, a: u8) -> Result<(), RulesFault>
    requires { a < rules.now.count }
    ensures { Answers result
        (first_below rules.now.count (λ b. first_below rules.now.count (mirror_fault (fuses rules.now) a b))) }
{
    for b in 0..rules.count() {
        are_mirrored(rules, a, b)?;
    }
    Ok(())
}

#[tactic(auto, using(crate::proofs::FaultLemmas::next))]
fn are_mirrored(rules: &Rules, a: u8, b: u8) -> Result<(), RulesFault>
    requires first { a < rules.now.count }
    requires second { b < rules.now.count }
    ensures { Answers result (first_below rules.now.count (mirror_fault (fuses rules.now) a b)) }
{
    for c in 0..rules.count() {
        if rules.allows(a, b, c) != rules.allows(b, a, c) {
            return Err(RulesFault::NotCommutative(a, b, c));
        }
    }
    Ok(())
}

/// Whether there are as many ways from a, b, c to d on the left as on the right, for all labels.
#[tactic(auto, using(crate::proofs::FaultLemmas::next))]
fn associate(rules: &Rules) -> Result<(), RulesFault>
    ensures { Answers result (associative_fault rules.now.count (fuses rules.now)) }
{
    for a in 0..rules.count() {
        associate_with(rules, a)?;
    }
    Ok(())
}

#[tactic(auto, using(crate::proofs::FaultLemmas::next))]
fn associate_with(rules: &Rules, a: u8) -> Result<(), RulesFault>
    requires { a < rules.now.count }
    ensures { Answers result
        (first_below rules.now.count (λ b. first_below rules.now.count (λ c. first_below rules.now.count (ways_fault rules.now.count (fuses rules.now) a b c)))) }
{
    for b in 0..rules.count() {
        associate_with_both(rules, a, b)?;
    }
    Ok(())
}

#[tactic(auto, using(crate::proofs::FaultLemmas::next))]
fn associate_with_both(rules: &Rules, a: u8, b: u8) -> Result<(), RulesFault>
    requires first { a < rules.now.count }
    requires second { b < rules.now.count }
    ensures { Answers result
        (first_below rules.now.count (λ c. first_below rules.now.count (ways_fault rules.now.count (fuses rules.now) a b c))) }
{
    for c in 0..rules.count() {
        have_equal_ways(rules, a, b, c)?;
    }
    Ok(())
}

#[tactic(auto, using(crate::proofs::FaultLemmas::next))]
fn have_equal_ways(rules: &Rules, a: u8, b: u8, c: u8) -> Result<(), RulesFault>
    requires first { a < rules.now.count }
    requires second { b < rules.now.count }
    requires third { c < rules.now.count }
    ensures { Answers result
        (first_below rules.now.count (ways_fault rules.now.count (fuses rules.now) a b c)) }
{
    for d in 0..rules.count() {
        if ways_left(rules, a, b, c, d) != ways_right(rules, a, b, c, d) {
            return Err(RulesFault::NotAssociative(a, b, c, d));
        }
    }
    Ok(())
}

#[tactic(auto, using(crate::proofs::CountLemmas::count_more, crate::proofs::CountLemmas::count_few))]
fn ways_left(rules: &Rules, a: u8, b: u8, c: u8, d: u8) -> u8
    requires first { a < rules.now.count }
    requires second { b < rules.now.count }
    requires third { c < rules.now.count }
    requires last { d < rules.now.count }
    ensures { result ≡ ways_left rules.now.count (fuses rules.now) a b c d }
{
    let mut ways = 0;
    for e in 0..rules.count() {
        if rules.allows(a, b, e) && rules.allows(e, c, d) {
            ways += 1;
        }
    }
    ways
}

#[tactic(auto, using(crate::proofs::CountLemmas::count_more, crate::proofs::CountLemmas::count_few))]
fn ways_right(rules: &Rules, a: u8, b: u8, c: u8, d: u8) -> u8
    requires first { a < rules.now.count }
    requires second { b < rules.now.count }
    requires third { c < rules.now.count }
    requires last { d < rules.now.count }
    ensures { result ≡ ways_right rules.now.count (fuses rules.now) a b c d }
{
    let mut ways = 0;
    for f in 0..rules.count() {
        if rules.allows(b, c, f) && rules.allows(a, f, d) {
            ways += 1;
        }
    }
    ways
}

/// Whether each label has exactly one dual.
#[tactic(auto, using(crate::proofs::FaultLemmas::next))]
fn have_duals(rules: &Rules) -> Result<(), RulesFault>
    ensures { Answers result (single_dual_fault rules.now.count (fuses rules.now)) }
{
    for a in 0..rules.count() {
        if count_duals(rules, a) != 1 {
            return Err(RulesFault::NoSingleDual(a));
        }
    }
    Ok(())
}

#[tactic(auto, using(crate::proofs::CountLemmas::count_more, crate::proofs::CountLemmas::count_few))]
fn count_duals(rules: &Rules, a: u8) -> u8
    requires { a < rules.now.count }
    ensures { result ≡ count_below rules.now.count (λ b. fuses rules.now a b UNIT) }
{
    let mut duals = 0;
    for b in 0..rules.count() {
        if rules.allows(a, b, UNIT) {
            duals += 1;
        }
    }
    duals
}
