//! The rules of a new category.

ghost use Rattle.std.specs.Prelude.{◌≡◌, ◌<◌, ℕ, true};
ghost use Rattle.fusion_rules.specs.Fusion.{fuses};
ghost use Rattle.category_images.specs.Patterns.{ArePart, Grow};

use crate::pattern::Pattern;
use fusion_rules::Rules;

/// The rules of a pattern.
pub(crate) fn rules_of<P: Pattern>(pattern: &P) -> Rules
    requires { P.Valid pattern.now }
    ensures count { result.count ≡ (P.wanted pattern.now).count }
    ensures triples { (a b c : ℕ) → fuses result a b c ≡ (P.wanted pattern.now).fuse a b c }
{
    let count = pattern.count();
    let mut rules = Rules::new(count);
    for a in 0..count {
        allow_row(pattern, a, &mut rules);
    }
    rules
}

/// Adds the triples of a first label.
fn allow_row<P: Pattern>(pattern: &P, a: u8, rules: &mut Rules)
    requires valid { P.Valid pattern.now }
    requires label { a < (P.wanted pattern.now).count }
    requires part { ArePart (P.wanted pattern.now) rules.old }
    ensures grow { Grow (P.wanted pattern.now) rules.old rules.new }
    ensures row { (b c : ℕ) → (P.wanted pattern.now).fuse a b c ≡ true → fuses rules.new a b c ≡ true }
{
    for b in 0..pattern.count() {
        allow_pair(pattern, a, b, rules);
    }
}

/// Adds the triples of a first and a second label.
fn allow_pair<P: Pattern>(pattern: &P, a: u8, b: u8, rules: &mut Rules)
    requires valid { P.Valid pattern.now }
    requires first { a < (P.wanted pattern.now).count }
    requires second { b < (P.wanted pattern.now).count }
    requires part { ArePart (P.wanted pattern.now) rules.old }
    ensures grow { Grow (P.wanted pattern.now) rules.old rules.new }
    ensures pair { (c : ℕ) → (P.wanted pattern.now).fuse a b c ≡ true → fuses rules.new a b c ≡ true }
{
    for c in 0..pattern.count() {
        allow_triple(pattern, a, b, c, rules);
    }
}

/// Adds a triple that is wanted.
fn allow_triple<P: Pattern>(pattern: &P, a: u8, b: u8, c: u8, rules: &mut Rules)
    requires valid { P.Valid pattern.now }
    requires first { a < (P.wanted pattern.now).count }
    requires second { b < (P.wanted pattern.now).count }
    requires third { c < (P.wanted pattern.now).count }
    requires part { ArePart (P.wanted pattern.now) rules.old }
    ensures grow { Grow (P.wanted pattern.now) rules.old rules.new }
    ensures triple { (P.wanted pattern.now).fuse a b c ≡ true → fuses rules.new a b c ≡ true }
{
    let _count = pattern.count();
    if pattern.fuses(a, b, c) {
        // What is refused stands already, as the triples of the unit do.
        let _ = rules.allow(a, b, c);
    }
}
