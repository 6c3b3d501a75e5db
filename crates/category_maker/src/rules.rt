//! The fusion rules.

ghost use Rattle.std.specs.Prelude.{◌≡◌, ◌≤◌, ◌<◌, ◌+◌, ℕ};
ghost use Rattle.fusion_rules.specs.Fusion.{fuses};
ghost use Rattle.category_maker.specs.MadeCategory.{group_fuses};
ghost use Rattle.category_maker.specs.Steps.{fuses_up_to};

use fusion_rules::Rules;

/// The rules of the cyclic group of order n.
pub(crate) fn group_rules(n: u8) -> Rules
    requires some { 0 < n }
    requires few { n ≤ 12 }
    ensures count { result.count ≡ n }
    ensures triples { (x y z : ℕ) → fuses result x y z ≡ group_fuses n x y z }
{
    let mut rules = Rules::new(n);
    for a in 1..n {
        allow_row(n, a, &mut rules);
    }
    rules
}

/// Adds the triples of a first label, behind those of the labels before it.
fn allow_row(n: u8, a: u8, rules: &mut Rules)
    requires some { 0 < a }
    requires below { a < n }
    requires few { n ≤ 12 }
    requires count { rules.old.count ≡ n }
    requires before { (x y z : ℕ) → fuses rules.old x y z ≡ fuses_up_to n a 1 x y z }
    ensures count { rules.new.count ≡ n }
    ensures triples { (x y z : ℕ) → fuses rules.new x y z ≡ fuses_up_to n (a + 1) 1 x y z }
{
    for b in 1..n {
        allow_sum(n, a, b, rules);
    }
}

/// Adds the triple of two labels and their sum.
fn allow_sum(n: u8, a: u8, b: u8, rules: &mut Rules)
    requires some { 0 < a }
    requires second { 0 < b }
    requires below { a < n }
    requires second_below { b < n }
    requires few { n ≤ 12 }
    requires count { rules.old.count ≡ n }
    requires before { (x y z : ℕ) → fuses rules.old x y z ≡ fuses_up_to n a b x y z }
    ensures count { rules.new.count ≡ n }
    ensures triples { (x y z : ℕ) → fuses rules.new x y z ≡ fuses_up_to n a (b + 1) x y z }
{
    match rules.allow(a, b, (a + b) % n) {
        Ok(()) => {}
        Err(_) => unreachable!(),
    }
}
