//! The places of labels in a list, as digits to the base of their count.
ghost use Rattle.std.specs.Prelude.{◌≡◌, ◌+◌, ◌*◌, ◌/◌, ◌%◌, ◌<◌, ◌≤◌, ℕ};
ghost use Rattle.symbol_table.specs.Index.{AreSixLabels, AreThreeLabels};
ghost use Rattle.shape_check.specs.Place.{six, six_at, six_place, three, three_at, three_place};

use symbol_table::{FIndex, VIndex};

/// A digit more behind some digits.
#[tactic(auto, using(crate::proofs::PlaceLemmas::one_more, crate::proofs::PlaceLemmas::one_more_room))]
fn behind(n: u8, digits: u32, digit: u8) -> u32
    requires count { n ≤ 12 }
    requires digit { digit < n }
    requires small { digits < 248832 }
    ensures value { result ≡ digits * n + digit }
    ensures room { (m : ℕ) → digits < m → result < m * n }
    ensures two { digits < 12 → result < 144 }
    ensures three { digits < 144 → result < 1728 }
    ensures four { digits < 1728 → result < 20736 }
    ensures five { digits < 20736 → result < 248832 }
{
    digits * u32::from(n) + u32::from(digit)
}

/// The place of three labels.
pub(crate) fn three_place(n: u8, a: u8, b: u8, c: u8) -> usize
    requires count { n ≤ 12 }
    requires labels { AreThreeLabels n a b c }
    ensures value { result ≡ three_place n a b c }
    ensures inside { result < three n }
{
    let two = behind(n, u32::from(a), b);
    behind(n, two, c) as usize
}

/// The place of six labels.
pub(crate) fn six_place(n: u8, a: u8, b: u8, c: u8, d: u8, e: u8, f: u8) -> usize
    requires count { n ≤ 12 }
    requires labels { AreSixLabels n a b c d e f }
    ensures value { result ≡ six_place n a b c d e f }
    ensures inside { result < six n }
{
    let two = behind(n, u32::from(a), b);
    let three = behind(n, two, c);
    let four = behind(n, three, d);
    let five = behind(n, four, e);
    behind(n, five, f) as usize
}

/// The last digit of a number.
fn last(n: u8, k: u32) -> u8
    requires { 0 < n }
    ensures value { result ≡ k % n }
    ensures small { result < n }
{
    (k % u32::from(n)) as u8
}

/// The digits before the last one.
fn before(n: u8, k: u32) -> u32
    requires { 0 < n }
    ensures { result ≡ k / n }
{
    k / u32::from(n)
}

/// The three labels at a place.
pub(crate) fn three_at(n: u8, k: u32) -> VIndex
    requires { 0 < n }
    ensures value { result ≡ three_at n k }
    ensures labels { AreThreeLabels n result.a result.b result.c }
{
    let two = before(n, k);
    let one = before(n, two);
    VIndex {
        a: last(n, one),
        b: last(n, two),
        c: last(n, k),
    }
}

/// The six labels at a place.
pub(crate) fn six_at(n: u8, k: u32) -> FIndex
    requires { 0 < n }
    ensures value { result ≡ six_at n k }
    ensures labels { AreSixLabels n result.a result.b result.c result.d result.e result.f }
{
    let five = before(n, k);
    let four = before(n, five);
    let three = before(n, four);
    let two = before(n, three);
    let one = before(n, two);
    FIndex {
        a: last(n, one),
        b: last(n, two),
        c: last(n, three),
        d: last(n, four),
        e: last(n, five),
        f: last(n, k),
    }
}

/// So many places, each with a digit more.
#[tactic(auto, using(crate::proofs::PlaceLemmas::few_more))]
fn each(n: u8, places: u32) -> u32
    requires count { n ≤ 12 }
    requires small { places ≤ 248832 }
    ensures value { result ≡ places * n }
    ensures two { places ≤ 12 → result ≤ 144 }
    ensures three { places ≤ 144 → result ≤ 1728 }
    ensures four { places ≤ 1728 → result ≤ 20736 }
    ensures five { places ≤ 20736 → result ≤ 248832 }
{
    places * u32::from(n)
}

/// How many places three labels below a count have.
pub(crate) fn three(n: u8) -> u32
    requires { n ≤ 12 }
    ensures { result ≡ three n }
{
    each(n, each(n, u32::from(n)))
}

/// How many places six labels below a count have.
pub(crate) fn six(n: u8) -> u32
    requires { n ≤ 12 }
    ensures { result ≡ six n }
{
    let two = each(n, u32::from(n));
    let three = each(n, two);
    let four = each(n, three);
    each(n, each(n, four))
}
