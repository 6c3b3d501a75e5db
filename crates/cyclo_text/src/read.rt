//! Reading the word of a number.
ghost use Rattle.std.specs.Prelude.{◌≡◌, ℕ, ◌≤◌, ◌^◌, ◌-◌, ◌↔◌, map, length, true, false, nat_le, unsigned_abs, IsTrue, Some, None, IfSome, IfOk, MatchOption};
ghost use Rattle.std.specs.List.{list_all};
ghost use Rattle.std.specs.Str.Parse.{digits_value};
ghost use Rattle.poly_core.specs.Table.{at};
ghost use Rattle.cyclo_core.specs.Ratio.{ring_at};
ghost use Rattle.cyclo_text.specs.NumberWords.{comma, slash, pieces, is_natural, is_part, part_value, part_fits, value_of, halves_of, number_of};

use crate::digits::{is_natural, is_part, magnitude, part_value, whole};
use crate::fault::NumberWord;
use crate::pieces::Pieces;
use cyclo_core::{Cyclo, Number, NumberFault};

/// What stands before the one `/` of a word, and what stands after it: `1` where there is none.
#[tactic(auto, unfolding(crate::specs::NumberWords::halves_of))]
fn halves(word: &[u8]) -> Option<(&[u8], &[u8])>
    ensures { MatchOption result (halves_of (pieces slash word.now) ≡ None) (λ halves. halves_of (pieces slash word.now) ≡ Some (halves.0.now, halves.1.now)) }
{
    let mut pieces = Pieces::new(word, b'/');
    let front = pieces.next()?;
    let under = match pieces.next() {
        Some(under) => under,
        None => return Some((front, b"1")),
    };
    match pieces.next() {
        Some(_) => None,
        None => Some((front, under)),
    }
}

/// Whether all pieces between the commas are parts.
fn are_parts(front: &[u8]) -> bool
    ensures { result ≡ list_all is_part (pieces comma front.now) }
{
    let mut pieces = Pieces::new(front, b',');
    while let Some(part) = pieces.next() {
        if !is_part(part) {
            return false;
        }
    }
    true
}

/// Whether there are no more than some number of pieces between the commas.
fn has_at_most(front: &[u8], most: u8) -> bool
    ensures { IsTrue result ↔ (length (pieces comma front.now) ≤ most) }
{
    let mut pieces = Pieces::new(front, b',');
    for _count in 0..most {
        if pieces.next().is_none() {
            return true;
        }
    }
    pieces.next().is_none()
}

/// The numbers of at most sixteen parts, zero behind them.
fn values(front: &[u8]) -> Option<[i128; 16]>
    requires few { length (pieces comma front.now) ≤ 16 }
    requires parts { list_all is_part (pieces comma front.now) ≡ true }
    ensures fits { MatchOption result (list_all part_fits (pieces comma front.now) ≡ false) (λ numbers. list_all part_fits (pieces comma front.now) ≡ true) }
    ensures value { IfSome result (λ numbers. (j : ℕ) → at numbers j ≡ at (map part_value (pieces comma front.now)) j) }
    ensures small { IfSome result (λ numbers. (j : ℕ) → unsigned_abs (at numbers j) ≤ 2 ^ 127 - 1) }
    ensures full { IfSome result (λ numbers. length numbers ≡ 16) }
{
    let mut numbers = [0i128; 16];
    let mut pieces = Pieces::new(front, b',');
    let mut j = 0;
    while let Some(part) = pieces.next() {
        numbers[j] = part_value(part)?;
        j += 1;
    }
    Some(numbers)
}

/// The number of parts and a denominator that are well spelled.
fn number_over(ring: &Cyclo, front: &[u8], under: &[u8]) -> Result<Number, NumberWord>
    requires parts { list_all is_part (pieces comma front.now) ≡ true }
    requires under { is_natural under.now ≡ true }
    ensures value { result ≡ value_of ring.now (pieces comma front.now) (digits_value 10 under.now) }
    ensures member { IfOk result (λ number. IsTrue ((ring_at ring.now).member number)) }
{
    let phi = ring.phi();
    if !has_at_most(front, phi) {
        return Err(NumberWord::TooManyParts);
    }
    let numbers = match values(front) {
        Some(numbers) => numbers,
        None => return Err(NumberWord::TooBig),
    };
    let size = match magnitude(under) {
        Some(size) => size,
        None => return Err(NumberWord::TooBig),
    };
    match ring.reduced(&numbers, whole(size)) {
        Ok(number) => Ok(number),
        Err(NumberFault::TooBig) => Err(NumberWord::TooBig),
        Err(NumberFault::ZeroDenominator) => Err(NumberWord::ZeroDenominator),
    }
}

/// The number of a word in a ring: parts joined by `,`, and, if wanted, `/` and a denominator.
///
/// A part is `0`, or an optional `-`, a digit from 1 to 9 and further digits; part j is the numerator of z^j,
/// and parts that aren't written are zero. A denominator is `0`, or a digit from 1 to 9 and further digits. A
/// word that isn't so is refused as misspelled; then one with more than phi(N) parts; then one with a
/// magnitude above 2^127 - 1, as written; then a denominator that is 0. Takes no memory.
pub fn read_number(ring: &Cyclo, word: &[u8]) -> Result<Number, NumberWord>
    ensures value { result ≡ number_of ring.now word.now }
    ensures member { IfOk result (λ number. IsTrue ((ring_at ring.now).member number)) }
{
    let (front, under) = match halves(word) {
        Some(halves) => halves,
        None => return Err(NumberWord::Spelling),
    };
    if !are_parts(front) {
        return Err(NumberWord::Spelling);
    }
    if !is_natural(under) {
        return Err(NumberWord::Spelling);
    }
    number_over(ring, front, under)
}
