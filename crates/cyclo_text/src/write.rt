//! Writing a number in its canonical spelling.
ghost use Rattle.std.specs.Prelude.{◌≡◌, ℕ, pos, ◌<◌, ◌≤◌, ◌++◌, map, take, length, IsTrue, Ok, IfOk, OnOk, OnErr};
ghost use Rattle.std.specs.Fmt.{signed_decimal};
ghost use Rattle.std.specs.List.{join_with_byte};
ghost use Rattle.poly_core.specs.Rho.{is_accepted};
ghost use Rattle.cyclo_core.specs.Ratio.{ring_at};
ghost use Rattle.cyclo_text.specs.NumberWords.{comma, trimmed, spelled_number, number_of};

use cyclo_core::Number;
use itoa::Buffer;
use std::alloc::{AllocError, Global};

/// How many parts are written: up to the last that isn't zero, but at least one.
fn part_count(number: &Number) -> u8
    requires { length number.now.numerators ≡ 16 }
    ensures value { take result number.now.numerators ≡ trimmed number.now.numerators }
    ensures some { 0 < result }
    ensures few { result ≤ 16 }
{
    let mut count = 16;
    while count > 1 {
        if number.numerator(count - 1) != 0 {
            return count;
        }
        count -= 1;
    }
    count
}

fn write_integer(text: &mut Vec<u8>, number: &i128) -> Result<(), AllocError>
    ensures { OnOk result (text.new.items ≡ text.old.items ++ signed_decimal number.now) }
{
    let mut buffer = Buffer::new();
    text.extend_from_slice(buffer.format(*number).as_bytes())
}

/// The parts, joined by commas.
fn parts_text(alloc: Global, number: &Number) -> Result<Vec<u8>, AllocError>
    requires { length number.now.numerators ≡ 16 }
    ensures { IfOk result (λ text. text.items ≡ join_with_byte comma (map signed_decimal (trimmed number.now.numerators))) }
{
    let count = part_count(number);
    let mut text = Vec::new(alloc);
    write_integer(&mut text, &number.numerator(0))?;
    for j in 1..count {
        text.push(b',')?;
        write_integer(&mut text, &number.numerator(j))?;
    }
    Ok(text)
}

/// The whole spelling of a number with the given denominator.
fn spelling(alloc: Global, number: &Number, denominator: &i128) -> Result<Vec<u8>, AllocError>
    requires full { length number.now.numerators ≡ 16 }
    requires under { denominator.now ≡ pos number.now.denominator }
    ensures { IfOk result (λ text. text.items ≡ spelled_number number.now) }
{
    let mut text = parts_text(alloc, number)?;
    if *denominator == 1 {
        return Ok(text);
    }
    text.push(b'/')?;
    write_integer(&mut text, denominator)?;
    Ok(text)
}

/// Appends the canonical spelling of a number: its parts up to the last that isn't zero, or the one part `0`
/// for zero, and `/` with the denominator exactly where that isn't 1.
///
/// The spelling has at most 695 bytes: sixteen parts of 40, fifteen commas, `/` and 39 digits. Only want of
/// memory refuses it, and `out` is then unchanged. Every ring of which the number is a member reads the same
/// number again.
pub fn write_number(alloc: Global, n: &Number, out: &mut Vec<u8>) -> Result<(), AllocError>
    ensures written { OnOk result (out.new.items ≡ out.old.items ++ spelled_number n.now) }
    ensures unchanged { OnErr result (out.new.items ≡ out.old.items) }
    ensures short { length (spelled_number n.now) ≤ 695 }
    ensures read_back { (root : ℕ) → IsTrue (is_accepted root) → IsTrue ((ring_at root).member n.now) → number_of root (spelled_number n.now) ≡ Ok n.now }
{
    let denominator = n.denominator();
    let text = spelling(alloc, n, &denominator)?;
    out.extend_from_slice(&text)
}
