//! The powers of a root of unity.
ghost use Rattle.std.specs.Prelude.{◌≡◌, ℕ, ℤ, pos, ◌+◌, ◌-◌, ◌<◌, ◌≤◌, ◌↔◌, ◌+ℤ◌, ◌*ℤ◌, neg_ℤ, unsigned_abs, IsTrue, IsOk, IfOk, length, slice_index_or, []};
ghost use Rattle.poly_core.specs.Companion.{shift, unit};
ghost use Rattle.poly_core.specs.Gcd.{totient};
ghost use Rattle.poly_core.specs.Rho.{is_accepted, degree, order, rho};
ghost use Rattle.poly_core.specs.Roots.{root_at};
ghost use Rattle.poly_core.specs.Table.{at};
ghost use Rattle.poly_core.specs.declared.limits.TheConstants.{DEGREE_LIMIT};

use crate::RootRefused;
use crate::limits::{DEGREE_LIMIT, ROOT_LIMIT};
use crate::table::low_coefficients;
use std::marker::Model;

/// The powers of one root of unity z of order N, each in the basis 1, z, .., z^(phi(N) - 1).
#[derive(Drop)]
pub struct PowerTable {
    root: u8,
    phi: u8,
    rows: [[i8; DEGREE_LIMIT]; ROOT_LIMIT],
}

impl Model for PowerTable {
    ghost use Rattle.std.specs.Prelude.{ℕ, ◌≡◌, ◌<◌, IsTrue, [], slice_index_or};
    ghost use Rattle.poly_core.specs.Rho.{is_accepted, degree, rho};
    ghost use Rattle.poly_core.specs.Table.{at};

    ghost Value = { ℕ };

    ghost view = { λ a. a.root };

    ghost invariant = { λ a. IsTrue (is_accepted a.root) × (a.phi ≡ degree a.root) × ((k : ℕ) → k < a.root → at (slice_index_or a.rows k []) ≡ rho a.root k) };
}

/// One coefficient of the next power: what stood a place lower, less a multiple of the polynomial's.
fn less_multiple(before: &i8, top: &i8, coefficient: &i8) -> i8
    requires before { unsigned_abs before.now ≤ 1 }
    requires top { unsigned_abs top.now ≤ 1 }
    requires coefficient { unsigned_abs coefficient.now ≤ 1 }
    ensures { result ≡ before.now +ℤ neg_ℤ (top.now *ℤ coefficient.now) }
{
    *before - *top * *coefficient
}

/// The power after the one in `row`, for a polynomial with the coefficients `low` below its top one.
fn next_power(row: &[i8; DEGREE_LIMIT], low: &[i8]) -> [i8; DEGREE_LIMIT]
    requires some { 0 < length low.now }
    requires few { length low.now ≤ DEGREE_LIMIT }
    requires row { (j : ℕ) → unsigned_abs (at row.now j) ≤ 1 }
    requires low { (j : ℕ) → j < length low.now → unsigned_abs (at low.now j) ≤ 1 }
    ensures value { (j : ℕ) → j < length low.now → at result j ≡ shift (at row.now) j +ℤ neg_ℤ (at row.now (length low.now - 1) *ℤ at low.now j) }
    ensures rest { (j : ℕ) → length low.now ≤ j → at result j ≡ pos 0 }
{
    let mut after = [0i8; DEGREE_LIMIT];
    for j in 0..low.len() {
        let before = if j == 0 { 0 } else { row[j - 1] };
        after[j] = less_multiple(&before, &row[low.len() - 1], &low[j]);
    }
    after
}

/// The powers from z^0 to z^(n - 1).
fn rows_of(n: u8, low: &[i8]) -> [[i8; DEGREE_LIMIT]; ROOT_LIMIT]
    requires accepted { IsTrue (is_accepted n) }
    requires low { low.now ≡ (root_at n).low }
    ensures { (k : ℕ) → k < n → at (slice_index_or result k []) ≡ rho n k }
{
    let mut rows = [[0i8; DEGREE_LIMIT]; ROOT_LIMIT];
    let mut row = [0i8; DEGREE_LIMIT];
    row[0] = 1;
    for k in 0..usize::from(n) {
        rows[k] = row;
        row = next_power(&row, low);
    }
    rows
}

/// The powers of a root of unity of order n.
///
/// Refused exactly where n is 0 or above [`ROOT_LIMIT`], or phi(n) is above [`DEGREE_LIMIT`]. Takes no memory.
#[tactic(auto, using(crate::proofs::RhoLemmas::accepted_is))]
pub fn powers(n: u8) -> Result<PowerTable, RootRefused>
    ensures accepted { IsOk result ↔ IsTrue (is_accepted n) }
    ensures root { IfOk result (λ table. table ≡ n) }
{
    match low_coefficients(n) {
        Some(low) => Ok(PowerTable {
            root: n,
            phi: low.len() as u8,
            rows: rows_of(n, low),
        }),
        None => Err(RootRefused),
    }
}

impl PowerTable {
    /// The order N of the root of unity.
    pub fn root(&self) -> u8
        ensures value { result ≡ self.now }
        ensures accepted { IsTrue (is_accepted self.now) }
        ensures order { order self.now ≡ self.now }
    {
        self.root
    }

    /// phi(N): how many coefficients a power has.
    pub fn phi(&self) -> u8
        ensures value { result ≡ totient self.now }
        ensures degree { result ≡ degree self.now }
    {
        self.phi
    }

    /// The coefficient of z^j in z^k.
    pub fn rho(&self, k: u8, j: u8) -> i64
        requires power { k < self.now }
        requires place { j < totient self.now }
        ensures value { result ≡ rho self.now k j }
        ensures tiny { unsigned_abs result ≤ 1 }
    {
        i64::from(self.rows[usize::from(k)][usize::from(j)])
    }

    /// The coefficients of z^k, which are zero from phi(N) on.
    pub fn row(&self, k: u8) -> &[i8; DEGREE_LIMIT]
        requires { k < self.now }
        ensures value { at result.now ≡ rho self.now k }
        ensures tiny { (j : ℕ) → unsigned_abs (at result.now j) ≤ 1 }
    {
        &self.rows[usize::from(k)]
    }
}
