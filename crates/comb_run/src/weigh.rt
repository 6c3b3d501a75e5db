//! The weight of a comb vector.

ghost use Rattle.std.specs.Prelude.{◌≡◌, ◌<◌, List, All, IsTrue, IfOk, Some, true};
ghost use Rattle.ring_laws.specs.Stated.{Gives};
ghost use Rattle.symbol_table.specs.Category.{symbols};
ghost use Rattle.comb_laws.specs.Paths.{goes_on, is_path};
ghost use Rattle.comb_run.specs.Entries.{path_of};
ghost use Rattle.comb_run.specs.Evaluated.{weights_along_at, path_weight_at, weight_term_at};
ghost use Rattle.symbol_table.specs.Draft.{IsMember};

use crate::key::Key;
use ring_laws::{Overflow, StarRing};
use symbol_table::{Category, VIndex};

/// A product times the weights along the strands, from the label p on.
fn weights_along<R: StarRing>(
    category: &Category<R>,
    begun: R::Elem,
    p: u8,
    strands: &[u8],
    labels: &[u8],
) -> Result<R::Elem, Overflow>
    requires begun { IsMember R.StarRing category.now begun }
    requires path { goes_on (symbols R.StarRing category.now) p strands.now labels.now ≡ true }
    ensures value { Gives result (weights_along_at (symbols R.StarRing category.now) begun p strands.now labels.now) }
    ensures member { IfOk result (λ z. IsMember R.StarRing category.now z) }
{
    let [s, ss @ ..] = strands else {
        return Ok(begun);
    };
    let [x, xs @ ..] = labels else {
        return Ok(begun);
    };
    let weight = category.w(&VIndex { a: p, b: *s, c: *x });
    let next = category.ring().mul(&begun, &weight)?;
    weights_along(category, next, *x, ss, xs)
}

/// The product of the weights along the path of a key, begun after the first strand.
fn path_weight<R: StarRing>(
    category: &Category<R>,
    strands: &[u8],
    key: &[u8],
) -> Result<R::Elem, Overflow>
    requires { is_path (symbols R.StarRing category.now) strands.now (path_of strands.now key.now) ≡ true }
    ensures value { Gives result (path_weight_at (symbols R.StarRing category.now) strands.now (path_of strands.now key.now)) }
    ensures member { IfOk result (λ z. IsMember R.StarRing category.now z) }
{
    let [s, ss @ ..] = strands else {
        return Ok(category.ring().one());
    };
    weights_along(category, category.ring().one(), *s, ss, key)
}

/// One more path of a weight.
fn weight_term<R: StarRing>(
    ring: &R,
    weights: &R::Elem,
    value: &R::Elem,
    sum: &R::Elem,
) -> Result<R::Elem, Overflow>
    requires weights { IsTrue ((R.ring ring.now).member weights.now) }
    requires value { IsTrue ((R.ring ring.now).member value.now) }
    requires sum { IsTrue ((R.ring ring.now).member sum.now) }
    ensures value { Gives result (weight_term_at (R.ring ring.now) (Some weights.now) value.now sum.now) }
    ensures member { IfOk result (λ z. IsTrue ((R.ring ring.now).member z)) }
{
    let turned = ring.conj(value)?;
    let square = ring.mul(value, &turned)?;
    let term = ring.mul(weights, &square)?;
    ring.add(sum, &term)
}

/// A sum with the term of one path more, given by its key.
pub(crate) fn add_path<R: StarRing>(
    category: &Category<R>,
    strands: &[u8],
    key: &Key,
    value: &R::Elem,
    sum: &R::Elem,
) -> Result<R::Elem, Overflow>
    requires path { is_path (symbols R.StarRing category.now) strands.now (path_of strands.now key.now.items) ≡ true }
    requires value { IsMember R.StarRing category.now value.now }
    requires sum { IsMember R.StarRing category.now sum.now }
    ensures value { let c = symbols R.StarRing category.now in
        Gives result (weight_term_at c.ring (path_weight_at c strands.now (path_of strands.now key.now.items)) value.now sum.now) }
    ensures member { IfOk result (λ z. IsMember R.StarRing category.now z) }
{
    let weights = path_weight(category, strands, key.as_slice())?;
    weight_term(category.ring(), &weights, value, sum)
}
