ghost use Rattle.std.specs.Prelude.{◌≡◌, IfOk, IsTrue};
ghost use Rattle.ring_laws.specs.Stated.{Gives};
ghost use Rattle.fusion_rules.specs.Fusion.{fuses};
ghost use Rattle.symbol_table.specs.Index.{AreSixLabels, AreThreeLabels};
ghost use Rattle.symbol_table.specs.Draft.{f_index_admissible, given};
ghost use Rattle.symbol_table.specs.Category.{symbols};
ghost use Rattle.symbol_table.specs.Evaluated.{h_stated, s_stated};
ghost use Rattle.derive_symbols.specs.Weighted.{weighted};

use ring_laws::{Overflow, StarRing};
use symbol_table::{Draft, FIndex, VIndex};

/// The conjugate of a value, times two weights from the left.
fn conjugate_weighted<R: StarRing>(
    ring: &R,
    x: &R::Elem,
    first: &R::Elem,
    second: &R::Elem,
) -> Result<R::Elem, Overflow>
    requires value { IsTrue ((R.ring ring.now).member x.now) }
    requires first { IsTrue ((R.ring ring.now).member first.now) }
    requires second { IsTrue ((R.ring ring.now).member second.now) }
    ensures value { Gives result (weighted (R.ring ring.now) x.now first.now second.now) }
    ensures member { IfOk result (λ z. IsTrue ((R.ring ring.now).member z)) }
{
    let turned = ring.conj(x)?;
    let once = ring.mul(&turned, first)?;
    ring.mul(&once, second)
}

/// H(a,b,c,d;f,e) at the admissible index of F(a,b,c,d;e,f).
pub(crate) fn evaluate_h<R: StarRing>(draft: &Draft<R>, at: &FIndex) -> Result<R::Elem, Overflow>
    requires labels { AreSixLabels draft.now.rules.count at.now.a at.now.b at.now.c at.now.d at.now.e at.now.f }
    requires admissible { IsTrue (f_index_admissible (given draft.now) at.now) }
    ensures value { Gives result
        (h_stated (symbols R.StarRing draft.now) at.now.a at.now.b at.now.c at.now.d at.now.f at.now.e) }
    ensures member { IfOk result (λ z. IsTrue ((R.ring draft.now.ring).member z)) }
{
    let ring = draft.ring();
    let f = draft.f(at);
    let right = draft.w_at(at.b, at.c, at.f);
    let left = draft.w_at(at.a, at.f, at.d);
    let outer = conjugate_weighted(ring, &f, &right, &left)?;
    let first = draft.v_at(at.a, at.b, at.e);
    let second = draft.v_at(at.e, at.c, at.d);
    let inner = ring.mul(&outer, &first)?;
    ring.mul(&inner, &second)
}

/// S(a,b,c) at an admissible index. R(b,a,c) and its inverse weight are 0 where the rules don't commute.
pub(crate) fn evaluate_s<R: StarRing>(draft: &Draft<R>, at: &VIndex) -> Result<R::Elem, Overflow>
    requires labels { AreThreeLabels draft.now.rules.count at.now.a at.now.b at.now.c }
    ensures value { Gives result (s_stated (symbols R.StarRing draft.now) at.now.a at.now.b at.now.c) }
    ensures member { IfOk result (λ z. IsTrue ((R.ring draft.now.ring).member z)) }
{
    let r = draft.r_at(at.b, at.a, at.c);
    let w = draft.w_at(at.a, at.b, at.c);
    let v = draft.v_at(at.b, at.a, at.c);
    conjugate_weighted(draft.ring(), &r, &w, &v)
}
