ghost use Rattle.std.specs.Prelude.{◌≡◌, ◌<◌, All, IfOk, IsTrue, length};
ghost use Rattle.ring_laws.specs.Stated.{Gives};
ghost use Rattle.symbol_table.specs.Index.{AreThreeLabels};
ghost use Rattle.symbol_table.specs.Draft.{given};
ghost use Rattle.symbol_table.specs.Derived.{HoldsSymbols};
ghost use Rattle.symbol_table.specs.Category.{symbols};
ghost use Rattle.hexagon_check.specs.Exchange.{left_at, right_at, step_at, symbol_of, told_at};

use crate::exchange::Exchange;
use law_events::compare;
use ring_laws::{Overflow, StarRing, add_product3, product3, sum_over_labels};
use symbol_table::{Derived, Draft, Kind};

/// The hexagon of one exchange, of a draft whose derived values are given.
#[derive(Drop)]
pub(crate) struct Hexagon<'a, R: StarRing> {
    pub(crate) draft: &'a Draft<R>,
    pub(crate) derived: &'a Derived<R>,
    pub(crate) exchange: Exchange,
    ghost holds: { HoldsSymbols (R.ring draft.now.ring) (given draft.now) derived.now },
}

impl<'a, R: StarRing> Hexagon<'a, R> {
    /// R(a,b,c) or S(a,b,c) at any three labels below the count: 0 where they aren't admissible.
    fn symbol(&self, a: u8, b: u8, c: u8) -> R::Elem
        requires labels { AreThreeLabels self.now.draft.now.rules.count a b c }
        ensures value { result ≡ symbol_of
            (symbols R.StarRing self.now.draft.now) self.now.exchange a b c }
        ensures member { IsTrue ((R.ring self.now.draft.now.ring).member result) }
    {
        match self.exchange {
            Exchange::Positive => self.draft.r_at(a, b, c),
            Exchange::Negative => self.derived.s_at(self.draft, a, b, c),
        }
    }

    /// X(a,b,e) F(b,a,c,d;e,f) X(a,c,f).
    fn left(&self, at: &[u8]) -> Result<R::Elem, Overflow>
        requires long { length at.now ≡ 6 }
        requires labels { All (λ t. t < self.now.draft.now.rules.count) at.now }
        ensures value { Gives result (left_at
            (symbols R.StarRing self.now.draft.now) self.now.exchange at.now) }
        ensures member { IfOk result (λ v. IsTrue ((R.ring self.now.draft.now.ring).member v)) }
    {
        let &[a, b, c, d, e, f] = at else {
            unreachable!()
        };
        let first = self.symbol(a, b, e);
        let second = self.draft.f_at(b, a, c, d, e, f);
        let third = self.symbol(a, c, f);
        product3(self.draft.ring(), &first, &second, &third)
    }

    /// The sum with the term F(a,b,c,d;e,g) X(a,g,d) F(b,c,a,d;g,f), or the sum alone where that isn't admissible.
    fn add_term(&self, at: &[u8], g: u8, sum: R::Elem) -> Result<R::Elem, Overflow>
        requires long { length at.now ≡ 6 }
        requires labels { All (λ t. t < self.now.draft.now.rules.count) at.now }
        requires label { g < self.now.draft.now.rules.count }
        requires sum { IsTrue ((R.ring self.now.draft.now.ring).member sum) }
        ensures value { Gives result (step_at
            (symbols R.StarRing self.now.draft.now) self.now.exchange at.now g sum) }
        ensures member { IfOk result (λ v. IsTrue ((R.ring self.now.draft.now.ring).member v)) }
    {
        let &[a, b, c, d, e, f] = at else {
            unreachable!()
        };
        let rules = self.draft.rules();
        if !rules.allows(b, c, g) || !rules.allows(a, g, d) || !rules.allows(g, a, d) {
            return Ok(sum);
        }
        let first = self.draft.f_at(a, b, c, d, e, g);
        let second = self.symbol(a, g, d);
        let third = self.draft.f_at(b, c, a, d, g, f);
        add_product3(self.draft.ring(), &sum, &first, &second, &third)
    }

    /// The sum of the terms, in the order of the labels.
    fn right(&self, at: &[u8]) -> Result<R::Elem, Overflow>
        requires long { length at.now ≡ 6 }
        requires labels { All (λ t. t < self.now.draft.now.rules.count) at.now }
        ensures value { Gives result (right_at
            (symbols R.StarRing self.now.draft.now) self.now.exchange at.now) }
        ensures member { IfOk result (λ v. IsTrue ((R.ring self.now.draft.now.ring).member v)) }
    {
        sum_over_labels(self.draft.ring(), self.draft.rules().count(), |g, sum| {
            self.add_term(at, g, sum)
        })
    }

    /// What the hexagon tells at an index: the left side comes before the right one.
    pub(crate) fn verdict(&self, at: &[u8]) -> Option<Kind>
        requires long { length at.now ≡ 6 }
        requires labels { All (λ t. t < self.now.draft.now.rules.count) at.now }
        ensures { result ≡ told_at
            (symbols R.StarRing self.now.draft.now) self.now.exchange at.now }
    {
        let Ok(left) = self.left(at) else {
            return Some(Kind::Overflow);
        };
        let Ok(right) = self.right(at) else {
            return Some(Kind::Overflow);
        };
        compare(self.draft.ring(), &left, &right)
    }
}
