ghost use Rattle.std.specs.Prelude.{◌≡◌, [], IsSomeAnd, IsTrue, OnOk, OnErr};
ghost use Rattle.fusion_rules.specs.Fusion.{fuses};
ghost use Rattle.symbol_table.specs.Index.{AreSixLabels, AreThreeLabels};
ghost use Rattle.symbol_table.specs.Draft.{IsMember, SetsVertex, f_index_admissible, given};
ghost use Rattle.symbol_table.specs.Category.{symbols};
ghost use Rattle.symbol_table.specs.Derived.{DerivedValue, HoldsSymbols, PutsH, h_put, s_put, with_h, with_s};

use crate::draft::Draft;
use crate::index::{FIndex, VIndex};
use crate::values::{copy_found, put_value};
use ring_laws::StarRing;
use std::alloc::{AllocError, Global};
use std::collections::BTreeMap;
use std::marker::Model;

/// Values of H and S, by their indices.
#[derive(Drop)]
pub struct Derived<R: StarRing> {
    h: BTreeMap<FIndex, R::Elem>,
    s: BTreeMap<VIndex, R::Elem>,
}

impl<R: StarRing> Model for Derived<R> {
    ghost use Rattle.symbol_table.specs.Derived.{DerivedValue};

    ghost Value = { DerivedValue R.Elem };

    ghost view = { λ d. record { put_h = d.h.entries; put_s = d.s.entries } };
}

impl<R: StarRing> Derived<R> {
    /// No values.
    pub fn new(alloc: Global) -> Derived<R>
        ensures { result ≡ record { put_h = []; put_s = [] } }
    {
        Derived {
            h: BTreeMap::new(alloc),
            s: BTreeMap::new(alloc),
        }
    }

    /// Puts a value of H(a,b,c,d;f,e) at the index of F(a,b,c,d;e,f), in place of one that was there. For want
    /// of memory nothing changes.
    pub fn put_h(&mut self, at: FIndex, value: R::Elem) -> Result<(), AllocError>
        ensures ok { OnOk result (self.new ≡ with_h self.old at value) }
        ensures err { OnErr result (self.new ≡ self.old) }
        ensures puts { OnOk result (PutsH at value (h_put self.old) (h_put self.new)) }
    {
        put_value(&mut self.h, at, value)
    }

    /// Puts a value of S(a,b,c) at the index, in place of one that was there. For want of memory nothing
    /// changes.
    pub fn put_s(&mut self, at: VIndex, value: R::Elem) -> Result<(), AllocError>
        ensures ok { OnOk result (self.new ≡ with_s self.old at value) }
        ensures err { OnErr result (self.new ≡ self.old) }
        ensures puts { OnOk result (SetsVertex at value (s_put self.old) (s_put self.new)) }
    {
        put_value(&mut self.s, at, value)
    }

    /// The value of H(a,b,c,d;f,e) at the index of F(a,b,c,d;e,f). Asks that it was put and is a member of the
    /// ring.
    pub fn h(&self, ring: &R, at: &FIndex) -> R::Elem
        requires { IsSomeAnd (h_put self.now at.now.a at.now.b at.now.c at.now.d at.now.f at.now.e)
            (λ x. IsTrue ((R.ring ring.now).member x)) }
        ensures value { h_put self.now at.now.a at.now.b at.now.c at.now.d at.now.f at.now.e ≡ Some result }
        ensures member { IsTrue ((R.ring ring.now).member result) }
        ensures held { IsTrue (R.held.can_hold result) }
    {
        copy_found(ring, self.h.get(at))
    }

    /// The value of S(a,b,c). Asks that it was put and is a member of the ring.
    pub fn s(&self, ring: &R, at: &VIndex) -> R::Elem
        requires { IsSomeAnd (s_put self.now at.now.a at.now.b at.now.c)
            (λ x. IsTrue ((R.ring ring.now).member x)) }
        ensures value { s_put self.now at.now.a at.now.b at.now.c ≡ Some result }
        ensures member { IsTrue ((R.ring ring.now).member result) }
        ensures held { IsTrue (R.held.can_hold result) }
    {
        copy_found(ring, self.s.get(at))
    }

    /// H(a,b,c,d;f,e) of a draft at the admissible index of F(a,b,c,d;e,f). Asks that the derived values are those
    /// of the draft.
    pub fn h_in(&self, draft: &Draft<R>, at: &FIndex) -> R::Elem
        requires admissible { IsTrue (f_index_admissible (given draft.now) at.now) }
        requires holds { HoldsSymbols (R.ring draft.now.ring) (given draft.now) self.now }
        ensures value { result ≡ (symbols R.StarRing draft.now).h at.now.a at.now.b at.now.c
            at.now.d at.now.f at.now.e }
        ensures member { IsMember R.StarRing draft.now result }
        ensures held { IsTrue (R.held.can_hold result) }
    {
        self.h(draft.ring(), at)
    }

    /// S(a,b,c) of a draft at an admissible index. Asks that the derived values are those of the draft.
    pub fn s_in(&self, draft: &Draft<R>, at: &VIndex) -> R::Elem
        requires admissible { IsTrue (fuses draft.now.rules at.now.a at.now.b at.now.c) }
        requires holds { HoldsSymbols (R.ring draft.now.ring) (given draft.now) self.now }
        ensures value { result ≡ (symbols R.StarRing draft.now).s at.now.a at.now.b at.now.c }
        ensures member { IsMember R.StarRing draft.now result }
        ensures held { IsTrue (R.held.can_hold result) }
    {
        self.s(draft.ring(), at)
    }

    /// H(a,b,c,d;f,e) of a draft at any six labels below the count: 0 where F(a,b,c,d;e,f) isn't admissible.
    /// Asks that the derived values are those of the draft.
    pub fn h_at(&self, draft: &Draft<R>, a: u8, b: u8, c: u8, d: u8, f: u8, e: u8) -> R::Elem
        requires labels { AreSixLabels draft.now.rules.count a b c d e f }
        requires holds { HoldsSymbols (R.ring draft.now.ring) (given draft.now) self.now }
        ensures value { result ≡ (symbols R.StarRing draft.now).h a b c d f e }
        ensures member { IsMember R.StarRing draft.now result }
        ensures held { IsTrue (R.held.can_hold result) }
    {
        let at = FIndex { a, b, c, d, e, f };
        if !at.is_admissible(draft.rules()) {
            return draft.ring().zero();
        }
        self.h_in(draft, &at)
    }

    /// S(a,b,c) of a draft at any three labels below the count: 0 where they aren't admissible. Asks that the
    /// derived values are those of the draft.
    pub fn s_at(&self, draft: &Draft<R>, a: u8, b: u8, c: u8) -> R::Elem
        requires labels { AreThreeLabels draft.now.rules.count a b c }
        requires holds { HoldsSymbols (R.ring draft.now.ring) (given draft.now) self.now }
        ensures value { result ≡ (symbols R.StarRing draft.now).s a b c }
        ensures member { IsMember R.StarRing draft.now result }
        ensures held { IsTrue (R.held.can_hold result) }
    {
        if !draft.rules().allows(a, b, c) {
            return draft.ring().zero();
        }
        self.s_in(draft, &VIndex { a, b, c })
    }
}
