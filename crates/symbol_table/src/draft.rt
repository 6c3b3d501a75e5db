ghost use Rattle.std.specs.Prelude.{◌≡◌, ◌<◌, ◌≤◌, ℕ, [], IsTrue, OnOk, Option, Some, None, is_some, unwrap_or, if◌then◌else◌, List};
ghost use Rattle.fusion_rules.specs.Fusion.{fuses};
ghost use Rattle.symbol_table.specs.Index.{AreSixLabels, AreThreeLabels};
ghost use Rattle.symbol_table.specs.Symbols.{IsOfRing};
ghost use Rattle.symbol_table.specs.Category.{symbols};
ghost use Rattle.symbol_table.specs.Draft.{DraftValue, IsMember, IsOver, Sets, SetsF, SetsVertex, f_fault, f_index_admissible, given, mark_fault, vertex_fault, as_second, with_f, with_loop, with_r, with_twist, with_v, with_w, Marks, SetsMark};

use crate::index::{FIndex, VIndex};
use crate::values::{fault_at, set_mark, set_value, value_or_one};
use fusion_rules::Rules;
use ring_laws::StarRing;
use std::alloc::Global;
use std::collections::BTreeMap;
use std::marker::Model;

/// Why a value isn't set.
#[derive(Clone, Copy, Debug, PartialEq, Eq)]
pub enum SetFault {
    /// The rules don't admit the index.
    NotAdmissible,
    /// The index was set before.
    Repeated,
    /// There was no memory for one value more.
    Memory,
}

/// Why a twist or a loop value isn't set.
#[derive(Clone, Copy, Debug, PartialEq, Eq)]
pub enum MarkFault {
    /// That of the label was set before.
    Repeated,
    /// There was no memory for one value more.
    Memory,
}

/// Rules, and values of F, R, w and v at some of their admissible indices, over a ring; and the version of the laws
/// that they are to obey, 1 or 2.
///
/// In version 2 each label has a twist (its topological spin) and a loop value (its quantum dimension) too. What
/// wasn't set is 1. Every value that was set is a member of the ring. Nothing says that the symbols are those of a
/// category.
#[derive(Drop)]
pub struct Draft<R: StarRing> {
    version: u8,
    ring: R,
    rules: Rules,
    f: BTreeMap<FIndex, R::Elem>,
    r: BTreeMap<VIndex, R::Elem>,
    w: BTreeMap<VIndex, R::Elem>,
    v: BTreeMap<VIndex, R::Elem>,
    twist: BTreeMap<u8, R::Elem>,
    loop_value: BTreeMap<u8, R::Elem>,
}

impl<R: StarRing> Model for Draft<R> {
    ghost use Rattle.symbol_table.specs.Draft.{DraftValue, IsOver};

    ghost Value = { DraftValue R R.Elem };

    ghost view = { λ d. record { version = d.version; ring = d.ring; rules = d.rules; set_f = d.f.entries; set_r = d.r.entries; set_w = d.w.entries; set_v = d.v.entries; set_twist = d.twist.entries; set_loop = d.loop_value.entries } };

    ghost invariant = { λ d. IsOver (R.ring d.ring) (record { version = d.version; ring = d.ring; rules = d.rules; set_f = d.f.entries; set_r = d.r.entries; set_w = d.w.entries; set_v = d.v.entries; set_twist = d.twist.entries; set_loop = d.loop_value.entries }) };
}

impl<R: StarRing> Draft<R> {
    /// A draft of this ring and these rules, of version 1, with nothing set.
    pub fn new(alloc: Global, ring: R, rules: Rules) -> Draft<R>
        ensures { result ≡ record
            { version = 1; ring = ring; rules = rules; set_f = []; set_r = []; set_w = []; set_v = []; set_twist = []; set_loop = [] } }
    {
        Draft {
            version: 1,
            ring,
            rules,
            f: BTreeMap::new(alloc),
            r: BTreeMap::new(alloc),
            w: BTreeMap::new(alloc),
            v: BTreeMap::new(alloc),
            twist: BTreeMap::new(alloc),
            loop_value: BTreeMap::new(alloc),
        }
    }

    /// The version: by it the list of laws goes that a category's symbols obey.
    pub fn version(&self) -> u8
        ensures version { result ≡ self.now.version }
        // Every value that was set is a member of the ring; the version is 1 or 2.
        ensures members { IsOver (R.ring self.now.ring) self.now }
    {
        self.version
    }

    /// Makes version 2 of a draft of version 1, which has its twists and loop values all 1. Nothing else changes.
    pub fn second(&mut self)
        requires { self.old.version ≡ 1 }
        ensures { self.new ≡ as_second self.old }
    {
        self.version = 2;
    }

    /// The ring of the values.
    pub fn ring(&self) -> &R
        ensures { result.now ≡ self.now.ring }
    {
        &self.ring
    }

    /// The fusion rules.
    pub fn rules(&self) -> &Rules
        ensures { result.now ≡ self.now.rules }
    {
        &self.rules
    }

    /// Every F of the draft is of its ring.
    pub fn f_is_of_ring(&self)
        ensures { IsOfRing (symbols R.StarRing self.now) }
    {
        // Opens what the draft keeps of its values.
        let _ring = &self.ring;
    }

    /// F at an admissible index: the value that was set, or 1.
    pub fn f(&self, at: &FIndex) -> R::Elem
        requires { IsTrue (f_index_admissible (given self.now) at.now) }
        ensures value { result ≡ (symbols R.StarRing self.now).f at.now.a at.now.b at.now.c
            at.now.d at.now.e at.now.f }
        ensures member { IsMember R.StarRing self.now result }
        ensures held { IsTrue (R.held.can_hold result) }
    {
        value_or_one(&self.ring, self.f.get(at))
    }

    /// R at an admissible index: the value that was set, or 1.
    pub fn r(&self, at: &VIndex) -> R::Elem
        requires { IsTrue (fuses self.now.rules at.now.a at.now.b at.now.c) }
        ensures value { result ≡ (symbols R.StarRing self.now).r
            at.now.a at.now.b at.now.c }
        ensures member { IsMember R.StarRing self.now result }
        ensures held { IsTrue (R.held.can_hold result) }
    {
        value_or_one(&self.ring, self.r.get(at))
    }

    /// The weight w at an admissible index: the value that was set, or 1.
    pub fn w(&self, at: &VIndex) -> R::Elem
        requires { IsTrue (fuses self.now.rules at.now.a at.now.b at.now.c) }
        ensures value { result ≡ (symbols R.StarRing self.now).w
            at.now.a at.now.b at.now.c }
        ensures member { IsMember R.StarRing self.now result }
        ensures held { IsTrue (R.held.can_hold result) }
    {
        value_or_one(&self.ring, self.w.get(at))
    }

    /// The inverse weight v at an admissible index: the value that was set, or 1.
    pub fn v(&self, at: &VIndex) -> R::Elem
        requires { IsTrue (fuses self.now.rules at.now.a at.now.b at.now.c) }
        ensures value { result ≡ (symbols R.StarRing self.now).v
            at.now.a at.now.b at.now.c }
        ensures member { IsMember R.StarRing self.now result }
        ensures held { IsTrue (R.held.can_hold result) }
    {
        value_or_one(&self.ring, self.v.get(at))
    }

    /// The twist of a label below the count: the value that was set, or 1.
    pub fn twist(&self, a: u8) -> R::Elem
        requires { a < self.now.rules.count }
        ensures value { result ≡ (symbols R.StarRing self.now).twist a }
        ensures member { IsMember R.StarRing self.now result }
        ensures held { IsTrue (R.held.can_hold result) }
    {
        value_or_one(&self.ring, self.twist.get(&a))
    }

    /// The loop value of a label below the count: the value that was set, or 1.
    pub fn loop_value(&self, a: u8) -> R::Elem
        requires { a < self.now.rules.count }
        ensures value { result ≡ (symbols R.StarRing self.now).loop_value a }
        ensures member { IsMember R.StarRing self.now result }
        ensures held { IsTrue (R.held.can_hold result) }
    {
        value_or_one(&self.ring, self.loop_value.get(&a))
    }

    /// Sets F at an index of labels below the count, to a member of the ring.
    ///
    /// Refuses `NotAdmissible` exactly where the index isn't admissible, else `Repeated` exactly where it was set
    /// before. Refused, or for want of memory, the draft is unchanged.
    pub fn set_f(&mut self, at: FIndex, value: R::Elem) -> Result<(), SetFault>
        requires labels { AreSixLabels self.old.rules.count at.a at.b at.c at.d at.e at.f }
        requires member { IsMember R.StarRing self.old value }
        ensures told { Sets result (f_fault (given self.old) at) self.old self.new (with_f self.old at value) }
        ensures sets { OnOk result (SetsF at value (given self.old).set_f (given self.new).set_f) }
    {
        if !at.is_admissible(&self.rules) {
            return Err(SetFault::NotAdmissible);
        }
        set_value(&mut self.f, at, value)
    }

    /// Sets R at an index of labels below the count, to a member of the ring.
    ///
    /// Refuses `NotAdmissible` exactly where the index isn't admissible, else `Repeated` exactly where it was set
    /// before. Refused, or for want of memory, the draft is unchanged.
    pub fn set_r(&mut self, at: VIndex, value: R::Elem) -> Result<(), SetFault>
        requires labels { AreThreeLabels self.old.rules.count at.a at.b at.c }
        requires member { IsMember R.StarRing self.old value }
        ensures told { Sets result (vertex_fault (given self.old) (given self.old).set_r at) self.old self.new
            (with_r self.old at value) }
        ensures sets { OnOk result (SetsVertex at value (given self.old).set_r (given self.new).set_r) }
    {
        if !self.rules.allows(at.a, at.b, at.c) {
            return Err(SetFault::NotAdmissible);
        }
        set_value(&mut self.r, at, value)
    }

    /// Sets the weight w at an index of labels below the count, to a member of the ring.
    ///
    /// Refuses `NotAdmissible` exactly where the index isn't admissible, else `Repeated` exactly where it was set
    /// before. Refused, or for want of memory, the draft is unchanged.
    pub fn set_w(&mut self, at: VIndex, value: R::Elem) -> Result<(), SetFault>
        requires labels { AreThreeLabels self.old.rules.count at.a at.b at.c }
        requires member { IsMember R.StarRing self.old value }
        ensures told { Sets result (vertex_fault (given self.old) (given self.old).set_w at) self.old self.new
            (with_w self.old at value) }
        ensures sets { OnOk result (SetsVertex at value (given self.old).set_w (given self.new).set_w) }
    {
        if !self.rules.allows(at.a, at.b, at.c) {
            return Err(SetFault::NotAdmissible);
        }
        set_value(&mut self.w, at, value)
    }

    /// Sets the inverse weight v at an index of labels below the count, to a member of the ring.
    ///
    /// Refuses `NotAdmissible` exactly where the index isn't admissible, else `Repeated` exactly where it was set
    /// before. Refused, or for want of memory, the draft is unchanged.
    pub fn set_v(&mut self, at: VIndex, value: R::Elem) -> Result<(), SetFault>
        requires labels { AreThreeLabels self.old.rules.count at.a at.b at.c }
        requires member { IsMember R.StarRing self.old value }
        ensures told { Sets result (vertex_fault (given self.old) (given self.old).set_v at) self.old self.new
            (with_v self.old at value) }
        ensures sets { OnOk result (SetsVertex at value (given self.old).set_v (given self.new).set_v) }
    {
        if !self.rules.allows(at.a, at.b, at.c) {
            return Err(SetFault::NotAdmissible);
        }
        set_value(&mut self.v, at, value)
    }

    /// Sets the twist of a label below the count, in version 2, to a member of the ring.
    ///
    /// Refuses `Repeated` exactly where it was set before. Refused, or for want of memory, the draft is unchanged.
    pub fn set_twist(&mut self, a: u8, value: R::Elem) -> Result<(), MarkFault>
        requires version { self.old.version ≡ 2 }
        requires label { a < self.old.rules.count }
        requires member { IsMember R.StarRing self.old value }
        ensures told { Marks result (mark_fault ((given self.old).set_twist a)) self.old self.new (with_twist self.old a value) }
        ensures sets { OnOk result (SetsMark a value (given self.old).set_twist (given self.new).set_twist) }
    {
        set_mark(&mut self.twist, a, value)
    }

    /// Sets the loop value of a label below the count, in version 2, to a member of the ring.
    ///
    /// Refuses `Repeated` exactly where it was set before. Refused, or for want of memory, the draft is unchanged.
    pub fn set_loop(&mut self, a: u8, value: R::Elem) -> Result<(), MarkFault>
        requires version { self.old.version ≡ 2 }
        requires label { a < self.old.rules.count }
        requires member { IsMember R.StarRing self.old value }
        ensures told { Marks result (mark_fault ((given self.old).set_loop a)) self.old self.new (with_loop self.old a value) }
        ensures sets { OnOk result (SetsMark a value (given self.old).set_loop (given self.new).set_loop) }
    {
        set_mark(&mut self.loop_value, a, value)
    }

    /// Why F isn't set at an index of labels below the count: `NotAdmissible` where the index isn't admissible, else
    /// `Repeated` where it was set before. None where it may be set.
    pub fn f_fault(&self, at: &FIndex) -> Option<SetFault>
        requires labels { AreSixLabels self.now.rules.count at.now.a at.now.b at.now.c at.now.d at.now.e at.now.f }
        ensures { result ≡ f_fault (given self.now) at.now }
    {
        fault_at(at.is_admissible(&self.rules), self.f.contains_key(at))
    }

    /// The same of R, at three labels below the count.
    pub fn r_fault(&self, at: &VIndex) -> Option<SetFault>
        requires labels { AreThreeLabels self.now.rules.count at.now.a at.now.b at.now.c }
        ensures { result ≡ vertex_fault (given self.now) (given self.now).set_r at.now }
    {
        fault_at(self.rules.allows(at.a, at.b, at.c), self.r.contains_key(at))
    }

    /// The same of the weight w, at three labels below the count.
    pub fn w_fault(&self, at: &VIndex) -> Option<SetFault>
        requires labels { AreThreeLabels self.now.rules.count at.now.a at.now.b at.now.c }
        ensures { result ≡ vertex_fault (given self.now) (given self.now).set_w at.now }
    {
        fault_at(self.rules.allows(at.a, at.b, at.c), self.w.contains_key(at))
    }

    /// The same of the inverse weight v, at three labels below the count.
    pub fn v_fault(&self, at: &VIndex) -> Option<SetFault>
        requires labels { AreThreeLabels self.now.rules.count at.now.a at.now.b at.now.c }
        ensures { result ≡ vertex_fault (given self.now) (given self.now).set_v at.now }
    {
        fault_at(self.rules.allows(at.a, at.b, at.c), self.v.contains_key(at))
    }

    /// Whether the twist of a label was set.
    pub fn has_twist(&self, a: u8) -> bool
        ensures { result ≡ is_some ((given self.now).set_twist a) }
    {
        self.twist.contains_key(&a)
    }

    /// Whether the loop value of a label was set.
    pub fn has_loop(&self, a: u8) -> bool
        ensures { result ≡ is_some ((given self.now).set_loop a) }
    {
        self.loop_value.contains_key(&a)
    }

    /// F(a,b,c,d;e,f) at any six labels below the count: 0 where they aren't admissible.
    pub fn f_at(&self, a: u8, b: u8, c: u8, d: u8, e: u8, f: u8) -> R::Elem
        requires labels { AreSixLabels self.now.rules.count a b c d e f }
        ensures value { result ≡ (symbols R.StarRing self.now).f a b c d e f }
        ensures member { IsMember R.StarRing self.now result }
        ensures held { IsTrue (R.held.can_hold result) }
    {
        let at = FIndex { a, b, c, d, e, f };
        if !at.is_admissible(&self.rules) {
            return self.ring.zero();
        }
        self.f(&at)
    }

    /// R(a,b,c) at any three labels below the count: 0 where they aren't admissible.
    pub fn r_at(&self, a: u8, b: u8, c: u8) -> R::Elem
        requires labels { AreThreeLabels self.now.rules.count a b c }
        ensures value { result ≡ (symbols R.StarRing self.now).r a b c }
        ensures member { IsMember R.StarRing self.now result }
        ensures held { IsTrue (R.held.can_hold result) }
    {
        if !self.rules.allows(a, b, c) {
            return self.ring.zero();
        }
        self.r(&VIndex { a, b, c })
    }

    /// The weight w(a,b,c) at any three labels below the count: 0 where they aren't admissible.
    pub fn w_at(&self, a: u8, b: u8, c: u8) -> R::Elem
        requires labels { AreThreeLabels self.now.rules.count a b c }
        ensures value { result ≡ (symbols R.StarRing self.now).w a b c }
        ensures member { IsMember R.StarRing self.now result }
        ensures held { IsTrue (R.held.can_hold result) }
    {
        if !self.rules.allows(a, b, c) {
            return self.ring.zero();
        }
        self.w(&VIndex { a, b, c })
    }

    /// The inverse weight v(a,b,c) at any three labels below the count: 0 where they aren't admissible.
    pub fn v_at(&self, a: u8, b: u8, c: u8) -> R::Elem
        requires labels { AreThreeLabels self.now.rules.count a b c }
        ensures value { result ≡ (symbols R.StarRing self.now).v a b c }
        ensures member { IsMember R.StarRing self.now result }
        ensures held { IsTrue (R.held.can_hold result) }
    {
        if !self.rules.allows(a, b, c) {
            return self.ring.zero();
        }
        self.v(&VIndex { a, b, c })
    }
}
