//! A category in the making.

ghost use Rattle.std.specs.Prelude.{◌≡◌, ◌<◌, ◌⊎◌, All, IsTrue, OnOk, Ok, Err, length, slice_index, true};
ghost use Rattle.cyclo_core.specs.Ratio.{ring_at};
ghost use Rattle.fusion_rules.specs.Fusion.{fuses};
ghost use Rattle.symbol_table.specs.Laws.{fuse_all};
ghost use Rattle.category_images.specs.Places.{places, triples};
ghost use Rattle.category_images.specs.Making.{Belongs, Puts, f_at, h_at, v_at};

use crate::place::{Place, Symbol};
use cyclo_core::{Cyclo, Number};
use std::alloc::AllocError;
use symbol_table::{Derived, Draft, FIndex, MarkFault, SetFault, VIndex};

/// Why a category isn't made.
#[derive(Debug, Drop)]
pub(crate) enum Stop {
    /// The first item that doesn't fit.
    Overflow(Place),
    /// There was no memory for one value more.
    Memory,
}

/// The symbols of a category so far.
#[derive(Drop)]
pub(crate) struct Making {
    pub(crate) draft: Draft<Cyclo>,
    pub(crate) derived: Derived<Cyclo>,
}

/// The index of F of the labels a, b, c, d, e, f.
pub(crate) fn six(index: &[u8]) -> FIndex
    requires { length index.now ≡ 6 }
    ensures { result ≡ f_at index.now }
{
    FIndex {
        a: index[0],
        b: index[1],
        c: index[2],
        d: index[3],
        e: index[4],
        f: index[5],
    }
}

/// The index of F of the labels a, b, c, d, f, e, as H has them.
pub(crate) fn turned(index: &[u8]) -> FIndex
    requires { length index.now ≡ 6 }
    ensures { result ≡ h_at index.now }
{
    FIndex {
        a: index[0],
        b: index[1],
        c: index[2],
        d: index[3],
        f: index[4],
        e: index[5],
    }
}

/// The index of a vertex of the labels a, b, c.
pub(crate) fn three(index: &[u8]) -> VIndex
    requires { length index.now ≡ 3 }
    ensures { result ≡ v_at index.now }
{
    VIndex {
        a: index[0],
        b: index[1],
        c: index[2],
    }
}

/// Whether a value stands after a setter's answer: also where one stood before.
fn settled(set: Result<(), SetFault>) -> Result<(), AllocError>
    requires { set ≡ Err SetFault.NotAdmissible → ⊥ }
    ensures { OnOk result ((set ≡ Ok tt) ⊎ (set ≡ Err SetFault.Repeated)) }
{
    match set {
        Ok(()) | Err(SetFault::Repeated) => Ok(()),
        Err(SetFault::Memory) => Err(AllocError),
        Err(SetFault::NotAdmissible) => unreachable!(),
    }
}

/// The same of a twist or a loop value.
fn settled_mark(set: Result<(), MarkFault>) -> Result<(), AllocError>
    ensures { OnOk result ((set ≡ Ok tt) ⊎ (set ≡ Err MarkFault.Repeated)) }
{
    match set {
        Ok(()) | Err(MarkFault::Repeated) => Ok(()),
        Err(MarkFault::Memory) => Err(AllocError),
    }
}

impl Making {
    /// Puts a value of a symbol at an admissible index. Where one stands nothing is put, or the same again.
    pub(crate) fn put(
        &mut self,
        symbol: Symbol,
        index: &[u8],
        value: Number,
    ) -> Result<(), AllocError>
        requires long { length index.now ≡ places symbol }
        requires labels { All (λ t. t < self.old.draft.rules.count) index.now }
        requires belongs { Belongs self.old.draft.version symbol }
        requires admissible { fuse_all (fuses self.old.draft.rules) index.now (triples symbol) ≡ true }
        requires member { IsTrue ((ring_at self.old.draft.ring).member value) }
        ensures { OnOk result (Puts symbol index.now value self.old self.new) }
    {
        match symbol {
            Symbol::F => settled(self.draft.set_f(six(index), value)),
            Symbol::R => settled(self.draft.set_r(three(index), value)),
            Symbol::W => settled(self.draft.set_w(three(index), value)),
            Symbol::V => settled(self.draft.set_v(three(index), value)),
            Symbol::H => self.derived.put_h(turned(index), value),
            Symbol::S => self.derived.put_s(three(index), value),
            Symbol::Twist => settled_mark(self.draft.set_twist(index[0], value)),
            Symbol::Loop => settled_mark(self.draft.set_loop(index[0], value)),
        }
    }
}
