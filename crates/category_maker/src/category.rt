//! The category of a number.

ghost use Rattle.std.specs.Prelude.{◌≡◌, ◌≤◌, ◌<◌, ◌+◌, IfOk, OnOk};
ghost use Rattle.category_text.specs.Named.{seen};
ghost use Rattle.category_maker.specs.MadeCategory.{made_category};
ghost use Rattle.category_maker.specs.Steps.{IsSetUpTo};

use crate::names::label_names;
use crate::powers::root_power;
use crate::rules::group_rules;
use category_text::Named;
use cyclo_core::Cyclo;
use poly_core::{PowerTable, powers};
use std::alloc::{AllocError, Global};
use symbol_table::{Draft, SetFault, VIndex};

/// The category of n.
pub(crate) fn group_category(alloc: Global, n: u8) -> Result<Named, AllocError>
    requires some { 0 < n }
    requires few { n ≤ 12 }
    ensures { IfOk result (λ named. seen named ≡ made_category n) }
{
    let names = label_names(alloc, n)?;
    let draft = group_draft(alloc, n)?;
    Ok(Named { names, draft })
}

/// The rules and the symbols of the cyclic group of order n.
fn group_draft(alloc: Global, n: u8) -> Result<Draft<Cyclo>, AllocError>
    requires some { 0 < n }
    requires few { n ≤ 12 }
    ensures { IfOk result (λ draft. IsSetUpTo n n 0 draft) }
{
    let Ok(ring) = Cyclo::new(n) else {
        unreachable!();
    };
    let Ok(table) = powers(n) else {
        unreachable!();
    };
    let mut draft = Draft::new(alloc, ring, group_rules(n));
    for a in 0..n {
        set_row(n, &table, a, &mut draft)?;
    }
    Ok(draft)
}

/// Sets R at a first label, behind those of the labels before it.
fn set_row(n: u8, table: &PowerTable, a: u8, draft: &mut Draft<Cyclo>) -> Result<(), AllocError>
    requires table { table.now ≡ n }
    requires below { a < n }
    requires few { n ≤ 12 }
    requires before { IsSetUpTo n a 0 draft.old }
    ensures { OnOk result (IsSetUpTo n (a + 1) 0 draft.new) }
{
    for b in 0..n {
        set_power(n, table, a, b, draft)?;
    }
    Ok(())
}

/// Sets R of two labels and their sum.
fn set_power(
    n: u8,
    table: &PowerTable,
    a: u8,
    b: u8,
    draft: &mut Draft<Cyclo>,
) -> Result<(), AllocError>
    requires table { table.now ≡ n }
    requires below { a < n }
    requires second_below { b < n }
    requires few { n ≤ 12 }
    requires before { IsSetUpTo n a b draft.old }
    ensures { OnOk result (IsSetUpTo n a (b + 1) draft.new) }
{
    let value = root_power(draft.ring(), table, (a * b) % n);
    let at = VIndex {
        a,
        b,
        c: (a + b) % n,
    };
    match draft.set_r(at, value) {
        Ok(()) => Ok(()),
        Err(SetFault::Memory) => Err(AllocError),
        Err(_) => unreachable!(),
    }
}
