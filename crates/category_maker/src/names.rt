//! The names of the labels.

ghost use Rattle.std.specs.Prelude.{◌≡◌, ◌≤◌, ◌<◌, ◌++◌, ◌∷◌, [], IfOk, OnOk};
ghost use Rattle.category_maker.specs.MadeCategory.{label_name, label_names};

use fusion_rules::{NameFault, Names};
use itoa::Buffer;
use std::alloc::{AllocError, Global};

/// The names `g0`, `g1` and so on of so many labels.
pub(crate) fn label_names(alloc: Global, n: u8) -> Result<Names, AllocError>
    requires { n ≤ 12 }
    ensures { IfOk result (λ names. names ≡ label_names n) }
{
    let mut names = Names::new(alloc);
    for k in 0..n {
        add_name(alloc, k, &mut names)?;
    }
    Ok(names)
}

/// Adds the name of a label behind those before it.
fn add_name(alloc: Global, k: u8, names: &mut Names) -> Result<(), AllocError>
    requires below { k < 12 }
    requires before { names.old ≡ label_names k }
    ensures { OnOk result (names.new ≡ names.old ++ label_name k ∷ []) }
{
    let name = label_name(alloc, k)?;
    match names.add(&name) {
        Ok(_) => Ok(()),
        Err(NameFault::Memory) => Err(AllocError),
        Err(_) => unreachable!(),
    }
}

/// `g` and the number of a label.
fn label_name(alloc: Global, k: u8) -> Result<Vec<u8>, AllocError>
    ensures { IfOk result (λ name. name.items ≡ label_name k) }
{
    let mut name = Vec::new(alloc);
    name.push(b'g')?;
    name.extend_from_slice(Buffer::new().format(k).as_bytes())?;
    Ok(name)
}
