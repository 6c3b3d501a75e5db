ghost use Rattle.std.specs.Prelude.{◌≡◌, ◌≤◌, ◌<◌, ◌++◌, ◌∷◌, [], IfOk, OnOk};
ghost use Rattle.category_images.specs.Names.{pair_name, pair_names};

use fusion_rules::{NameFault, Names};
use itoa::Buffer;
use std::alloc::{AllocError, Global};

/// The names `x0`, `x1` and so on of the labels of a product. Asks for a count from 1 to 12.
pub fn product_names(alloc: Global, count: u8) -> Result<Names, AllocError>
    requires some { 0 < count }
    requires few { count ≤ 12 }
    ensures { IfOk result (λ names. names ≡ pair_names count) }
{
    let mut names = Names::new(alloc);
    for k in 0..count {
        add_name(alloc, k, &mut names)?;
    }
    Ok(names)
}

/// Adds the name of a label behind those before it.
fn add_name(alloc: Global, k: u8, names: &mut Names) -> Result<(), AllocError>
    requires below { k < 12 }
    requires before { names.old ≡ pair_names k }
    ensures { OnOk result (names.new ≡ names.old ++ pair_name k ∷ []) }
{
    let name = pair_name(alloc, k)?;
    match names.add(&name) {
        Ok(_) => Ok(()),
        Err(NameFault::Memory) => Err(AllocError),
        Err(_) => unreachable!(),
    }
}

/// `x` and the number of a label.
fn pair_name(alloc: Global, k: u8) -> Result<Vec<u8>, AllocError>
    ensures { IfOk result (λ name. name.items ≡ pair_name k) }
{
    let mut name = Vec::new(alloc);
    name.push(b'x')?;
    name.extend_from_slice(Buffer::new().format(k).as_bytes())?;
    Ok(name)
}
