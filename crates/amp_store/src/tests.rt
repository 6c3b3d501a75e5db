ghost use Rattle.std.specs.Prelude.{◌≡◌, ◌<◌, ◌∷◌, [], length, OnOk};
ghost use Rattle.std.specs.List.{AllByRecursion};

use crate::{Amps, Key};
use ring_laws::{Int, Whole, is_zero};
use std::test::Fail;

fn key(a: u8, b: u8) -> Key
    ensures { result.items ≡ a ∷ b ∷ [] }
{
    let mut key = Key::new();
    key.push(a);
    key.push(b);
    key
}

fn put(amps: &mut Amps<Whole>, a: u8, b: u8, x: i128) -> Result<(), Fail>
    requires { AllByRecursion (λ e. 1 < length e.0) amps.old }
    ensures { OnOk result (AllByRecursion (λ e. 1 < length e.0) amps.new) }
{
    let value = Int::new(x).ok_or("refused")?;
    if is_zero(&Whole, &value) {
        return Err(Fail::from("zero"));
    }
    amps.put(key(a, b), value)?;
    Ok(())
}

/// Whether the amplitudes are these keys of two labels with these numbers, in this order.
fn are(amps: &Amps<Whole>, wanted: &[(u8, u8, i128)]) -> bool {
    if amps.len() != wanted.len() {
        return false;
    }
    for i in 0..amps.len() {
        let (key, value) = amps.entry(i);
        let (a, b, x) = wanted[i];
        if key.as_slice() != [a, b].as_slice() || value.get() != x {
            return false;
        }
    }
    true
}

#[test]
fn amplitudes_in_the_order_of_keys(rt: HostRuntime) -> Result<(), Fail> {
    let mut amps = Amps::<Whole>::new(rt.alloc());
    put(&mut amps, 1, 0, 5)?;
    put(&mut amps, 2, 1, -3)?;
    put(&mut amps, 0, 2, 7)?;
    assert!(rt; are(&amps, &[(0, 2, 7), (1, 0, 5), (2, 1, -3)]));
    assert_eq!(rt; amps.get(&key(1, 0)).map(|v| v.get()), Some(5));
    assert!(rt; amps.get(&key(1, 1)).is_none());
    put(&mut amps, 1, 0, 4)?;
    assert!(rt; are(&amps, &[(0, 2, 7), (1, 0, 4), (2, 1, -3)]));
    amps.in_order();
    assert_eq!(rt; amps.empty().len(), 0);
    assert_eq!(rt; Amps::<Whole>::new(amps.allocator()).len(), 0);
    Ok(())
}

#[test]
fn copies_and_parts(rt: HostRuntime) -> Result<(), Fail> {
    let mut amps = Amps::<Whole>::new(rt.alloc());
    put(&mut amps, 2, 1, 5)?;
    put(&mut amps, 0, 1, 7)?;
    put(&mut amps, 1, 0, -3)?;
    let part = amps.keep_label(1, 1)?;
    assert!(rt; are(&part, &[(0, 1, 7), (2, 1, 5)]));
    let copy = amps.copy()?;
    put(&mut amps, 1, 0, 9)?;
    assert!(rt; are(&copy, &[(0, 1, 7), (1, 0, -3), (2, 1, 5)]));
    Ok(())
}
