ghost use Rattle.std.specs.Prelude.{◌≡◌, ◌+◌, ℕ, List, length, Some, IfOk, OnOk};
ghost use Rattle.cyclo_core.specs.Ratio.{Ratio};
ghost use Rattle.tree_shapes.specs.Outlines.{size};
ghost use Rattle.amp_store.specs.Amplitudes.{amplitude_at};

use crate::{Counts, report, summary, tree_report, write_labels};
use amp_store::{Amps, Key};
use arrayvec::ArrayVec;
use cyclo_core::Cyclo;
use cyclo_text::read_number;
use fusion_rules::{NameFault, Names};
use outcome_rows::{Row, Rows};
use recouple::TreeState;
use ring_laws::is_zero;
use std::alloc::{AllocError, Global};
use std::test::Fail;
use tree_shapes::{Shape, join, strand};
use word_runs::LiveWord;

/// The labels `1` and `t`.
fn two_names(alloc: Global) -> Result<Names, NameFault> {
    let mut names = Names::new(alloc);
    names.add(b"1")?;
    names.add(b"t")?;
    Ok(names)
}

#[test]
fn writes_labels(rt: HostRuntime) -> Result<(), Fail> {
    let names = two_names(rt.alloc())?;
    let mut out = Vec::from_slice(rt.alloc(), b"row")?;
    write_labels(&names, &[1, 0, 1], &mut out)?;
    assert!(rt; out.as_slice() == b"row t 1 t".as_slice());
    Ok(())
}

fn row(alloc: Global, ring: &Cyclo, word: &[u8], weight: &[u8]) -> Result<Row<Cyclo>, Fail> {
    Ok(Row {
        word: Vec::from_slice(alloc, word)?,
        weight: read_number(ring, weight)?,
    })
}

// The middle pair of ((t t):1 (t t):1):1 is measured.
#[test]
fn reports_rows(rt: HostRuntime) -> Result<(), Fail> {
    let alloc = rt.alloc();
    let names = two_names(alloc)?;
    let ring = Cyclo::new(5)?;
    let mut list = Vec::new(alloc);
    list.push(row(alloc, &ring, &[0], b"5,0,3,3")?)?;
    list.push(row(alloc, &ring, &[1], b"-3,0,-2,-2")?)?;
    let rows = Rows {
        total: read_number(&ring, b"2,0,1,1")?,
        list,
    };
    let mut out = Vec::new(alloc);
    report(alloc, &names, &rows, &mut out)?;
    let expected = b"total 2,0,1,1
outcome 1 weight 5,0,3,3
outcome t weight -3,0,-2,-2
";
    assert!(rt; out.as_slice() == expected.as_slice());
    Ok(())
}

fn key(a: u8, b: u8, c: u8) -> Key
    ensures { length result.items ≡ 3 }
{
    let mut key = Key::new();
    key.push(a);
    key.push(b);
    key.push(c);
    key
}

/// Gives a key of three labels a number.
fn put(ring: &Cyclo, amps: &mut Amps<Cyclo>, key: Key, number: &[u8]) -> Result<(), Fail>
    requires long { length key.items ≡ 3 }
    requires keys { (key : List ℕ) (v : Ratio) → amplitude_at amps.old key ≡ Some v → 4 ≡ length key + 1 }
    ensures { OnOk result ((key : List ℕ) (v : Ratio) → amplitude_at amps.new key ≡ Some v → 4 ≡ length key + 1) }
{
    let value = read_number(ring, number)?;
    if is_zero(ring, &value) {
        return Err(Fail::from("zero"));
    }
    amps.put(key, value)?;
    Ok(())
}

/// The shape of two pairs.
fn two_pairs(alloc: Global) -> Result<Shape, AllocError>
    ensures { IfOk result (λ shape. size shape ≡ 4) }
{
    let left = join(alloc, strand(1), strand(1), 0)?;
    let right = join(alloc, strand(1), strand(1), 0)?;
    let tree = join(alloc, left, right, 0)?;
    Ok(Shape::from_tree(&tree))
}

/// A live word with one outcome, and a state of four strands `t` and two pairs.
fn live(
    alloc: Global,
    outcome: u8,
    amps: Amps<Cyclo>,
) -> Result<LiveWord<TreeState<Cyclo>>, AllocError>
    requires { (key : List ℕ) (v : Ratio) → amplitude_at amps key ≡ Some v → 4 ≡ length key + 1 }
{
    let mut strands = ArrayVec::new();
    strands.push(1);
    strands.push(1);
    strands.push(1);
    strands.push(1);
    Ok(LiveWord {
        word: Vec::from_slice(alloc, &[outcome])?,
        state: TreeState::with_parts(strands, two_pairs(alloc)?, amps),
    })
}

// From (((t t):t t):t t):t pair 2 is braided, pair 1 is measured, and node 2 is raised.
#[test]
fn reports_live_words(rt: HostRuntime) -> Result<(), Fail> {
    let alloc = rt.alloc();
    let names = two_names(alloc)?;
    let ring = Cyclo::new(5)?;
    let mut one = Amps::new(alloc);
    put(&ring, &mut one, key(0, 1, 1), b"0,-1")?;
    let mut two = Amps::new(alloc);
    put(&ring, &mut two, key(1, 1, 1), b"2,0,1,1")?;
    put(&ring, &mut two, key(1, 1, 0), b"1,0,1,1")?;
    let mut ends = Vec::new(alloc);
    ends.push(live(alloc, 0, one)?)?;
    ends.push(live(alloc, 1, two)?)?;
    let mut out = Vec::new(alloc);
    tree_report(alloc, &names, &ends[0].state, &ends, &mut out)?;
    let expected = b"strands t t t t
shape ((1 2) (3 4))
word 1
amp 1 t t 0,-1
word t
amp t t 1 1,0,1,1
amp t t t 2,0,1,1
";
    assert!(rt; out.as_slice() == expected.as_slice());
    Ok(())
}

#[test]
fn summarizes(rt: HostRuntime) -> Result<(), Fail> {
    let alloc = rt.alloc();
    let ring = Cyclo::new(5)?;
    let counts = Counts {
        number: 5,
        commands: 2048,
        measurements: 512,
    };
    let mut rows = Rows {
        total: read_number(&ring, b"2,0,1,1")?,
        list: Vec::new(alloc),
    };
    let mut out = Vec::new(alloc);
    summary(alloc, counts, &rows, &mut out)?;
    rows.list.push(row(alloc, &ring, &[0], b"5,0,3,3")?)?;
    rows.list.push(row(alloc, &ring, &[1], b"-3,0,-2,-2")?)?;
    summary(alloc, counts, &rows, &mut out)?;
    let expected = b"made 5
commands 2048
measurements 512
total 2,0,1,1
outcomes 0
weight 0
made 5
commands 2048
measurements 512
total 2,0,1,1
outcomes 2
weight 5,0,3,3
";
    assert!(rt; out.as_slice() == expected.as_slice());
    Ok(())
}
