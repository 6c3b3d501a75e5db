ghost use Rattle.std.specs.Prelude.{◌≡◌, length, IfOk};

use crate::{MarksCause, MarksFault, read_marks};
use category_text::Named;
use cyclo_core::Cyclo;
use cyclo_text::NumberWord;
use fusion_rules::{Names, Rules};
use line_text::LineCause;
use std::alloc::Global;
use std::test::Fail;
use symbol_table::Draft;

/// The labels and the rules of the Fibonacci category at root 5, with every symbol 1.
fn fibonacci(alloc: Global) -> Result<Named, Fail>
    ensures version { IfOk result (λ n. n.draft.version ≡ 1) }
    ensures counts { IfOk result (λ n. length n.names ≡ n.draft.rules.count) }
{
    let mut names = Names::new(alloc);
    names.add(b"1")?;
    names.add(b"t")?;
    let mut rules = Rules::new(names.count());
    rules.allow(1, 1, 0)?;
    rules.allow(1, 1, 1)?;
    let draft = Draft::new(alloc, Cyclo::new(5)?, rules);
    Ok(Named { names, draft })
}

#[test]
fn reads_marks(rt: HostRuntime) -> Result<(), Fail> {
    let text = b"# c\nmarks 1\ntwist t 0,0,1\n\nloop t 0,0,-1,-1";
    let named = read_marks(rt.alloc(), fibonacci(rt.alloc())?, text)?;
    assert_eq!(rt; named.names.count(), 2);
    assert_eq!(rt; named.draft.version(), 2);
    assert!(rt; named.draft.has_twist(1) && named.draft.has_loop(1));
    assert!(rt; !named.draft.has_twist(0) && !named.draft.has_loop(0));
    let twist = named.draft.twist(1);
    assert_eq!(rt; twist.numerator(2), 1);
    assert_eq!(rt; twist.numerator(3), 0);
    assert_eq!(rt; named.draft.loop_value(1).numerator(3), -1);
    Ok(())
}

const FAULTS: [(&[u8], u32, MarksCause); 10] = [
    (b"\n# marks 1\n", 3, MarksCause::Header),
    (b"marks 2\n", 1, MarksCause::Header),
    (b"marks 1\n\ntwis x\n", 3, MarksCause::Word),
    (b"marks 1\ntwist q\n", 2, MarksCause::Short),
    (b"marks 1\nloop q x 1\n", 2, MarksCause::Long),
    (b"marks 1\nloop q x\n", 2, MarksCause::UnknownLabel),
    (
        b"marks 1\ntwist t 1\nloop t 1\ntwist t x\n",
        4,
        MarksCause::Repeated,
    ),
    (
        b"marks 1\ntwist t 01\n",
        2,
        MarksCause::Number(NumberWord::Spelling),
    ),
    (
        b"marks 1\nloop t 1/0\nloop t x\n",
        2,
        MarksCause::Number(NumberWord::ZeroDenominator),
    ),
    (
        b"marks 1\n\ttwist t 1\n",
        2,
        MarksCause::Line(LineCause::NotAscii),
    ),
];

#[test]
fn refuses_the_first_line_at_fault(rt: HostRuntime) -> Result<(), Fail> {
    for (bytes, line, cause) in &FAULTS {
        let fault = MarksFault::At {
            line: *line,
            cause: *cause,
        };
        let read = read_marks(rt.alloc(), fibonacci(rt.alloc())?, bytes);
        assert!(rt; read.err() == Some(fault));
    }
    Ok(())
}
