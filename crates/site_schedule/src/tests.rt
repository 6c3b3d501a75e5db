use crate::{ScheduleFault, letters_of, read_schedule, text_order};
use fusion_rules::{Names, Rules};
use line_text::{LineCause, LineFault};
use program_text::read_program;
use std::test::Fail;

// Two sites of two commands each: B tests an outcome of A.
#[test]
fn reads_schedules(rt: HostRuntime) -> Result<(), Fail> {
    let mut names = Names::new(rt.alloc());
    names.add(b"1")?;
    names.add(b"t")?;
    let count = names.count();
    assert_eq!(rt; count, 2);
    let mut rules = Rules::new(count);
    assert!(rt; rules.allow(1, 1, 0).is_ok());
    assert!(rt; rules.allow(1, 1, 1).is_ok());
    let text = b"program 2
start ((t t):1 (t t):1):1
site A 1 2
measure 1 as x
raise 1
site B 3 4
braid 3 + when x t
measure 3
";
    let plan = read_program(rt.alloc(), &names, &rules, text)?;
    let order = text_order(rt.alloc(), &plan)?;
    assert!(rt; order.turns.as_slice() == [0, 0, 1, 1].as_slice());
    let mixed = read_schedule(rt.alloc(), &plan, b"# x\n schedule  1\n# A\nA\n B B A")?;
    assert!(rt; mixed.turns.as_slice() == [0, 1, 1, 0].as_slice());
    let letters = letters_of(rt.alloc(), &plan, &mixed)?;
    assert_eq!(rt; letters.len(), 4);
    let line = LineFault {
        line: 4,
        cause: LineCause::NotAscii,
    };
    let refused: [(&[u8], ScheduleFault); 9] = [
        (
            b"schedule 1\nA A A B B\n",
            ScheduleFault::TooMany { turn: 3 },
        ),
        (
            b"schedule 1\nA A A\n\tB\n",
            ScheduleFault::TooMany { turn: 3 },
        ),
        (b"schedule 1\nA A\n\nC \t\n", ScheduleFault::Line(line)),
        (
            b"schedule 1\nA A B\n",
            ScheduleFault::Unfinished { site: 1 },
        ),
        (b"schedule 1\nA\n", ScheduleFault::Unfinished { site: 0 }),
        (b"schedule 1\nA C\n", ScheduleFault::UnknownSite { turn: 2 }),
        (b"schedule 1\nB A\n", ScheduleFault::Early { turn: 1 }),
        (b"schedule 2\nA A B B\n", ScheduleFault::Header { line: 1 }),
        (b"\n# c\n", ScheduleFault::Header { line: 3 }),
    ];
    for (bytes, fault) in &refused {
        assert!(rt; read_schedule(rt.alloc(), &plan, bytes).err() == Some(*fault));
    }
    Ok(())
}
