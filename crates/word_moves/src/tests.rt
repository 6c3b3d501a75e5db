use crate::{BraidMove, MovesCause, MovesFault, Verdict, linked, linked_programs, read_moves};
use fusion_rules::{Names, Rules};
use line_text::LineCause;
use program_text::{Sign, read_program};
use std::test::Fail;

const FAULTS: [(&[u8], u32, MovesCause); 9] = [
    (b"", 1, MovesCause::Header),
    (b"\n# moves 1\n", 3, MovesCause::Header),
    (b"moves 2\n", 1, MovesCause::Header),
    (b"moves 1\n\nfar\n", 3, MovesCause::Command),
    (b"moves 1\nswap 1\n", 2, MovesCause::Command),
    (b"moves 1\ninsert x 1 *\n", 2, MovesCause::Command),
    (b"moves 1\nyb 01\n", 2, MovesCause::Place),
    (b"moves 1\ninsert 1 +1 +\n", 2, MovesCause::Place),
    (
        b"moves 1\nfar 1\n\tfar\n",
        3,
        MovesCause::Line(LineCause::NotAscii),
    ),
];

#[test]
fn reads_moves(rt: HostRuntime) -> Result<(), Fail> {
    let moves = read_moves(
        rt.alloc(),
        b"# c\nmoves 1\ncancel 0\n insert  7 2 -\nfar 3\nyb 12",
    )?;
    let said = [
        BraidMove::Cancel { place: 0 },
        BraidMove::Insert {
            place: 7,
            gap: 2,
            sign: Sign::Minus,
        },
        BraidMove::Far { place: 3 },
        BraidMove::Yb { place: 12 },
    ];
    assert!(rt; moves.list.as_slice() == said.as_slice());
    for (bytes, line, cause) in &FAULTS {
        let fault = MovesFault::At {
            line: *line,
            cause: *cause,
        };
        assert!(rt; read_moves(rt.alloc(), bytes).err() == Some(fault));
    }
    Ok(())
}

// Each row is two programs, moves, and the verdict.
const VERDICTS: [(&[u8], &[u8], &[u8], Verdict); 9] = [
    (
        b"program 1\nstart (((t t):1 t):t t):1\nbraid 1 +\nbraid 2 +\nraise 3\nbraid 1 +\nmeasure 1\n",
        b"program 1\nstart (((t t):1 t):t t):1\nbraid 2 +\nbraid 1 +\nbraid 2 +\nmeasure 1\nraise 2\n",
        b"moves 1\nyb 1\n",
        Verdict::Linked,
    ),
    (
        b"program 1\nstart (((t t):1 t):t t):1\nbraid 1 +\n",
        b"program 1\nstart (((t t):1 t):t t):1\nbraid 3 -\nbraid 1 +\nbraid 3 +\n",
        b"moves 1\ninsert 2 3 -\nfar 1\n",
        Verdict::Linked,
    ),
    (
        b"program 1\nstart (((t t):1 t):t t):1\nmeasure 2\nbraid 1 +\nbraid 1 -\n",
        b"program 1\nstart (((t t):1 t):t t):1\nmeasure 2\n",
        b"moves 1\ncancel 2\n",
        Verdict::Linked,
    ),
    (
        b"program 1\nstart (((t t):1 t):t t):1\nbraid 1 +\n",
        b"program 1\nstart (((t t):t t):t t):1\nbraid 1 +\n",
        b"moves 1\n",
        Verdict::StartDiffers,
    ),
    (
        b"program 1\nstart (((t t):1 t):t t):1\nbraid 1 +\n",
        b"program 1\nstart ((t t):1 (t t):1):1\nbraid 1 +\n",
        b"moves 1\n",
        Verdict::StartDiffers,
    ),
    (
        b"program 1\nstart (((t t):1 t):t t):1\nbraid 1 +\nbraid 2 +\nbraid 1 -\n",
        b"program 1\nstart (((t t):1 t):t t):1\n",
        b"moves 1\ninsert 1 3 +\ncancel 1\nyb 1\n",
        Verdict::NoMove { number: 3 },
    ),
    (
        b"program 1\nstart (((t t):1 t):t t):1\nbraid 1 +\nbraid 2 +\n",
        b"program 1\nstart (((t t):1 t):t t):1\n",
        b"moves 1\nfar 1\nfar 9\n",
        Verdict::NoMove { number: 1 },
    ),
    (
        b"program 1\nstart (((t t):1 t):t t):1\nbraid 1 +\nbraid 2 +\n",
        b"program 1\nstart (((t t):1 t):t t):1\nbraid 1 +\nbraid 2 -\n",
        b"moves 1\n",
        Verdict::EndDiffers { place: 2 },
    ),
    (
        b"program 1\nstart (((t t):1 t):t t):1\nbraid 1 +\nmeasure 3\n",
        b"program 1\nstart (((t t):1 t):t t):1\nbraid 1 +\n",
        b"moves 1\n",
        Verdict::EndDiffers { place: 2 },
    ),
];

#[test]
fn links_programs(rt: HostRuntime) -> Result<(), Fail> {
    linked_programs();
    let mut names = Names::new(rt.alloc());
    names.add(b"1")?;
    names.add(b"t")?;
    let count = names.count();
    assert_eq!(rt; count, 2);
    let mut rules = Rules::new(count);
    assert!(rt; rules.allow(1, 1, 0).is_ok());
    assert!(rt; rules.allow(1, 1, 1).is_ok());
    for (from, to, moves, verdict) in &VERDICTS {
        let from = read_program(rt.alloc(), &names, &rules, from)?;
        let to = read_program(rt.alloc(), &names, &rules, to)?;
        let moves = read_moves(rt.alloc(), moves)?;
        assert!(rt; linked(rt.alloc(), &from, &to, &moves)? == *verdict);
    }
    Ok(())
}
