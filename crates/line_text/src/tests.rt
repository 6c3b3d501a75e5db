use crate::{
    LineCause, LineFault, Lines, cut_back, end_line, plain_number, write_line, write_plain_number,
    write_word, write_words,
};
use std::test::Fail;

#[test]
fn reads_lines_and_words(rt: HostRuntime) -> Result<(), Fail> {
    let mut lines = Lines::new(b"# c\n\n a  bc\n\t");
    assert_eq!(rt; lines.count(), 4);
    let line = lines.next_line()?.ok_or("a line")?;
    assert_eq!(rt; line.number, 3);
    assert_eq!(rt; line.word(1), Some(b"bc".as_slice()));
    assert!(rt; line.word(2).is_none());
    let fault = LineFault {
        line: 4,
        cause: LineCause::NotAscii,
    };
    assert!(rt; lines.next_line().err() == Some(fault));
    assert!(rt; lines.next_line().err() == Some(fault));
    Ok(())
}

#[test]
fn reads_plain_numbers(rt: HostRuntime) {
    assert_eq!(rt; plain_number(b"0"), Some(0));
    assert_eq!(rt; plain_number(b"999999999"), Some(999_999_999));
    assert_eq!(rt; plain_number(b"00"), None);
    assert_eq!(rt; plain_number(b"1000000000"), None);
    assert_eq!(rt; plain_number(b"+1"), None);
    assert_eq!(rt; plain_number(b""), None);
}

#[test]
fn writes_lines(rt: HostRuntime) -> Result<(), Fail> {
    let mut out = Vec::new(rt.alloc());
    write_line(&["root", "5"], &mut out)?;
    write_words(&["", "a"], &mut out)?;
    write_word("b", &mut out)?;
    let begun = out.len();
    let written = write_plain_number(12, &mut out);
    cut_back(written, begun, &mut out)?;
    end_line(&mut out)?;
    assert!(rt; out.as_slice() == b"root 5\n  a b 12\n".as_slice());
    Ok(())
}
