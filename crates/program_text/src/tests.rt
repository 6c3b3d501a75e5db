use crate::{
    Command, Letter, ProgramCause, ProgramFault, count_measurements, first_bad_gap, read_program,
    write_program,
};
use fusion_rules::{NameFault, Names, Rules};
use std::alloc::Global;
use std::test::Fail;
use tree_shapes::{join, strand};

/// The labels `1` and `t`.
fn two_names(alloc: Global) -> Result<Names, NameFault> {
    let mut names = Names::new(alloc);
    names.add(b"1")?;
    names.add(b"t")?;
    Ok(names)
}

// Free spaces in a tree, a comment, two sites, a named outcome and a test of it.
#[test]
fn reads_and_writes_programs(rt: HostRuntime) -> Result<(), Fail> {
    let names = two_names(rt.alloc())?;
    let count = names.count();
    assert_eq!(rt; count, 2);
    let mut rules = Rules::new(count);
    assert!(rt; rules.allow(1, 1, 0).is_ok());
    assert!(rt; rules.allow(1, 1, 1).is_ok());
    let text = b" program 2
# four strands
start ( ( t t ) : 1(t t):1) :1
site A 1 2
braid 1 +
measure 1
site B_2 3  4
measure 3 as x
raise 3
braid 3 - when x t
";
    let canonical = b"program 2
start ((t t):1 (t t):1):1
site A 1 2
braid 1 +
measure 1
site B_2 3 4
measure 3 as x
raise 3
braid 3 - when x t
";
    let plan = read_program(rt.alloc(), &names, &rules, text)?;
    assert_eq!(rt; plan.version, 2);
    assert_eq!(rt; plan.sites.len(), 2);
    assert_eq!(rt; plan.outcomes.len(), 1);
    let mut out = Vec::new(rt.alloc());
    write_program(&names, &plan, &mut out)?;
    assert!(rt; out.as_slice() == canonical.as_slice());
    Ok(())
}

#[test]
fn refuses_the_first_line_at_fault(rt: HostRuntime) -> Result<(), Fail> {
    let names = two_names(rt.alloc())?;
    let count = names.count();
    assert_eq!(rt; count, 2);
    let mut rules = Rules::new(count);
    assert!(rt; rules.allow(1, 1, 0).is_ok());
    let text = b"program 1\nstart ((t t):1 t):t\nmeasure 3\nraise 0 +\n";
    let fault = ProgramFault::At {
        line: 3,
        cause: ProgramCause::Gap,
    };
    assert!(rt; read_program(rt.alloc(), &names, &rules, text).err() == Some(fault));
    let text = b"program 1\nstart (t (t t):t):t\n";
    let fault = ProgramFault::At {
        line: 2,
        cause: ProgramCause::Inadmissible(1),
    };
    assert!(rt; read_program(rt.alloc(), &names, &rules, text).err() == Some(fault));
    Ok(())
}

#[test]
fn finds_the_least_bad_gap(rt: HostRuntime) -> Result<(), Fail> {
    let alloc = rt.alloc();
    let mut rules = Rules::new(2);
    rules.allow(1, 1, 0)?;
    let left = join(alloc, strand(1), strand(1), 0)?;
    let right = join(alloc, strand(1), strand(1), 1)?;
    let tree = join(alloc, left, right, 1)?;
    assert_eq!(rt; first_bad_gap(&rules, &tree), Some(3));
    let pair = join(alloc, strand(1), strand(1), 0)?;
    assert_eq!(rt; first_bad_gap(&rules, &pair), None);
    Ok(())
}

#[test]
fn letters_of_commands(rt: HostRuntime) {
    let command = Command::Measure { gap: 2 };
    assert_eq!(rt; command.outcomes(), 1);
    assert_eq!(rt;
        count_measurements(&[command, Command::Raise { gap: 1 }]),
        1
    );
    assert!(rt; command.letter(3) == Letter::Charge { gap: 2, place: 3 });
}
