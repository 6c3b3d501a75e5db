use super::*;
use std::test::Fail;

#[test]
fn roots_are_accepted_or_refused(rt: HostRuntime) {
    let rows = [
        (0, false),
        (1, true),
        (17, true),
        (19, false),
        (34, true),
        (60, true),
        (61, false),
        (255, false),
    ];
    for (root, accepted) in rows {
        assert_eq!(rt; cyclotomic(root).is_ok(), accepted, "root {root}");
        assert_eq!(rt; powers(root).is_ok(), accepted, "root {root}");
    }
}

#[test]
fn cyclotomic_polynomials(rt: HostRuntime) -> Result<(), Fail> {
    let twelfth = cyclotomic(12)?;
    assert_eq!(rt; twelfth.as_slice(), [1, 0, -1, 0, 1].as_slice());
    let sixtieth = cyclotomic(60)?;
    assert_eq!(rt;
        sixtieth.as_slice(),
        [1, 0, 1, 0, 0, 0, -1, 0, -1, 0, -1, 0, 0, 0, 1, 0, 1].as_slice()
    );
    Ok(())
}

#[test]
fn powers_of_a_twelfth_root(rt: HostRuntime) -> Result<(), Fail> {
    let table = powers(12)?;
    assert_eq!(rt; table.root(), 12);
    assert_eq!(rt; table.phi(), 4);
    assert_eq!(rt; table.rho(4, 0), -1, "z^4 is z^2 - 1");
    assert_eq!(rt; table.rho(4, 2), 1, "z^4 is z^2 - 1");
    assert_eq!(rt; table.rho(11, 3), -1, "z^11 is z - z^3");
    assert_eq!(rt; table.row(5)[1], -1, "z^5 is z^3 - z");
    assert_eq!(rt; table.row(5)[3], 1, "z^5 is z^3 - z");
    Ok(())
}
