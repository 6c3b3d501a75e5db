//! The laws of the powers of a root of unity, for the proofs of the crates above.

ghost use Rattle.std.specs.Prelude.{IsTrue};
ghost use Rattle.poly_core.specs.Laws.{StepsRound, VanishesAtUnits, PutsPowers};
ghost use Rattle.poly_core.specs.Rho.{is_accepted};

/// The laws of the powers of z, for every accepted order of z.
///
/// The steps from z^k to z^(k + 1) lead round once in `_root`. The cyclotomic polynomial vanishes at z^k for
/// every k below `_root` that has no divisor in common with it; so putting z^k for z takes powers to powers.
pub fn powers(_root: u8)
    requires { IsTrue (is_accepted _root) }
    ensures steps { StepsRound _root }
    ensures vanishing { VanishesAtUnits _root }
    ensures substitution { PutsPowers _root }
{}
