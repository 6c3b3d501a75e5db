//! The laws of images, for the proofs of the crates above.

ghost use Rattle.std.specs.Prelude.{IsTrue};
ghost use Rattle.poly_core.specs.Rho.{is_accepted};
ghost use Rattle.cyclo_core.specs.ImageLaws.{AreStarMaps, SendPowers, Compose, Undo, HaveInverses, ConjugateIsImage};

/// The images of the numbers of each accepted root, where z^k is put for z.
///
/// Each is a map of rings that keeps conjugates and sends z to z^k. They compose as their exponents multiply modulo
/// `_root`; so each is undone by another one. The conjugate is the image by `_root` - 1. See Washington,
/// Introduction to Cyclotomic Fields, theorem 2.5.
pub fn images(_root: u8)
    requires { IsTrue (is_accepted _root) }
    ensures maps { AreStarMaps _root }
    ensures powers { SendPowers _root }
    ensures composed { Compose _root }
    ensures undone { Undo _root }
    ensures inverses { HaveInverses _root }
    ensures conjugate { ConjugateIsImage _root }
{}
