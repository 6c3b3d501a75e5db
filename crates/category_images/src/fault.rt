ghost use Rattle.std.specs.Prelude.{◌≡◌};

use crate::making::Stop;
use crate::place::Place;

/// Why a category has no image or no mirror.
#[derive(Debug, Drop)]
pub enum ImageFault {
    /// The exponent isn't from 1 to the root, or has a divisor in common with it.
    Exponent,
    /// The first symbol that doesn't fit in 128 bits.
    Overflow(Place),
    /// There was no memory for one value more.
    Memory,
}

/// Why two categories have no product.
#[derive(Debug, Drop)]
pub enum ProductFault {
    /// One of them has version 1.
    Version,
    /// Their roots differ.
    Roots,
    /// There are more than twelve pairs of labels: this many.
    Labels { count: u32 },
    /// The first symbol that doesn't fit in 128 bits.
    Overflow(Place),
    /// There was no memory for one value more.
    Memory,
}

impl From<Stop> for ImageFault {
    ghost use Rattle.category_images.specs.Faults.{image_fault};

    ghost from_gives = { λ stop fault. fault ≡ image_fault stop };

    fn from(stop: Stop) -> ImageFault {
        match stop {
            Stop::Overflow(place) => ImageFault::Overflow(place),
            Stop::Memory => ImageFault::Memory,
        }
    }
}

impl From<Stop> for ProductFault {
    ghost use Rattle.category_images.specs.Faults.{product_fault};

    ghost from_gives = { λ stop fault. fault ≡ product_fault stop };

    fn from(stop: Stop) -> ProductFault {
        match stop {
            Stop::Overflow(place) => ProductFault::Overflow(place),
            Stop::Memory => ProductFault::Memory,
        }
    }
}
