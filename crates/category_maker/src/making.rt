ghost use Rattle.std.specs.Prelude.{◌≡◌, ◌≤◌, ◌<◌, ◌⊎◌, ◌↔◌, IfOk, Err};
ghost use Rattle.category_text.specs.Again.{ReadAgain};
ghost use Rattle.category_text.specs.Canonical.{canonical};
ghost use Rattle.program_text.specs.Written.{written};
ghost use Rattle.category_maker.specs.MadeCategory.{label_names, made_category};
ghost use Rattle.category_maker.specs.MadeProgram.{made_program};
ghost use Rattle.category_maker.specs.MadeSchedule.{made_schedule};
ghost use Rattle.category_maker.specs.declared.making.MakeFault.TheVariants.{Number};

use crate::category::group_category;
use crate::program::program_text;
use crate::schedule::schedule_text;
use category_text::write_category;
use std::alloc::{AllocError, Global};

/// Why nothing is made.
#[derive(Clone, Copy, Debug, PartialEq, Eq)]
pub enum MakeFault {
    /// The number isn't from 2 to 12.
    Number,
    /// There was no memory for the texts.
    Memory,
}

impl From<AllocError> for MakeFault {
    ghost use Rattle.category_maker.specs.declared.making.MakeFault.TheVariants.{Memory};

    ghost from_gives = { λ _ fault. fault ≡ Memory };

    fn from(_: AllocError) -> MakeFault {
        MakeFault::Memory
    }
}

/// A category, a program over it, and a schedule of the program, as texts.
#[derive(Drop)]
pub struct Made {
    pub category: Vec<u8>,
    pub program: Vec<u8>,
    pub schedule: Vec<u8>,
}

/// The texts of n, from 2 to 12.
///
/// The category has the root n and the labels `g0` to `g(n-1)`, which fuse to their sum modulo n; R of two labels is the power
/// of the root of unity by their product, and every other symbol is 1. The program has sixteen strands, of which strand k
/// has the label k mod n, in a left comb, and two sites `A` and `B` of eight strands with 1,024 commands each. The schedule
/// has 1,024 lines `A B`. All three are canonical, and the category text is read, to this category.
///
/// `Number` comes exactly where n isn't from 2 to 12, `Memory` only for want of memory.
pub fn make(alloc: Global, n: u32) -> Result<Made, MakeFault>
    ensures category { IfOk result (λ made. made.category.items ≡ canonical (made_category n)) }
    ensures read { IfOk result (λ _. ReadAgain (made_category n)) }
    ensures program { IfOk result (λ made. made.program.items ≡ written (label_names n) (made_program n)) }
    ensures schedule { IfOk result (λ made. made.schedule.items ≡ made_schedule) }
    ensures number { (result ≡ Err Number) ↔ ((n < 2) ⊎ (12 < n)) }
{
    if n < 2 || n > 12 {
        return Err(MakeFault::Number);
    }
    Ok(texts(alloc, n as u8)?)
}

/// The texts of a number that is from 2 to 12.
fn texts(alloc: Global, n: u8) -> Result<Made, AllocError>
    requires some { 0 < n }
    requires few { n ≤ 12 }
    ensures category { IfOk result (λ made. made.category.items ≡ canonical (made_category n)) }
    ensures read { IfOk result (λ _. ReadAgain (made_category n)) }
    ensures program { IfOk result (λ made. made.program.items ≡ written (label_names n) (made_program n)) }
    ensures schedule { IfOk result (λ made. made.schedule.items ≡ made_schedule) }
{
    let named = group_category(alloc, n)?;
    let mut category = Vec::new(alloc);
    write_category(alloc, &named, &mut category)?;
    let program = program_text(alloc, n, &named.names)?;
    let schedule = schedule_text(alloc)?;
    Ok(Made {
        category,
        program,
        schedule,
    })
}
