// The command `check CAT`.
ghost use Rattle.std.specs.Prelude.{◌≡◌, Ok};
ghost use Rattle.category_text.specs.Named.{named_draft};
ghost use Rattle.anyon_app.specs.Stages.{Gives, Worked};
ghost use Rattle.anyon_app.specs.Check.{accepted, check_work};

use crate::categories::load_category;
use crate::judge::{Admitted, judge};
use crate::lines::line;
use crate::stop::Stop;
use crate::texts::Kind;
use io_ports::Shelf;
use itoa::Buffer;
use std::alloc::Global;

/// Reads a category of any number of labels and reports that it is accepted, or stops at the first fault
/// of its rules, else at the first event of its laws.
pub fn check<S: Shelf>(alloc: Global, shelf: &mut S, category: &str) -> Result<Vec<u8>, Stop>
    ensures { Worked S.files S.faults shelf.old shelf.new (check_work category.now) result }
{
    let named = load_category(alloc, shelf, Kind::Category, category)?;
    let admitted = judge(alloc, named)?;
    accepted(alloc, &admitted)
}

// The line that says that a category is accepted.
fn accepted(alloc: Global, admitted: &Admitted) -> Result<Vec<u8>, Stop>
    ensures { Gives (λ text. text.items) result (Ok (accepted (named_draft admitted.now.names admitted.now.category))) }
{
    let mut root_digits = Buffer::new();
    let root = root_digits.format(admitted.category.ring().root());
    let mut count_digits = Buffer::new();
    let count = count_digits.format(admitted.category.rules().count());
    match line(alloc, "accepted", &["root", root, "labels", count]) {
        Ok(line) => Ok(line),
        Err(_) => Err(Stop::Memory),
    }
}
