// The command `format CAT`.
ghost use Rattle.std.specs.Prelude.{◌≡◌, Ok, length};
ghost use Rattle.category_text.specs.Canonical.{canonical};
ghost use Rattle.category_text.specs.Named.{seen};
ghost use Rattle.anyon_app.specs.Stages.{Gives, Worked};
ghost use Rattle.anyon_app.specs.Format.{format_work};

use crate::categories::load_category;
use crate::stop::Stop;
use crate::texts::Kind;
use category_text::{Named, write_category};
use io_ports::Shelf;
use std::alloc::Global;

/// Reads a category and reports its canonical text. Any number of labels is formatted, and neither
/// the rules nor the symbols are judged.
pub fn format<S: Shelf>(alloc: Global, shelf: &mut S, category: &str) -> Result<Vec<u8>, Stop>
    ensures { Worked S.files S.faults shelf.old shelf.new (format_work category.now) result }
{
    let named = load_category(alloc, shelf, Kind::Category, category)?;
    canonical_text(alloc, &named)
}

/// The canonical text of a category.
pub fn canonical_text(alloc: Global, named: &Named) -> Result<Vec<u8>, Stop>
    requires { length named.now.names ≡ named.now.draft.rules.count }
    ensures { Gives (λ text. text.items) result (Ok (canonical (seen named.now))) }
{
    let mut text = Vec::new(alloc);
    match write_category(alloc, named, &mut text) {
        Ok(()) => Ok(text),
        Err(_) => Err(Stop::Memory),
    }
}
