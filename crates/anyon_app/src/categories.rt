// The category that a command reads.
ghost use Rattle.std.specs.Prelude.{◌≡◌, ◌<◌, ◌-◌, ◌^◌, IfOk, length};
ghost use Rattle.category_text.specs.Named.{seen};
ghost use Rattle.anyon_app.specs.Work.{read_work};
ghost use Rattle.anyon_app.specs.Stages.{Gives, Passes};
ghost use Rattle.anyon_app.specs.Refusals.{too_long};
ghost use Rattle.anyon_app.specs.Categories.{named_as};

use crate::refusals::category_line;
use crate::stop::Stop;
use crate::texts::{Kind, text};
use category_text::{CategoryFault, Named, read_category};
use io_ports::Shelf;
use std::alloc::Global;

/// The category of a text of this kind, of at most 4,194,304 bytes. Neither its rules nor its symbols are judged.
pub fn load_category<S: Shelf>(
    alloc: Global,
    shelf: &mut S,
    kind: Kind,
    name: &str,
) -> Result<Named, Stop>
    ensures passes { Passes S.files S.faults shelf.old shelf.new seen (read_work (too_long kind) (named_as kind) name.now) result }
    ensures counts { IfOk result (λ named. length named.names ≡ named.draft.rules.count) }
{
    let text = text(alloc, shelf, kind, name)?;
    category(alloc, kind, &text)
}

/// The category of these bytes.
pub fn category(alloc: Global, kind: Kind, text: &[u8]) -> Result<Named, Stop>
    requires { length text.now < 2 ^ 32 - 1 }
    ensures gives { Gives seen result (named_as kind text.now) }
    ensures counts { IfOk result (λ named. length named.names ≡ named.draft.rules.count) }
{
    match read_category(alloc, text) {
        Ok(named) => Ok(named),
        Err(CategoryFault::At { line, cause }) => Err(category_line(alloc, kind, line, cause)),
        Err(CategoryFault::Memory) => Err(Stop::Memory),
    }
}
