// The command `upgrade CAT MARKS`.
ghost use Rattle.std.specs.Prelude.{◌≡◌, ◌<◌, ◌-◌, ◌^◌, IfOk, length};
ghost use Rattle.category_text.specs.Named.{seen};
ghost use Rattle.anyon_app.specs.Stages.{Gives, Passes, Worked};
ghost use Rattle.anyon_app.specs.Upgrade.{first_work, marks_of_text, marks_work, text_judged, upgrade_work, version_verdict};
ghost use Rattle.anyon_app.specs.Verdicts.{unless};

use crate::categories::load_category;
use crate::format::canonical_text;
use crate::judge::judge;
use crate::refusals::{marks_line, version_line};
use crate::stop::Stop;
use crate::texts::{Kind, text};
use category_text::Named;
use io_ports::Shelf;
use marks_text::{MarksFault, read_marks};
use std::alloc::Global;

/// Reads a category of version 1 and its twists and loop values, judges the two as a category of version 2, and reports its
/// canonical text. The marks are read before anything is judged.
pub fn upgrade<S: Shelf>(
    alloc: Global,
    shelf: &mut S,
    category: &str,
    marks: &str,
) -> Result<Vec<u8>, Stop>
    ensures { Worked S.files S.faults shelf.old shelf.new (upgrade_work category.now marks.now) result }
{
    let named = load_first(alloc, shelf, category)?;
    let marked = load_marks(alloc, shelf, named, marks)?;
    judged_text(alloc, marked)
}

// The category of a text, which has version 1.
fn load_first<S: Shelf>(alloc: Global, shelf: &mut S, name: &str) -> Result<Named, Stop>
    ensures passes { Passes S.files S.faults shelf.old shelf.new seen (first_work name.now) result }
    ensures counts { IfOk result (λ named. length named.names ≡ named.draft.rules.count) }
    ensures first { IfOk result (λ named. named.draft.version ≡ 1) }
{
    let named = load_category(alloc, shelf, Kind::Category, name)?;
    of_first_version(alloc, named)
}

// A category of version 2 stops the command.
fn of_first_version(alloc: Global, named: Named) -> Result<Named, Stop>
    ensures gives { Gives (λ _. tt) result (unless (version_verdict (seen named))) }
    ensures kept { IfOk result (λ again. again ≡ named) }
    ensures same { IfOk result (λ again. seen again ≡ seen named) }
    ensures first { IfOk result (λ again. again.draft.version ≡ 1) }
{
    if named.draft.version() == 2 {
        return Err(version_line(alloc));
    }
    Ok(named)
}

// A category with the marks of a text.
fn load_marks<S: Shelf>(
    alloc: Global,
    shelf: &mut S,
    named: Named,
    name: &str,
) -> Result<Named, Stop>
    requires counts { length named.names ≡ named.draft.rules.count }
    requires first { named.draft.version ≡ 1 }
    ensures passes { Passes S.files S.faults shelf.old shelf.new seen (marks_work name.now (seen named)) result }
    ensures counts { IfOk result (λ marked. length marked.names ≡ marked.draft.rules.count) }
{
    let text = text(alloc, shelf, Kind::Marks, name)?;
    marked(alloc, named, &text)
}

// A category with the marks of these bytes.
fn marked(alloc: Global, named: Named, text: &[u8]) -> Result<Named, Stop>
    requires short { length text.now < 2 ^ 32 - 1 }
    requires counts { length named.names ≡ named.draft.rules.count }
    requires first { named.draft.version ≡ 1 }
    ensures gives { Gives seen result (marks_of_text (seen named) text.now) }
    ensures counts { IfOk result (λ marked. length marked.names ≡ marked.draft.rules.count) }
{
    match read_marks(alloc, named, text) {
        Ok(marked) => Ok(marked),
        Err(MarksFault::At { line, cause }) => Err(marks_line(alloc, line, cause)),
        Err(MarksFault::Memory) => Err(Stop::Memory),
    }
}

// The canonical text of a category, which is judged once it is written.
fn judged_text(alloc: Global, named: Named) -> Result<Vec<u8>, Stop>
    requires { length named.names ≡ named.draft.rules.count }
    ensures { Gives (λ text. text.items) result (text_judged (seen named)) }
{
    let text = canonical_text(alloc, &named)?;
    judge(alloc, named)?;
    Ok(text)
}
