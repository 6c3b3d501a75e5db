// The judgement of a category by its rules and its laws.
ghost use Rattle.std.specs.Prelude.{◌≡◌, IfOk, length};
ghost use Rattle.category_text.specs.Named.{named_draft, seen};
ghost use Rattle.anyon_app.specs.Stages.{Gives};
ghost use Rattle.anyon_app.specs.Verdicts.{category_verdict, unless};

use crate::refusals::{event_line, rules_line};
use crate::stop::Stop;
use category_gate::{GateFault, admit};
use category_text::Named;
use cyclo_core::Cyclo;
use fusion_rules::Names;
use std::alloc::Global;
use symbol_table::Category;

/// A lawful category and the names of its labels.
#[derive(Drop)]
pub struct Admitted {
    pub names: Names,
    pub category: Category<Cyclo>,
}

/// Judges a category: its rules, then its laws in their order. The first that decides stops the command.
pub fn judge(alloc: Global, named: Named) -> Result<Admitted, Stop>
    ensures gives { Gives (λ _. tt) result (unless (category_verdict (seen named))) }
    ensures kept { IfOk result (λ admitted. named_draft admitted.names admitted.category ≡ seen named) }
    ensures names { IfOk result (λ admitted. admitted.names ≡ named.names) }
    ensures draft { IfOk result (λ admitted. admitted.category ≡ named.draft) }
{
    let Named { names, draft } = named;
    match admit(alloc, draft) {
        Ok(category) => Ok(Admitted { names, category }),
        Err(GateFault::Rules(fault)) => Err(rules_line(alloc, &names, fault)),
        Err(GateFault::Law(event)) => Err(event_line(alloc, &names, &event)),
        Err(GateFault::Memory) => Err(Stop::Memory),
    }
}
