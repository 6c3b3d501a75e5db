ghost use Rattle.std.specs.Prelude.{◌≡◌, ◌<◌, ◌-◌, ◌^◌, length, IfOk};
ghost use Rattle.category_text.specs.Named.{IsVersion, seen};
ghost use Rattle.category_text.specs.Reading.{category_of};
ghost use Rattle.category_text.specs.Again.{IsSaid};
ghost use Rattle.category_text.specs.Answers.{Told, bare};

use crate::fault::CategoryFault;
use crate::head::read_head;
use crate::line_reading::{read_fusions, read_symbols};
use crate::named::Named;
use cyclo_core::Cyclo;
use fusion_rules::Rules;
use line_text::Lines;
use std::alloc::Global;
use symbol_table::Draft;

/// What a category text of fewer than 2^32 - 1 bytes says, or its first fault.
///
/// The text has the lines `category 1` or `category 2`, `root N` and `labels` with 1 to 12 names, then `fuse a b c`
/// lines, then symbol lines `f a b c d e f NUMBER`, `r a b c NUMBER`, `w a b c NUMBER` and `v a b c NUMBER`, and in
/// version 2 lines of marks, `twist a NUMBER` and `loop a NUMBER`. Neither the rules nor the symbols are judged.
/// `Memory` is free.
#[tactic(auto, unfolding(crate::specs::Reading::category_of))]
pub fn read_category(alloc: Global, bytes: &[u8]) -> Result<Named, CategoryFault>
    requires { length bytes.now < 2 ^ 32 - 1 }
    ensures category { Told seen result (category_of bytes.now) }
    ensures counted { IfOk result (λ named. length named.names ≡ named.draft.rules.count) }
    ensures said { IfOk result (λ named. IsSaid (seen named)) }
{
    let mut lines = Lines::new(bytes);
    let head = read_head(alloc, &mut lines)?;
    let mut rules = Rules::new(head.names.count());
    let first = read_fusions(&head.names, &mut lines, &mut rules)?;
    let mut draft = begin(alloc, head.version, head.ring, rules);
    read_symbols(&head.names, first, &mut lines, &mut draft)?;
    Ok(Named {
        names: head.names,
        draft,
    })
}

/// A draft of version 1 or 2, with nothing set.
fn begin(alloc: Global, version: u8, ring: Cyclo, rules: Rules) -> Draft<Cyclo>
    requires { IsVersion version }
    ensures { result ≡ bare version ring rules }
{
    let mut draft = Draft::new(alloc, ring, rules);
    if version == 2 {
        draft.second();
    }
    draft
}
