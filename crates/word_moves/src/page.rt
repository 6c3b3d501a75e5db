//! Changes of one page.

ghost use Rattle.std.specs.Prelude.{◌≡◌, ◌≤◌, ◌<◌, ◌+◌, ◌^◌, ◌⊎◌, [], length, take, drop, IfOk, OnOk};
ghost use Rattle.word_moves.specs.Moves.{behind, front_of, where_possible};
ghost use Rattle.word_moves.specs.Pages.{flat, page_at};

use crate::fronts::change;
use crate::moves::BraidMove;
use crate::spot::Spot;
use program_text::Letter;
use std::alloc::{AllocError, Global};

/// A page that has more letters is made two.
const PAGE_LIMIT: usize = 1024;

/// Changes the letters from a place on, and tells whether that was possible. The letters that a move looks at stand on the
/// page of the place, as far as there are so many.
pub(crate) fn change_at(
    pages: &mut Vec<Vec<Letter>>,
    spot: Spot,
    strands: u8,
    step: BraidMove,
) -> Result<bool, AllocError>
    requires there { spot.page < length pages.old.items }
    requires within { spot.at ≤ length (page_at spot.page pages.old.items) }
    requires small { spot.at < 2 ^ 32 }
    requires enough { (spot.at + 3 ≤ length (page_at spot.page pages.old.items)) ⊎ (flat (drop (spot.page + 1) pages.old.items) ≡ []) }
    ensures moved { IfOk result (λ possible. behind (length (flat (take spot.page pages.old.items)) + spot.at) (front_of strands step) (flat pages.old.items) ≡ where_possible possible (flat pages.new.items)) }
    ensures few { length (flat pages.new.items) ≤ length (flat pages.old.items) + 2 }
    ensures there { spot.page < length pages.new.items }
{
    let page = &mut pages[spot.page];
    change(page, spot.at, strands, step)
}

/// Takes a page away where it has no letters, and makes two of it where it has many.
pub(crate) fn settle(
    alloc: Global,
    pages: &mut Vec<Vec<Letter>>,
    page: usize,
) -> Result<(), AllocError>
    requires { page < length pages.old.items }
    ensures same { flat pages.new.items ≡ flat pages.old.items }
    ensures some { 0 < length pages.new.items }
{
    let count = pages[page].len();
    if count == 0 && 1 < pages.len() {
        pages.remove(page);
        return Ok(());
    }
    if PAGE_LIMIT < count {
        return halve(alloc, pages, page);
    }
    Ok(())
}

/// Makes two pages of one.
fn halve(alloc: Global, pages: &mut Vec<Vec<Letter>>, page: usize) -> Result<(), AllocError>
    requires { page < length pages.old.items }
    ensures same { flat pages.new.items ≡ flat pages.old.items }
    ensures some { 0 < length pages.new.items }
{
    pages.insert(page + 1, Vec::new(alloc))?;
    let front = &mut pages[page];
    let half = front.len() / 2;
    let back = front.split_off(half)?;
    pages[page + 1] = back;
    Ok(())
}
