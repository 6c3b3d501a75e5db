//! Where a place lies among pages, and the letters that a move there looks at.

ghost use Rattle.std.specs.Prelude.{◌≡◌, ◌≤◌, ◌<◌, ◌+◌, ◌⊎◌, [], length, take, drop, MatchOption, OnOk};
ghost use Rattle.word_moves.specs.Pages.{IsSpot, flat, page_at};

use program_text::Letter;
use std::alloc::AllocError;

/// On which page a place lies, and behind how many letters of it.
#[derive(Clone, Copy, Drop)]
pub(crate) struct Spot {
    pub(crate) page: usize,
    pub(crate) at: usize,
}

/// Where the place behind so many letters lies, or none where there are fewer.
pub(crate) fn find(pages: &[Vec<Letter>], count: usize) -> Option<Spot>
    requires { 0 < length pages.now }
    ensures { MatchOption result (length (flat pages.now) < count) (λ spot. IsSpot spot.page spot.at count pages.now) }
{
    let mut at = count;
    for (number, page) in pages.iter().enumerate() {
        if at <= page.len() {
            return Some(Spot { page: number, at });
        }
        at -= page.len();
    }
    None
}

/// Brings letters from behind a page into it, until it has so many or none are left there.
pub(crate) fn gather(
    pages: &mut Vec<Vec<Letter>>,
    page: usize,
    count: usize,
) -> Result<(), AllocError>
    requires { page < length pages.old.items }
    ensures same { flat pages.new.items ≡ flat pages.old.items }
    ensures before { take page pages.new.items ≡ take page pages.old.items }
    ensures there { page < length pages.new.items }
    ensures enough { OnOk result ((count ≤ length (page_at page pages.new.items)) ⊎ (flat (drop (page + 1) pages.new.items) ≡ [])) }
    ensures grown { length (page_at page pages.old.items) ≤ length (page_at page pages.new.items) }
{
    while pages[page].len() < count && page + 1 < pages.len() {
        pull(pages, page)?;
    }
    Ok(())
}

/// Brings the letter behind a page into it, or takes the page behind it away where that has no letter.
fn pull(pages: &mut Vec<Vec<Letter>>, page: usize) -> Result<(), AllocError>
    requires { page + 1 < length pages.old.items }
    ensures same { flat pages.new.items ≡ flat pages.old.items }
    ensures before { take page pages.new.items ≡ take page pages.old.items }
    ensures there { page < length pages.new.items }
    ensures grown { length (page_at page pages.old.items) ≤ length (page_at page pages.new.items) }
    ensures fewer { OnOk result (length pages.new.items + length (flat (drop (page + 1) pages.new.items)) < length pages.old.items + length (flat (drop (page + 1) pages.old.items))) }
{
    let next = page + 1;
    let behind = &pages[next];
    if behind.is_empty() {
        pages.remove(next);
        return Ok(());
    }
    let letter = behind[0];
    pages[page].push(letter)?;
    pages[next].remove(0);
    Ok(())
}
