//! Letters in pages, so that a move shifts the letters of one page alone.

ghost use Rattle.std.specs.Prelude.{◌≡◌, ◌≤◌, ◌+◌, length, IfOk, OnOk};
ghost use Rattle.word_moves.specs.Moves.{moved, where_possible};

use crate::moves::BraidMove;
use crate::page::{change_at, settle};
use crate::push::push;
use crate::spot::{find, gather};
use program_text::Letter;
use std::alloc::{AllocError, Global};
use std::marker::Model;

/// The most letters that a move changes.
const SPAN: usize = 3;

/// Letters, as those of pages one after another. There is a page at least.
#[derive(Drop)]
pub(crate) struct Pages {
    list: Vec<Vec<Letter>>,
}

impl Model for Pages {
    ghost use Rattle.std.specs.Prelude.{List, ◌<◌, length};
    ghost use Rattle.program_text.specs.declared.letter.Letter.{Letter};
    ghost use Rattle.word_moves.specs.Pages.{flat};

    ghost Value = { List Letter };

    ghost view = { λ pages. flat pages.list.items };

    ghost invariant = { λ pages. 0 < length pages.list.items };
}

impl Pages {
    /// Letters on one page, which is made more as moves come to it.
    pub(crate) fn new(alloc: Global, letters: Vec<Letter>) -> Result<Pages, AllocError>
        ensures { IfOk result (λ pages. pages ≡ letters.items) }
    {
        let mut list = Vec::new(alloc);
        push(&mut list, letters)?;
        Ok(Pages { list })
    }

    /// Makes a move, and tells whether it was possible.
    pub(crate) fn make(
        &mut self,
        alloc: Global,
        strands: u8,
        step: BraidMove,
    ) -> Result<bool, AllocError>
        ensures moved { IfOk result (λ possible. moved strands step self.old ≡ where_possible possible self.new) }
        ensures few { OnOk result (length self.new ≤ length self.old + 2) }
    {
        let place = step.place() as usize;
        if place == 0 {
            return Ok(false);
        }
        let Some(spot) = find(&self.list, place - 1) else {
            return Ok(false);
        };
        gather(&mut self.list, spot.page, spot.at + SPAN)?;
        let possible = change_at(&mut self.list, spot, strands, step)?;
        settle(alloc, &mut self.list, spot.page)?;
        Ok(possible)
    }

    /// All letters in one list.
    pub(crate) fn joined(&self, alloc: Global) -> Result<Vec<Letter>, AllocError>
        ensures { IfOk result (λ letters. letters.items ≡ self.now) }
    {
        let mut letters = Vec::new(alloc);
        for page in &self.list {
            letters.extend_from_slice(page)?;
        }
        Ok(letters)
    }
}
