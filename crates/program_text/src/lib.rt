//! Programs of braids, recouplings and measurements on a fusion tree, and their texts.
//!
//! Glossary:
//! - *gap k*: lies between strand k and strand k + 1.
//! - *plan*: the version of a text, a start tree, sites with their commands, and named outcomes, in the order of the text.
//! - *program*: a plan as contracts see it (`specs/Program.antt`).
//! - *place*: the number of a measurement in text order, from 0; there its outcome stands in a word.
//! - *letter*: what a command does to the vector of one word, with the place of its outcome (`specs/Letters.antt`).
//! - *pieces*: what a tree's text is made of: `(`, `)`, `:` and labels, the longest runs of letters, digits and `_`
//!   (`specs/Trees.antt`, `piece_of`); the *tree of pieces*, and that this is the grammar (`tree_of`, `TreeExact`).
//! - *bad gap*: a gap whose node isn't admissible (`specs/Gaps.antt`).
//! - *what the lines so far said*: sites, named outcomes, and the strands as the braids leave them (`specs/Grammar.antt`,
//!   `SoFar`).
//! - *program in a text*: the program, or the first line that is refused, with its first cause (`specs/Grammar.antt`,
//!   `program_in`).
//! - *well formed program*: what texts can say (`specs/WellFormed.antt`).
//! - *written program*: the canonical text of a program (`specs/Written.antt`).
#![tactic(auto)]

mod command_line;
mod draft;
mod fault;
mod form;
mod gaps;
mod head;
mod laws;
mod letter;
mod line_form;
mod name;
mod piece;
mod pieces;
mod plan;
mod program;
mod program_writing;
mod push;
mod site_line;
mod tree_reading;
mod words;
mod writing;

pub use fault::{ProgramCause, ProgramFault};
pub use form::COMMAND_LIMIT;
pub use gaps::first_bad_gap;
pub use laws::{program_texts, tree_grammar};
pub use letter::{Letter, count_measurements};
pub use plan::{Command, Outcome, Plan, Sign, Site};
pub use program::read_program;
pub use program_writing::write_program;

#[cfg(test)]
mod tests;
