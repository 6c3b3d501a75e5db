//! What moves of letters leave as it is: the state of every word, and the outcomes of programs.
//!
//! Glossary:
//! - *letter*, *state of a word*, *outcomes*: those of `program_text` and `comb_laws`.
//! - *move*, *linked lists*: those of `word_moves`.
//! - *letters at gaps*: each letter's gap lies between two of so many strands (`specs/Linked.antt`).
#![tactic(auto)]

pub mod laws;
