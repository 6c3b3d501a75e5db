//! The top call: words of the command line, a shelf of texts and a sink.
//!
//! Glossary:
//! - *reply*: a status, and the bytes that are written (`specs/Replies.antt`).
//! - *line*: words with one space between two, ended by the byte 0x0A (`specs/Lines.antt`).
//! - *work*: what a command does. It wants one text after another, and in the end it says its reply.
//!   So it gives the reply over a map of texts, the order of refusals, and which texts are reached
//!   (`specs/Work.antt`).
//! - *stage*: a step of a command. It stops the command, or hands on a value (`specs/Stages.antt`).
//! - *headline*: what the top call says of its status, of the shelf and of the sink
//!   (`specs/Headline.antt`, [`anyon`]).
//! - *category replies*: what the commands say of categories, over the bytes of their texts (`specs/Laws.antt`,
//!   [`category_replies`]); *run replies*: what `run` and `comb` write ([`run_replies`]), and what
//!   `linked` says of programs ([`linked_replies`]), and what `make` reports ([`make_replies`]).
#![tactic(auto)]

mod categories;
mod causes;
mod check;
mod comb;
mod format;
mod judge;
mod laws;
mod lines;
mod linked;
mod make;
mod new_categories;
mod programs;
mod refusals;
mod run;
mod status;
mod stop;
mod texts;
mod top;
mod trees;
mod upgrade;

pub use laws::{category_replies, linked_replies, make_replies, over_sure_shelf, run_replies};
pub use status::Status;
use stop::Stop;
pub use top::anyon;
