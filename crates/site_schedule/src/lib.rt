//! Schedules: in which order the sites of a program take their turns, one command a turn.
//!
//! Glossary:
//! - *turns*: the numbers of sites, from 0, in the order in which these take their commands.
//! - *legal schedule*: each site stands in it as often as it has commands, and each test comes behind the measurement of
//!   its outcome (`specs/Legal.antt`).
//! - *what a text says*: the words of its lines one after another, up to a line that can't be read (`specs/Reading.antt`,
//!   `said_in`).
//! - *schedule of a text*: its turns, or the first fault (`specs/Reading.antt`, `schedule_of`).
//! - *queue*: what a site has left, with the place of its next measurement (`specs/Queues.antt`).
#![tactic(auto)]

mod fault;
mod header;
mod laws;
mod letters;
mod marks;
mod order;
mod progress;
mod push;
mod queue;
mod queues;
mod reading;
mod schedule;
mod turn;

pub use fault::ScheduleFault;
pub use laws::spelled_schedules;
pub use letters::letters_of;
pub use order::text_order;
pub use reading::read_schedule;
pub use schedule::Schedule;

#[cfg(test)]
mod tests;
