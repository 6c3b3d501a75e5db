//! Faults of shelves and sinks in turn, and texts at the limit of their size, through the top call.
//!
//! They stand above the crate of the top call, so that its proof isn't checked again for them.
#![tactic(auto)]

#[cfg(test)]
mod tests;
