//! Runs scripts over two nodes and the link between them: event by event, by the schedule.
#![tactic(auto)]

mod body;
mod choosing;
mod history;
mod interpreters;
mod interpreting;
mod nodes;
mod play;
mod starting;

pub use history::sim;
