//! The text of a history: entries printed as the specification of the trace spells them.
#![tactic(auto)]

mod event;
mod mark;
mod print;
mod words;

pub use print::print_into;
