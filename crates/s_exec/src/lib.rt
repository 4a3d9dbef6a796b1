//! The interpreter of bodies.
#![tactic(auto)]

mod answering;
mod asking;
mod exec;
mod open_loop;
mod passing;
mod pattern;

pub use exec::Exec;
