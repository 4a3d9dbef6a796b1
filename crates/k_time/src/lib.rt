//! The time of a kernel: its ticks, its system time and its cyclic handlers.
#![tactic(auto)]

mod clock;
mod cyclics;

pub use clock::{Clock, GREATEST_CYCLIC};
