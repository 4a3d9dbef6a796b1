//! Laws of the calls of a node, over every list of events. Each is the contract of a function without a body of its own.
#![tactic(auto)]

mod cause;
mod once;

pub use cause::each_end_has_one_cause;
pub use once::each_call_ends_once;
