//! The specification of a TCP connection (RFC 9293): its plain data, and as definitions how it opens, what a segment that
//! arrives changes, what it sends, and how its retransmission timer runs.
#![tactic(auto)]

mod facts;
mod part;
mod state;

pub use facts::Facts;
pub use part::Part;
pub use state::State;
