//! The retransmission timer of a connection.
#![tactic(auto)]

mod rto;

pub use rto::Rto;
