//! The specification of UDP at a node whose calls may be told to callback routines: its plain data, and as definitions its
//! state, the rows of its calls, settling, datagrams that arrive, and ends from outside.
#![tactic(auto)]

mod point;

pub use point::{Received, Sending, UdpPoint};
