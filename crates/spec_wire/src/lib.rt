//! What datagrams and segments are on the wire: the one's complement sum, sequence numbers, and a file of definitions for each
//! protocol.
#![tactic(auto)]

pub mod ipv4;
pub mod segment;
pub mod udp;
