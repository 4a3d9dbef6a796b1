//! IPv4 datagrams as bytes (RFC 791), without fragments, and the internet checksum (RFC 1071).
#![tactic(auto)]

pub mod checksum;
mod datagram;
mod laws;
pub mod octets;
pub mod pseudo;
mod reading;
mod writing;

pub use datagram::Datagram;
pub use laws::what_is_written_is_read;
pub use reading::decode;
pub use spec_wire::ipv4::Bad;
pub use writing::encode_into;
