//! UDP datagrams on IPv4 as bytes (RFC 768).
#![tactic(auto)]

mod datagram;
mod laws;
mod reading;
mod writing;

pub use datagram::Udp;
pub use laws::what_is_written_is_read;
pub use reading::decode;
pub use spec_wire::udp::Bad;
pub use writing::encode_into;

// The protocol of an IPv4 datagram that carries a user datagram.
const PROTOCOL: u8 = 17;
