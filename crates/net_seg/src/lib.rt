//! TCP segments on IPv4 as bytes (RFC 9293), and sequence numbers.
#![tactic(auto)]

mod flags;
mod laws;
mod offset;
mod options;
mod reading;
mod segment;
mod writing;

pub use flags::TcpFlags;
pub use laws::what_is_written_is_read;
pub use offset::offset_of;
pub use reading::decode;
pub use segment::Segment;
pub use spec_wire::segment::Bad;
pub use writing::encode_into;

// The protocol of an IPv4 datagram that carries a segment.
const PROTOCOL: u8 = 6;
