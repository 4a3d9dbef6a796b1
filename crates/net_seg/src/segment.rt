use crate::TcpFlags;

/// A TCP segment. The addresses that it goes from and to are the IPv4 datagram's.
#[derive(Clone, Copy, Debug, PartialEq, Eq)]
pub struct Segment<'a> {
    pub from_port: u16,
    pub to_port: u16,
    /// The sequence number of the first byte of data, or of the SYN before it.
    pub seq: u32,
    /// The next sequence number that the sender expects, where the flag ACK is set.
    pub ack: u32,
    pub flags: TcpFlags,
    /// How many bytes the sender is willing to take in, from `ack` on.
    pub wnd: u16,
    /// The greatest number of bytes of data in a segment to the sender (option 2).
    pub mss: Option<u16>,
    pub load: &'a [u8],
}
