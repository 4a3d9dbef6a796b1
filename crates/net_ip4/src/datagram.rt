/// An IPv4 datagram. Addresses have their first part in the highest bits: 10.0.0.1 is 0x0a000001.
#[derive(Clone, Copy, Debug, PartialEq, Eq)]
pub struct Datagram<'a> {
    pub src: u32,
    pub dst: u32,
    pub proto: u8,
    /// The time to live that was read. What is written has a time to live of 64.
    pub ttl: u8,
    pub load: &'a [u8],
}
