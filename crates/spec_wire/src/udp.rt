/// Why bytes are no user datagram: the first test that holds, in this order.
#[derive(Clone, Copy, Debug, PartialEq, Eq)]
pub enum Bad {
    /// There are fewer than 8 bytes.
    Short,
    /// The length field is below 8 or above the bytes that are there.
    Length,
    /// The checksum field isn't 0, and the one's complement sum of pseudo header and datagram isn't ffff.
    Checksum,
}
