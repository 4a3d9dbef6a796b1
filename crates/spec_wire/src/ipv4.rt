/// Why bytes are no IPv4 datagram: the first test that holds, in this order.
#[derive(Clone, Copy, Debug, PartialEq, Eq)]
pub enum Bad {
    /// There are fewer than 20 bytes.
    Short,
    /// The version isn't 4.
    Version,
    /// The header is below 20 bytes or above the total length, or the total length is above the bytes that are there.
    Length,
    /// The one's complement sum of the header isn't ffff.
    Checksum,
    /// The fragment offset isn't 0, or more fragments follow.
    Fragment,
}
