/// A user datagram. The addresses that it goes from and to are the IPv4 datagram's.
#[derive(Clone, Copy, Debug, PartialEq, Eq)]
pub struct Udp<'a> {
    pub from_port: u16,
    pub to_port: u16,
    pub load: &'a [u8],
}
