use it_types::{Bytes, EndPt, List, ObjId};

/// A datagram that has come and is not taken yet: who sent it, and its data.
#[derive(Debug, Drop)]
pub struct Received {
    pub from: EndPt,
    pub load: Bytes,
}

/// A datagram that a non-blocking call is to send: where to, and its data.
#[derive(Debug, Drop)]
pub struct Sending {
    pub dest: EndPt,
    pub load: Bytes,
}

/// A UDP communication end point (ITRON TCP/IP API): its local port, its callback routine, 0 for none, and the datagrams that
/// have come, the oldest first; how many bytes the receive wants that waits, or waited last; and what the send that waits is
/// to send.
#[derive(Debug, Drop)]
pub struct UdpPoint {
    pub port: u16,
    pub routine: ObjId,
    pub queue: List<Received>,
    pub wanted: u32,
    pub sending: Option<Sending>,
}
