use bitflags::Flags;
use net_seg::{Segment, TcpFlags};

/// 10.0.0.1, which opens the connection.
pub const NEAR: u32 = 0x0a000001;

/// 10.0.0.2, at whose port 7 it is accepted.
pub const FAR: u32 = 0x0a000002;

// Both begin at the sequence number 65,536, with a window of 1,024 bytes.
const FIRST: u32 = 65536;

fn from_near(flags: TcpFlags, seq: u32, ack: u32) -> Segment<'static> {
    Segment {
        from_port: 49152,
        to_port: 7,
        seq,
        ack,
        flags,
        wnd: 1024,
        mss: None,
        load: b"",
    }
}

fn from_far(flags: TcpFlags, seq: u32, ack: u32) -> Segment<'static> {
    Segment {
        from_port: 7,
        to_port: 49152,
        ..from_near(flags, seq, ack)
    }
}

/// The segments in their order, each with whether the near end sent it: SYN, SYN with ACK, ACK, five bytes of data, and their
/// acknowledgement with a FIN.
pub fn handshake() -> [(bool, Segment<'static>); 5] {
    let mss = Some(1460);
    let syn = from_near(TcpFlags::SYN, FIRST, 0);
    let syn_ack = from_far(TcpFlags::SYN | TcpFlags::ACK, FIRST, FIRST + 1);
    let ack = from_near(TcpFlags::ACK, FIRST + 1, FIRST + 1);
    let hello = from_near(TcpFlags::PSH | TcpFlags::ACK, FIRST + 1, FIRST + 1);
    let fin = from_far(TcpFlags::FIN | TcpFlags::ACK, FIRST + 1, FIRST + 6);
    [
        (true, Segment { mss, ..syn }),
        (false, Segment { mss, ..syn_ack }),
        (true, ack),
        (
            true,
            Segment {
                load: b"hello",
                ..hello
            },
        ),
        (false, Segment { wnd: 1019, ..fin }),
    ]
}
