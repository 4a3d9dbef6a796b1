//! TCP segments: what is read, why bytes are refused, and what is written.

use bitflags::Flags;
use net_seg::{Bad, Segment, TcpFlags, decode, encode_into, offset_of};
use std::test::*;

const FROM: u32 = 0x0a000001;

const TO: u32 = 0x0a000002;

const OTHER: u32 = 0x0a000003;

// From port 49152 to port 7, with the sequence number 65,536, SYN, and a window of 1,024.
fn with_mss(mss: Option<u16>) -> Segment<'static> {
    Segment {
        from_port: 49152,
        to_port: 7,
        seq: 65536,
        ack: 0,
        flags: TcpFlags::SYN,
        wnd: 1024,
        mss,
        load: b"",
    }
}

// The words of the sum from FROM to TO: 0a00, 0001, 0a00, 0002, 0006 and the length, then those of the segment. The checksum
// is ffff less the whole sum.
#[test]
fn decodes_by_the_first_test(rt: HostRuntime) {
    let segments: [(&str, &[u8], Result<Segment<'static>, Bad>); 11] = [
        ("nothing", b"", Err(Bad::Short)),
        (
            "19 bytes",
            b"\xc0\x00\x00\x07\x00\x01\x00\x00\x00\x00\x00\x00\x50\x02\x04\x00\xd7\xd7\x00",
            Err(Bad::Short),
        ),
        (
            "20 bytes of a header of 24",
            b"\xc0\x00\x00\x07\x00\x01\x00\x00\x00\x00\x00\x00\x60\x02\x04\x00\xc0\x1b\x00\x00",
            Err(Bad::Offset),
        ),
        (
            "23 bytes of a header of 24",
            b"\xc0\x00\x00\x07\x00\x01\x00\x00\x00\x00\x00\x00\x60\x02\x04\x00\xc0\x1b\x00\x00\x02\x04\x05",
            Err(Bad::Offset),
        ),
        (
            "a header of 16, with a right sum",
            b"\xc0\x00\x00\x07\x00\x01\x00\x00\x00\x00\x00\x00\x40\x02\x04\x00\xe7\xd7\x00\x00",
            Err(Bad::Offset),
        ),
        (
            "another last byte",
            b"\xc0\x00\x00\x07\x00\x01\x00\x00\x00\x00\x00\x00\x60\x02\x04\x00\xc0\x1b\x00\x00\x02\x04\x05\xb5",
            Err(Bad::Checksum),
        ),
        (
            "one byte more, which is summed",
            b"\xc0\x00\x00\x07\x00\x01\x00\x00\x00\x00\x00\x00\x60\x02\x04\x00\xc0\x1b\x00\x00\x02\x04\x05\xb4\x01",
            Err(Bad::Checksum),
        ),
        (
            "a sum without the pseudo header",
            b"\xc0\x00\x00\x07\x00\x01\x00\x00\x00\x00\x00\x00\x50\x02\x04\x00\xeb\xf4\x00\x00",
            Err(Bad::Checksum),
        ),
        (
            "a wrong sum and a wrong option",
            b"\xc0\x00\x00\x07\x00\x01\x00\x00\x00\x00\x00\x00\x60\x02\x04\x00\x00\x00\x00\x00\x03\x00\x00\x00",
            Err(Bad::Checksum),
        ),
        (
            "the first segment of a handshake",
            b"\xc0\x00\x00\x07\x00\x01\x00\x00\x00\x00\x00\x00\x60\x02\x04\x00\xc0\x1b\x00\x00\x02\x04\x05\xb4",
            Ok(with_mss(Some(1460))),
        ),
        (
            "no option",
            b"\xc0\x00\x00\x07\x00\x01\x00\x00\x00\x00\x00\x00\x50\x02\x04\x00\xd7\xd7\x00\x00",
            Ok(with_mss(None)),
        ),
    ];
    for (name, bytes, wanted) in segments {
        assert_eq!(rt; decode(FROM, TO, bytes), wanted, "{name}");
    }
    let syn =
        b"\xc0\x00\x00\x07\x00\x01\x00\x00\x00\x00\x00\x00\x60\x02\x04\x00\xc0\x1b\x00\x00\x02\x04\x05\xb4";
    assert_eq!(rt; decode(FROM, OTHER, syn), Err(Bad::Checksum));
}

#[test]
fn reads_options_up_to_each_edge(rt: HostRuntime) {
    let segments: [(&str, &[u8], Result<Segment<'static>, Bad>); 15] = [
        (
            "a kind without its length at the end of the header",
            b"\xc0\x00\x00\x07\x00\x01\x00\x00\x00\x00\x00\x00\x60\x02\x04\x00\xc5\xcf\x00\x00\x01\x01\x01\x03",
            Err(Bad::Option),
        ),
        (
            "a length of 0",
            b"\xc0\x00\x00\x07\x00\x01\x00\x00\x00\x00\x00\x00\x60\x02\x04\x00\xc4\xd3\x00\x00\x03\x00\x00\x00",
            Err(Bad::Option),
        ),
        (
            "a length of 1",
            b"\xc0\x00\x00\x07\x00\x01\x00\x00\x00\x00\x00\x00\x60\x02\x04\x00\xc4\xd2\x00\x00\x03\x01\x00\x00",
            Err(Bad::Option),
        ),
        (
            "a length of 2",
            b"\xc0\x00\x00\x07\x00\x01\x00\x00\x00\x00\x00\x00\x60\x02\x04\x00\xc3\xd1\x00\x00\x04\x02\x00\x00",
            Ok(with_mss(None)),
        ),
        (
            "up to the end of the header",
            b"\xc0\x00\x00\x07\x00\x01\x00\x00\x00\x00\x00\x00\x60\x02\x04\x00\xbd\xc8\x00\x00\x03\x04\x07\x07",
            Ok(with_mss(None)),
        ),
        (
            "past the end of the header, though not of the segment",
            b"\xc0\x00\x00\x07\x00\x01\x00\x00\x00\x00\x00\x00\x60\x02\x04\x00\xb6\xc6\x00\x00\x03\x05\x07\x07\x07",
            Err(Bad::Option),
        ),
        (
            "kind 2 of length 3",
            b"\xc0\x00\x00\x07\x00\x01\x00\x00\x00\x00\x00\x00\x60\x02\x04\x00\xc0\xd0\x00\x00\x02\x03\x05\x00",
            Err(Bad::Option),
        ),
        (
            "kind 2 of length 5",
            b"\xc0\x00\x00\x07\x00\x01\x00\x00\x00\x00\x00\x00\x70\x02\x04\x00\xb0\x16\x00\x00\x02\x05\x05\xb4\x00\x00\x00\x00",
            Err(Bad::Option),
        ),
        (
            "two of kind 2",
            b"\xc0\x00\x00\x07\x00\x01\x00\x00\x00\x00\x00\x00\x70\x02\x04\x00\xb0\xc7\x00\x00\x02\x04\x01\x00\x02\x04\x02\x00",
            Ok(with_mss(Some(512))),
        ),
        (
            "a wrong one after a good one",
            b"\xc0\x00\x00\x07\x00\x01\x00\x00\x00\x00\x00\x00\x70\x02\x04\x00\xb0\xc8\x00\x00\x02\x04\x01\x00\x02\x03\x02\x00",
            Err(Bad::Option),
        ),
        (
            "rubbish after the end",
            b"\xc0\x00\x00\x07\x00\x01\x00\x00\x00\x00\x00\x00\x60\x02\x04\x00\xc7\xce\x00\x00\x00\x02\x00\x03",
            Ok(with_mss(None)),
        ),
        (
            "kind 2 after the end",
            b"\xc0\x00\x00\x07\x00\x01\x00\x00\x00\x00\x00\x00\x70\x02\x04\x00\xb2\xca\x00\x00\x01\x00\x02\x04\x01\x00\x01\x01",
            Ok(with_mss(None)),
        ),
        (
            "padding before kind 2",
            b"\xc0\x00\x00\x07\x00\x01\x00\x00\x00\x00\x00\x00\x70\x02\x04\x00\xaf\x16\x00\x00\x01\x01\x02\x04\x05\xb4\x00\x00",
            Ok(with_mss(Some(1460))),
        ),
        (
            "another kind before kind 2",
            b"\xc0\x00\x00\x07\x00\x01\x00\x00\x00\x00\x00\x00\x70\x02\x04\x00\xaa\xc7\x00\x00\x03\x03\x07\x01\x02\x04\x01\x00",
            Ok(with_mss(Some(256))),
        ),
        (
            "40 bytes of padding",
            b"\xc0\x00\x00\x07\x00\x01\x00\x00\x00\x00\x00\x00\xf0\x02\x04\x00\x23\x9b\x00\x00\x01\x01\x01\x01\x01\x01\x01\x01\x01\x01\x01\x01\x01\x01\x01\x01\x01\x01\x01\x01\x01\x01\x01\x01\x01\x01\x01\x01\x01\x01\x01\x01\x01\x01\x01\x01\x01\x01\x01\x01",
            Ok(with_mss(None)),
        ),
    ];
    for (name, bytes, wanted) in segments {
        assert_eq!(rt; decode(FROM, TO, bytes), wanted, "{name}");
    }
}

// All flags, the reserved bits and an urgent pointer are set.
#[test]
fn ignores_urgent_data_and_reserved_bits(rt: HostRuntime) {
    let bytes =
        b"\xc0\x00\x00\x07\x00\x01\x00\x00\x00\x00\x00\x00\x5f\xff\x00\x01\x51\x3a\x12\x34\x68\x69";
    let wanted = Segment {
        from_port: 49152,
        to_port: 7,
        seq: 65536,
        ack: 0,
        flags: TcpFlags::all(),
        wnd: 1,
        mss: None,
        load: b"hi",
    };
    assert_eq!(rt; decode(FROM, TO, bytes), Ok(wanted));
    assert_eq!(rt; TcpFlags::all().bits(), 31);
}

#[test]
fn writes_the_one_spelling(rt: HostRuntime) -> Result<(), Fail> {
    let ack = Segment {
        seq: 65537,
        ack: 65537,
        flags: TcpFlags::ACK,
        ..with_mss(None)
    };
    let hello = Segment {
        flags: TcpFlags::PSH | TcpFlags::ACK,
        load: b"hello",
        ..ack
    };
    let greatest = Segment {
        from_port: 65535,
        to_port: 65535,
        seq: 4294967295,
        ack: 4294967295,
        flags: TcpFlags::all(),
        wnd: 65535,
        mss: Some(65535),
        load: b"",
    };
    let segments: [(&str, Segment<'static>, &[u8]); 4] = [
        (
            "SYN",
            with_mss(Some(1460)),
            b"\xc0\x00\x00\x07\x00\x01\x00\x00\x00\x00\x00\x00\x60\x02\x04\x00\xc0\x1b\x00\x00\x02\x04\x05\xb4",
        ),
        (
            "ACK",
            ack,
            b"\xc0\x00\x00\x07\x00\x01\x00\x01\x00\x01\x00\x01\x50\x10\x04\x00\xd7\xc6\x00\x00",
        ),
        (
            "data of an odd length",
            hello,
            b"\xc0\x00\x00\x07\x00\x01\x00\x01\x00\x01\x00\x01\x50\x18\x04\x00\x93\xe7\x00\x00\x68\x65\x6c\x6c\x6f",
        ),
        (
            "the greatest numbers",
            greatest,
            b"\xff\xff\xff\xff\xff\xff\xff\xff\xff\xff\xff\xff\x60\x1f\xff\xff\x89\xbb\x00\x00\x02\x04\xff\xff",
        ),
    ];
    for (name, segment, wanted) in segments {
        let mut bytes = Vec::from_slice(rt.alloc(), b"before")?;
        assert_eq!(rt;
            encode_into(rt.alloc(), FROM, TO, &segment, &mut bytes),
            Ok(()),
            "{name}"
        );
        assert_eq!(rt; &bytes[..6], b"before".as_slice(), "{name}");
        assert_eq!(rt; &bytes[6..], wanted, "{name}");
        assert_eq!(rt; decode(FROM, TO, &bytes[6..]), Ok(segment), "{name}");
    }
    Ok(())
}

#[test]
fn sequence_numbers_go_round(rt: HostRuntime) {
    let offsets = [
        (5, 4294967290, 11),
        (4294967290, 5, -11),
        (7, 7, 0),
        (0, 4294967295, 1),
        (2147483647, 0, 2147483647),
        (2147483648, 0, -2147483648),
        (0, 2147483648, -2147483648),
        (0, 2147483649, 2147483647),
    ];
    for (seq, base, wanted) in offsets {
        assert_eq!(rt; offset_of(seq, base), wanted, "{seq} from {base}");
    }
}
