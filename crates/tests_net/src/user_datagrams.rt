use net_udp::{Bad, Udp, decode, encode_into};
use std::test::*;

const FROM: u32 = 0x0a000001;

const TO: u32 = 0x0a000002;

const OTHER: u32 = 0x0a000003;

fn with_data(load: &[u8]) -> Udp<'_> {
    Udp {
        from_port: 1000,
        to_port: 2000,
        load,
    }
}

// The words of the sum from FROM to TO, ports 1000 and 2000, without the two lengths and the data: 0a00, 0001, 0a00, 0002,
// 0011, 03e8, 07d0. They add up to 1fcc. The checksum is ffff less the whole sum.
#[test]
fn decodes_by_the_first_test(rt: HostRuntime) {
    let datagrams: [(&str, u32, &[u8], Result<Udp<'static>, Bad>); 17] = [
        ("nothing", TO, b"", Err(Bad::Short)),
        (
            "7 bytes with a length of 7",
            TO,
            b"\x03\xe8\x07\xd0\x00\x07\x12",
            Err(Bad::Short),
        ),
        (
            "a length of 0",
            TO,
            b"\x03\xe8\x07\xd0\x00\x00\xe0\x23",
            Err(Bad::Length),
        ),
        (
            "a length of 7, and a wrong sum",
            TO,
            b"\x03\xe8\x07\xd0\x00\x07\x12\x34",
            Err(Bad::Length),
        ),
        (
            "a length of 9 in 8 bytes, and a wrong sum",
            TO,
            b"\x03\xe8\x07\xd0\x00\x09\x12\x34",
            Err(Bad::Length),
        ),
        (
            "a length of 9 in 8 bytes, and no checksum",
            TO,
            b"\x03\xe8\x07\xd0\x00\x09\x00\x00",
            Err(Bad::Length),
        ),
        (
            "the greatest length",
            TO,
            b"\x03\xe8\x07\xd0\xff\xff\x77\xb6hi",
            Err(Bad::Length),
        ),
        (
            "another destination",
            OTHER,
            b"\x03\xe8\x07\xd0\x00\x0a\x77\xb6hi",
            Err(Bad::Checksum),
        ),
        (
            "another data byte",
            TO,
            b"\x03\xe8\x07\xd0\x00\x0a\x77\xb6hj",
            Err(Bad::Checksum),
        ),
        (
            "a sum without the pseudo header",
            TO,
            b"\x03\xe8\x07\xd0\x00\x08\xf4\x3f",
            Err(Bad::Checksum),
        ),
        (
            "an odd byte taken as the low one",
            TO,
            b"\x03\xe8\x07\xd0\x00\x09\xdf\xb9h",
            Err(Bad::Checksum),
        ),
        (
            "ffff, which isn't none",
            TO,
            b"\x03\xe8\x07\xd0\x00\x0a\xff\xffhi",
            Err(Bad::Checksum),
        ),
        (
            "even data, and bytes after it",
            TO,
            b"\x03\xe8\x07\xd0\x00\x0a\x77\xb6hi!?!",
            Ok(with_data(b"hi")),
        ),
        (
            "odd data, and a byte after it that isn't summed",
            TO,
            b"\x03\xe8\x07\xd0\x00\x09\x78\x21hi",
            Ok(with_data(b"h")),
        ),
        (
            "no checksum",
            TO,
            b"\x03\xe8\x07\xd0\x00\x0a\x00\x00hi",
            Ok(with_data(b"hi")),
        ),
        (
            "no checksum, to elsewhere",
            OTHER,
            b"\x03\xe8\x07\xd0\x00\x0a\x00\x00hi",
            Ok(with_data(b"hi")),
        ),
        (
            "the greatest ports",
            TO,
            b"\xff\xff\xff\xff\x00\x08\xeb\xdb",
            Ok(Udp {
                from_port: 65535,
                to_port: 65535,
                load: b"",
            }),
        ),
    ];
    for (what, dst, bytes, answer) in datagrams {
        assert_eq!(rt; decode(FROM, dst, bytes), answer, "{what}");
    }
}

#[test]
fn encodes_with_ample_memory_what_it_decodes(rt: HostRuntime) -> Result<(), Fail> {
    let datagrams: [(&str, u32, &[u8], [u8; 8]); 6] = [
        ("no data", TO, b"", *b"\x03\xe8\x07\xd0\x00\x08\xe0\x23"),
        ("even data", TO, b"hi", *b"\x03\xe8\x07\xd0\x00\x0a\x77\xb6"),
        ("odd data", TO, b"h", *b"\x03\xe8\x07\xd0\x00\x09\x78\x21"),
        (
            "another destination",
            OTHER,
            b"hi",
            *b"\x03\xe8\x07\xd0\x00\x0a\x77\xb5",
        ),
        (
            "a computed checksum of 0",
            TO,
            b"\xe0\x1f",
            *b"\x03\xe8\x07\xd0\x00\x0a\xff\xff",
        ),
        // 736 words of 5a5a add up to c3c3, and two lengths of 05c8 to 0b90; with 1fcc the sum is ef1f.
        (
            "1,472 bytes",
            TO,
            &[0x5a; 1472],
            *b"\x03\xe8\x07\xd0\x05\xc8\x10\xe0",
        ),
    ];
    for (what, dst, load, header) in datagrams {
        assert!(rt; load.len() <= 1472, "{what}");
        let datagram = Udp {
            from_port: 1000,
            to_port: 2000,
            load,
        };
        let mut bytes = Vec::from_slice(rt.alloc(), &header)?;
        bytes.extend_from_slice(load)?;
        assert_eq!(rt; decode(FROM, dst, &bytes), Ok(datagram), "{what}");
        let mut out = Vec::from_slice(rt.alloc(), b"before")?;
        encode_into(rt.alloc(), FROM, dst, &datagram, &mut out)?;
        let mut expected = Vec::from_slice(rt.alloc(), b"before")?;
        expected.extend_from_slice(&bytes)?;
        assert_eq!(rt; out.as_slice(), expected.as_slice(), "{what}");
    }
    Ok(())
}
