use net_ip4::{Bad, Datagram, checksum, decode, encode_into};
use std::test::*;

const FROM: u32 = 0x0a000001;

const TO: u32 = 0x0a000002;

fn no_data(ttl: u8, dst: u32) -> Datagram<'static> {
    Datagram {
        src: FROM,
        dst,
        proto: 17,
        ttl,
        load: b"",
    }
}

// From 192.168.0.1 to 192.168.0.199, with a total length of 115; its sum stands in many textbooks.
const KNOWN: &[u8] =
    b"\x45\x00\x00\x73\x00\x00\x40\x00\x40\x11\xb8\x61\xc0\xa8\x00\x01\xc0\xa8\x00\xc7";

#[test]
fn reads_the_known_header(rt: HostRuntime) -> Result<(), Fail> {
    let mut bytes = Vec::from_slice(rt.alloc(), KNOWN)?;
    bytes.extend_from_slice(&[0; 95])?;
    let known = Datagram {
        src: 0xc0a80001,
        dst: 0xc0a800c7,
        proto: 17,
        ttl: 64,
        load: &[0; 95],
    };
    assert_eq!(rt; decode(&bytes), Ok(known));
    assert_eq!(rt; decode(&bytes[..20]), Err(Bad::Length));
    assert_eq!(rt; decode(&bytes[..19]), Err(Bad::Short));
    bytes[19] = 0xc6;
    assert_eq!(rt; decode(&bytes), Err(Bad::Checksum));
    Ok(())
}

#[test]
fn refuses_by_the_first_test(rt: HostRuntime) {
    let refused: [(&str, &[u8], Bad); 12] = [
        ("nothing", b"", Bad::Short),
        (
            "19 bytes of version 6",
            b"\x65\x00\x00\x14\x00\x00\x40\x00\x40\x11\x06\xd7\x0a\x00\x00\x01\x0a\x00\x00",
            Bad::Short,
        ),
        ("zero bytes, whose sum is 0", &[0; 20], Bad::Version),
        (
            "version 6 and a header of 4 words",
            b"\x64\x00\x00\x14\x00\x00\x40\x00\x40\x11\x06\xd7\x0a\x00\x00\x01\x0a\x00\x00\x02",
            Bad::Version,
        ),
        (
            "a header of 4 words",
            b"\x44\x00\x00\x14\x00\x00\x40\x00\x40\x11\x31\xd9\x0a\x00\x00\x01\x0a\x00\x00\x02",
            Bad::Length,
        ),
        (
            "a total length of 23 under a header of 24",
            b"\x46\x00\x00\x17\x00\x00\x40\x00\x40\x11\x91\xcf\x0a\x00\x00\x01\x0a\x00\x00\x02\x94\x04\x00\x00",
            Bad::Length,
        ),
        (
            "a total length of 21 in 20 bytes, and a wrong sum",
            b"\x45\x00\x00\x15\x00\x00\x40\x00\x40\x11\x00\x00\x0a\x00\x00\x01\x0a\x00\x00\x02",
            Bad::Length,
        ),
        (
            "a sum of 1",
            b"\x45\x00\x00\x14\x00\x00\x40\x00\x40\x11\x26\xd8\x0a\x00\x00\x01\x0a\x00\x00\x02",
            Bad::Checksum,
        ),
        (
            "a wrong sum of a fragment",
            b"\x45\x00\x00\x14\x00\x00\x20\x00\x40\x11\x00\x00\x0a\x00\x00\x01\x0a\x00\x00\x02",
            Bad::Checksum,
        ),
        (
            "an offset of 1",
            b"\x45\x00\x00\x14\x00\x00\x40\x01\x40\x11\x26\xd6\x0a\x00\x00\x01\x0a\x00\x00\x02",
            Bad::Fragment,
        ),
        (
            "the greatest offset",
            b"\x45\x00\x00\x14\x00\x00\x1f\xff\x40\x11\x46\xd8\x0a\x00\x00\x01\x0a\x00\x00\x02",
            Bad::Fragment,
        ),
        (
            "more fragments",
            b"\x45\x00\x00\x14\x00\x00\x20\x00\x40\x11\x46\xd7\x0a\x00\x00\x01\x0a\x00\x00\x02",
            Bad::Fragment,
        ),
    ];
    for (what, bytes, why) in refused {
        assert_eq!(rt; decode(bytes), Err(why), "{what}");
    }
}

#[test]
fn reads_what_is_not_refused(rt: HostRuntime) {
    let read: [(&str, &[u8], Datagram<'static>); 7] = [
        (
            "20 bytes",
            b"\x45\x00\x00\x14\x00\x00\x40\x00\x40\x11\x26\xd7\x0a\x00\x00\x01\x0a\x00\x00\x02",
            no_data(64, TO),
        ),
        (
            "bytes after the total length",
            b"\x45\x00\x00\x14\x00\x00\x40\x00\x40\x11\x26\xd7\x0a\x00\x00\x01\x0a\x00\x00\x02after",
            no_data(64, TO),
        ),
        (
            "a checksum of 0",
            b"\x45\x00\x00\x14\x00\x00\x40\x00\x40\x11\x00\x00\x0a\x00\x00\x01\x0a\x00\x26\xd9",
            no_data(64, 0x0a0026d9),
        ),
        (
            "a checksum of ffff, which is also 0",
            b"\x45\x00\x00\x14\x00\x00\x40\x00\x40\x11\xff\xff\x0a\x00\x00\x01\x0a\x00\x26\xd9",
            no_data(64, 0x0a0026d9),
        ),
        (
            "the reserved flag alone",
            b"\x45\x00\x00\x14\x00\x00\x80\x00\x40\x11\xe6\xd6\x0a\x00\x00\x01\x0a\x00\x00\x02",
            no_data(64, TO),
        ),
        (
            "a service, an identification, a time to live of 0",
            b"\x45\xff\x00\x14\xbe\xef\x40\x00\x00\x11\xa6\xe8\x0a\x00\x00\x01\x0a\x00\x00\x02",
            no_data(0, TO),
        ),
        (
            "a header of 15 words, two bytes of data, and a byte after them",
            b"\x4f\x00\x00\x3e\x00\x00\x40\x00\x01\x06\xd9\x8d\xc0\xa8\x00\x01\xc0\xa8\x00\xc7\x01\x01\x01\x01\x01\x01\x01\x01\x01\x01\x01\x01\x01\x01\x01\x01\x01\x01\x01\x01\x01\x01\x01\x01\x01\x01\x01\x01\x01\x01\x01\x01\x01\x01\x01\x01\x01\x01\x01\x01hi!",
            Datagram {
                src: 0xc0a80001,
                dst: 0xc0a800c7,
                proto: 6,
                ttl: 1,
                load: b"hi",
            },
        ),
    ];
    for (what, bytes, datagram) in read {
        assert_eq!(rt; decode(bytes), Ok(datagram), "{what}");
    }
}

#[test]
fn writes_with_ample_memory(rt: HostRuntime) -> Result<(), Fail> {
    let mut out = Vec::from_slice(rt.alloc(), b"before")?;
    let datagram = Datagram {
        src: FROM,
        dst: TO,
        proto: 17,
        ttl: 255,
        load: b"0123456789",
    };
    encode_into(rt.alloc(), &datagram, &mut out)?;
    assert_eq!(rt;
        out.as_slice(),
        b"before\x45\x00\x00\x1e\x00\x00\x40\x00\x40\x11\x26\xcd\x0a\x00\x00\x01\x0a\x00\x00\x020123456789".as_slice()
    );
    Ok(())
}

#[test]
fn sums_words(rt: HostRuntime) {
    // The example of RFC 1071, section 3, whose sum is ddf2.
    let bytes = b"\x00\x01\xf2\x03\xf4\xf5\xf6\xf7";
    assert_eq!(rt; checksum::word_sum(bytes), 0x2ddf0);
    assert_eq!(rt; checksum::ones_sum(bytes), 0xddf2);
    assert_eq!(rt; checksum::fold(0x2ddf0), 0xddf2);
    assert_eq!(rt; checksum::word_sum(b"\x00\x01\xf2"), 0xf201);
    // 32,769 words of 0101
    assert_eq!(rt; checksum::ones_sum(&[1; 65538]), 0x8181);
    assert_eq!(rt; checksum::fold(0xffffffff), 0xffff);
}
