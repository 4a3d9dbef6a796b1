//! The one's complement sum of what a protocol on IPv4 sends, with its pseudo header.

ghost use Rattle.std.specs.Prelude.{◌≡◌, ◌%◌, ◌++◌, length};
ghost use Rattle.spec_wire.specs.Pseudo.{pseudo_header, sum_behind};
ghost use Rattle.spec_wire.specs.Sum.{ones_sum, words};

use crate::checksum::{add, ones_sum};
use byteorder::{BigEndian, ByteOrder};

// What stands before the bytes in the sum alone.
fn pseudo_header(protocol: u8, src: u32, dst: u32, size: u16) -> [u8; 12]
    ensures { result ≡ pseudo_header protocol src dst size }
{
    let mut header = [0, 0, 0, 0, 0, 0, 0, 0, 0, protocol, 0, 0];
    BigEndian::write_u32(&mut header, src);
    BigEndian::write_u32(&mut header[4..], dst);
    BigEndian::write_u16(&mut header[10..], size);
    header
}

fn sum_of_parts(pseudo: &[u8], header: &[u8], load: &[u8]) -> u16
    requires pseudo { length pseudo.now % 2 ≡ 0 }
    requires header { length header.now % 2 ≡ 0 }
    ensures { result ≡ ones_sum (words (pseudo.now ++ (header.now ++ load.now))) }
{
    add(add(ones_sum(pseudo), ones_sum(header)), ones_sum(load))
}

/// The one's complement sum of pseudo header, header and data, the protocol being the one whose header it is. A receiver
/// finds `ffff` where the checksum is right.
pub fn sum_behind(protocol: u8, src: u32, dst: u32, header: &[u8], load: &[u8]) -> u16
    requires { length header.now % 2 ≡ 0 }
    ensures { result ≡ sum_behind protocol src dst (header.now ++ load.now) }
{
    // The field has 16 bits.
    let size = (header.len() + load.len()) % 65536;
    let pseudo = pseudo_header(protocol, src, dst, size as u16);
    sum_of_parts(&pseudo, header, load)
}
