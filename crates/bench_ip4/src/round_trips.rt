ghost use Rattle.std.specs.Prelude.{◌≡◌, ◌*◌, ◌+◌, ◌≤◌, IfOk, Some, length};

use it_types::NoMemory;
use net_ip4::{Datagram, decode, encode_into};
use std::alloc::Global;

/// The data of a datagram that fills a packet of 1,500 bytes.
const LOAD: [u8; 1480] = [0x5a; 1480];

/// The datagrams that were decoded, and their bytes.
#[derive(Clone, Copy, Debug, PartialEq, Eq)]
pub struct Totals {
    pub datagrams: u64,
    pub bytes: u64,
}

// Encodes a datagram and decodes it again, and gives the number of its bytes; None where it was refused, which never is.
fn round_trip(
    alloc: Global,
    datagram: Datagram<'_>,
    packet: &mut Vec<u8>,
) -> Result<Option<u64>, NoMemory>
    requires { length datagram.load.now ≤ 1480 }
    ensures { IfOk result (λ bytes. bytes ≡ Some (20 + length datagram.entry.load.now)) }
{
    packet.clear();
    encode_into(alloc, &datagram, packet)?;
    match decode(packet) {
        Ok(read) => Ok(Some(20 + read.load.len() as u64)),
        Err(_) => Ok(None),
    }
}

/// Encodes and decodes as many datagrams of 1,500 bytes, each to another address.
pub fn round_trips(alloc: Global, count: u32) -> Result<Totals, NoMemory>
    ensures datagrams { IfOk result (λ t. t.datagrams ≡ count) }
    ensures bytes { IfOk result (λ t. t.bytes ≡ 1500 * count) }
{
    let mut packet = Vec::new(alloc);
    let mut totals = Totals {
        datagrams: 0,
        bytes: 0,
    };
    for dst in 0..count {
        let datagram = Datagram {
            src: 0x0a000001,
            dst,
            proto: 17,
            ttl: 64,
            load: &LOAD,
        };
        if let Some(bytes) = round_trip(alloc, datagram, &mut packet)? {
            totals.datagrams += 1;
            totals.bytes += bytes;
        }
    }
    Ok(totals)
}
