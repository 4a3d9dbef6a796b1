ghost use Rattle.std.specs.Prelude.{◌≡◌, ◌≤◌, ◌++◌, OnOk, OnErr, length};
ghost use Rattle.spec_wire.specs.Ipv4.{checksum_of, header, written};
ghost use Rattle.net_ip4.specs.Shown.{shown};

use crate::{Datagram, checksum};
use byteorder::{BigEndian, ByteOrder};
use it_types::NoMemory;
use std::alloc::Global;

// The header with a checksum of 0: version 4, 5 words, "don't fragment", and a time to live of 64.
fn unsummed_header(d: &Datagram<'_>) -> [u8; 20]
    requires { length d.now.load.now ≤ 1480 }
    ensures { result ≡ header (shown d.now) 0 }
{
    let mut header = [
        0x45, 0, 0, 0, 0, 0, 0x40, 0, 64, d.proto, 0, 0, 0, 0, 0, 0, 0, 0, 0, 0,
    ];
    BigEndian::write_u16(&mut header[2..], 20 + d.load.len() as u16);
    BigEndian::write_u32(&mut header[12..], d.src);
    BigEndian::write_u32(&mut header[16..], d.dst);
    header
}

fn header(d: &Datagram<'_>) -> [u8; 20]
    requires { length d.now.load.now ≤ 1480 }
    ensures { result ≡ header (shown d.now) (checksum_of (shown d.now)) }
{
    let mut header = unsummed_header(d);
    let checksum = !checksum::ones_sum(&header);
    BigEndian::write_u16(&mut header[10..], checksum);
    header
}

/// Appends the datagram with a header of 20 bytes and a time to live of 64.
#[tactic(auto, unfolding(spec_wire::specs::Ipv4::written))]
pub fn encode_into(_alloc: Global, d: &Datagram<'_>, out: &mut Vec<u8>) -> Result<(), NoMemory>
    requires { length d.now.load.now ≤ 1480 }
    ensures ok { OnOk result (out.new.items ≡ out.old.items ++ written (shown d.now)) }
    ensures err { OnErr result (out.new.items ≡ out.old.items) }
{
    let header = header(d);
    out.reserve(header.len() + d.load.len())?;
    out.extend_from_slice(&header)?;
    out.extend_from_slice(d.load)?;
    Ok(())
}
