ghost use Rattle.std.specs.Prelude.{◌≡◌, ◌≤◌, ◌++◌, OnOk, OnErr, length};
ghost use Rattle.spec_wire.specs.Udp.{computed_checksum, header, sent_checksum, written};
ghost use Rattle.net_udp.specs.Shown.{shown};

use crate::{PROTOCOL, Udp};
use byteorder::{BigEndian, ByteOrder};
use it_types::NoMemory;
use net_ip4::pseudo::sum_behind;
use std::alloc::Global;

// The header with a checksum of 0.
fn unsummed_header(u: &Udp<'_>) -> [u8; 8]
    requires { length u.now.load.now ≤ 1472 }
    ensures { result ≡ header (shown u.now) 0 }
{
    let mut header = [0; 8];
    BigEndian::write_u16(&mut header, u.from_port);
    BigEndian::write_u16(&mut header[2..], u.to_port);
    BigEndian::write_u16(&mut header[4..], 8 + u.load.len() as u16);
    header
}

// A checksum of 0 would mean that there is none.
fn sent_checksum(computed: u16) -> u16
    ensures { result ≡ sent_checksum computed }
{
    if computed == 0 { 0xffff } else { computed }
}

fn header(src: u32, dst: u32, u: &Udp<'_>) -> [u8; 8]
    requires { length u.now.load.now ≤ 1472 }
    ensures { result ≡ header (shown u.now) (sent_checksum (computed_checksum src dst (shown u.now))) }
{
    let mut header = unsummed_header(u);
    let computed = !sum_behind(PROTOCOL, src, dst, &header, u.load);
    BigEndian::write_u16(&mut header[6..], sent_checksum(computed));
    header
}

/// Appends the datagram with its checksum, sent from one address to the other.
#[tactic(auto, unfolding(spec_wire::specs::Udp::written))]
pub fn encode_into(
    _alloc: Global,
    src: u32,
    dst: u32,
    u: &Udp<'_>,
    out: &mut Vec<u8>,
) -> Result<(), NoMemory>
    requires { length u.now.load.now ≤ 1472 }
    ensures ok { OnOk result (out.new.items ≡ out.old.items ++ written src dst (shown u.now)) }
    ensures err { OnErr result (out.new.items ≡ out.old.items) }
{
    let header = header(src, dst, u);
    out.reserve(header.len() + u.load.len())?;
    out.extend_from_slice(&header)?;
    out.extend_from_slice(u.load)?;
    Ok(())
}
