ghost use Rattle.std.specs.Prelude.{◌≡◌, ◌+◌, ◌++◌, OnOk, OnErr, length};
ghost use Rattle.spec_wire.specs.Segment.{checksum_of, written, written_options};
ghost use Rattle.net_seg.specs.Shown.{header_room, shown};

use crate::{PROTOCOL, Segment};
use bitflags::Flags;
use byteorder::{BigEndian, ByteOrder};
use it_types::NoMemory;
use net_ip4::pseudo::sum_behind;
use std::alloc::Global;

// The header, in bytes.
fn header_size(mss: Option<u16>) -> usize
    ensures { result ≡ 20 + length (written_options mss) }
{
    if mss.is_some() { 24 } else { 20 }
}

// The header with a checksum, in room for its greatest size.
fn header(s: &Segment<'_>, checksum: u16) -> [u8; 24]
    ensures { result ≡ header_room (shown s.now) checksum }
{
    let mut header = [0; 24];
    BigEndian::write_u16(&mut header, s.from_port);
    BigEndian::write_u16(&mut header[2..], s.to_port);
    BigEndian::write_u32(&mut header[4..], s.seq);
    BigEndian::write_u32(&mut header[8..], s.ack);
    header[12] = header_size(s.mss) as u8 * 4;
    header[13] = s.flags.bits();
    BigEndian::write_u16(&mut header[14..], s.wnd);
    BigEndian::write_u16(&mut header[16..], checksum);
    if let Some(mss) = s.mss {
        header[20] = 2;
        header[21] = 4;
        BigEndian::write_u16(&mut header[22..], mss);
    }
    header
}

fn checksum(src: u32, dst: u32, s: &Segment<'_>) -> u16
    ensures { result ≡ checksum_of src dst (shown s.now) }
{
    let header = header(s, 0);
    !sum_behind(PROTOCOL, src, dst, &header[..header_size(s.mss)], s.load)
}

/// Appends the segment with its checksum, sent from one address to the other. With at most 1,460 bytes of data, or 1,456 where
/// `mss` is present, it fits a packet of 1,500 bytes.
#[tactic(auto, unfolding(spec_wire::specs::Segment::written))]
pub fn encode_into(
    _alloc: Global,
    src: u32,
    dst: u32,
    s: &Segment<'_>,
    out: &mut Vec<u8>,
) -> Result<(), NoMemory>
    ensures ok { OnOk result (out.new.items ≡ out.old.items ++ written src dst (shown s.now)) }
    ensures err { OnErr result (out.new.items ≡ out.old.items) }
{
    let header = header(s, checksum(src, dst, s));
    let header = &header[..header_size(s.mss)];
    out.reserve(header.len() + s.load.len())?;
    out.extend_from_slice(header)?;
    out.extend_from_slice(s.load)?;
    Ok(())
}
