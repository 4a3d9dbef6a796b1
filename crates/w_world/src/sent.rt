//! The places of packets in the history, so that no packet is kept twice.

ghost use Rattle.std.specs.Prelude.{◌≡◌, ◌++◌, OnOk};
ghost use Rattle.w_world.specs.Sending.{bytes_in, places_from};

use it_types::{Bytes, Entry, NoMemory, NodeId};

/// A packet that was sent: its sender, and where its bytes stand, by the entry's place in the history and the packet's in
/// the entry.
#[derive(Clone, Copy, Debug)]
pub struct Sent {
    pub by: NodeId,
    pub entry: usize,
    pub pack: usize,
}

/// The bytes of the packet.
pub fn bytes_in<'a>(log: &'a [Entry], sent: Sent) -> &'a [u8]
    ensures { result.now ≡ bytes_in log.now sent }
{
    match log.get(sent.entry) {
        Some(entry) => bytes_at(entry.packs.as_slice(), sent.pack),
        None => &[],
    }
}

fn bytes_at(packs: &[Bytes], place: usize) -> &[u8]
    ensures { result.now ≡ Rattle.std.specs.Prelude.slice_index_or packs.now place Rattle.std.specs.Prelude.[] }
{
    match packs.get(place) {
        Some(bytes) => bytes.as_slice(),
        None => &[],
    }
}

/// Appends the places of the packets of the entry that is to stand at this place.
pub fn note_packets(
    sent: &mut Vec<Sent>,
    by: NodeId,
    entry: usize,
    packs: &[Bytes],
) -> Result<(), NoMemory>
    ensures { OnOk result (sent.new.items ≡ sent.old.items ++ places_from by entry 0 packs.now) }
{
    for pack in 0..packs.len() {
        sent.push(Sent { by, entry, pack })?;
    }
    Ok(())
}
