ghost use Rattle.std.specs.Prelude.{◌≡◌, ◌≤◌, ◌↔◌, IfOk, IsOkAnd, Some, length};
ghost use Rattle.spec_wire.specs.Ipv4.{Ipv4, Reads, fields_of, refusal, header_length_of, is_wrong_length, is_wrong_sum, is_fragment, total_length_of};
ghost use Rattle.net_ip4.specs.Shown.{shown};

use crate::octets::{u16_at, u32_at};
use crate::{Bad, Datagram, checksum};

// The header without options, in bytes.
const LEAST_HEADER: usize = 20;

fn header_length(bytes: &[u8]) -> usize
    requires { 20 ≤ length bytes.now }
    ensures { result ≡ header_length_of bytes.now }
{
    usize::from(bytes[0] % 16) * 4
}

fn total_length(bytes: &[u8]) -> usize
    requires { 20 ≤ length bytes.now }
    ensures { result ≡ total_length_of bytes.now }
{
    usize::from(u16_at(bytes, 2))
}

fn is_wrong_length(bytes: &[u8]) -> bool
    requires { 20 ≤ length bytes.now }
    ensures { result ≡ is_wrong_length bytes.now }
{
    let header = header_length(bytes);
    let total = total_length(bytes);
    header < LEAST_HEADER || total < header || bytes.len() < total
}

fn is_wrong_sum(bytes: &[u8]) -> bool
    requires size { 20 ≤ length bytes.now }
    requires header { header_length_of bytes.now ≤ length bytes.now }
    ensures { result ≡ is_wrong_sum bytes.now }
{
    checksum::ones_sum(&bytes[..header_length(bytes)]) != 0xffff
}

fn is_fragment(bytes: &[u8]) -> bool
    requires { 20 ≤ length bytes.now }
    ensures { result ≡ is_fragment bytes.now }
{
    let flags_and_offset = u16_at(bytes, 6);
    flags_and_offset % 0x2000 != 0 || flags_and_offset / 0x2000 % 2 != 0
}

#[tactic(auto, unfolding(spec_wire::specs::Ipv4::refusal))]
fn refusal(bytes: &[u8]) -> Option<Bad>
    ensures { result ≡ refusal bytes.now }
{
    if bytes.len() < LEAST_HEADER {
        return Some(Bad::Short);
    }
    if bytes[0] / 16 != 4 {
        return Some(Bad::Version);
    }
    if is_wrong_length(bytes) {
        return Some(Bad::Length);
    }
    if is_wrong_sum(bytes) {
        return Some(Bad::Checksum);
    }
    if is_fragment(bytes) {
        return Some(Bad::Fragment);
    }
    None
}

fn datagram(bytes: &[u8]) -> Datagram<'_>
    requires { Reads bytes.now (fields_of bytes.now) }
    ensures { Reads bytes.now (shown result) }
{
    Datagram {
        src: u32_at(bytes, 12),
        dst: u32_at(bytes, 16),
        proto: bytes[9],
        ttl: bytes[8],
        load: &bytes[header_length(bytes)..total_length(bytes)],
    }
}

/// The datagram that begins the bytes. Its data is borrowed from them; no memory is taken. Options are skipped; the type
/// of service, the identification, the other flags, and bytes past the total length are ignored.
#[tactic(auto, using(spec_wire::proofs::Ipv4Tests::reads_unrefused, spec_wire::proofs::Ipv4Tests::reads_otherwise, spec_wire::proofs::Ipv4Tests::reads_once))]
pub fn decode(bytes: &[u8]) -> Result<Datagram<'_>, Bad>
    // What is answered is what the bytes are read as.
    ensures read { IfOk result (λ d. Reads bytes.now (shown d)) }
    // What the bytes are read as is answered.
    ensures only { (v : Ipv4) → Reads bytes.now v → IsOkAnd result (λ d. shown d ≡ v) }
    // Each refusal comes exactly where its test is the first that holds.
    ensures refused { (why : Bad) → (result ≡ Err why) ↔ (refusal bytes.now ≡ Some why) }
{
    match refusal(bytes) {
        Some(why) => Err(why),
        None => Ok(datagram(bytes)),
    }
}
