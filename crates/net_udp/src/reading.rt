ghost use Rattle.std.specs.Prelude.{◌≡◌, ◌≤◌, ◌↔◌, IfOk, IsOkAnd, Some, length};
ghost use Rattle.spec_wire.specs.Udp.{UserDatagram, Reads, fields_of, refusal, is_wrong_length, is_wrong_sum, length_of, datagram_of, sum_of};
ghost use Rattle.net_udp.specs.Shown.{shown};

use crate::{Bad, PROTOCOL, Udp};
use net_ip4::octets::u16_at;
use net_ip4::pseudo::sum_behind;

// The header, in bytes.
const HEADER: usize = 8;

fn length(bytes: &[u8]) -> usize
    requires { 8 ≤ length bytes.now }
    ensures { result ≡ length_of bytes.now }
{
    usize::from(u16_at(bytes, 4))
}

fn is_wrong_length(bytes: &[u8]) -> bool
    requires { 8 ≤ length bytes.now }
    ensures { result ≡ is_wrong_length bytes.now }
{
    let length = length(bytes);
    length < HEADER || bytes.len() < length
}

fn sum(src: u32, dst: u32, bytes: &[u8]) -> u16
    requires header { 8 ≤ length_of bytes.now }
    requires whole { length_of bytes.now ≤ length bytes.now }
    ensures { result ≡ sum_of src dst (datagram_of bytes.now) }
{
    sum_behind(
        PROTOCOL,
        src,
        dst,
        &bytes[..HEADER],
        &bytes[HEADER..length(bytes)],
    )
}

fn is_wrong_sum(src: u32, dst: u32, bytes: &[u8]) -> bool
    requires header { 8 ≤ length_of bytes.now }
    requires whole { length_of bytes.now ≤ length bytes.now }
    ensures { result ≡ is_wrong_sum src dst bytes.now }
{
    u16_at(bytes, 6) != 0 && sum(src, dst, bytes) != 0xffff
}

#[tactic(auto, unfolding(spec_wire::specs::Udp::refusal))]
fn refusal(src: u32, dst: u32, bytes: &[u8]) -> Option<Bad>
    ensures { result ≡ refusal src dst bytes.now }
{
    if bytes.len() < HEADER {
        return Some(Bad::Short);
    }
    if is_wrong_length(bytes) {
        return Some(Bad::Length);
    }
    if is_wrong_sum(src, dst, bytes) {
        return Some(Bad::Checksum);
    }
    None
}

fn datagram(bytes: &[u8]) -> Udp<'_>
    requires header { 8 ≤ length_of bytes.now }
    requires whole { length_of bytes.now ≤ length bytes.now }
    ensures { shown result ≡ fields_of bytes.now }
{
    Udp {
        from_port: u16_at(bytes, 0),
        to_port: u16_at(bytes, 2),
        load: &bytes[HEADER..length(bytes)],
    }
}

/// The datagram that begins the bytes, sent from one address to the other. Its data is borrowed from them; no memory is
/// taken. A checksum field of 0 means that there is none; bytes past the length are ignored.
#[tactic(auto, using(spec_wire::proofs::UdpTests::reads_unrefused, spec_wire::proofs::UdpTests::reads_once))]
pub fn decode(src: u32, dst: u32, bytes: &[u8]) -> Result<Udp<'_>, Bad>
    // What is answered is what the bytes are read as.
    ensures read { IfOk result (λ u. Reads src dst bytes.now (shown u)) }
    // What the bytes are read as is answered.
    ensures only { (v : UserDatagram) → Reads src dst bytes.now v → IsOkAnd result (λ u. shown u ≡ v) }
    // Each refusal comes exactly where its test is the first that holds.
    ensures refused { (why : Bad) → (result ≡ Err why) ↔ (refusal src dst bytes.now ≡ Some why) }
{
    match refusal(src, dst, bytes) {
        Some(why) => Err(why),
        None => Ok(datagram(bytes)),
    }
}
