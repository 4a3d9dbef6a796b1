ghost use Rattle.std.specs.Prelude.{◌≡◌, ◌≤◌, ◌↔◌, IfOk, IsOkAnd, Some, None, length, option_map};
ghost use Rattle.spec_wire.specs.Segment as wire;
ghost use Rattle.spec_wire.specs.Segment.{Reads, fields_of, flags_of, header_length, is_wrong_offset, is_wrong_sum, options_of, refusal};
ghost use Rattle.net_seg.specs.Shown.{shown, shown_options};

use crate::options::{Options, read_options};
use crate::{Bad, PROTOCOL, Segment, TcpFlags};
use bitflags::Flags;
use net_ip4::octets::{u16_at, u32_at};
use net_ip4::pseudo::sum_behind;

// The header without options, in bytes.
const LEAST_HEADER: usize = 20;

fn header_length(bytes: &[u8]) -> usize
    requires { 20 ≤ length bytes.now }
    ensures { result ≡ header_length bytes.now }
{
    usize::from(bytes[12] / 16) * 4
}

fn is_wrong_offset(bytes: &[u8]) -> bool
    requires { 20 ≤ length bytes.now }
    ensures { result ≡ is_wrong_offset bytes.now }
{
    let header = header_length(bytes);
    header < LEAST_HEADER || bytes.len() < header
}

fn is_wrong_sum(src: u32, dst: u32, bytes: &[u8]) -> bool
    ensures { result ≡ is_wrong_sum src dst bytes.now }
{
    sum_behind(PROTOCOL, src, dst, &[], bytes) != 0xffff
}

fn options(bytes: &[u8]) -> Option<Options>
    requires header { 20 ≤ header_length bytes.now }
    requires whole { header_length bytes.now ≤ length bytes.now }
    ensures { option_map shown_options result ≡ options_of bytes.now }
{
    read_options(&bytes[LEAST_HEADER..header_length(bytes)])
}

// The tests in their order, and what the options tell where none holds.
#[tactic(auto, unfolding(spec_wire::specs::Segment::refusal))]
fn options_unless_refused(src: u32, dst: u32, bytes: &[u8]) -> Result<Options, Bad>
    ensures passed { IfOk result (λ o. (refusal src dst bytes.now ≡ None) × (options_of bytes.now ≡ Some (shown_options o))) }
    ensures refused { (why : Bad) → (result ≡ Err why) ↔ (refusal src dst bytes.now ≡ Some why) }
{
    if bytes.len() < LEAST_HEADER {
        return Err(Bad::Short);
    }
    if is_wrong_offset(bytes) {
        return Err(Bad::Offset);
    }
    if is_wrong_sum(src, dst, bytes) {
        return Err(Bad::Checksum);
    }
    options(bytes).ok_or(Bad::Option)
}

fn flags(bytes: &[u8]) -> TcpFlags
    requires { 20 ≤ length bytes.now }
    ensures { result.0 ≡ flags_of bytes.now }
{
    TcpFlags::from_bits_truncate(bytes[13])
}

fn segment(bytes: &[u8], options: Options) -> Segment<'_>
    requires header { 20 ≤ header_length bytes.now }
    requires whole { header_length bytes.now ≤ length bytes.now }
    ensures { shown result ≡ fields_of bytes.now (shown_options options) }
{
    Segment {
        from_port: u16_at(bytes, 0),
        to_port: u16_at(bytes, 2),
        seq: u32_at(bytes, 4),
        ack: u32_at(bytes, 8),
        flags: flags(bytes),
        wnd: u16_at(bytes, 14),
        mss: options.mss,
        load: &bytes[header_length(bytes)..],
    }
}

/// The segment that the bytes are, sent from one address to the other. Its data is borrowed from them; no memory is taken.
/// The urgent pointer, the flags that `TcpFlags` hasn't and options of other kinds are ignored.
pub fn decode(src: u32, dst: u32, bytes: &[u8]) -> Result<Segment<'_>, Bad>
    // What is answered is what the bytes are read as.
    ensures read { IfOk result (λ s. Reads src dst bytes.now (shown s)) }
    // What the bytes are read as is answered.
    ensures only { (v : wire.Segment) → Reads src dst bytes.now v → IsOkAnd result (λ s. shown s ≡ v) }
    // Each refusal comes exactly where its test is the first that holds.
    ensures refused { (why : Bad) → (result ≡ Err why) ↔ (refusal src dst bytes.now ≡ Some why) }
{
    match options_unless_refused(src, dst, bytes) {
        Ok(options) => Ok(segment(bytes, options)),
        Err(why) => Err(why),
    }
}
