//! The calls that send: `buf` can stand for their data, and `peer` for the destination of a datagram.

ghost use Rattle.std.specs.Prelude.{◌≡◌, Some, IfOk};
ghost use Rattle.it_types.specs.Cursor.{Gives};
ghost use Rattle.it_types.specs.Kinds.{Point, Destination, Load, Timeout, point_of, ticks_of, end_point_of, timeout_at};
ghost use Rattle.s_script.specs.LineKinds.{call_field, load_field, target_field, send_of, hand_over_of, datagram_of, send_line, hand_over_line, datagram_line, senders, by_word};

use it_types::cursor::{after, at_end, is_word, split_word};
use it_types::data::data_of;
use it_types::numbers::{address_at, number_at, u16_of, u32_of};
use it_types::{Bytes, CepId, EndPt, NoMemory, Req, Tmo};
use spec_script::{Line, ScriptLine};
use std::alloc::Global;

/// The most bytes of data of a call.
pub const DATA_LIMIT: usize = 1024;

/// The greatest number of ticks of a time-out.
const MAX_TIME: u64 = 1000000;

/// What a call sends: its own data, or the buffer.
#[derive(Drop)]
struct Payload {
    is_buffer: bool,
    load: Bytes,
}

/// Where a datagram goes: to an end point, `None` where a part of it is out of its range, or to the peer.
#[derive(Clone, Copy)]
struct Target {
    is_peer: bool,
    dest: Option<EndPt>,
}

fn point_of(number: Option<u64>) -> Option<CepId>
    ensures { result ≡ point_of number }
{
    Some(CepId(u32_of(number)?))
}

#[tactic(auto, unfolding(it_types::specs::Cursor::and_then, it_types::specs::Kinds::number_as, crate::specs::LineKinds::call_field))]
fn point_field(bytes: &[u8]) -> Option<(Option<CepId>, &[u8])>
    ensures { Gives (λ x. (x.0, x.1.now)) result (call_field Point bytes.now) }
{
    let (number, rest) = number_at(after(b" ", bytes)?)?;
    Some((point_of(number), rest))
}

fn ticks_of(number: Option<u64>) -> Option<Tmo>
    ensures { result ≡ ticks_of number }
{
    let ticks = number?;
    if 1 <= ticks && ticks <= MAX_TIME {
        Some(Tmo::Ms(ticks as u32))
    } else {
        None
    }
}

#[tactic(auto, unfolding(it_types::specs::Cursor::and_then, it_types::specs::Kinds::word_as, it_types::specs::Kinds::number_as, it_types::specs::Kinds::timeout_at))]
fn timeout_at(bytes: &[u8]) -> Option<(Option<Tmo>, &[u8])>
    ensures { Gives (λ x. (x.0, x.1.now)) result (timeout_at bytes.now) }
{
    if let Some(rest) = after(b"pol", bytes) {
        Some((Some(Tmo::Pol), rest))
    } else if let Some(rest) = after(b"nblk", bytes) {
        Some((Some(Tmo::Nblk), rest))
    } else if let Some(rest) = after(b"fevr", bytes) {
        Some((Some(Tmo::Fevr), rest))
    } else {
        let (ticks, rest) = number_at(bytes)?;
        Some((ticks_of(ticks), rest))
    }
}

#[tactic(auto, unfolding(it_types::specs::Cursor::and_then, crate::specs::LineKinds::call_field))]
fn timeout_field(bytes: &[u8]) -> Option<(Option<Tmo>, &[u8])>
    ensures { Gives (λ x. (x.0, x.1.now)) result (call_field Timeout bytes.now) }
{
    timeout_at(after(b" ", bytes)?)
}

fn end_point_of(addr: Option<u32>, port: Option<u16>) -> Option<EndPt>
    ensures { result ≡ end_point_of addr port }
{
    Some(EndPt {
        addr: addr?,
        port: port?,
    })
}

#[tactic(auto, unfolding(it_types::specs::Cursor::and_then, it_types::specs::Kinds::destination_at, crate::specs::LineKinds::call_field))]
fn destination_field(bytes: &[u8]) -> Option<(Option<EndPt>, &[u8])>
    ensures { Gives (λ x. (x.0, x.1.now)) result (call_field Destination bytes.now) }
{
    let (addr, rest) = address_at(after(b" ", bytes)?)?;
    let (port, rest) = number_at(after(b":", rest)?)?;
    Some((end_point_of(addr, u16_of(port)), rest))
}

#[tactic(auto, unfolding(crate::specs::LineKinds::target_field))]
fn target_field(bytes: &[u8]) -> Option<(Target, &[u8])>
    ensures { Gives (λ x. ((x.0.is_peer, x.0.dest), x.1.now)) result (target_field bytes.now) }
{
    if let Some(rest) = after(b" peer", bytes) {
        let target = Target {
            is_peer: true,
            dest: Some(EndPt::default()),
        };
        Some((target, rest))
    } else {
        let (dest, rest) = destination_field(bytes)?;
        let target = Target {
            is_peer: false,
            dest,
        };
        Some((target, rest))
    }
}

#[tactic(auto, unfolding(it_types::specs::Cursor::and_then, it_types::specs::Kinds::load_at, crate::specs::LineKinds::call_field))]
fn data_field(alloc: Global, bytes: &[u8]) -> Result<Option<(Bytes, &[u8])>, NoMemory>
    ensures { IfOk result (λ found. Gives (λ x. (Some x.0, x.1.now)) found (call_field Load bytes.now)) }
{
    let Some(bytes) = after(b" ", bytes) else {
        return Ok(None);
    };
    let Some(digits) = after(b"x", bytes) else {
        return Ok(None);
    };
    let (digits, rest) = split_word(digits);
    match data_of(alloc, DATA_LIMIT, digits)? {
        Some(load) => Ok(Some((load, rest))),
        None => Ok(None),
    }
}

#[tactic(auto, unfolding(crate::specs::LineKinds::load_field))]
fn load_field(alloc: Global, bytes: &[u8]) -> Result<Option<(Payload, &[u8])>, NoMemory>
    ensures { IfOk result (λ found. Gives (λ x. ((x.0.is_buffer, Some x.0.load), x.1.now)) found (load_field bytes.now)) }
{
    if let Some(rest) = after(b" buf", bytes) {
        let payload = Payload {
            is_buffer: true,
            load: Bytes::new(alloc),
        };
        return Ok(Some((payload, rest)));
    }
    let Some((load, rest)) = data_field(alloc, bytes)? else {
        return Ok(None);
    };
    let payload = Payload {
        is_buffer: false,
        load,
    };
    Ok(Some((payload, rest)))
}

fn call(req: Req, buf: bool, peer: bool, fits: bool) -> ScriptLine
    ensures { result ≡ ScriptLine.Body (Line.Call req buf peer) fits }
{
    ScriptLine::Body {
        line: Line::Call { req, buf, peer },
        fits,
    }
}

#[tactic(auto, unfolding(crate::specs::LineKinds::send_of))]
fn send_of(cep: Option<CepId>, payload: Payload, tmo: Option<Tmo>) -> ScriptLine
    ensures { result ≡ send_of cep (payload.is_buffer, Some payload.load) tmo }
{
    let fits = cep.is_some() && tmo.is_some();
    let req = Req::TcpSndDat {
        cep: cep.unwrap_or_default(),
        load: payload.load,
        tmo: tmo.unwrap_or(Tmo::Pol),
    };
    call(req, payload.is_buffer, false, fits)
}

#[tactic(auto, unfolding(crate::specs::LineKinds::hand_over_of))]
fn hand_over_of(cep: Option<CepId>, payload: Payload) -> ScriptLine
    ensures { result ≡ hand_over_of cep (payload.is_buffer, Some payload.load) }
{
    let fits = cep.is_some();
    let req = Req::TcpSndBuf {
        cep: cep.unwrap_or_default(),
        load: payload.load,
    };
    call(req, payload.is_buffer, false, fits)
}

#[tactic(auto, unfolding(crate::specs::LineKinds::datagram_of))]
fn datagram_of(cep: Option<CepId>, target: Target, payload: Payload, tmo: Option<Tmo>) -> ScriptLine
    ensures { result ≡ datagram_of cep (target.is_peer, target.dest) (payload.is_buffer, Some payload.load) tmo }
{
    let fits = cep.is_some() && target.dest.is_some() && tmo.is_some();
    let req = Req::UdpSndDat {
        cep: cep.unwrap_or_default(),
        dest: target.dest.unwrap_or_default(),
        load: payload.load,
        tmo: tmo.unwrap_or(Tmo::Pol),
    };
    call(req, payload.is_buffer, target.is_peer, fits)
}

#[tactic(auto, unfolding(it_types::specs::Cursor::and_then, crate::specs::LineKinds::send_line))]
fn send_line(alloc: Global, bytes: &[u8]) -> Result<Option<ScriptLine>, NoMemory>
    ensures { IfOk result (λ line. line ≡ send_line bytes.now) }
{
    let Some((cep, rest)) = point_field(bytes) else {
        return Ok(None);
    };
    let Some((payload, rest)) = load_field(alloc, rest)? else {
        return Ok(None);
    };
    let Some((tmo, rest)) = timeout_field(rest) else {
        return Ok(None);
    };
    Ok(at_end(rest, send_of(cep, payload, tmo)))
}

#[tactic(auto, unfolding(it_types::specs::Cursor::and_then, crate::specs::LineKinds::hand_over_line))]
fn hand_over_line(alloc: Global, bytes: &[u8]) -> Result<Option<ScriptLine>, NoMemory>
    ensures { IfOk result (λ line. line ≡ hand_over_line bytes.now) }
{
    let Some((cep, rest)) = point_field(bytes) else {
        return Ok(None);
    };
    let Some((payload, rest)) = load_field(alloc, rest)? else {
        return Ok(None);
    };
    Ok(at_end(rest, hand_over_of(cep, payload)))
}

#[tactic(auto, unfolding(it_types::specs::Cursor::and_then, crate::specs::LineKinds::datagram_line))]
fn datagram_line(alloc: Global, bytes: &[u8]) -> Result<Option<ScriptLine>, NoMemory>
    ensures { IfOk result (λ line. line ≡ datagram_line bytes.now) }
{
    let Some((cep, rest)) = point_field(bytes) else {
        return Ok(None);
    };
    let Some((target, rest)) = target_field(rest) else {
        return Ok(None);
    };
    let Some((payload, rest)) = load_field(alloc, rest)? else {
        return Ok(None);
    };
    let Some((tmo, rest)) = timeout_field(rest) else {
        return Ok(None);
    };
    Ok(at_end(rest, datagram_of(cep, target, payload, tmo)))
}

/// The call of this word that the bytes after it are read as, where it is one that sends.
pub fn sender_line(alloc: Global, word: &[u8], bytes: &[u8]) -> Result<Option<ScriptLine>, NoMemory>
    ensures { IfOk result (λ line. line ≡ by_word senders word.now bytes.now) }
{
    if is_word(word, b"tcp_snd_dat") {
        send_line(alloc, bytes)
    } else if is_word(word, b"tcp_snd_buf") {
        hand_over_line(alloc, bytes)
    } else if is_word(word, b"udp_snd_dat") {
        datagram_line(alloc, bytes)
    } else {
        Ok(None)
    }
}
