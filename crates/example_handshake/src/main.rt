//! Writes the packets of a TCP handshake, of the first data and of its acknowledgement, a line of hexadecimal digits each: how a
//! program makes packets with the crates of the formats alone.
#![tactic(auto)]

mod segments;

use it_io::{StdSink, write_all};
use it_types::NoMemory;
use net_ip4::Datagram;
use net_seg::Segment;
use segments::{FAR, NEAR, handshake};
use std::alloc::Global;
use std::io;
use std::process::ExitCode;

/// The protocol of an IPv4 datagram that carries a segment.
const TCP: u8 = 6;

/// Why there is no packet.
#[derive(Clone, Copy, Debug, PartialEq, Eq)]
enum Failure {
    /// It would be longer than 1,500 bytes.
    TooLong,
    NoMemory,
}

impl From<NoMemory> for Failure {
    fn from(_: NoMemory) -> Failure {
        Failure::NoMemory
    }
}

/// The packet that carries a segment from the one address to the other.
fn packet(alloc: Global, src: u32, dst: u32, segment: &Segment<'_>) -> Result<Vec<u8>, Failure> {
    let mut load = Vec::new(alloc);
    net_seg::encode_into(alloc, src, dst, segment, &mut load)?;
    if load.len() > 1480 {
        return Err(Failure::TooLong);
    }
    let mut bytes = Vec::new(alloc);
    let datagram = Datagram {
        src,
        dst,
        proto: TCP,
        ttl: 64,
        load: &load,
    };
    net_ip4::encode_into(alloc, &datagram, &mut bytes)?;
    Ok(bytes)
}

/// Appends the digits of a packet, and LF.
fn push_line(alloc: Global, packet: &[u8], text: &mut Vec<u8>) -> Result<(), NoMemory> {
    let digits = hex::encode(alloc, packet)?;
    text.extend_from_slice(digits.as_bytes())?;
    text.push(b'\n')?;
    Ok(())
}

/// The lines of all packets.
fn lines(alloc: Global) -> Result<Vec<u8>, Failure> {
    let mut text = Vec::new(alloc);
    for (from_near, segment) in handshake() {
        let (src, dst) = if from_near { (NEAR, FAR) } else { (FAR, NEAR) };
        let packet = packet(alloc, src, dst, &segment)?;
        push_line(alloc, &packet, &mut text)?;
    }
    Ok(text)
}

fn main(rt: HostRuntime) -> ExitCode {
    let Ok(text) = lines(rt.alloc()) else {
        return ExitCode::FAILURE;
    };
    match write_all(&mut StdSink::new(io::writer(&rt)), &text) {
        Ok(()) => ExitCode::SUCCESS,
        Err(_) => ExitCode::FAILURE,
    }
}
