//! Encodes IPv4 datagrams of 1,500 bytes and decodes them again, as many as its argument says, and tells how many
//! datagrams and bytes there were.
#![tactic(auto)]

mod count;
mod round_trips;

use count::count_of;
use round_trips::round_trips;
use std::io::ErrorKind;
use std::process::ExitCode;
use std::{env, io};

const FEW: u32 = 10;

/// Why nothing was told.
#[derive(Clone, Copy, Debug, PartialEq, Eq)]
enum Failure {
    Usage,
    WriteFault,
    NoMemory,
}

impl Failure {
    fn exit_code(self) -> u8 {
        match self {
            Failure::Usage => 2,
            Failure::WriteFault => 5,
            Failure::NoMemory => 7,
        }
    }

    fn text(self) -> &'static str {
        match self {
            Failure::Usage => "usage: bench_ip4 [DATAGRAMS]",
            Failure::WriteFault => "write fault",
            Failure::NoMemory => "out of memory",
        }
    }
}

fn failure_of_words(error: io::Error) -> Failure {
    match error.kind() {
        ErrorKind::OutOfMemory => Failure::NoMemory,
        _ => Failure::Usage,
    }
}

/// The number of datagrams that the command line asks for: a few without a word.
fn asked_for(rt: &HostRuntime) -> Result<u32, Failure> {
    let mut words = env::args(rt).map_err(failure_of_words)?.skip(1);
    let Some(word) = words.next() else {
        return Ok(FEW);
    };
    match words.next() {
        Some(_) => Err(Failure::Usage),
        None => count_of(word.as_str()).ok_or(Failure::Usage),
    }
}

fn run(rt: &HostRuntime) -> Result<(), Failure> {
    let count = asked_for(rt)?;
    let totals = round_trips(rt.alloc(), count).map_err(|_| Failure::NoMemory)?;
    println!(rt;
        "decoded {} datagrams, {} bytes",
        totals.datagrams, totals.bytes
    )
    .map_err(|_| Failure::WriteFault)
}

fn main(rt: HostRuntime) -> ExitCode {
    match run(&rt) {
        Ok(()) => ExitCode::SUCCESS,
        Err(failure) => {
            let _ = eprintln!(rt; "{}", failure.text());
            ExitCode::from(failure.exit_code())
        }
    }
}
