//! Sends packets that are all under way at once, takes them all, and tells how many there were.
#![tactic(auto)]

mod traffic;

use std::io;
use std::process::ExitCode;
use traffic::{send_all, take_all};
use w_link::Link;

const PACKETS: u32 = 100_000;

/// Each packet comes once, within so many ticks.
const DELAY: u32 = 1_000;

/// Why nothing was told.
#[derive(Clone, Copy, Debug, PartialEq, Eq)]
enum Failure {
    WriteFault,
    NoMemory,
}

impl Failure {
    fn exit_code(self) -> u8 {
        match self {
            Failure::WriteFault => 5,
            Failure::NoMemory => 7,
        }
    }

    fn text(self) -> &'static str {
        match self {
            Failure::WriteFault => "write fault",
            Failure::NoMemory => "out of memory",
        }
    }
}

fn run(rt: &HostRuntime) -> Result<(), Failure> {
    let mut link = Link::open(rt.alloc(), 1, 0, 0, DELAY);
    send_all(&mut link, PACKETS).map_err(|_| Failure::NoMemory)?;
    let taken = take_all(&mut link, PACKETS, u64::from(DELAY));
    let left = if link.idle() {
        "none left"
    } else {
        "some left"
    };
    println!(rt; "sent {} packets, took {}, {}", PACKETS, taken, left).map_err(
        |_| Failure::WriteFault,
    )
}

fn main(rt: HostRuntime) -> ExitCode {
    match run(&rt) {
        Ok(()) => ExitCode::SUCCESS,
        Err(failure) => {
            let _ = eprintln!(rt; "{}", failure.text());
            ExitCode::from(failure.exit_code())
        }
    }
}
