//! Fills the history of two nodes with ticks, and tells how many entries it has then and how one more step is answered.
#![tactic(auto)]

mod filling;

use filling::{bare_nodes, fill};
use it_types::{Event, NodeId};
use std::io;
use std::process::ExitCode;
use w_world::{WErr, World};

/// Why nothing was told.
#[derive(Clone, Copy, Debug, PartialEq, Eq)]
enum Failure {
    WriteFault,
    NoMemory,
}

impl Failure {
    fn exit_code(self) -> u8 {
        match self {
            Failure::WriteFault => 5,
            Failure::NoMemory => 7,
        }
    }

    fn text(self) -> &'static str {
        match self {
            Failure::WriteFault => "write fault",
            Failure::NoMemory => "out of memory",
        }
    }
}

fn answer_word(answer: Result<(), WErr>) -> &'static str {
    match answer {
        Ok(()) => "Ok",
        Err(WErr::Ended) => "Ended",
        Err(WErr::Stopped) => "Stopped",
        Err(WErr::Long) => "Long",
        Err(WErr::NoPacket) => "NoPacket",
        Err(WErr::NotAdmitted) => "NotAdmitted",
        Err(WErr::NoMemory) => "NoMemory",
    }
}

fn run(rt: &HostRuntime) -> Result<(), Failure> {
    let alloc = rt.alloc();
    let mut world = World::open(alloc, &bare_nodes(alloc)).map_err(|_| Failure::NoMemory)?;
    fill(alloc, &mut world).map_err(|_| Failure::NoMemory)?;
    let answer = world.step(alloc, Event::Tick(NodeId(0)));
    println!(rt;
        "{} entries, then {}",
        world.log().len(),
        answer_word(answer)
    )
    .map_err(|_| Failure::WriteFault)
}

fn main(rt: HostRuntime) -> ExitCode {
    match run(&rt) {
        Ok(()) => ExitCode::SUCCESS,
        Err(failure) => {
            let _ = eprintln!(rt; "{}", failure.text());
            ExitCode::from(failure.exit_code())
        }
    }
}
