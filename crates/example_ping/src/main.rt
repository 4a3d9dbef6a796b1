//! Two nodes exchange a datagram: how a program uses the stack as a library. It opens a world of two nodes, steps it by
//! events of its own choice, and prints the history.
#![tactic(auto)]

mod events;
mod nodes;

use events::exchange;
use it_io::{StdSink, write_all};
use it_types::NoMemory;
use nodes::two_nodes;
use std::alloc::Global;
use std::io;
use std::process::ExitCode;
use w_world::{WErr, World};

/// Why the history is not whole.
#[derive(Clone, Copy, Debug, PartialEq, Eq)]
enum Failure {
    /// A step was refused.
    Refused(WErr),
    WriteFault,
    NoMemory,
}

impl From<NoMemory> for Failure {
    fn from(_: NoMemory) -> Failure {
        Failure::NoMemory
    }
}

/// The world after the exchange.
fn played(alloc: Global) -> Result<World, Failure> {
    let mut world = World::open(alloc, &two_nodes(alloc)?)?;
    for event in exchange(alloc)? {
        world.step(alloc, event).map_err(Failure::Refused)?;
    }
    Ok(world)
}

fn run(rt: &HostRuntime) -> Result<(), Failure> {
    let alloc = rt.alloc();
    let world = played(alloc)?;
    let mut text = Vec::new(alloc);
    w_trace::print_into(alloc, world.log(), &mut text)?;
    match write_all(&mut StdSink::new(io::writer(rt)), &text) {
        Ok(()) => Ok(()),
        Err(_) => Err(Failure::WriteFault),
    }
}

fn main(rt: HostRuntime) -> ExitCode {
    match run(&rt) {
        Ok(()) => ExitCode::SUCCESS,
        Err(_) => ExitCode::FAILURE,
    }
}
