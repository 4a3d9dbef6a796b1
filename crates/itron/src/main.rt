//! Runs scripts of tasks for two nodes and writes the whole history.
#![tactic(auto)]

mod output;
mod status;
mod top;
mod words;

use it_io::{StdSink, StdSource};
use status::Status;
use std::io;
use std::process::ExitCode;
use top::top;
use words::command_words;

/// Tells on standard error how the run ended, where it did not end well.
fn tell(rt: &HostRuntime, status: Status) -> io::Result<()> {
    match status {
        Status::Ok => Ok(()),
        Status::Script(line, why) => eprintln!(rt; "line {}: {}", line, status::cause_word(why)),
        _ => eprintln!(rt; "{}", status.message()),
    }
}

fn main(rt: HostRuntime) -> ExitCode {
    let status = match command_words(&rt) {
        Ok(words) => top(
            rt.alloc(),
            &words,
            &mut StdSource::new(rt.reader()),
            &mut StdSink::new(io::writer(&rt)),
        ),
        Err(status) => status,
    };
    let _ = tell(&rt, status);
    ExitCode::from(status.exit_code())
}
