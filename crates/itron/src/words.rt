ghost use Rattle.std.specs.Prelude.{◌≡◌, ◌≢◌, ◌↔◌, IsTrue, map, string_bytes};
ghost use Rattle.std.specs.IoError.{error_kind};
ghost use Rattle.itron.specs.Top.{sim_words};

use crate::status::Status;
use std::io::ErrorKind;
use std::{env, io};

/// The words after the program's name. Words that can't be had as text are a faulty command line.
pub fn command_words(rt: &HostRuntime) -> Result<Vec<String>, Status> {
    let mut words = Vec::new(rt.alloc());
    for word in env::args(rt).map_err(status_of_error)?.skip(1) {
        words.push(word).map_err(|_| Status::NoMemory)?;
    }
    Ok(words)
}

fn status_of_error(error: io::Error) -> Status
    ensures memory { error_kind error ≡ ErrorKind.OutOfMemory → result ≡ Status.NoMemory }
    ensures other { error_kind error ≢ ErrorKind.OutOfMemory → result ≡ Status.Usage }
{
    match error.kind() {
        ErrorKind::OutOfMemory => Status::NoMemory,
        _ => Status::Usage,
    }
}

/// Whether the words of the command line are the one word `sim`.
pub fn is_sim(words: &[String]) -> bool
    ensures { IsTrue result ↔ (map string_bytes words.now ≡ sim_words) }
{
    match words {
        [word] => word.as_str() == "sim",
        _ => false,
    }
}
