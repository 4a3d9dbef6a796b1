ghost use Rattle.std.specs.Prelude.{◌≡◌, ◌++◌, OnOk};
ghost use Rattle.std.specs.Fmt.{signed_decimal};
ghost use Rattle.spec_trace.specs.Trace.{bytes_text, direction_text, protocol_text};

use it_types::words::{put_hex, put_number, put_word};
use it_types::{Dir, Er, NoMemory};

pub fn direction_word(direction: Dir) -> &'static [u8]
    ensures { result.now ≡ direction_text direction }
{
    match direction {
        Dir::Send => b"snd",
        Dir::Recv => b"rcv",
    }
}

pub fn protocol_word(udp: bool) -> &'static [u8]
    ensures { result.now ≡ protocol_text udp }
{
    if udp { b"udp" } else { b"tcp" }
}

/// Appends the word and the code.
pub fn put_code(out: &mut Vec<u8>, word: &[u8], code: Er) -> Result<(), NoMemory>
    ensures { OnOk result (out.new.items ≡ out.old.items ++ (word.now ++ signed_decimal code.0)) }
{
    put_word(out, word)?;
    put_number(out, code.0)
}

/// Appends the bytes, where there are any.
pub fn put_bytes(out: &mut Vec<u8>, bytes: &[u8]) -> Result<(), NoMemory>
    ensures { OnOk result (out.new.items ≡ out.old.items ++ bytes_text bytes.now) }
{
    if bytes.is_empty() {
        return Ok(());
    }
    put_word(out, b" x")?;
    put_hex(out, bytes)
}

/// Appends the word, the code and the bytes.
pub fn put_result(out: &mut Vec<u8>, word: &[u8], code: Er, bytes: &[u8]) -> Result<(), NoMemory>
    ensures { OnOk result (out.new.items ≡ out.old.items ++ (word.now ++ (signed_decimal code.0 ++ bytes_text bytes.now))) }
{
    put_code(out, word, code)?;
    put_bytes(out, bytes)
}
