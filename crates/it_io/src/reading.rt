ghost use Rattle.std.specs.Prelude.{◌≡◌, ◌≢◌, ℕ, ◌≤◌, ◌+◌, ◌-◌, length, Err, OnOk, OnErr, IfOk, IsErrOf};
ghost use Rattle.std.specs.Io.{StartsWith, appended_bytes};
ghost use Rattle.std.specs.Io.KnownBytes.{Consumes, IsAtEnd};
ghost use Rattle.it_io.specs.Faults.{Rose, next_count};
ghost use Rattle.it_io.specs.Input.{ReadToEnd, TookAtMost, TookExactly, TookPast};

use super::errors::Failed;
use super::source::Source;
use std::alloc::Global;

/// Why `read_all` gave no bytes.
#[derive(Debug, Clone, Copy, PartialEq, Eq)]
pub enum ReadErr {
    /// The source failed.
    Fault,
    /// The limit was read, and one byte more came.
    TooBig,
    /// The memory for the bytes was refused.
    NoMemory,
}

// How many bytes one read asks for at most.
const PIECE: usize = 4096;

/// Reads the source to its end. After an error the bytes that were read are lost.
#[tactic(auto, using(crate::proofs::Taken::took_more, crate::proofs::Taken::took_some))]
pub fn read_all<S: Source>(alloc: Global, src: &mut S, limit: usize) -> Result<Vec<u8>, ReadErr>
    ensures ok { IfOk result (λ v.
        ReadToEnd (S.left src.old) (S.left src.new) v.items × (length v.items ≤ limit)) }
    ensures fault { IsErrOf result ReadErr.Fault → Rose (S.faults src.old) (S.faults src.new) }
    ensures no_fault { result ≢ Err ReadErr.Fault → S.faults src.new ≡ S.faults src.old }
    ensures too_big { IsErrOf result ReadErr.TooBig →
        TookPast (S.left src.old) (S.left src.new) limit }
    ensures no_memory { IsErrOf result ReadErr.NoMemory →
        TookAtMost (S.left src.old) (S.left src.new) limit }
    ensures fault_within { IsErrOf result ReadErr.Fault →
        TookAtMost (S.left src.old) (S.left src.new) limit }
    ensures later { S.faults src.old ≤ S.faults src.new }

    // The end is asked for once.
    ensures ended { OnOk result (S.ends src.new ≡ next_count (S.ends src.old)) }
    ensures not_ended { OnErr result (S.ends src.new ≡ S.ends src.old) }

    // Whatever the answer.
    ensures most { TookAtMost (S.left src.old) (S.left src.new) (limit + 1) }
{
    let mut all = Vec::new(alloc);
    loop {
        if read_piece(src, &mut all, limit)? == 0 {
            return Ok(all);
        }
    }
}

// Reads one piece, which goes behind the bytes so far, and says how many bytes it has.
fn read_piece<S: Source>(src: &mut S, all: &mut Vec<u8>, limit: usize) -> Result<usize, ReadErr>
    requires { length all.old.items ≤ limit }
    ensures len { IfOk result (λ n. length all.new.items ≡ length all.old.items + n) }
    ensures within { OnOk result (length all.new.items ≤ limit) }
    ensures front { OnOk result (StartsWith all.new.items all.old.items) }
    ensures taken { OnOk result (Consumes (S.left src.old) (S.left src.new)
        (appended_bytes all.old.items all.new.items)) }
    ensures end { IfOk result (λ n. n ≡ 0 → IsAtEnd (S.left src.new)) }
    ensures ended { IfOk result (λ n. n ≡ 0 → S.ends src.new ≡ next_count (S.ends src.old)) }
    ensures not_ended { result ≢ Ok 0 → S.ends src.new ≡ S.ends src.old }
    ensures fault { IsErrOf result ReadErr.Fault → Rose (S.faults src.old) (S.faults src.new) }
    ensures no_fault { result ≢ Err ReadErr.Fault → S.faults src.new ≡ S.faults src.old }
    ensures too_big { IsErrOf result ReadErr.TooBig →
        TookExactly (S.left src.old) (S.left src.new) (limit + 1 - length all.old.items) }
    ensures no_memory { IsErrOf result ReadErr.NoMemory →
        TookAtMost (S.left src.old) (S.left src.new) (limit - length all.old.items) }
    ensures fault_within { IsErrOf result ReadErr.Fault →
        TookAtMost (S.left src.old) (S.left src.new) (limit - length all.old.items) }
    ensures later { S.faults src.old ≤ S.faults src.new }
    ensures most { OnErr result
        (TookAtMost (S.left src.old) (S.left src.new) (limit + 1 - length all.old.items)) }
{
    let room = limit - all.len();
    let want = 1 + room.min(PIECE - 1);
    let mut buf = [0u8; PIECE];
    match src.read(&mut buf[..want]) {
        Err(Failed) => Err(ReadErr::Fault),
        Ok(n) if n > room => Err(ReadErr::TooBig),
        Ok(n) => match all.extend_from_slice(&buf[..n]) {
            Ok(()) => Ok(n),
            Err(_) => Err(ReadErr::NoMemory),
        },
    }
}
