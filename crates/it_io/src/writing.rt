ghost use Rattle.std.specs.Prelude.{◌≡◌, ℕ, ◌<◌, ◌≤◌, Err, length, take, OnOk, OnErr};
ghost use Rattle.std.specs.Io.KnownBytes.{Appends};
ghost use Rattle.it_io.specs.Faults.{Rose};

use super::errors::Failed;
use super::sink::Sink;

/// Why `write_all` stopped.
#[derive(Debug, Clone, Copy, PartialEq, Eq)]
pub enum WriteErr {
    /// The sink failed when this many bytes, counted from the first, were written.
    Fault(usize),
}

/// Writes all of the bytes, in as many pieces as the sink takes them.
#[tactic(auto, using(crate::proofs::Put::put_more))]
pub fn write_all<K: Sink>(sink: &mut K, bytes: &[u8]) -> Result<(), WriteErr>
    ensures ok { OnOk result (Appends (K.written sink.old) (K.written sink.new) bytes.now) }
    ensures fault { OnErr result (Rose (K.faults sink.old) (K.faults sink.new)) }
    ensures no_fault { OnOk result (K.faults sink.new ≡ K.faults sink.old) }
    ensures first { (n : ℕ) → result ≡ Err (WriteErr.Fault n) →
        Appends (K.written sink.old) (K.written sink.new) (take n bytes.now) }
    ensures part { (n : ℕ) → result ≡ Err (WriteErr.Fault n) → n < length bytes.now }
    ensures later { K.faults sink.old ≤ K.faults sink.new }
{
    let mut done = 0;
    while done < bytes.len() {
        match sink.write(&bytes[done..]) {
            Ok(n) => done += n,
            Err(Failed) => return Err(WriteErr::Fault(done)),
        }
    }
    Ok(())
}
