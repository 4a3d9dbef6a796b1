ghost use Rattle.std.specs.Prelude.{◌≡◌};

use super::errors::Failed;
use super::sink::Sink;
use super::uninterrupted::write_uninterrupted;
use std::io::Write;

/// A sink over a writer of std, as over standard output. It tells the bytes that the writer tells.
/// It flushes nothing, so the writer should be one that keeps nothing back: only then does a write
/// that is refused in the end fail here, at its own call.
#[derive(Drop)]
pub struct StdSink<W> {
    inner: W,
    faults: u64,
}

impl<W: Write> StdSink<W> {
    pub fn new(inner: W) -> Self
        ensures written { ⟦<StdSink<W> as Sink>⟧.written result ≡ W.contents inner }
        ensures faults { ⟦<StdSink<W> as Sink>⟧.faults result ≡ 0 }
    {
        StdSink { inner, faults: 0 }
    }
}

impl<W: Write> Sink for StdSink<W> {
    ghost written = { λ s. W.contents s.inner };

    ghost faults = { λ s. s.faults };

    fn write(&mut self, bytes: &[u8]) -> Result<usize, Failed> {
        let result = write_uninterrupted(&mut self.inner, bytes);
        if result.is_err() {
            self.faults = self.faults.saturating_add(1);
        }
        result
    }
}
