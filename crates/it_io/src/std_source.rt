ghost use Rattle.std.specs.Prelude.{◌≡◌};

use super::errors::Failed;
use super::source::{Source, ends_after};
use super::uninterrupted::read_uninterrupted;
use std::io::Read;

/// A source over a reader of std, as over standard input. It tells the bytes that the reader tells.
#[derive(Drop)]
pub struct StdSource<R> {
    inner: R,
    faults: u64,
    ends: u64,
}

impl<R: Read> StdSource<R> {
    pub fn new(inner: R) -> Self
        ensures left { ⟦<StdSource<R> as Source>⟧.left result ≡ R.remaining inner }
        ensures faults { ⟦<StdSource<R> as Source>⟧.faults result ≡ 0 }
        ensures ends { ⟦<StdSource<R> as Source>⟧.ends result ≡ 0 }
    {
        StdSource {
            inner,
            faults: 0,
            ends: 0,
        }
    }
}

impl<R: Read> Source for StdSource<R> {
    ghost left = { λ s. R.remaining s.inner };

    ghost faults = { λ s. s.faults };

    ghost ends = { λ s. s.ends };

    fn read(&mut self, buf: &mut [u8]) -> Result<usize, Failed> {
        let result = read_uninterrupted(&mut self.inner, buf);
        match result {
            Ok(n) => self.ends = ends_after(self.ends, n, buf.len()),
            Err(Failed) => self.faults = self.faults.saturating_add(1),
        }
        result
    }
}
