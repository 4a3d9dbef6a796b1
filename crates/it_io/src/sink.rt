ghost use Rattle.std.specs.Prelude.{◌≡◌, ℕ, ◌<◌, ◌≤◌, List, Option, length, IfOk, OnErr, OnOk};
ghost use Rattle.std.specs.Io.{WritesAtMost};
ghost use Rattle.std.specs.Io.KnownBytes.{WriteAppends};
ghost use Rattle.it_io.specs.Faults.{Rose};

use super::errors::Failed;

/// Where bytes go to.
pub trait Sink {
    // The bytes that were written so far, or `None` where the sink doesn't tell.
    ghost written: { Self → Option (List ℕ) };

    // How many writes failed so far. It never falls, and stands still at 2^64 - 1.
    ghost faults: { Self → ℕ };

    /// Takes the first of the bytes, at least one where there is one, and says how many.
    fn write(&mut self, bytes: &[u8]) -> Result<usize, Failed>
        ensures bound { WritesAtMost result bytes.now }
        ensures some { IfOk result (λ n. 0 < length bytes.now → 0 < n) }
        ensures bytes { WriteAppends (written self.old) (written self.new) result bytes.now }
        ensures fault { OnErr result (Rose (faults self.old) (faults self.new)) }
        ensures no_fault { OnOk result (faults self.new ≡ faults self.old) }
        ensures later { faults self.old ≤ faults self.new };
}
