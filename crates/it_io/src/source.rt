ghost use Rattle.std.specs.Prelude.{◌≡◌, ℕ, ◌≤◌, List, Option, length, IfOk, OnOk, OnErr};
ghost use Rattle.std.specs.Io.{ReadsAtMost};
ghost use Rattle.std.specs.Io.KnownBytes.{ReadConsumes};
ghost use Rattle.it_io.specs.Faults.{Rose, ends_after};

use super::errors::Failed;

/// Where bytes come from.
pub trait Source {
    // The bytes that are left to read, or `None` where the source doesn't tell.
    ghost left: { Self → Option (List ℕ) };

    // How many reads failed so far. It never falls, and stands still at 2^64 - 1.
    ghost faults: { Self → ℕ };

    // How often a read told the end. It stands still at 2^64 - 1.
    ghost ends: { Self → ℕ };

    /// Reads the next bytes into the front of `buf`, and says how many. For a buffer that isn't
    /// empty, 0 is the end of the input.
    fn read(&mut self, buf: &mut [u8]) -> Result<usize, Failed>
        ensures bound { ReadsAtMost result buf.new }
        ensures bytes { ReadConsumes (left self.old) (left self.new) result buf.new }
        ensures fault { OnErr result (Rose (faults self.old) (faults self.new)) }
        ensures no_fault { OnOk result (faults self.new ≡ faults self.old) }
        ensures later { faults self.old ≤ faults self.new }
        ensures ends { IfOk result (λ n.
            ends self.new ≡ ends_after (ends self.old) n (length buf.old)) }
        ensures no_end { OnErr result (ends self.new ≡ ends self.old) };
}

// The count of ends after a read that gave so many bytes to a buffer with so many places.
pub(crate) fn ends_after(ends: u64, count: usize, places: usize) -> u64
    ensures { result ≡ ends_after ends count places }
{
    if count == 0 && places > 0 {
        ends.saturating_add(1)
    } else {
        ends
    }
}
