ghost use Rattle.std.specs.Prelude.{◌≡◌, ◌↔◌, ◌≤◌, min, max, drop, length, Some, IsErr, IfOk, OnOk, OnErr, Contains};
ghost use Rattle.std.specs.Io.{ReadsAtMost};
ghost use Rattle.std.specs.Io.KnownBytes.{ReadConsumes};
ghost use Rattle.it_io.specs.Faults.{Rose, ends_after, next_count};

use super::copying::copy_piece;
use super::errors::Failed;
use super::fault_plan::FaultPlan;
use super::source::{Source, ends_after};
use std::marker::Model;

/// A source over bytes in memory, which can be made to give short pieces and to fail.
#[derive(Drop)]
pub struct MemSource {
    bytes: Vec<u8>,
    at: usize,
    piece: usize,
    plan: FaultPlan,
    ends: u64,
}

impl Model for MemSource {
    ghost use Rattle.std.specs.Prelude.{◌≤◌, drop, length};
    ghost use Rattle.it_io.specs.Memory.{Supply};

    ghost Value = { Supply };

    ghost view = { λ s. record {
      left = drop s.at s.bytes.items;
      piece = s.piece;
      fail = s.plan.fail.items;
      calls = s.plan.calls;
      faults = s.plan.faults;
      ends = s.ends;
    } };

    ghost invariant = { λ s. (s.at ≤ length s.bytes.items) × (1 ≤ s.piece) };
}

impl MemSource {
    /// A source of these bytes. A read gives at most `piece` of them, where 0 counts as 1, and fails
    /// exactly where its number, counted from 1, stands in `fail`. The counts of reads, of faults
    /// and of ends stand still at `u64::MAX`.
    pub fn new(bytes: Vec<u8>, piece: usize, fail: Vec<u64>) -> MemSource
        ensures { result ≡ record {
          left = bytes.items;
          piece = max piece 1;
          fail = fail.items;
          calls = 0;
          faults = 0;
          ends = 0;
        } }
    {
        MemSource {
            bytes,
            at: 0,
            piece: piece.max(1),
            plan: FaultPlan::new(fail),
            ends: 0,
        }
    }

    /// The bytes that are left.
    pub fn left(&self) -> &[u8]
        ensures { result.now ≡ self.now.left }
    {
        &self.bytes[self.at..]
    }
}

impl Source for MemSource {
    ghost left = { λ s. Some s.left };

    ghost faults = { λ s. s.faults };

    ghost ends = { λ s. s.ends };

    fn read(&mut self, buf: &mut [u8]) -> Result<usize, Failed>
        ensures bound { ReadsAtMost result buf.new }
        ensures bytes { ReadConsumes (Some self.old.left) (Some self.new.left) result buf.new }
        ensures fault { OnErr result (Rose self.old.faults self.new.faults) }
        ensures no_fault { OnOk result (self.new.faults ≡ self.old.faults) }
        ensures later { self.old.faults ≤ self.new.faults }
        ensures ends { IfOk result (λ n.
            self.new.ends ≡ ends_after self.old.ends n (length buf.old)) }
        ensures no_end { OnErr result (self.new.ends ≡ self.old.ends) }

        // When it fails, how much it gives, and all that it changes.
        ensures fails { IsErr result ↔ Contains self.old.fail (next_count self.old.calls) }
        ensures count { IfOk result (λ n.
            n ≡ min (length self.old.left) (min self.old.piece (length buf.old))) }
        ensures ok { IfOk result (λ n. self.new ≡ record self.old {
          left = drop n self.old.left;
          calls = next_count self.old.calls;
          ends = ends_after self.old.ends n (length buf.old);
        }) }
        ensures err { OnErr result (self.new ≡ record self.old {
          calls = next_count self.old.calls;
          faults = next_count self.old.faults;
        }) }
    {
        self.plan.begin()?;
        let n = copy_piece(&self.bytes[self.at..], self.piece, buf);
        self.at += n;
        self.ends = ends_after(self.ends, n, buf.len());
        Ok(n)
    }
}
