ghost use Rattle.std.specs.Prelude.{◌≡◌, ◌↔◌, ◌≤◌, ◌<◌, ◌+◌, ◌-◌, ◌++◌, ◌⊎◌, [], min, max, take, length, Some, IsErr, IfOk, OnOk, OnErr, Contains};
ghost use Rattle.std.specs.Io.{WritesAtMost};
ghost use Rattle.std.specs.Io.KnownBytes.{WriteAppends};
ghost use Rattle.it_io.specs.Faults.{Rose, next_count};

use super::copying::copy_piece;
use super::errors::Failed;
use super::fault_plan::FaultPlan;
use super::sink::Sink;
use it_types::NoMemory;
use std::alloc::Global;
use std::marker::Model;

/// A sink into memory of a fixed size, which can be made to take short pieces and to fail.
#[derive(Drop)]
pub struct MemSink {
    room: Vec<u8>,
    len: usize,
    piece: usize,
    plan: FaultPlan,
}

impl Model for MemSink {
    ghost use Rattle.std.specs.Prelude.{◌≤◌, ◌-◌, take, length};
    ghost use Rattle.it_io.specs.Memory.{Store};

    ghost Value = { Store };

    ghost view = { λ s. record {
      written = take s.len s.room.items;
      room = length s.room.items - s.len;
      piece = s.piece;
      fail = s.plan.fail.items;
      calls = s.plan.calls;
      faults = s.plan.faults;
    } };

    ghost invariant = { λ s. (s.len ≤ length s.room.items) × (1 ≤ s.piece) };
}

impl MemSink {
    /// A sink with room for this many bytes, whose memory is taken here, so that no write takes any.
    /// A write takes at most `piece` bytes, where 0 counts as 1, and at most the room that is left.
    /// It fails exactly where its number, counted from 1, stands in `fail`, or where its piece isn't
    /// empty and no room is left. The counts of writes and of faults stand still at `u64::MAX`.
    pub fn new(
        alloc: Global,
        room: usize,
        piece: usize,
        fail: Vec<u64>,
    ) -> Result<MemSink, NoMemory>
        ensures { IfOk result (λ sink. sink ≡ record {
          written = [];
          room = room;
          piece = max piece 1;
          fail = fail.items;
          calls = 0;
          faults = 0;
        }) }
    {
        match vec![in alloc; 0u8; room] {
            Ok(room) => Ok(MemSink {
                room,
                len: 0,
                piece: piece.max(1),
                plan: FaultPlan::new(fail),
            }),
            Err(_) => Err(NoMemory),
        }
    }

    /// The bytes that were written.
    pub fn written(&self) -> &[u8]
        ensures { result.now ≡ self.now.written }
    {
        &self.room[..self.len]
    }
}

impl Sink for MemSink {
    ghost written = { λ s. Some s.written };

    ghost faults = { λ s. s.faults };

    fn write(&mut self, bytes: &[u8]) -> Result<usize, Failed>
        ensures bound { WritesAtMost result bytes.now }
        ensures some { IfOk result (λ n. 0 < length bytes.now → 0 < n) }
        ensures bytes { WriteAppends (Some self.old.written) (Some self.new.written) result bytes.now }
        ensures fault { OnErr result (Rose self.old.faults self.new.faults) }
        ensures no_fault { OnOk result (self.new.faults ≡ self.old.faults) }
        ensures later { self.old.faults ≤ self.new.faults }

        // When it fails, how much it takes, and all that it changes.
        ensures fails { IsErr result ↔ (Contains self.old.fail (next_count self.old.calls)
            ⊎ ((0 < length bytes.now) × (self.old.room ≡ 0))) }
        ensures count { IfOk result (λ n.
            n ≡ min (length bytes.now) (min self.old.piece self.old.room)) }
        ensures ok { IfOk result (λ n. self.new ≡ record self.old {
          written = self.old.written ++ take n bytes.now;
          room = self.old.room - n;
          calls = next_count self.old.calls;
        }) }
        ensures err { OnErr result (self.new ≡ record self.old {
          calls = next_count self.old.calls;
          faults = next_count self.old.faults;
        }) }
    {
        self.plan.begin()?;
        if !bytes.is_empty() && self.len == self.room.len() {
            return Err(self.plan.fault());
        }
        let n = copy_piece(bytes, self.piece, &mut self.room[self.len..]);
        self.len += n;
        Ok(n)
    }
}
