ghost use Rattle.std.specs.Prelude.{◌≡◌, ◌+◌, ◌^◌, ◌<◌, ◌≤◌, [], length, min, replicate, take, IfOk};
ghost use Rattle.win_ring.specs.Windows.{IsSize, grown, overlaid, with_arrived, taken_from};

use crate::key::WinKey;
use crate::ring::Ring;
use it_types::NoMemory;
use std::alloc::Global;
use std::marker::Model;

/// The receive window of a connection: the bytes that have come in order and are not taken, and ahead of them the bytes that
/// stand at the places that are left, in a memory of a fixed size.
#[derive(Debug, Drop)]
pub struct RecvWin {
    size: u32,
    key: WinKey,
    taken: u64,
    kept: u32,
    ring: Ring,
}

impl Model for RecvWin {
    ghost use Rattle.std.specs.Prelude.{drop, take};
    ghost use Rattle.win_ring.specs.Windows.{RecvWindow};
    ghost use Rattle.win_ring.specs.Kept.{Holds};

    ghost Value = { RecvWindow };

    ghost view = { λ w. record {
      size = w.size;
      key = w.key;
      taken = w.taken;
      unread = take w.kept w.ring;
      ahead = drop w.kept w.ring;
    } };

    ghost invariant = { λ w. Holds w.size w.taken w.kept w.ring };
}

impl RecvWin {
    /// An empty window of `size` bytes for the connection that the key names, at each of whose places stands 0.
    pub fn open(alloc: Global, size: u32, key: WinKey) -> Result<RecvWin, NoMemory>
        requires { IsSize size }
        ensures { IfOk result (λ w. w ≡ record {
          size = size;
          key = key;
          taken = 0;
          unread = [];
          ahead = replicate size 0;
        }) }
    {
        Ok(RecvWin {
            size,
            key,
            taken: 0,
            kept: 0,
            ring: Ring::open(alloc, size as usize)?,
        })
    }

    /// The connection of the window.
    pub fn key(&self) -> WinKey
        ensures { result ≡ self.now.key }
    {
        self.key
    }

    /// How many bytes are in order and not taken.
    pub fn have(&self) -> u32
        ensures have { result ≡ length self.now.unread }
        ensures places { length self.now.unread + length self.now.ahead ≡ self.now.size }
        ensures size { self.now.size ≤ 65280 }
    {
        self.kept
    }

    /// Bytes come whose first one stands `offset` places behind the end of the bytes in order. Each is put at its place; those
    /// past the window are left out.
    pub fn arrive(&mut self, offset: u32, load: &[u8])
        ensures { self.new ≡ with_arrived self.old offset load.now }
    {
        let ahead = self.size - self.kept;
        if offset < ahead {
            let count = load.len().min((ahead - offset) as usize);
            self.ring
                .write((self.kept + offset) as usize, &load[..count]);
        }
    }

    /// The next `n` bytes ahead become bytes in order.
    pub fn grow(&mut self, n: u32)
        requires { n ≤ length self.old.ahead }
        ensures { self.new ≡ grown self.old n }
    {
        self.kept += n;
    }

    /// Takes the first bytes in order, as many as there are and as `out` has room for, copies them to its front, and answers
    /// how many. What lies behind them in `out` stays. Their places are free again, the last of the window.
    pub fn take(&mut self, out: &mut [u8]) -> u32
        requires { self.old.taken < 2 ^ 62 }
        ensures window { self.new ≡ taken_from self.old result }
        ensures copied { out.new ≡ overlaid self.old.unread out.old }
        ensures count { result ≡ min (length self.old.unread) (length out.old) }
        ensures front { take (length self.old.ahead) self.new.ahead ≡ self.old.ahead }
    {
        let count = out.len().min(self.kept as usize);
        self.ring.read(0, &mut out[..count]);
        self.ring.turn(count);
        self.kept -= count as u32;
        self.taken += count as u64;
        count as u32
    }
}
