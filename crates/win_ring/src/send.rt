ghost use Rattle.std.specs.Prelude.{◌≡◌, ◌+◌, ◌-◌, ◌^◌, ◌<◌, ◌≤◌, [], length, drop, min, IfOk};
ghost use Rattle.win_ring.specs.Windows.{IsSize, overlaid, room_of, with_acked, with_put};

use crate::key::WinKey;
use crate::ring::Ring;
use it_types::NoMemory;
use std::alloc::Global;
use std::marker::Model;

/// The send window of a connection: the bytes that are committed and not acknowledged, in a memory of a fixed size.
#[derive(Debug, Drop)]
pub struct SendWin {
    size: u32,
    key: WinKey,
    acked: u64,
    kept: u32,
    ring: Ring,
}

impl Model for SendWin {
    ghost use Rattle.std.specs.Prelude.{take};
    ghost use Rattle.win_ring.specs.Windows.{SendWindow};
    ghost use Rattle.win_ring.specs.Kept.{Holds};

    ghost Value = { SendWindow };

    ghost view = { λ w. record { size = w.size; key = w.key; acked = w.acked; bytes = take w.kept w.ring } };

    ghost invariant = { λ w. Holds w.size w.acked w.kept w.ring };
}

impl SendWin {
    /// An empty window of `size` bytes for the connection that the key names.
    pub fn open(alloc: Global, size: u32, key: WinKey) -> Result<SendWin, NoMemory>
        requires { IsSize size }
        ensures { IfOk result (λ w. w ≡ record { size = size; key = key; acked = 0; bytes = [] }) }
    {
        Ok(SendWin {
            size,
            key,
            acked: 0,
            kept: 0,
            ring: Ring::open(alloc, size as usize)?,
        })
    }

    /// The connection of the window.
    pub fn key(&self) -> WinKey
        ensures { result ≡ self.now.key }
    {
        self.key
    }

    /// How many bytes may be committed.
    pub fn room(&self) -> u32
        ensures room { result ≡ room_of self.now }
        ensures within { length self.now.bytes ≤ self.now.size }
        ensures size { self.now.size ≤ 65280 }
    {
        self.size - self.kept
    }

    /// How many bytes have been committed since the opening.
    pub fn place(&self) -> u64
        ensures { result ≡ self.now.acked + length self.now.bytes }
    {
        self.acked + u64::from(self.kept)
    }

    /// Commits the first bytes, as many as there is room for, and answers how many.
    pub fn put(&mut self, load: &[u8]) -> u32
        ensures window { self.new ≡ with_put self.old load.now }
        ensures count { result ≡ min (room_of self.old) (length load.now) }
    {
        let room = (self.size - self.kept) as usize;
        let count = load.len().min(room);
        self.ring.write(self.kept as usize, &load[..count]);
        self.kept += count as u32;
        count as u32
    }

    /// The first `n` bytes are acknowledged, and dropped.
    pub fn acked(&mut self, n: u32)
        requires kept { n ≤ length self.old.bytes }
        requires count { self.old.acked < 2 ^ 62 }
        ensures { self.new ≡ with_acked self.old n }
    {
        self.ring.turn(n as usize);
        self.kept -= n;
        self.acked += u64::from(n);
    }

    /// Copies the bytes that are kept, from the one that stands `from` bytes behind the first of them, to the front of `out`, as
    /// many as there are and as it has room for, and answers how many. What lies behind them in `out` stays.
    pub fn bytes(&self, from: u32, out: &mut [u8]) -> u32
        ensures copied { out.new ≡ overlaid (drop from self.now.bytes) out.old }
        ensures count { result ≡ min (length self.now.bytes - from) (length out.old) }
    {
        if from >= self.kept {
            return 0;
        }
        let count = out.len().min((self.kept - from) as usize);
        self.ring.read(from as usize, &mut out[..count]);
        count as u32
    }
}
