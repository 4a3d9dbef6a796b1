ghost use Rattle.std.specs.Prelude.{◌≡◌, ◌≤◌, ◌<◌, ◌++◌, [], ◌∷◌, None, IfOk, length, slice_get, nat_lt};
ghost use Rattle.spec_udp.specs.PlainUdps.{queue_limit};
ghost use Rattle.spec_udp.specs.Points.{new_point, rest_of};

use circular_buffer::HeapCircularBuffer;
use it_types::{NoMemory, ObjId};
use spec_udp::Received;
use std::alloc::Global;
use std::marker::Model;

// How many datagrams wait at an end point, at most.
const QUEUE_LIMIT: usize = 8;

/// A UDP communication end point: its local port, its callback routine, 0 for none, a ring of the datagrams that have come
/// and are not taken yet, and how many bytes the receive wants that waits, or waited last. A send never waits.
#[derive(Debug, Drop)]
pub struct Point {
    port: u16,
    routine: ObjId,
    queue: HeapCircularBuffer<Received>,
    wanted: u32,
}

impl Model for Point {
    ghost use Rattle.std.specs.Prelude.{None};
    ghost use Rattle.spec_udp.specs.declared.point.UdpPoint.{UdpPoint};
    ghost use Rattle.e_udp.specs.Kept.{PointKept};

    ghost Value = { UdpPoint };

    ghost view = { λ p. record { port = p.port; routine = p.routine; queue = p.queue.items; wanted = p.wanted; sending = None } };

    ghost invariant = { λ p. PointKept p.queue.capacity p.wanted };
}

impl Point {
    /// An end point at which no datagram has come.
    pub(crate) fn open(alloc: Global, port: u16, routine: ObjId) -> Result<Point, NoMemory>
        ensures { IfOk result (λ p. p ≡ new_point port routine) }
    {
        let queue = HeapCircularBuffer::with_capacity(alloc, QUEUE_LIMIT)?;
        Ok(Point {
            port,
            routine,
            queue,
            wanted: 0,
        })
    }

    pub(crate) fn port(&self) -> u16
        ensures { result ≡ self.now.port }
    {
        self.port
    }

    pub(crate) fn routine(&self) -> ObjId
        ensures routine { result ≡ self.now.routine }
        ensures idle { self.now.sending ≡ None }
    {
        self.routine
    }

    pub(crate) fn wanted(&self) -> u32
        ensures wanted { result ≡ self.now.wanted }
        ensures within { result ≤ 65280 }
    {
        self.wanted
    }

    /// A receive wants so many bytes.
    pub(crate) fn want(&mut self, len: u32)
        requires { len ≤ 65280 }
        ensures { self.new ≡ record self.old { wanted = len } }
    {
        self.wanted = len;
    }

    /// Takes the oldest datagram.
    pub(crate) fn take(&mut self) -> Option<Received>
        ensures oldest { result ≡ slice_get self.old.queue 0 }
        ensures point { self.new ≡ record self.old { queue = rest_of self.old.queue } }
    {
        self.queue.pop_front()
    }

    /// A datagram more has a place.
    pub(crate) fn has_place(&self) -> bool
        ensures { result ≡ nat_lt (length self.now.queue) queue_limit }
    {
        self.queue.len() < QUEUE_LIMIT
    }

    /// Keeps a datagram as the newest.
    pub(crate) fn join(&mut self, datagram: Received)
        requires { length self.old.queue < 8 }
        ensures { self.new ≡ record self.old { queue = self.old.queue ++ datagram ∷ [] } }
    {
        self.queue.push_back(datagram);
    }
}
