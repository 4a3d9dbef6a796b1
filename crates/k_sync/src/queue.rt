ghost use Rattle.std.specs.Prelude.{◌≡◌, [], IfOk, Some, ◌<◌, length, slice_get};
ghost use Rattle.spec_kernel.specs.DataQueues.{hands_over, has_item, has_room, oldest_bytes, queue_declared, with_forced_item, with_item, without_oldest};

use circular_buffer::HeapCircularBuffer;
use it_types::{DtqDecl, NoMemory, Small};
use std::alloc::Global;
use std::marker::Model;

/// A data queue (µITRON4.0 section 4.4.3): whether its senders wait by priority, and a ring of its items, which has its memory
/// from the opening on.
#[derive(Debug, Drop)]
pub struct Queue {
    by_priority: bool,
    ring: HeapCircularBuffer<u32>,
}

impl Model for Queue {
    ghost use Rattle.spec_kernel.specs.DataQueues.{DataQueue};

    ghost Value = { DataQueue };

    ghost view = { λ q. record { by_priority = q.by_priority; capacity = q.ring.capacity; items = q.ring.items } };
}

impl Queue {
    pub(crate) fn open(alloc: Global, decl: &DtqDecl) -> Result<Queue, NoMemory>
        ensures { IfOk result (λ q. q ≡ queue_declared decl.now) }
    {
        let ring = HeapCircularBuffer::with_capacity(alloc, decl.cap as usize)?;
        Ok(Queue {
            by_priority: decl.pri,
            ring,
        })
    }

    pub(crate) fn is_by_priority(&self) -> bool
        ensures { result ≡ self.now.by_priority }
    {
        self.by_priority
    }

    pub(crate) fn has_room(&self) -> bool
        ensures { result ≡ has_room (Some self.now) }
    {
        self.ring.len() < self.ring.capacity()
    }

    pub(crate) fn has_item(&self) -> bool
        ensures { result ≡ has_item (Some self.now) }
    {
        self.ring.len() > 0
    }

    pub(crate) fn hands_over(&self) -> bool
        ensures { result ≡ hands_over (Some self.now) }
    {
        self.ring.capacity() == 0
    }

    /// The bytes of the oldest item; those of 0 where there is none.
    pub(crate) fn oldest_bytes(&self) -> Small
        ensures { result ≡ oldest_bytes (Some self.now) }
    {
        match self.ring.front() {
            Some(item) => Small::of_word(*item),
            None => Small::of_word(0),
        }
    }

    /// Takes the oldest item out.
    pub(crate) fn take(&mut self)
        ensures { self.new ≡ record self.old { items = without_oldest self.old.items } }
    {
        let _ = self.ring.pop_front();
    }

    /// Appends an item where there is room.
    pub(crate) fn append(&mut self, item: u32)
        requires { length self.old.items < self.old.capacity }
        ensures { Some self.new ≡ with_item item (Some self.old) }
    {
        self.ring.push_back(item);
    }

    /// Appends an item; where the queue is full the oldest makes room.
    pub(crate) fn force(&mut self, item: u32)
        requires { 0 < self.old.capacity }
        ensures { Some self.new ≡ with_forced_item item (Some self.old) }
    {
        if self.ring.len() >= self.ring.capacity() {
            self.ring.pop_front();
        }
        self.ring.push_back(item);
    }
}
