ghost use Rattle.std.specs.Prelude.{◌≡◌, ◌<◌, ◌↔◌, [], None, OnErr, OnOk};
ghost use Rattle.std.specs.List.{AllByRecursion};
ghost use Rattle.spec_link.specs.Deliveries.{packet_due, with_delivery, without_due};
ghost use Rattle.spec_link.specs.Link.{is_none_left};

use it_types::{NoMemory, PackNo};
use spec_link::Delivery;
use std::alloc::Global;
use std::cmp::Reverse;
use std::collections::BinaryHeap;
use std::fmt;
use std::marker::Model;

/// The deliveries that are under way, the first on top.
#[derive(Drop)]
pub(crate) struct Waiting {
    heap: BinaryHeap<Reverse<Delivery>>,
}

impl Model for Waiting {
    ghost use Rattle.std.specs.Prelude.{List};
    ghost use Rattle.std.specs.BinaryHeap.{IsHeap, heap_items};
    ghost use Rattle.spec_link.specs.declared.delivery.Delivery.{Delivery};
    ghost use Rattle.w_link.specs.InOrder.{in_order, reversed};

    ghost Value = { List Delivery };

    ghost view = { λ w. in_order (heap_items w.heap) };

    ghost invariant = { λ w. IsHeap reversed (heap_items w.heap) };
}

impl Waiting {
    pub fn new(alloc: Global) -> Waiting
        ensures { result ≡ [] }
    {
        Waiting {
            heap: BinaryHeap::new(alloc),
        }
    }

    pub fn is_empty(&self) -> bool
        ensures { result ≡ is_none_left self.now }
    {
        self.heap.is_empty()
    }

    pub fn add(&mut self, delivery: Delivery) -> Result<(), NoMemory>
        ensures added { OnOk result (self.new ≡ with_delivery delivery self.old) }
        ensures unchanged { OnErr result (self.new ≡ self.old) }
    {
        self.heap.push(Reverse(delivery))?;
        Ok(())
    }

    /// Takes the first delivery, where it is due at or before the tick `now`, and gives its packet.
    pub fn take_due(&mut self, now: u64) -> Option<PackNo>
        ensures packet { result ≡ packet_due now self.old }
        ensures rest { self.new ≡ without_due now self.old }
        ensures none { (result ≡ None) ↔ AllByRecursion (λ d. now < d.due) self.old }
    {
        let Some(Reverse(first)) = self.heap.peek() else {
            return None;
        };
        if now < first.due {
            return None;
        }
        let Some(Reverse(taken)) = self.heap.pop() else {
            return None;
        };
        Some(taken.packet)
    }
}

impl fmt::Debug for Waiting {
    fn fmt<W: fmt::Write>(&self, f: &mut fmt::Formatter<W>) -> fmt::Result {
        f.debug_struct("Waiting")
            .field("deliveries", &self.heap.len())
            .finish()
    }
}
