ghost use Rattle.std.specs.Prelude.{◌≡◌, ◌<◌, ◌^◌, ◌↔◌, None, OnOk};
ghost use Rattle.std.specs.List.{AllByRecursion};
ghost use Rattle.spec_link.specs.Link.{first_due, is_idle, opened_link, sent, taken};

use crate::fates::Fates;
use crate::waiting::Waiting;
use it_types::{NoMemory, PackNo};
use spec_link::{Delivery, Fate};
use std::alloc::Global;
use std::marker::Model;

/// A link between the nodes. Each packet that is sent is lost, or delivered once or twice, some ticks later; its clock is handed in.
/// It is used no more once memory was refused, and nothing is said of what it holds then.
#[derive(Debug, Drop)]
pub struct Link {
    fates: Fates,
    waiting: Waiting,
}

impl Model for Link {
    ghost use Rattle.spec_link.specs.Link.{PlainLink};

    ghost Value = { PlainLink };

    ghost view = { λ l. record { generator = l.fates.generator; lose = l.fates.lose; twice = l.fates.twice; delay = l.fates.delay; waiting = l.waiting } };
}

impl Link {
    /// A link of which no packet is under way. Of sixteen packets `lose` are lost and `twice` are delivered twice; a copy comes at
    /// most `delay` ticks after its packet was sent. Two links with the same four numbers do the same. It takes no memory.
    pub fn open(alloc: Global, key: u64, lose: u32, twice: u32, delay: u32) -> Link
        ensures { result ≡ opened_link key lose twice delay }
    {
        Link {
            fates: Fates::open(key, lose, twice, delay),
            waiting: Waiting::new(alloc),
        }
    }

    /// A packet is sent at the tick `now`, and its fate is drawn.
    pub fn sent(&mut self, packet: PackNo, now: u64) -> Result<(), NoMemory>
        requires clock { now < 2 ^ 62 }
        ensures { OnOk result (self.new ≡ sent packet now self.old) }
    {
        match self.fates.draw() {
            Fate::Lost => Ok(()),
            Fate::Once { after } => self.waiting.add(Delivery {
                due: now + after,
                packet,
                copy: 1,
            }),
            Fate::Twice { first, second } => {
                self.waiting.add(Delivery {
                    due: now + first,
                    packet,
                    copy: 1,
                })?;
                self.waiting.add(Delivery {
                    due: now + second,
                    packet,
                    copy: 2,
                })
            }
        }
    }

    /// Takes the first delivery that is due at or before the tick `now`, and gives its packet; none exactly where none is due.
    pub fn next(&mut self, now: u64) -> Option<PackNo>
        ensures packet { result ≡ first_due now self.old }
        ensures rest { self.new ≡ taken now self.old }
        ensures none { (result ≡ None) ↔ AllByRecursion (λ d. now < d.due) self.old.waiting }
    {
        self.waiting.take_due(now)
    }

    /// Whether no delivery is left.
    pub fn idle(&self) -> bool
        ensures { result ≡ is_idle self.now }
    {
        self.waiting.is_empty()
    }
}
