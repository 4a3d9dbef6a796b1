ghost use Rattle.std.specs.Prelude.{◌≡◌, ◌≤◌, ◌↔◌, true, false, None, Some, IsSome, IfSome, IfOk, OnOk, OnErr, length};
ghost use mathlib.Core.Logic.{◌⊎◌};
ghost use Rattle.it_types.specs.Configuration.{first_conf, kernel_conf, second_conf};
ghost use Rattle.spec_kernel.specs.Opening.{IsDeclarable};
ghost use Rattle.spec_world.specs.declared.refusal.WErr.{WErr as AWErr};
ghost use Rattle.spec_world.specs.PlainWorld.{node_at, opened_world};
ghost use Rattle.spec_world.specs.Admitted.{is_admitted};
ghost use Rattle.spec_world.specs.Sizes.{is_full};
ghost use Rattle.spec_world.specs.History.{IsRun, ends_with_stop, is_unsent, opened_history, refusal, stepped, world_of};
ghost use Rattle.laws_world.specs.AtRest.{LogRests};
ghost use Rattle.laws_world.specs.OnceInBoth.{LogOnce};
ghost use Rattle.laws_world.specs.CauseInBoth.{LogCaused};

use crate::nodes::Nodes;
use crate::sent::{Sent, note_packets};
use crate::sizes::entry_size;
use crate::taking::{Taken, take};
use it_types::{Conf, Entry, Event, List, NoMemory, NodeId, Out};
use n_node::{Node, NodeEv};
use spec_world::WErr;
use std::alloc::Global;
use std::marker::Model;

/// The most entries of a history.
const ENTRY_LIMIT: usize = 1000000;

/// From how many bytes of data on a history is full.
const SIZE_LIMIT: u64 = 268435456;

/// Two nodes, the packets that they sent, and the history of all that happened.
#[derive(Debug)]
pub struct World {
    conf: Conf,
    nodes: Nodes,
    log: List<Entry>,
    sent: Vec<Sent>,
    packets: u32,
    size: u64,
    ended: bool,
}

impl Model for World {
    ghost use Rattle.spec_world.specs.History.{History};
    ghost use Rattle.w_world.specs.Kept.{Kept};

    ghost Value = { History };

    ghost view = { λ w. record { conf = w.conf; log = w.log; ended = w.ended } };

    ghost invariant = { λ w. Kept w.conf w.nodes w.log w.sent.items w.packets w.size w.ended };
}

/// A world is dropped by one call. A derived drop would be that of each part in each function that holds a world.
impl Drop for World {
    fn drop(self) {
        let World {
            conf: _,
            nodes: _,
            log: _,
            sent: _,
            packets: _,
            size: _,
            ended: _,
        } = self;
    }
}

fn ends_with_stop(log: &[Entry]) -> bool
    ensures { result ≡ ends_with_stop log.now }
{
    match log.last() {
        Some(entry) => matches!(entry.ev, Event::Stop),
        None => false,
    }
}

/// The event with what it brought about.
fn entry_of(ev: Event, out: Out) -> Entry
    ensures { result ≡ Rattle.spec_world.specs.PlainWorld.entry_of ev out }
{
    Entry {
        ev,
        ans: out.ans,
        ends: out.ends,
        marks: out.marks,
        packs: out.packs,
    }
}

impl World {
    ghost use Rattle.std.specs.Prelude.{◌↔◌, IsTrue};
    ghost use Rattle.laws_world.specs.Taken.{CanOpen};

    /// Whether two nodes can be opened with this configuration: where what each of them declares is in these ranges.
    ///
    /// - each id of a kind is from 1 to 16, of a cyclic handler from 1 to 8, and is declared once;
    /// - a task has a priority from 1 to 16;
    /// - a semaphore has a maximum from 1 to 65,535 and begins with no more than that;
    /// - a data queue has a capacity of at most 1,024 items;
    /// - a cyclic handler has a period from 1 to 1,000,000 ticks and a phase of at most 1,000,000.
    pub fn can_open(conf: &Conf) -> bool
        ensures { IsTrue result ↔ CanOpen conf.now }
    {
        conf.nodes.iter().all(Node::can_open)
    }

    /// Two nodes with this configuration, no packets, and the empty history. `can_open` is the test of whether they can be
    /// opened with it.
    pub fn open(alloc: Global, conf: &Conf) -> Result<World, NoMemory>
        requires first { IsDeclarable (kernel_conf (first_conf conf.now)) }
        requires second { IsDeclarable (kernel_conf (second_conf conf.now)) }
        ensures { IfOk result (λ w. w ≡ opened_history conf.now) }
    {
        let nodes = Nodes::open(alloc, conf)?;
        Ok(World {
            conf: conf.copy(alloc)?,
            nodes,
            log: List::new(alloc),
            sent: Vec::new(alloc),
            packets: 0,
            size: 0,
            ended: false,
        })
    }

    /// The event happens: the history gets the one entry more that the machine gives, its answer (µITRON4.0 section 2.1),
    /// the ends of calls, and the packets sent. What refuses it, in this order, and changes nothing:
    ///
    /// - `Ended`: memory ran out in a step before;
    /// - `Stopped`: the history ends with the stop;
    /// - `Long`: the history has 1,000,000 entries or more, or 268,435,456 bytes of data or more;
    /// - `NoPacket`: the packet that is to be delivered was not sent;
    /// - `NotAdmitted`: there is no such node; the caller isn't the task in the RUNNING state, or holds an answer that it
    ///   hasn't taken; the task that returns doesn't run or holds none; a task calls or returns while a handler of the node is
    ///   due or has begun; a handler is to begin where none is due or one has begun; or a handler calls or is to end where
    ///   none has begun.
    ///
    /// With `NoMemory` memory ran out in this step: the history is that of the steps before, and the world has ended.
    pub fn step(&mut self, alloc: Global, ev: Event) -> Result<(), WErr>
        // The first test that refuses the event gives the answer, and nothing changes.
        ensures refused { (e : AWErr) → refusal self.old ev ≡ Some e → (result ≡ Err e) × (self.new ≡ self.old) }

        // Else the log has just the one entry more that the machine gives, or memory ran out: the log is that of the steps
        // before.
        ensures ok { OnOk result ((refusal self.old ev ≡ None) × (self.new ≡ stepped self.old ev)) }
        ensures no_memory { result ≡ Err WErr.NoMemory → (refusal self.old ev ≡ None) × (self.new ≡ record self.old { ended = true }) }
        ensures only { refusal self.old ev ≡ None → (result ≡ Ok tt) ⊎ (result ≡ Err WErr.NoMemory) }
    {
        if let Some(refusal) = self.refusal(&ev) {
            return Err(refusal);
        }
        match self.carry_out(alloc, ev) {
            Ok(()) => Ok(()),
            Err(NoMemory) => Err(WErr::NoMemory),
        }
    }

    /// Carries out an event that nothing refuses. Without memory the world has ended.
    fn carry_out(&mut self, alloc: Global, ev: Event) -> Result<(), NoMemory>
        requires { refusal self.old ev ≡ None }
        ensures ok { OnOk result (self.new ≡ stepped self.old ev) }
        ensures err { OnErr result (self.new ≡ record self.old { ended = true }) }
    {
        self.ended = true;
        let log = self.log.as_slice();
        let Taken { by, out } = take(alloc, &mut self.nodes, log, &self.sent, &ev)?;
        let entry = entry_of(ev, out);
        note_packets(&mut self.sent, by, self.log.len(), entry.packs.as_slice())?;
        let size = entry_size(&entry);
        self.log.push(entry)?;
        self.packets = self.sent.len() as u32;
        self.size = self.size.saturating_add(size);
        self.ended = false;
        Ok(())
    }

    /// Why an event is refused, if it is.
    fn refusal(&self, ev: &Event) -> Option<WErr>
        ensures { result ≡ refusal self.now ev.now }
    {
        if self.ended {
            Some(WErr::Ended)
        } else if self.stopped() {
            Some(WErr::Stopped)
        } else if self.full() {
            Some(WErr::Long)
        } else if self.is_unsent(ev) {
            Some(WErr::NoPacket)
        } else if !self.is_admitted(ev) {
            Some(WErr::NotAdmitted)
        } else {
            None
        }
    }

    fn is_unsent(&self, ev: &Event) -> bool
        ensures { result ≡ is_unsent (world_of self.now) ev.now }
    {
        match ev {
            Event::Deliver(number) => self.packets <= number.0,
            Event::Call(..)
            | Event::Return(..)
            | Event::Begin(_)
            | Event::Finish(_)
            | Event::Tick(_)
            | Event::Stop => false,
        }
    }

    fn is_admitted(&self, ev: &Event) -> bool
        ensures { self.now.ended ≡ false → result ≡ is_admitted (world_of self.now) ev.now }
    {
        match ev {
            Event::Call(id, ctx, _) => self.nodes.admits_call(*id, *ctx),
            Event::Return(id, task) => self.nodes.admits(*id, &NodeEv::Return(*task)),
            Event::Begin(id) => self.nodes.admits(*id, &NodeEv::Begin),
            Event::Finish(id) => self.nodes.admits(*id, &NodeEv::Finish),
            Event::Tick(id) => self.nodes.admits(*id, &NodeEv::Tick),
            Event::Deliver(number) => number.0 < self.packets,
            Event::Stop => true,
        }
    }

    /// The history so far.
    #[tactic(auto, using(laws_world::proofs::Rest::log_rests))]
    pub fn log(&self) -> &[Entry]
        ensures value { result.now ≡ self.now.log }

        // It is a run of the machine from the world's configuration.
        ensures run { IsRun self.now.conf result.now }

        // In neither node does a call wait that is ready, or whose deadline is at or before now, or that names an end point
        // which isn't there; and at most one waits in each place, after any of its entries.
        ensures rests { LogRests (opened_world self.now.conf) result.now }

        // In either node each number accepts one call at most, a call ends at most once, in the entry that accepted it or a later one, and
        // each return gives the end of the call that its task made last, from which no other returns.
        ensures once { LogOnce result.now }

        // Each end of a call in an entry has exactly one cause, with its code: what the call waited for is there, its time is over, it is
        // released or cancelled, or its end point is deleted.
        ensures caused { LogCaused self.now.conf result.now }
    {
        self.log.as_slice()
    }

    /// Whether the history ends with the stop.
    pub fn stopped(&self) -> bool
        ensures { result ≡ ends_with_stop self.now.log }
    {
        ends_with_stop(self.log.as_slice())
    }

    /// How many packets were sent in the history.
    pub fn packets(&self) -> u32
        ensures { result ≡ length (world_of self.now).packets }
    {
        self.packets
    }

    /// Whether the history is full: it has 1,000,000 entries or more, or 268,435,456 bytes of data or more.
    pub fn full(&self) -> bool
        ensures { result ≡ is_full self.now.log }
    {
        ENTRY_LIMIT <= self.log.len() || SIZE_LIMIT <= self.size
    }

    /// Whether memory ran out in a step.
    pub fn ended(&self) -> bool
        ensures { result ≡ self.now.ended }
    {
        self.ended
    }

    /// What the nodes began with.
    pub fn conf(&self) -> &Conf
        ensures { result.now ≡ self.now.conf }
    {
        &self.conf
    }

    /// The node 0 or 1; none under another id, and none where memory ran out in a step.
    pub fn node(&self, id: NodeId) -> Option<&Node>
        ensures some { IsSome result ↔ ((id.0 ≤ 1) × (self.now.ended ≡ false)) }
        ensures node { IfSome result (λ n. n.now.plain ≡ node_at (world_of self.now).nodes id) }
    {
        if self.ended {
            return None;
        }
        match id.0 {
            0 => Some(self.nodes.first()),
            1 => Some(self.nodes.second()),
            _ => None,
        }
    }
}
