ghost use Rattle.std.specs.Prelude.{◌≡◌, ◌↔◌, IsSomeAnd, None, true};
ghost use Rattle.std.specs.List.{list_any};
ghost use Rattle.spec_kernel.specs.Waiters.{is_task};
ghost use Rattle.spec_kernel.specs.Waiting.{queues_after};
ghost use Rattle.spec_kernel.specs.QueueRuns.{NeverBoth};
ghost use Rattle.spec_kernel.specs.PlainQueues.{IsAtRest, bytes_of, freed, handed_bytes, handed_task, is_by_priority, is_met, left, next_freed, next_ready, reprioritised, without};

use crate::Dtqs;
use crate::next::{self, Objects, next_place};
use crate::queue::Queue;
use crate::queues::{self, MAX_QUEUES, append_item, has_item, has_room, oldest_bytes, take_item};
use crate::waiters::{self, take_out};
use it_types::{E_OK, Er, Small, Table, TaskId};
use spec_kernel::WaitReason;

impl Objects for Table<Queue, MAX_QUEUES> {
    ghost meets = { is_met };

    ghost tells = { bytes_of };

    ghost orders = { is_by_priority };

    fn is_met(&self, reason: WaitReason) -> bool {
        match reason {
            WaitReason::Send(dtq, _) => has_room(self, dtq),
            WaitReason::Receive(dtq) => has_item(self, dtq),
            _ => false,
        }
    }

    fn bytes_of(&self, reason: WaitReason) -> Small {
        match reason {
            WaitReason::Receive(dtq) => oldest_bytes(self, dtq),
            _ => Small::new(),
        }
    }

    fn is_by_priority(&self, reason: WaitReason) -> bool {
        match reason {
            WaitReason::Send(dtq, _) => queues::is_by_priority(self, dtq),
            _ => false,
        }
    }
}

/// What a task that is met gives or takes.
pub(crate) fn take_effect(queues: &mut Table<Queue, MAX_QUEUES>, reason: WaitReason)
    requires { is_met queues.old reason ≡ true }
    ensures { queues.new ≡ queues_after reason queues.old }
{
    match reason {
        WaitReason::Send(dtq, item) => append_item(queues, dtq, item),
        WaitReason::Receive(dtq) => take_item(queues, dtq),
        _ => {}
    }
}

/// The bytes of the item that was handed to a receiver; a sender gets none.
fn handed_bytes(item: Option<u32>) -> Small
    ensures { result ≡ handed_bytes item }
{
    match item {
        Some(item) => Small::of_word(item),
        None => Small::new(),
    }
}

impl Dtqs {
    /// Frees the first task that is met.
    fn free_next(&mut self)
        ensures { self.new ≡ without self.old (next_freed self.old) }
    {
        let place = next_place(&self.queues, self.waiters.as_slice());
        if let Some(waiter) = take_out(&mut self.waiters, place) {
            take_effect(&mut self.queues, waiter.reason);
        }
    }

    /// The task whose wait ends next, with the code and the bytes that it gets: that of the call which the last one has ended, or
    /// else the one that is freed next. A sender and a receiver never wait at one queue.
    pub fn next_ready(&self) -> Option<(TaskId, Er, Small)>
        ensures next { result ≡ next_ready self.now }
        ensures at_rest { result ≡ None ↔ IsAtRest self.now }
        ensures one_side { NeverBoth self.now.waiters }
    {
        match self.handed {
            Some(handed) => Some((handed.task, E_OK, handed_bytes(handed.item))),
            None => next::next_ready(&self.queues, self.waiters.as_slice()),
        }
    }

    /// The task whose call the last one on a queue without capacity has ended, until it is freed.
    pub fn handed(&self) -> Option<TaskId>
        ensures { result ≡ handed_task self.now.handed }
    {
        match self.handed {
            Some(handed) => Some(handed.task),
            None => None,
        }
    }

    /// Ends the wait of the task that `next_ready` names.
    pub fn free(&mut self, task: TaskId)
        requires { IsSomeAnd (next_ready self.old) (λ next. next.0 ≡ task) }
        ensures { self.new ≡ freed self.old }
    {
        let _ = task;
        match self.handed {
            Some(_) => self.handed = None,
            None => self.free_next(),
        }
    }

    /// Takes out a task that waits, and changes nothing more; whether it waited.
    pub fn leave(&mut self, task: TaskId) -> bool
        ensures dtqs { self.new ≡ left self.old task }
        ensures waited { result ≡ list_any (is_task task) self.old.waiters }
    {
        waiters::leave(&mut self.waiters, task)
    }

    /// Whether a task that waits for this waits by priority at a data queue.
    pub fn is_by_priority(&self, reason: WaitReason) -> bool
        ensures { result ≡ is_by_priority self.now.queues reason }
    {
        self.queues.is_by_priority(reason)
    }

    /// Moves a task that waits in a queue by priority to its new place; whether it waits.
    pub fn reprioritise(&mut self, task: TaskId, pri: u32, rank: u64) -> bool
        ensures dtqs { self.new ≡ reprioritised self.old task pri rank }
        ensures waits { result ≡ list_any (is_task task) self.old.waiters }
    {
        next::reprioritise(&self.queues, &mut self.waiters, task, pri, rank)
    }
}
