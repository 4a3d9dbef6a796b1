//! What the three kinds of objects share: who is freed next of the tasks that wait there, and a task's new priority.

ghost use Rattle.std.specs.Prelude.{◌≡◌, ◌&&◌, ℕ, Bool, List, nat_lt};
ghost use Rattle.std.specs.List.{list_any, position};
ghost use Rattle.spec_kernel.specs.declared.reason.WaitReason.{WaitReason as AWaitReason};
ghost use Rattle.spec_kernel.specs.Waiters.{comes_next, is_in, is_task, next_waiter, reprioritised};
ghost use Rattle.spec_kernel.specs.ObjectRows.{told, urgency_in};
ghost use Rattle.it_types.specs.Table.{is_no_id};
ghost use Rattle.k_sync.specs.Waiting.{AreApart, is_ordered, reason_of};
ghost use Rattle.spec_lists.specs.First.{take_first};

use crate::waiters::{self, MAX_WAITERS, is_same_queue, reason_of, waiter_at};
use arrayvec::ArrayVec;
use it_types::{E_OK, Er, GREATEST_ID, Small, TaskId};
use spec_kernel::{WaitReason, Waiter};

/// The id is none of an object.
pub(crate) fn is_wrong_id(id: u32) -> bool
    ensures { result ≡ is_no_id 16 id }
{
    id == 0 || id > GREATEST_ID
}

/// The priority of a task that counts in a queue.
pub(crate) fn urgency_in(by_priority: bool, pri: u32) -> u32
    ensures { result ≡ urgency_in by_priority pri }
{
    if by_priority { pri } else { 0 }
}

/// The objects of one kind, at which tasks wait.
pub(crate) trait Objects {
    ghost meets: { Self → AWaitReason → Bool };

    ghost tells: { Self → AWaitReason → List ℕ };

    ghost orders: { Self → AWaitReason → Bool };

    /// What a task waits for is there.
    fn is_met(&self, reason: WaitReason) -> bool
        ensures { result ≡ meets self.now reason };

    /// The bytes that a task gets that is met.
    fn bytes_of(&self, reason: WaitReason) -> Small
        ensures { result ≡ tells self.now reason };

    /// A task waits in a queue by priority.
    fn is_by_priority(&self, reason: WaitReason) -> bool
        ensures { result ≡ orders self.now reason };
}

/// It is met, and in the same queue as another and more urgent.
fn is_rival<O: Objects>(objects: &O, other: &Waiter, waiter: &Waiter) -> bool
    ensures { result ≡ ((O.meets objects.now other.now.reason && is_in waiter.now.reason other.now) && nat_lt other.now.urgency waiter.now.urgency) }
{
    let is_near = objects.is_met(other.reason) && is_same_queue(other.reason, waiter.reason);
    is_near && other.urgency < waiter.urgency
}

fn has_rival<O: Objects>(objects: &O, waiters: &[Waiter], waiter: &Waiter) -> bool
    ensures { result ≡ list_any (λ v. (O.meets objects.now v.reason && is_in waiter.now.reason v) && nat_lt v.urgency waiter.now.urgency) waiters.now }
{
    waiters.iter().any(|other| is_rival(objects, other, waiter))
}

/// It is met, and in its queue none is that is more urgent.
fn comes_next<O: Objects>(objects: &O, waiters: &[Waiter], waiter: &Waiter) -> bool
    ensures { result ≡ comes_next (O.meets objects.now) waiters.now waiter.now }
{
    objects.is_met(waiter.reason) && !has_rival(objects, waiters, waiter)
}

/// The place of the task that is freed next.
pub(crate) fn next_place<O: Objects>(objects: &O, waiters: &[Waiter]) -> Option<usize>
    ensures { result ≡ position (comes_next (O.meets objects.now) waiters.now) waiters.now }
{
    waiters
        .iter()
        .position(|waiter| comes_next(objects, waiters, waiter))
}

/// The task that is freed next, with the code and the bytes that it gets.
pub(crate) fn next_ready<O: Objects>(objects: &O, waiters: &[Waiter]) -> Option<(TaskId, Er, Small)>
    ensures { result ≡ told (O.tells objects.now) (next_waiter (O.meets objects.now) waiters.now) }
{
    match next_place(objects, waiters) {
        Some(place) => {
            let waiter = waiter_at(waiters, place);
            Some((waiter.task, E_OK, objects.bytes_of(waiter.reason)))
        }
        None => None,
    }
}

/// The task waits in a queue by priority.
fn is_ordered<O: Objects>(objects: &O, waiters: &[Waiter], task: TaskId) -> bool
    ensures { result ≡ is_ordered (O.orders objects.now) (reason_of (take_first (is_task task) waiters.now)) }
{
    match reason_of(waiters, task) {
        Some(reason) => objects.is_by_priority(reason),
        None => false,
    }
}

/// Moves a task that waits in a queue by priority to its new place; whether it waits.
pub(crate) fn reprioritise<O: Objects>(
    objects: &O,
    waiters: &mut ArrayVec<Waiter, MAX_WAITERS>,
    task: TaskId,
    pri: u32,
    rank: u64,
) -> bool
    ensures waiters { waiters.new.items ≡ reprioritised (O.orders objects.now) task pri rank waiters.old.items }
    ensures waits { result ≡ list_any (is_task task) waiters.old.items }
    ensures apart { AreApart waiters.old.items → AreApart waiters.new.items }
{
    let by_priority = is_ordered(objects, waiters.as_slice(), task);
    waiters::reprioritise(waiters, task, by_priority, pri, rank)
}
