ghost use Rattle.std.specs.Prelude.{◌≡◌, ◌<◌, ◌&&◌, Bool, None, false, length, nat_lt, slice_index_or};
ghost use Rattle.std.specs.List.{list_any, position};
ghost use Rattle.it_types.specs.Callers.{is_poll};
ghost use Rattle.spec_lists.specs.First.{is_least, take_first};
ghost use Rattle.spec_kernel.specs.Waiters.{is_in, is_same_queue, is_task, joined_by, left_by, reprioritised, urgency};
ghost use Rattle.spec_kernel.specs.declared.waiter.Waiter.{Waiter as AWaiter};
ghost use Rattle.k_sync.specs.Waiting.{AreApart, MayWait, paired, reason_of};

use arrayvec::ArrayVec;
use it_types::{TaskId, Tmo};
use spec_kernel::{WaitReason, Waiter};

/// The most tasks that can wait: all that a kernel has.
pub(crate) const MAX_WAITERS: usize = 16;

/// Two calls that wait so wait in one queue.
pub(crate) fn is_same_queue(a: WaitReason, b: WaitReason) -> bool
    ensures { result ≡ is_same_queue a b }
{
    match (a, b) {
        (WaitReason::Semaphore(a), WaitReason::Semaphore(b)) => a.0 == b.0,
        (WaitReason::Flag(a), WaitReason::Flag(b)) => a.flag.0 == b.flag.0,
        (WaitReason::Send(a, _), WaitReason::Send(b, _)) => a.0 == b.0,
        (WaitReason::Receive(a), WaitReason::Receive(b)) => a.0 == b.0,
        _ => false,
    }
}

/// A task waits in the queue of a call with this reason.
pub(crate) fn is_awaited(waiters: &[Waiter], reason: WaitReason) -> bool
    ensures { result ≡ list_any (is_in reason) waiters.now }
{
    waiters
        .iter()
        .any(|waiter| is_same_queue(waiter.reason, reason))
}

/// It waits in the queue of this call, and is more urgent.
fn is_ahead(other: &Waiter, waiter: &Waiter, reason: WaitReason) -> bool
    ensures { result ≡ (is_in reason other.now && nat_lt (urgency other.now) (urgency waiter.now)) }
{
    is_same_queue(other.reason, reason) && other.urgency < waiter.urgency
}

fn is_any_ahead(waiters: &[Waiter], waiter: &Waiter, reason: WaitReason) -> bool
    ensures { result ≡ list_any (λ v. is_in reason v && nat_lt (urgency v) (urgency waiter.now)) waiters.now }
{
    waiters.iter().any(|other| is_ahead(other, waiter, reason))
}

/// It waits in the queue of this call, and no more urgent one does.
fn is_first(waiters: &[Waiter], waiter: &Waiter, reason: WaitReason) -> bool
    ensures { result ≡ is_least (is_in reason) urgency waiters.now waiter.now }
{
    is_same_queue(waiter.reason, reason) && !is_any_ahead(waiters, waiter, reason)
}

/// The place of the first task that waits in the queue of a call with this reason.
pub(crate) fn first_in(waiters: &[Waiter], reason: WaitReason) -> Option<usize>
    ensures { result ≡ position (is_least (is_in reason) urgency waiters.now) waiters.now }
{
    waiters
        .iter()
        .position(|waiter| is_first(waiters, waiter, reason))
}

fn is_waiting(waiters: &[Waiter], task: TaskId) -> bool
    ensures { result ≡ list_any (is_task task) waiters.now }
{
    waiters.iter().any(|waiter| waiter.task.0 == task.0)
}

/// The place where a task waits.
fn find(waiters: &[Waiter], task: TaskId) -> Option<usize>
    ensures { result ≡ position (is_task task) waiters.now }
{
    waiters.iter().position(|waiter| waiter.task.0 == task.0)
}

/// The task at the place where a search has found it.
pub(crate) fn waiter_at(waiters: &[Waiter], place: usize) -> Waiter
    requires { place < length waiters.now }
    ensures { result ≡ slice_index_or waiters.now place result }
{
    waiters[place]
}

/// Takes out the task at the place where a search has found it.
pub(crate) fn take_out(
    waiters: &mut ArrayVec<Waiter, MAX_WAITERS>,
    place: Option<usize>,
) -> Option<Waiter>
    requires { (f : AWaiter → Bool) × (place ≡ position f waiters.old.items) }
    ensures found { (f : AWaiter → Bool) → place ≡ position f waiters.old.items → take_first f waiters.old.items ≡ paired result waiters.new.items }
    ensures none { result ≡ None → waiters.new.items ≡ waiters.old.items }
    ensures apart { AreApart waiters.old.items → AreApart waiters.new.items }
{
    match place {
        Some(place) => Some(waiters.remove(place)),
        None => None,
    }
}

/// Why a task waits, if it does.
pub(crate) fn reason_of(waiters: &[Waiter], task: TaskId) -> Option<WaitReason>
    ensures { result ≡ reason_of (take_first (is_task task) waiters.now) }
{
    match find(waiters, task) {
        Some(place) => Some(waiter_at(waiters, place).reason),
        None => None,
    }
}

/// The task joins the queues, last in rank, but for a poll.
pub(crate) fn join(waiters: &mut ArrayVec<Waiter, MAX_WAITERS>, waiter: Waiter, tmo: Tmo)
    requires apart { AreApart waiters.old.items }
    requires may_wait { is_poll tmo ≡ false → MayWait waiter.task waiters.old.items }
    ensures waiters { waiters.new.items ≡ joined_by waiter tmo waiters.old.items }
    ensures apart { AreApart waiters.new.items }
{
    if !tmo.is_poll() {
        waiters.push(waiter);
    }
}

/// Takes a task out; whether it waited.
pub(crate) fn leave(waiters: &mut ArrayVec<Waiter, MAX_WAITERS>, task: TaskId) -> bool
    ensures waiters { waiters.new.items ≡ left_by task waiters.old.items }
    ensures waited { result ≡ list_any (is_task task) waiters.old.items }
    ensures apart { AreApart waiters.old.items → AreApart waiters.new.items }
{
    let place = find(waiters.as_slice(), task);
    take_out(waiters, place).is_some()
}

/// Moves a task to the end where its queue goes by priority; whether it waits.
pub(crate) fn reprioritise(
    waiters: &mut ArrayVec<Waiter, MAX_WAITERS>,
    task: TaskId,
    by_priority: bool,
    pri: u32,
    rank: u64,
) -> bool
    ensures waiters { waiters.new.items ≡ reprioritised (λ _. by_priority) task pri rank waiters.old.items }
    ensures waits { result ≡ list_any (is_task task) waiters.old.items }
    ensures apart { AreApart waiters.old.items → AreApart waiters.new.items }
{
    if !by_priority {
        return is_waiting(waiters.as_slice(), task);
    }
    let place = find(waiters.as_slice(), task);
    match take_out(waiters, place) {
        Some(waiter) => {
            waiters.push(Waiter {
                urgency: pri,
                rank,
                ..waiter
            });
            true
        }
        None => false,
    }
}
