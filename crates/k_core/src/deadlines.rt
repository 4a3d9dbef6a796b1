//! Calls that end by time.

ghost use Rattle.std.specs.Prelude.{◌≡◌, ◌&&◌, ◌<◌, ◌^◌, None, Some, MatchOption, slice_index_or, remove, length};
ghost use Rattle.std.specs.List.{position};
ghost use Rattle.spec_lists.specs.First.{take_first};
ghost use Rattle.spec_kernel.specs.declared.reason.WaitingCall.{WaitingCall as AWaitingCall};
ghost use Rattle.spec_kernel.specs.Time.{code_by_time, is_next_past, is_outside_of, is_past};
ghost use Rattle.spec_kernel.specs.PlainClock.{due_at_tick, ticked_clock};
ghost use Rattle.k_core.specs.Found.{paired};
ghost use Rattle.k_core.specs.PartsTime.{ended_from, is_sooner};

use crate::done::is_outside;
use crate::parts::Parts;
use arrayvec::ArrayVec;
use it_types::{CallNo, E_OK, E_TMOUT, Er, ObjId, TaskId};
use spec_kernel::{WaitReason, WaitingCall};

/// The deadline of the call is at or before `now`.
fn is_past(wait: &WaitingCall, now: u64) -> bool
    ensures { result ≡ is_past now wait.now }
{
    match wait.deadline {
        Some(deadline) => deadline <= now,
        None => false,
    }
}

/// The call's deadline is at or before `now`, and its number is below that of the call that was found so far, if any.
fn is_sooner(wait: &WaitingCall, now: u64, found: Option<(usize, CallNo)>) -> bool
    ensures { result ≡ is_sooner now found wait.now }
{
    is_past(wait, now)
        && match found {
            Some((_, call)) => wait.call.0 < call.0,
            None => true,
        }
}

/// The place of the call of the least number whose deadline is at or before `now`.
fn next_past(waits: &[WaitingCall], now: u64) -> Option<usize>
    ensures { MatchOption result (take_first (is_next_past now waits.now) waits.now ≡ None)
        (λ i. (i < length waits.now)
        × ((w : AWaitingCall) → w ≡ slice_index_or waits.now i w → take_first (is_next_past now waits.now) waits.now ≡ Some (w, remove waits.now i))) }
{
    let mut found: Option<(usize, CallNo)> = None;
    for (i, wait) in waits.iter().enumerate() {
        if is_sooner(wait, now, found) {
            found = Some((i, wait.call));
        }
    }
    match found {
        Some((place, _)) => Some(place),
        None => None,
    }
}

/// The code of an end by time: a delay has done what it is for.
pub(crate) fn code_by_time(reason: WaitReason) -> Er
    ensures { result ≡ code_by_time reason }
{
    match reason {
        WaitReason::Delay => E_OK,
        WaitReason::Semaphore(_)
        | WaitReason::Flag(_)
        | WaitReason::Send(_, _)
        | WaitReason::Receive(_)
        | WaitReason::Sleep
        | WaitReason::Outside => E_TMOUT,
    }
}

/// The place of the call of the network part with which a task waits.
fn outside_of(waits: &[WaitingCall], task: TaskId) -> Option<usize>
    ensures { result ≡ position (is_outside_of task) waits.now }
{
    waits
        .iter()
        .position(|wait| wait.task.0 == task.0 && is_outside(wait.reason))
}

impl Parts {
    /// Takes out the call of the least number whose deadline is at or before now.
    pub(crate) fn take_past(&mut self) -> Option<WaitingCall>
        ensures call { take_first (is_next_past self.old.clock.now self.old.waits) self.old.waits ≡ paired result self.new.waits }
        ensures parts { self.new ≡ record self.old { waits = self.new.waits } }
        ensures none { result ≡ None → self.new ≡ self.old }
    {
        let now = self.clock.now();
        match next_past(self.waits.as_slice(), now) {
            Some(place) => Some(self.waits.remove(place)),
            None => None,
        }
    }

    /// A call that was taken out is over.
    pub(crate) fn end_wait(&mut self, wait: WaitingCall)
        ensures { self.new ≡ ended_from self.old wait }
    {
        self.leave(wait.task);
        self.tasks.wake(wait.task);
    }

    /// Takes out the call of the network part with which a task waits.
    pub(crate) fn take_outside(&mut self, task: TaskId) -> Option<WaitingCall>
        ensures call { take_first (is_outside_of task) self.old.waits ≡ paired result self.new.waits }
        ensures parts { self.new ≡ record self.old { waits = self.new.waits } }
        ensures none { result ≡ None → self.new ≡ self.old }
    {
        match outside_of(self.waits.as_slice(), task) {
            Some(place) => Some(self.waits.remove(place)),
            None => None,
        }
    }

    /// One tick of the clock. Gives the cyclic handlers that come due.
    pub(crate) fn tick(&mut self) -> ArrayVec<ObjId, 8>
        requires { self.old.clock.now < 2 ^ 60 }
        ensures parts { self.new ≡ record self.old { clock = ticked_clock self.old.clock } }
        ensures due { result.items ≡ due_at_tick self.old.clock }
    {
        self.clock.tick()
    }
}
