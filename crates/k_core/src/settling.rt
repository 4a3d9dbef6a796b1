//! The ends of calls that are met.

ghost use Rattle.std.specs.Prelude.{◌≡◌, ◌≤◌, ◌+◌, ◌++◌, Some, None, true, length};
ghost use Rattle.std.specs.List.{position};
ghost use Rattle.spec_kernel.specs.declared.reason.WaitingCall.{WaitingCall as AWaitingCall};
ghost use Rattle.k_core.specs.Found.{paired};
ghost use Rattle.k_core.specs.PartsSettle.{bytes_told, end_told, freed_from, is_for_an_object, is_named, let_go, names, next_at, next_call, settle};

use crate::Done;
use crate::done::ending;
use crate::parts::Parts;
use it_types::{E_OK, Er, Small, TaskId};
use spec_kernel::{KEnd, WaitReason, WaitingCall};

/// Whether a part names this task.
fn names(next: &Option<(TaskId, Er, Small)>, task: TaskId) -> bool
    ensures { result ≡ names task next.now }
{
    match next {
        Some((named, _, _)) => named.0 == task.0,
        None => false,
    }
}

/// The bytes with which the task is named.
fn bytes_told(next: Option<(TaskId, Er, Small)>) -> Small
    ensures { result ≡ bytes_told next }
{
    match next {
        Some((_, _, bytes)) => bytes,
        None => Small::new(),
    }
}

impl Parts {
    /// What the part says where a call waits for this: the task whose wait ends next there, with its code and bytes.
    fn next_at(&self, reason: WaitReason) -> Option<(TaskId, Er, Small)>
        ensures { result ≡ next_at self.now reason }
    {
        match reason {
            WaitReason::Semaphore(_) => self.sems.next_ready(),
            WaitReason::Flag(_) => self.flags.next_ready(),
            WaitReason::Send(_, _) | WaitReason::Receive(_) => self.dtqs.next_ready(),
            WaitReason::Sleep | WaitReason::Delay | WaitReason::Outside => None,
        }
    }

    /// The call ends next where it waits.
    fn is_named(&self, wait: &WaitingCall) -> bool
        ensures { result ≡ is_named self.now wait.now }
    {
        match wait.reason {
            WaitReason::Sleep => self.tasks.is_woken(wait.task),
            reason => names(&self.next_at(reason), wait.task),
        }
    }

    /// The place of the call that ends next.
    fn next_place(&self) -> Option<usize>
        ensures { result ≡ position (is_named self.now) self.now.waits }
    {
        self.waits
            .as_slice()
            .iter()
            .position(|wait| self.is_named(wait))
    }

    /// The part where a task waits for this lets go of it.
    fn let_go(&mut self, reason: WaitReason, task: TaskId)
        requires { is_for_an_object reason ≡ true → names task (next_at self.old reason) ≡ true }
        ensures { self.new ≡ let_go self.old reason }
    {
        match reason {
            WaitReason::Semaphore(_) => self.sems.free(task),
            WaitReason::Flag(_) => self.flags.free(task),
            WaitReason::Send(_, _) | WaitReason::Receive(_) => self.dtqs.free(task),
            WaitReason::Sleep | WaitReason::Delay | WaitReason::Outside => {}
        }
    }

    /// Takes out the call that ends next.
    fn take_next(&mut self) -> Option<WaitingCall>
        ensures call { next_call self.old ≡ paired result self.new.waits }
        ensures parts { self.new ≡ record self.old { waits = self.new.waits } }
        ensures none { result ≡ None → self.new ≡ self.old }
        ensures named { (w : AWaitingCall) → result ≡ Some w → is_named self.new w ≡ true }
        ensures fewer { (w : AWaitingCall) → result ≡ Some w → length self.new.waits + 1 ≡ length self.old.waits }
    {
        match self.next_place() {
            Some(place) => Some(self.waits.remove(place)),
            None => None,
        }
    }

    /// Ends a call that was taken out, which is named.
    fn end(&mut self, wait: WaitingCall) -> KEnd
        requires { is_named self.old wait ≡ true }
        ensures parts { self.new ≡ freed_from self.old wait }
        ensures end { result ≡ end_told self.old wait }
    {
        let next = self.next_at(wait.reason);
        self.let_go(wait.reason, wait.task);
        self.tasks.wake(wait.task);
        ending(wait, E_OK, bytes_told(next))
    }

    /// While a call is named, it ends.
    pub(crate) fn settle(&mut self, done: &mut Done)
        requires { length done.old.ends.items ≤ 16 }
        ensures parts { self.new ≡ (settle (length self.old.waits) self.old).0 }
        ensures ends { done.new.ends.items ≡ done.old.ends.items ++ (settle (length self.old.waits) self.old).1 }
        ensures answer { done.new.ans ≡ done.old.ans }
        ensures gone { done.new.gone ≡ done.old.gone }
        ensures begun { done.new.begun ≡ done.old.begun }
    {
        let _ = self.waits.len();
        while let Some(wait) = self.take_next() {
            let end = self.end(wait);
            done.ends.push(end);
        }
    }
}
