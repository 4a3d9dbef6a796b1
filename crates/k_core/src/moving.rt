//! A task with a new priority that waits.

ghost use Rattle.std.specs.Prelude.{◌≡◌, ◌<◌, ◌≤◌, ◌^◌, length};
ghost use Rattle.std.specs.List.{position};
ghost use Rattle.k_core.specs.PartsRows.{is_ordered, last_in_its_queue, moved_unless_refused, reprioritised, waits_in_order};
ghost use Rattle.spec_kernel.specs.TaskRows.{TaskDone, named};
ghost use Rattle.k_core.specs.PartsRows.{done_at_once};
ghost use Rattle.k_core.specs.Does.{Does};

use crate::parts::Parts;
use it_types::{Ctx, TaskId};
use spec_kernel::{WaitReason, WaitingCall};

/// The task that a request names: 0 is the caller.
pub(crate) fn named(ctx: Ctx, task: TaskId) -> TaskId
    ensures { result ≡ named ctx task }
{
    if task.0 == 0 { ctx.caller() } else { task }
}

impl Parts {
    /// A task that waits for this waits by priority.
    fn is_ordered(&self, reason: WaitReason) -> bool
        ensures { result ≡ is_ordered self.now reason }
    {
        self.sems.is_by_priority(reason)
            || self.flags.is_by_priority(reason)
            || self.dtqs.is_by_priority(reason)
    }

    /// It is a call of the task, which waits by priority.
    fn waits_in_order(&self, wait: &WaitingCall, task: TaskId) -> bool
        ensures { result ≡ waits_in_order self.now task wait.now }
    {
        wait.task.0 == task.0 && self.is_ordered(wait.reason)
    }

    fn place_in_order(&self, task: TaskId) -> Option<usize>
        ensures place { result ≡ position (waits_in_order self.now task) self.now.waits }
        ensures fits { length self.now.waits ≤ 16 }
    {
        self.waits
            .as_slice()
            .iter()
            .position(|wait| self.waits_in_order(wait, task))
    }

    /// The call of a task that waits by priority has a new rank, and the priority that its task has now.
    pub(crate) fn move_last(&mut self, task: TaskId)
        requires ranks { self.old.tasks.next_rank < 2 ^ 60 }
        ensures { self.new ≡ last_in_its_queue self.old task }
    {
        if let Some(place) = self.place_in_order(task) {
            let wait = self.waits.remove(place);
            let pri = self.tasks.pri(wait.task);
            let rank = self.tasks.rank();
            self.sems.reprioritise(wait.task, pri, rank);
            self.flags.reprioritise(wait.task, pri, rank);
            self.dtqs.reprioritise(wait.task, pri, rank);
            self.waits.push(WaitingCall { rank, ..wait });
        }
    }
}
