//! Calls that wait no longer since a row ends them.

ghost use Rattle.std.specs.Prelude.{◌≡◌, ◌<◌, ◌≤◌, ◌+◌, length};
ghost use Rattle.spec_kernel.specs.Rows.{ended_call};
ghost use Rattle.k_core.specs.Found.{paired};
ghost use Rattle.k_core.specs.PartsRows.{PartsOutcome, handed_over, left_by, without_call};
ghost use Rattle.k_core.specs.Does.{Does};

use crate::Done;
use crate::done::ending;
use crate::parts::Parts;
use crate::searching::take_out;
use it_types::{E_OK, TaskId};
use spec_kernel::WaitingCall;

impl Parts {
    /// The task waits at no object.
    pub(crate) fn leave(&mut self, task: TaskId)
        ensures { self.new ≡ left_by self.old task }
    {
        self.sems.leave(task);
        self.flags.leave(task);
        self.dtqs.leave(task);
    }

    /// Takes out the call of a task that waits no longer.
    pub(crate) fn end_freed(&mut self, freed: Option<TaskId>) -> Option<WaitingCall>
        ensures parts { self.new ≡ without_call self.old (ended_call self.old.waits self.old.tasks freed) }
        ensures call { ended_call self.old.waits self.old.tasks freed ≡ paired result self.new.waits }
    {
        let task = freed?;
        if self.tasks.is_waiting(task) {
            return None;
        }
        let wait = take_out(&mut self.waits, task)?;
        self.leave(wait.task);
        Some(wait)
    }

    /// A call on a data queue without capacity has ended that of another task, if it has: that end comes first.
    pub(crate) fn end_handed(&mut self, done: &mut Done)
        requires { length done.old.ends.items < 32 }
        ensures few { length done.new.ends.items ≤ length done.old.ends.items + 1 }
        ensures does { (o : PartsOutcome) → Does self.old done.old o → Does self.new done.new (handed_over o) }
    {
        if self.dtqs.handed().is_none() {
            return;
        }
        if let Some((task, _, bytes)) = self.dtqs.next_ready() {
            self.dtqs.free(task);
            if let Some(wait) = take_out(&mut self.waits, task) {
                self.tasks.wake(wait.task);
                done.ends.push(ending(wait, E_OK, bytes));
            }
        }
    }
}
