//! The counts and the priority of one task.

ghost use Rattle.std.specs.Prelude.{◌≡◌, ◌≤◌};
ghost use Rattle.spec_kernel.specs.TaskBlocks.{activations_of, one_activation_less, one_activation_more, one_wakeup_less, one_wakeup_more, suspensions_of, wakeups_of, with_priority, without_activations, without_wakeups};
ghost use Rattle.spec_kernel.specs.PlainTasks.{block_of, with_task};

use crate::blocks::{activations_of, suspensions_of, wakeups_of};
use crate::{Tasks, table};
use it_types::TaskId;

impl Tasks {
    pub(crate) fn activations(&self, task: TaskId) -> u32
        ensures count { result ≡ activations_of (block_of self.now task) }
        ensures few { result ≤ 255 }
    {
        let _ = &self.tasks;
        activations_of(self.block(task))
    }

    pub(crate) fn wakeups(&self, task: TaskId) -> u32
        ensures count { result ≡ wakeups_of (block_of self.now task) }
        ensures few { result ≤ 255 }
    {
        let _ = &self.tasks;
        wakeups_of(self.block(task))
    }

    pub(crate) fn suspensions(&self, task: TaskId) -> u32
        ensures count { result ≡ suspensions_of (block_of self.now task) }
        ensures few { result ≤ 255 }
    {
        let _ = &self.tasks;
        suspensions_of(self.block(task))
    }

    pub(crate) fn add_activation(&mut self, task: TaskId)
        ensures { self.new ≡ with_task self.old task one_activation_more }
    {
        table::raise_activations(&mut self.tasks, task);
    }

    pub(crate) fn take_activation(&mut self, task: TaskId)
        ensures { self.new ≡ with_task self.old task one_activation_less }
    {
        table::lower_activations(&mut self.tasks, task);
    }

    pub(crate) fn clear_activations(&mut self, task: TaskId)
        ensures { self.new ≡ with_task self.old task without_activations }
    {
        table::clear_activations(&mut self.tasks, task);
    }

    pub(crate) fn add_wakeup(&mut self, task: TaskId)
        ensures { self.new ≡ with_task self.old task one_wakeup_more }
    {
        table::raise_wakeups(&mut self.tasks, task);
    }

    pub(crate) fn take_wakeup(&mut self, task: TaskId)
        ensures { self.new ≡ with_task self.old task one_wakeup_less }
    {
        table::lower_wakeups(&mut self.tasks, task);
    }

    pub(crate) fn clear_wakeups(&mut self, task: TaskId)
        ensures { self.new ≡ with_task self.old task without_wakeups }
    {
        table::clear_wakeups(&mut self.tasks, task);
    }

    /// Gives the task a priority; 0 is its initial one.
    pub(crate) fn set_priority(&mut self, task: TaskId, priority: u32)
        ensures { self.new ≡ with_task self.old task (with_priority priority) }
    {
        table::set_priority(&mut self.tasks, task, priority);
    }
}
