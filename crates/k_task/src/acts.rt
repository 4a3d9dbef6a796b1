//! What happens to one task: it begins, ends, waits, is released, suspended or resumed, or is the last in order.

ghost use Rattle.std.specs.Prelude.{◌≡◌, ◌≤◌, ◌||◌, false, true, is_none, nat_lt};
ghost use Rattle.spec_kernel.specs.TaskBlocks.{is_active, is_suspended, one_suspension_more};
ghost use Rattle.spec_kernel.specs.PlainTasks.{block_of, has_priority, is_same, is_waiting, last_in_order, leaving, released, waiting, with_task};
ghost use Rattle.spec_kernel.specs.TaskRows.{begun_anew, laid_down, resumed};

use crate::Tasks;
use crate::blocks::{is_active, is_suspended};
use crate::order::{self, take_out};
use crate::table::{make_active, make_dormant, raise_suspensions, set_suspensions};
use it_types::TaskId;
use spec_kernel::TaskWait;

impl Tasks {
    /// A dormant task begins.
    pub(crate) fn begin(&mut self, task: TaskId)
        requires there { is_none (block_of self.old task) ≡ false }
        requires dormant { is_active (block_of self.old task) ≡ false }
        ensures { self.new ≡ begun_anew self.old task }
    {
        make_active(&mut self.tasks, task);
        self.runnable.push(task);
    }

    /// A task is dormant, and waits no longer.
    pub(crate) fn lay_down(&mut self, task: TaskId)
        ensures { self.new ≡ laid_down self.old task }
    {
        make_dormant(&mut self.tasks, task);
        self.waits.take(task.0);
        take_out(&mut self.runnable, task);
    }

    /// An active task that doesn't wait begins to.
    pub(crate) fn wait_for(&mut self, task: TaskId, what: TaskWait)
        ensures { self.new ≡ waiting self.old task what }
    {
        if is_active(self.block(task)) && !self.is_waiting(task) {
            let _ = self.waits.put(task.0, what);
            take_out(&mut self.runnable, task);
        }
    }

    /// The wait of a task is over.
    pub(crate) fn release(&mut self, task: TaskId)
        requires { is_waiting self.old task ≡ true }
        ensures { self.new ≡ released self.old task }
    {
        let stays = is_suspended(self.block(task));
        self.waits.take(task.0);
        if !stays {
            self.runnable.push(task);
        }
    }

    /// One more suspension is kept of a task.
    pub(crate) fn suspend(&mut self, task: TaskId)
        ensures { self.new ≡ leaving (with_task self.old task one_suspension_more) task }
    {
        raise_suspensions(&mut self.tasks, task);
        take_out(&mut self.runnable, task);
    }

    /// So many suspensions are left of a suspended task.
    pub(crate) fn resume(&mut self, task: TaskId, left: u32)
        requires active { is_active (block_of self.old task) ≡ true }
        requires suspended { is_suspended (block_of self.old task) ≡ true }
        requires fewer { left ≤ 255 }
        ensures { self.new ≡ resumed self.old task left }
    {
        let stays = self.stays_out(task, left);
        set_suspensions(&mut self.tasks, task, left);
        if !stays {
            self.runnable.push(task);
        }
    }

    /// With so many suspensions left, or since it waits, the task isn't runnable.
    fn stays_out(&self, task: TaskId, left: u32) -> bool
        ensures { result ≡ (nat_lt 0 left || is_waiting self.now task) }
    {
        left > 0 || self.is_waiting(task)
    }

    /// A runnable task is the last in order.
    pub(crate) fn rank_anew(&mut self, task: TaskId)
        ensures { self.new ≡ last_in_order (is_same task) self.old }
    {
        order::rank_anew(&mut self.runnable, task);
    }

    /// The first runnable task of a priority is the last in order.
    pub(crate) fn rotate(&mut self, priority: u32)
        ensures { self.new ≡ last_in_order (has_priority self.old.tasks priority) self.old }
    {
        order::rotate(&mut self.runnable, &self.tasks, priority);
    }
}
