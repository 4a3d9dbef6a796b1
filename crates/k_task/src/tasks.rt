ghost use Rattle.std.specs.Prelude.{◌≡◌, ◌<◌, ◌+◌, ◌^◌};
ghost use Rattle.std.specs.List.{list_any};
ghost use Rattle.spec_kernel.specs.TaskBlocks.{is_active, priority_of};
ghost use Rattle.spec_kernel.specs.PlainTasks.{block_of, is_asleep, is_waiting, is_woken, running, waiting, woken};
ghost use Rattle.spec_kernel.specs.declared.task_wait.TaskWait.TheVariants.{Other};
ghost use Rattle.k_task.specs.Kept.{Standing};

use crate::blocks::priority_of;
use crate::order::first_of;
use arrayvec::ArrayVec;
use it_types::{GREATEST_ID, Table, TaskId};
use spec_kernel::{TaskBlock, TaskWait};
use std::marker::Model;

/// The most tasks that there can be.
pub(crate) const MAX_TASKS: usize = 16;

/// The tasks of a kernel by their ids, what those wait for that wait, and those that are runnable, in the order in which they
/// became so. After its opening it takes no memory.
#[derive(Debug, Drop)]
pub struct Tasks {
    pub(crate) tasks: Table<TaskBlock, MAX_TASKS>,
    pub(crate) waits: Table<TaskWait, MAX_TASKS>,
    pub(crate) runnable: ArrayVec<TaskId, MAX_TASKS>,
    pub(crate) next_rank: u64,
}

impl Model for Tasks {
    ghost use Rattle.spec_kernel.specs.PlainTasks.{PlainTasks};
    ghost use Rattle.k_task.specs.Kept.{Kept};

    ghost Value = { PlainTasks };

    ghost view = { λ t. record { tasks = t.tasks; waits = t.waits; runnable = t.runnable.items; next_rank = t.next_rank } };

    ghost invariant = { λ t. Kept (record { tasks = t.tasks; waits = t.waits; runnable = t.runnable.items; next_rank = t.next_rank }) };
}

impl Tasks {
    /// The running task, 0 for none (µITRON4.0 section 3.2): of the runnable tasks of the least priority the one that became
    /// runnable first.
    pub fn running(&self) -> TaskId
        ensures task { result ≡ running self.now }

        // Runnable is a task that is active, not suspended, and doesn't wait.
        ensures standing { Standing self.now }
    {
        first_of(&self.tasks, self.runnable.as_slice())
    }

    /// Whether a task is active.
    pub fn is_any_active(&self) -> bool
        ensures { result ≡ list_any is_active self.now.tasks }
    {
        for id in 1..=GREATEST_ID {
            if self.tasks.get(id).is_some_and(|block| block.active) {
                return true;
            }
        }
        false
    }

    /// The priority of a task; 0 where there is no such task.
    pub fn pri(&self, task: TaskId) -> u32
        ensures { result ≡ priority_of (block_of self.now task) }
    {
        priority_of(self.block(task))
    }

    /// A task that is active and doesn't wait begins to wait, for something that isn't a wake-up; any other stays as it is.
    pub fn wait(&mut self, task: TaskId)
        ensures { self.new ≡ waiting self.old task Other }
    {
        self.wait_for(task, TaskWait::Other);
    }

    /// The wait of a task is over: it is runnable, the last in order, unless it is suspended. One that slept has taken a
    /// wake-up, where it had one. A task that doesn't wait stays as it is.
    pub fn wake(&mut self, task: TaskId)
        ensures { self.new ≡ woken self.old task }
    {
        if self.is_waiting(task) {
            if self.is_asleep(task) {
                self.take_wakeup(task);
            }
            self.release(task);
        }
    }

    /// The next number for those that keep the order of ranks in numbers: each is greater than all before it.
    pub fn rank(&mut self) -> u64
        requires counts { self.old.next_rank < 2 ^ 61 }
        ensures rank { result ≡ self.old.next_rank }
        ensures next { self.new ≡ record self.old { next_rank = self.old.next_rank + 1 } }
    {
        let rank = self.next_rank;
        self.next_rank += 1;
        rank
    }

    /// The number that `rank` gives next.
    pub fn next_rank(&self) -> u64
        ensures { result ≡ self.now.next_rank }
    {
        self.next_rank
    }

    /// Whether a task sleeps and has a wake-up: its call is met, and `wake` is to end its wait.
    pub fn is_woken(&self, task: TaskId) -> bool
        ensures { result ≡ is_woken self.now task }
    {
        self.is_asleep(task) && self.wakeups(task) > 0
    }

    /// What is kept of a task, None where there is no such task.
    pub(crate) fn block(&self, task: TaskId) -> Option<TaskBlock>
        ensures { result ≡ block_of self.now task }
    {
        match self.tasks.get(task.0) {
            Some(block) => Some(*block),
            None => None,
        }
    }

    /// Whether a call of the task waits.
    pub fn is_waiting(&self, task: TaskId) -> bool
        ensures { result ≡ is_waiting self.now task }
    {
        self.waits.get(task.0).is_some()
    }

    pub(crate) fn is_asleep(&self, task: TaskId) -> bool
        ensures { result ≡ is_asleep self.now task }
    {
        match self.waits.get(task.0) {
            Some(TaskWait::Sleep) => true,
            Some(TaskWait::Other) | None => false,
        }
    }
}
