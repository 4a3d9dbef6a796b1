//! The order of the runnable tasks.

ghost use Rattle.std.specs.Prelude.{◌≡◌};
ghost use Rattle.std.specs.List.{position};
ghost use Rattle.spec_lists.specs.First.{take_first};
ghost use Rattle.spec_lists.specs.Tables.{get};
ghost use Rattle.spec_kernel.specs.TaskBlocks.{priority_of as plain_priority};
ghost use Rattle.spec_kernel.specs.PlainTasks.{first_of, has_priority, is_same, to_the_end, without};

use crate::tasks::MAX_TASKS;
use arrayvec::ArrayVec;
use it_types::{Table, TaskId};
use spec_kernel::TaskBlock;

/// The priority of a task; 0 where there is no such task.
fn priority_in(tasks: &Table<TaskBlock, MAX_TASKS>, task: TaskId) -> u32
    ensures { result ≡ plain_priority (get tasks.now task.0) }
{
    match tasks.get(task.0) {
        Some(block) => block.priority,
        None => 0,
    }
}

/// The first of the runnable tasks of the least priority; 0 for none.
pub(crate) fn first_of(tasks: &Table<TaskBlock, MAX_TASKS>, runnable: &[TaskId]) -> TaskId
    ensures { result ≡ first_of tasks.now runnable.now }
{
    let [first, others @ ..] = runnable else {
        return TaskId(0);
    };
    let mut best = *first;
    for task in others {
        if priority_in(tasks, *task) < priority_in(tasks, best) {
            best = *task;
        }
    }
    best
}

/// Takes a task out of the runnable ones.
pub(crate) fn take_out(runnable: &mut ArrayVec<TaskId, MAX_TASKS>, task: TaskId)
    ensures { runnable.new.items ≡ without task runnable.old.items }
{
    runnable.retain(|other| other.0 != task.0);
}

/// The place of a task.
fn place_of(runnable: &[TaskId], task: TaskId) -> Option<usize>
    ensures { result ≡ position (is_same task) runnable.now }
{
    runnable.iter().position(|other| other.0 == task.0)
}

/// The place of the first task of a priority.
fn place_of_first(
    tasks: &Table<TaskBlock, MAX_TASKS>,
    runnable: &[TaskId],
    priority: u32,
) -> Option<usize>
    ensures { result ≡ position (has_priority tasks.now priority) runnable.now }
{
    runnable
        .iter()
        .position(|task| priority_in(tasks, *task) == priority)
}

/// A runnable task is the last from now on.
pub(crate) fn rank_anew(runnable: &mut ArrayVec<TaskId, MAX_TASKS>, task: TaskId)
    ensures { runnable.new.items ≡ to_the_end runnable.old.items (take_first (is_same task) runnable.old.items) }
{
    if let Some(place) = place_of(runnable.as_slice(), task) {
        let task = runnable.remove(place);
        runnable.push(task);
    }
}

/// The first runnable task of a priority is the last from now on.
pub(crate) fn rotate(
    runnable: &mut ArrayVec<TaskId, MAX_TASKS>,
    tasks: &Table<TaskBlock, MAX_TASKS>,
    priority: u32,
)
    ensures { runnable.new.items ≡ to_the_end runnable.old.items (take_first (has_priority tasks.now priority) runnable.old.items) }
{
    if let Some(place) = place_of_first(tasks, runnable.as_slice(), priority) {
        let task = runnable.remove(place);
        runnable.push(task);
    }
}
