//! The changes of what is kept of one task, in the table of all.

ghost use Rattle.std.specs.Prelude.{◌≡◌};
ghost use Rattle.spec_lists.specs.Tables.{change};
ghost use Rattle.spec_kernel.specs.TaskBlocks.{begun, changed, dormant, one_activation_less, one_activation_more, one_suspension_more, one_wakeup_less, one_wakeup_more, with_priority, with_suspensions, without_activations, without_wakeups};

use crate::blocks::one_more;
use crate::tasks::MAX_TASKS;
use it_types::{Table, TaskId};
use spec_kernel::TaskBlock;

/// The task is active, with its initial priority, and neither wake-ups nor suspensions are kept of it.
pub(crate) fn make_active(tasks: &mut Table<TaskBlock, MAX_TASKS>, task: TaskId)
    ensures { tasks.new ≡ change tasks.old task.0 (changed begun) }
{
    if let Some(block) = tasks.get_mut(task.0) {
        block.active = true;
        block.priority = block.initial_priority;
        block.wakeups = 0;
        block.suspensions = 0;
    }
}

pub(crate) fn make_dormant(tasks: &mut Table<TaskBlock, MAX_TASKS>, task: TaskId)
    ensures { tasks.new ≡ change tasks.old task.0 (changed dormant) }
{
    if let Some(block) = tasks.get_mut(task.0) {
        block.active = false;
    }
}

pub(crate) fn raise_activations(tasks: &mut Table<TaskBlock, MAX_TASKS>, task: TaskId)
    ensures { tasks.new ≡ change tasks.old task.0 (changed one_activation_more) }
{
    if let Some(block) = tasks.get_mut(task.0) {
        block.activations = one_more(block.activations);
    }
}

pub(crate) fn lower_activations(tasks: &mut Table<TaskBlock, MAX_TASKS>, task: TaskId)
    ensures { tasks.new ≡ change tasks.old task.0 (changed one_activation_less) }
{
    if let Some(block) = tasks.get_mut(task.0) {
        block.activations = block.activations.saturating_sub(1);
    }
}

pub(crate) fn clear_activations(tasks: &mut Table<TaskBlock, MAX_TASKS>, task: TaskId)
    ensures { tasks.new ≡ change tasks.old task.0 (changed without_activations) }
{
    if let Some(block) = tasks.get_mut(task.0) {
        block.activations = 0;
    }
}

pub(crate) fn raise_wakeups(tasks: &mut Table<TaskBlock, MAX_TASKS>, task: TaskId)
    ensures { tasks.new ≡ change tasks.old task.0 (changed one_wakeup_more) }
{
    if let Some(block) = tasks.get_mut(task.0) {
        block.wakeups = one_more(block.wakeups);
    }
}

pub(crate) fn lower_wakeups(tasks: &mut Table<TaskBlock, MAX_TASKS>, task: TaskId)
    ensures { tasks.new ≡ change tasks.old task.0 (changed one_wakeup_less) }
{
    if let Some(block) = tasks.get_mut(task.0) {
        block.wakeups = block.wakeups.saturating_sub(1);
    }
}

pub(crate) fn clear_wakeups(tasks: &mut Table<TaskBlock, MAX_TASKS>, task: TaskId)
    ensures { tasks.new ≡ change tasks.old task.0 (changed without_wakeups) }
{
    if let Some(block) = tasks.get_mut(task.0) {
        block.wakeups = 0;
    }
}

pub(crate) fn raise_suspensions(tasks: &mut Table<TaskBlock, MAX_TASKS>, task: TaskId)
    ensures { tasks.new ≡ change tasks.old task.0 (changed one_suspension_more) }
{
    if let Some(block) = tasks.get_mut(task.0) {
        block.suspensions = one_more(block.suspensions);
    }
}

pub(crate) fn set_suspensions(tasks: &mut Table<TaskBlock, MAX_TASKS>, task: TaskId, left: u32)
    ensures { tasks.new ≡ change tasks.old task.0 (changed (with_suspensions left)) }
{
    if let Some(block) = tasks.get_mut(task.0) {
        block.suspensions = left;
    }
}

/// Gives the task a priority; 0 is its initial one.
pub(crate) fn set_priority(tasks: &mut Table<TaskBlock, MAX_TASKS>, task: TaskId, priority: u32)
    ensures { tasks.new ≡ change tasks.old task.0 (changed (with_priority priority)) }
{
    if let Some(block) = tasks.get_mut(task.0) {
        block.priority = if priority == 0 {
            block.initial_priority
        } else {
            priority
        };
    }
}
