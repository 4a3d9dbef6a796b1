//! What is kept of one task.

ghost use Rattle.std.specs.Prelude.{◌≡◌};
ghost use Rattle.spec_kernel.specs.TaskBlocks.{activations_of, is_active, is_suspended, one_more, priority_of, suspensions_of, wakeups_of};

use spec_kernel::TaskBlock;

/// The greatest count of activations, of wake-ups and of suspensions.
pub(crate) const GREATEST_COUNT: u32 = 255;

/// One more, up to the greatest count.
pub(crate) fn one_more(count: u32) -> u32
    ensures { result ≡ one_more count }
{
    if count >= GREATEST_COUNT {
        count
    } else {
        count + 1
    }
}

/// The priority of a task; 0 where there is none.
pub(crate) fn priority_of(block: Option<TaskBlock>) -> u32
    ensures { result ≡ priority_of block }
{
    match block {
        Some(block) => block.priority,
        None => 0,
    }
}

pub(crate) fn is_active(block: Option<TaskBlock>) -> bool
    ensures { result ≡ is_active block }
{
    match block {
        Some(block) => block.active,
        None => false,
    }
}

pub(crate) fn is_suspended(block: Option<TaskBlock>) -> bool
    ensures { result ≡ is_suspended block }
{
    suspensions_of(block) > 0
}

pub(crate) fn activations_of(block: Option<TaskBlock>) -> u32
    ensures { result ≡ activations_of block }
{
    match block {
        Some(block) => block.activations,
        None => 0,
    }
}

pub(crate) fn wakeups_of(block: Option<TaskBlock>) -> u32
    ensures { result ≡ wakeups_of block }
{
    match block {
        Some(block) => block.wakeups,
        None => 0,
    }
}

pub(crate) fn suspensions_of(block: Option<TaskBlock>) -> u32
    ensures { result ≡ suspensions_of block }
{
    match block {
        Some(block) => block.suspensions,
        None => 0,
    }
}
