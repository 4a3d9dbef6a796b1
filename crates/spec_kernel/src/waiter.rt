use crate::WaitReason;
use it_types::TaskId;

/// A task that waits at an object: why, the priority that counts there, which is 0 where tasks wait by arrival, and its rank.
#[derive(Clone, Copy, Debug, Default)]
pub struct Waiter {
    pub task: TaskId,
    pub reason: WaitReason,
    pub urgency: u32,
    pub rank: u64,
}
