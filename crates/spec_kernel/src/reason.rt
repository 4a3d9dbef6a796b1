use it_types::{CallNo, ObjId, TaskId};

/// What a task waits for at an event flag (µITRON4.0 section 4.4.2): all of the bits, or one of them.
#[derive(Clone, Copy, Debug)]
pub struct FlagWait {
    pub flag: ObjId,
    pub bits: u32,
    pub all: bool,
}

/// Why a task waits (µITRON4.0 sections 4.2 and 4.4).
#[derive(Clone, Copy, Debug)]
pub enum WaitReason {
    /// For a count of the semaphore.
    Semaphore(ObjId),
    /// For a pattern of an event flag.
    Flag(FlagWait),
    /// For room in the data queue for the item.
    Send(ObjId, u32),
    /// For an item of the data queue.
    Receive(ObjId),
    /// For a wake-up.
    Sleep,
    /// For the end of a delay, and nothing else.
    Delay,
    /// For the end of a call of the network part, which tells the kernel so.
    Outside,
}

impl Default for WaitReason {
    fn default() -> Self {
        WaitReason::Delay
    }
}

/// A call that waits: its number, its task, why it waits, its deadline, which is the tick at which it ends by time, if any, and its
/// rank.
#[derive(Clone, Copy, Debug, Default)]
pub struct WaitingCall {
    pub call: CallNo,
    pub task: TaskId,
    pub reason: WaitReason,
    pub deadline: Option<u64>,
    pub rank: u64,
}
