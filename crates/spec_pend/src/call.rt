use crate::Slot;
use it_types::{CallNo, ObjId, TaskId};

/// Who is told of the end of a call.
#[derive(Clone, Copy, Debug, PartialEq, Eq)]
pub enum Who {
    /// The task that made the call, and waits for it.
    Task(TaskId),
    /// A callback routine; the task that made the call goes on (ITRON TCP/IP API, non-blocking calls).
    Callback(TaskId, ObjId),
}

impl Default for Who {
    /// Nobody.
    fn default() -> Self {
        Who::Task(TaskId(0))
    }
}

/// A call of the network part that waits. Its arguments are kept at its end point.
#[derive(Clone, Copy, Debug, Default, PartialEq, Eq)]
pub struct NetCall {
    pub call: CallNo,
    pub who: Who,
    pub slot: Slot,
}
