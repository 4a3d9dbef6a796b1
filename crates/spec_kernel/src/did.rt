use it_types::{Er, TaskId};

/// What a call on tasks comes to.
#[derive(Clone, Copy, Debug)]
pub struct Did {
    /// The code of its answer; `E_OK` where the caller waits.
    pub code: Er,
    /// The number in the answer's bytes, if it has some.
    pub value: Option<u32>,
    /// Whether the call isn't met: its caller waits, but for a poll.
    pub wait: bool,
    /// The task whose waiting call ends by it.
    pub freed: Option<TaskId>,
    /// The task that ended.
    pub gone: Option<TaskId>,
    /// The task that began.
    pub begun: Option<TaskId>,
}
