use it_types::{Bytes, Ctx, Req, TaskId};

/// One event of a node.
#[derive(Debug, Drop)]
pub enum NodeEv {
    /// A task or a handler makes a call.
    Call(Ctx, Req),
    /// A task learns how its call ended.
    Return(TaskId),
    /// The first due handler begins.
    Begin,
    /// The handler that has begun ends.
    Finish,
    /// A tick of the node's clock.
    Tick,
    /// The bytes of a packet reach the node.
    Arrive(Bytes),
}
