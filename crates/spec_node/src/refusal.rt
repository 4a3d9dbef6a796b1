/// Why a node takes no step.
#[derive(Clone, Copy, Debug, PartialEq, Eq)]
pub enum StepErr {
    /// An earlier step ran out of memory.
    Ended,
    /// The node does not admit the event.
    NotAdmitted,
    /// Memory ran out in this step, which ends the node.
    NoMemory,
}
