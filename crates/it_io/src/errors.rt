/// The one answer of a read or a write that failed. What failed is not told: a source or sink
/// counts it.
#[derive(Debug, Clone, Copy, PartialEq, Eq)]
pub struct Failed;
