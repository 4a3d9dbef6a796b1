use crate::Who;
use it_types::{Bytes, CallNo, Er};

/// What an event of the network part is answered at once.
#[derive(Debug, Drop)]
pub enum NetAnswer {
    /// The call has this code and these bytes.
    Now(Er, Bytes),
    /// The call was accepted, and its task waits.
    Pends,
    /// The call was accepted, and its task goes on (ITRON TCP/IP API, non-blocking calls).
    Later,
    /// Nothing is answered.
    Quiet,
}

/// The end of a call that was accepted.
#[derive(Debug, Drop)]
pub struct NetEnd {
    pub call: CallNo,
    pub who: Who,
    pub code: Er,
    pub bytes: Bytes,
}
