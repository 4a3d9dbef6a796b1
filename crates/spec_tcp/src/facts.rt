/// What an event leaves for the emission at its end; before and after an event there is nothing of it.
#[derive(Clone, Copy, Debug, Default, PartialEq, Eq)]
pub struct Facts {
    /// The connection was opened.
    pub started: bool,
    /// The retransmission time expired.
    pub expired: bool,
    /// The connection broke.
    pub broke: bool,
    /// The connection was given up by this side.
    pub aborted: bool,
    /// An acknowledgement is owed.
    pub owes: bool,
    /// The sequence number of a reset that a segment has drawn.
    pub reset: Option<u32>,
}
