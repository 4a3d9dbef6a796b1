use it_types::TaskId;

/// The task whose call a call on a data queue without capacity has ended (µITRON4.0 section 4.4.3), and the item that it gets, if
/// it receives.
#[derive(Clone, Copy, Debug)]
pub struct Handed {
    pub task: TaskId,
    pub item: Option<u32>,
}
