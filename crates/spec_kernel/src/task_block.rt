/// What the kernel keeps of a declared task (µITRON4.0 sections 4.1 and 4.2): whether it is active; its priority at its beginning
/// and now, from 1, the most urgent, to 16; and how many activations, wake-ups and suspensions are kept for it, each 255 at most.
#[derive(Clone, Copy, Debug, Default)]
pub struct TaskBlock {
    pub active: bool,
    pub initial_priority: u32,
    pub priority: u32,
    pub activations: u32,
    pub wakeups: u32,
    pub suspensions: u32,
}
