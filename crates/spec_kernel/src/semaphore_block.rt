/// What the kernel keeps of a declared semaphore (µITRON4.0 section 4.4.1): whether tasks wait by priority, its count, and its
/// maximum from 1 to 65,535.
#[derive(Clone, Copy, Debug, Default)]
pub struct SemaphoreBlock {
    pub by_priority: bool,
    pub count: u32,
    pub max: u32,
}
