/// What a task waits for, as far as the calls on tasks go by it (µITRON4.0 section 4.2).
#[derive(Clone, Copy, Debug)]
pub enum TaskWait {
    /// A wake-up.
    Sleep,
    /// Something else: the end of a delay, an object of the kernel, or the network part.
    Other,
}
