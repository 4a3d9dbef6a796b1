/// What the kernel keeps of a declared event flag (µITRON4.0 section 4.4.2): whether tasks wait by priority, whether several may
/// wait, whether the end of a wait clears it, and its pattern.
#[derive(Clone, Copy, Debug, Default)]
pub struct FlagBlock {
    pub by_priority: bool,
    pub many: bool,
    pub clears: bool,
    pub pattern: u32,
}
