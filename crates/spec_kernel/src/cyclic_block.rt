/// What the kernel keeps of a declared cyclic handler (µITRON4.0 section 4.7.2): its period in ticks, whether it runs, and the
/// tick at which it is due next.
#[derive(Clone, Copy, Debug)]
pub struct CyclicBlock {
    pub period: u32,
    pub runs: bool,
    pub due: u64,
}
