/// A part of the send sequence space that goes out in one segment: `len` bytes of data from the position `at` on, or the FIN,
/// which stands at `at` and has the length 0 here.
#[derive(Clone, Copy, Debug, Default, PartialEq, Eq)]
pub struct Part {
    pub at: u64,
    pub len: u32,
}
