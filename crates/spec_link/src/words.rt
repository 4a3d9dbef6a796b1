/// The words that a packet draws: how often it is delivered, and when its first and its second copy is due.
#[derive(Clone, Copy, Debug, PartialEq, Eq)]
pub struct Words {
    pub fate: u32,
    pub first: u32,
    pub second: u32,
}
