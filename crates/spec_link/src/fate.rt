/// What becomes of a packet on its way: how often it is delivered, and how many ticks after its sending each copy is due.
#[derive(Clone, Copy, Debug, PartialEq, Eq)]
pub enum Fate {
    Lost,
    Once { after: u64 },
    Twice { first: u64, second: u64 },
}
