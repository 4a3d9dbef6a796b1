use it_types::{CepId, FnCode};

/// The parts of an end point, at each of which one call waits at most.
#[derive(Clone, Copy, Debug, PartialEq, Eq)]
pub enum Part {
    /// Its connection.
    Conn,
    /// What it sends.
    Send,
    /// What it receives.
    Recv,
}

/// Where a call waits: the protocol, UDP or else TCP, the end point, its part, and the function of the call.
#[derive(Clone, Copy, Debug, PartialEq, Eq)]
pub struct Slot {
    pub udp: bool,
    pub cep: CepId,
    pub part: Part,
    pub func: FnCode,
}

impl Default for Slot {
    /// The connection of no end point.
    fn default() -> Self {
        Slot {
            udp: false,
            cep: CepId(0),
            part: Part::Conn,
            func: FnCode::All,
        }
    }
}
