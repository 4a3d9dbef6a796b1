use it_types::CepId;

/// Names the connection of a window.
#[derive(Clone, Copy, Debug, Default, PartialEq, Eq)]
pub struct WinKey {
    /// The address of the node.
    pub addr: u32,
    /// The end point of the connection.
    pub cep: CepId,
    /// The position at which the connection starts.
    pub start: u64,
}
