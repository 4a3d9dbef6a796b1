use crate::Decl;
use it_types::List;

/// A script for two nodes.
#[derive(Debug, Drop)]
pub struct Script {
    /// The key of the link's fates, then how many of 16 packets are lost, how many come twice, and the greatest delay in ticks.
    pub link: [u64; 4],
    /// How many ticks each node has at most.
    pub ticks: u32,
    /// Nodes 0 and 1.
    pub nodes: [NodeDecl; 2],
}

/// A node of a script.
#[derive(Debug, Drop)]
pub struct NodeDecl {
    /// The node's IPv4 address.
    pub addr: u32,
    /// The wire number of its sequence position 0.
    pub isn0: u32,
    /// The position at which its line of sequence positions begins.
    pub top0: u64,
    /// Its declarations, in the order of the script.
    pub decls: List<Decl>,
}
