use crate::keys::Key;

/// What there are too many of.
#[derive(Clone, Copy, Debug, PartialEq, Eq)]
pub enum Many {
    /// More than `NODES_MAX` nodes.
    Nodes,
    /// More than 512 nodes with an address.
    EdgeNodes,
    /// More than `LINKS_MAX` links.
    Links,
}

/// Why nodes and edges make no topology. Nodes and edges are numbered from 0.
#[derive(Clone, Copy, Debug, PartialEq, Eq)]
pub enum TopoFault {
    /// A limit is passed.
    TooMany(Many),
    /// The first node whose id an earlier node has.
    DuplicateId(u32),
    /// The first node whose address an earlier node has.
    DuplicateAddress(u32),
    /// An edge whose source or target is no node's id.
    UnknownNode(u32),
    /// An edge, and the first of its bandwidth, latency, queue and loss that is out of its range.
    Range(u32, Key),
}
