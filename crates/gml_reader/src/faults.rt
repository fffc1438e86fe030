use topo::{Key, TopoFault};

/// Of what a key is missing or of the wrong kind. Nodes and edges are numbered from 0, in the order of the text.
#[derive(Clone, Copy, Debug, PartialEq, Eq)]
pub enum Item {
    /// The graph itself.
    Graph,
    /// A node.
    Node(u32),
    /// An edge.
    Edge(u32),
}

/// The first fault of a GML text. Places count bytes from 0.
#[derive(Clone, Copy, Debug, PartialEq, Eq)]
pub enum GmlFault {
    /// From this place on the bytes are neither blank, comment nor token.
    Lex {
        /// The first such place.
        place: u32,
    },
    /// The tokens up to and with the one that begins here begin no file; or the text ends in an open list or after a key.
    Grammar {
        /// The start of that token, or the text's length.
        place: u32,
    },
    /// A list is opened at depth 33.
    TooDeep {
        /// The place of its Left.
        place: u32,
    },
    /// No pair of the file has the key `graph` and a list as value.
    NoGraph,
    /// A required key isn't there.
    Missing {
        /// Of what.
        item: Item,
        /// Which.
        key: Key,
    },
    /// A value is of the wrong kind.
    Kind {
        /// Of what.
        item: Item,
        /// Which.
        key: Key,
    },
    /// An address that isn't four numbers of at most 255, joined by points.
    BadAddress {
        /// The node's number.
        node: u32,
    },
    /// What was read makes no topology.
    Topo(TopoFault),
}
