use crate::{GmlFault, Item, laws, read_gml};
use mn_base::Refusal;
use std::alloc::{AllocError, Global};
use std::test::Fail;
use topo::{Key, Link, Many, Node, TopoFault};

/// A text is at most so long, in bytes.
const TEXT_MAX: usize = 16_777_216;

const TWO_STUBS: &str = "graph [
  name \"two stubs\"
  node [
    id 0
    label \"a\"
    address \"10.0.0.1\"
  ]
  node [
    id 1
    label \"b\"
    address \"10.0.0.2\"
  ]
  node [
    id 2
    label \"r\"
  ]
  node [
    id 3
    label \"s\"
  ]
  node [
    id 4
    label \"c\"
    address \"10.0.1.1\"
  ]
  node [
    id 5
    label \"d\"
    address \"10.0.1.2\"
  ]
  edge [
    source 0
    target 2
    bandwidth 10000000
    latency 1000
  ]
  edge [
    source 1
    target 2
    bandwidth 10000000
    latency 1000
  ]
  edge [
    source 2
    target 3
    bandwidth 2000000
    latency 20000
    queue 20
    weight 1.5
  ]
  edge [
    source 3
    target 4
    bandwidth 10000000
    latency 1000
  ]
  edge [
    source 3
    target 5
    bandwidth 10000000
    latency 1000
  ]
]
";

const BY_NETWORKX: &str = "graph [
  name \"two hosts &#38; a router\"
  node [
    id 0
    label \"a\"
    address \"10.0.0.1\"
  ]
  node [
    id 1
    label \"r\"
  ]
  node [
    id 2
    label \"b\"
    address \"10.0.0.2\"
    weight 1.5
  ]
  edge [
    source 0
    target 1
    bandwidth \"10000000000\"
    latency 1000
  ]
  edge [
    source 1
    target 2
    bandwidth 8000000
    latency 5000
    queue 20
    loss 100
  ]
]
";

/// Why a text isn't read.
fn refusal_of(alloc: Global, text: &str) -> Option<Refusal<GmlFault>> {
    if text.len() > TEXT_MAX {
        return None;
    }
    read_gml(alloc, text.as_bytes()).err()
}

fn plain(id: u64) -> Node {
    Node { id, address: None }
}

/// A node whose address is 10.0 and then two bytes.
fn with_address(id: u64, third: u8, last: u8) -> Node {
    let address = 167_772_160 + u32::from(third) * 256 + u32::from(last);
    Node {
        id,
        address: Some(address),
    }
}

fn link(from: u32, to: u32, bps: u64, latency_us: u32) -> Link {
    Link {
        from,
        to,
        bps,
        latency_us,
        queue: 50,
        ppm: 0,
    }
}

fn kind(item: Item, key: Key) -> GmlFault {
    GmlFault::Kind { item, key }
}

#[test]
fn faults_of_tokens_and_grammar(rt: HostRuntime) {
    laws::each_text_is_answered();
    laws::never_both();
    laws::one_reading();
    laws::one_fault();
    for (text, fault) in [
        ("graph [ ? ]", GmlFault::Lex { place: 8 }),
        ("graph [ ] ] ?", GmlFault::Lex { place: 12 }),
        ("graph [ node [ id 0 ]", GmlFault::Grammar { place: 21 }),
        ("graph # [", GmlFault::Grammar { place: 9 }),
        ("graph [ ] ]", GmlFault::Grammar { place: 10 }),
        ("graph graph", GmlFault::Grammar { place: 6 }),
        ("graph [ 1 ]", GmlFault::Grammar { place: 8 }),
        ("", GmlFault::NoGraph),
        ("# no graph\n", GmlFault::NoGraph),
        ("graph 1 Graph [ ]", GmlFault::NoGraph),
    ] {
        assert_eq!(rt;
            refusal_of(rt.alloc(), text),
            Some(Refusal::Fault(fault)),
            "of {text}"
        );
    }
}

#[test]
fn faults_of_nodes(rt: HostRuntime) {
    for (text, fault) in [
        (
            "graph [ node 7 directed 2 ]",
            kind(Item::Graph, Key::Directed),
        ),
        (
            "graph [ node [ id 1 ] node 7 ]",
            kind(Item::Node(1), Key::Node),
        ),
        (
            "graph [ node [ ] ]",
            GmlFault::Missing {
                item: Item::Node(0),
                key: Key::Id,
            },
        ),
        ("graph [ node [ id 1.5 ] ]", kind(Item::Node(0), Key::Id)),
        ("graph [ node [ id -0 ] ]", kind(Item::Node(0), Key::Id)),
        (
            "graph [ node [ id 9223372036854775808 ] ]",
            kind(Item::Node(0), Key::Id),
        ),
        (
            "graph [ node [ id 0 address 7 ] ]",
            kind(Item::Node(0), Key::Address),
        ),
        (
            "graph [ node [ id 0 address \"10.0.0.256\" ] ]",
            GmlFault::BadAddress { node: 0 },
        ),
        (
            "graph [ node [ id 0 ] node [ id 0 ] ]",
            GmlFault::Topo(TopoFault::DuplicateId(1)),
        ),
    ] {
        assert_eq!(rt;
            refusal_of(rt.alloc(), text),
            Some(Refusal::Fault(fault)),
            "of {text}"
        );
    }
}

#[test]
fn faults_of_edges(rt: HostRuntime) {
    for (text, fault) in [
        ("graph [ edge 7 node 7 ]", kind(Item::Edge(0), Key::Edge)),
        (
            "graph [ edge [ target 0 source 0 latency 5 ] ]",
            GmlFault::Missing {
                item: Item::Edge(0),
                key: Key::Bandwidth,
            },
        ),
        (
            "graph [ edge [ target 0 target 1 source [ ] source 2 ] ]",
            kind(Item::Edge(0), Key::Source),
        ),
        (
            "graph [ edge [ source 0 target 0 bandwidth 1 latency 1 loss [ ] queue x ] ]",
            GmlFault::Grammar { place: 70 },
        ),
        (
            "graph [ edge [ source 0 target 0 bandwidth 1 latency 1 loss [ ] queue \"+5\" ] ]",
            kind(Item::Edge(0), Key::Queue),
        ),
        (
            "graph [ node [ id 0 ] edge [ source 0 target 1 bandwidth 1000 latency 1 ] ]",
            GmlFault::Topo(TopoFault::UnknownNode(0)),
        ),
        (
            "graph [ node [ id 0 ] edge [ source 0 target 0 bandwidth 999 latency 1 ] ]",
            GmlFault::Topo(TopoFault::Range(0, Key::Bandwidth)),
        ),
    ] {
        assert_eq!(rt;
            refusal_of(rt.alloc(), text),
            Some(Refusal::Fault(fault)),
            "of {text}"
        );
    }
}

#[test]
fn graph_of_any_layout(rt: HostRuntime) -> Result<(), Fail> {
    let text = b"Creator\t\"me # no comment\"\r\n# graph [ ?\r\n\
        graph 1 graph[\r\n\tname[graph[node[]]]\r\n\tnode[id\"7\"address\"010.00.0.1\"]# first\r\n\
        \tdirected 1 directed 7\r\n\tnode[w -.5e3 id +9 id 4]\r\n\
        \tedge[loss 3 queue 20 latency 5000 bandwidth\"10000000000\" target 9 source 7 source 9]\r\n]\r\n\
        graph[node[]]";
    let topology = read_gml(rt.alloc(), text)?;
    assert_eq!(rt;
        topology.nodes(),
        [with_address(7, 0, 1), plain(9)].as_slice()
    );
    let only = Link {
        queue: 20,
        ppm: 3,
        ..link(0, 1, 10_000_000_000, 5_000)
    };
    assert_eq!(rt; topology.links(), [only].as_slice());
    Ok(())
}

#[test]
fn empty_graph(rt: HostRuntime) -> Result<(), Fail> {
    let topology = read_gml(rt.alloc(), b"graph [ ]")?;
    assert_eq!(rt; topology.nodes(), [].as_slice());
    assert_eq!(rt; topology.links(), [].as_slice());
    Ok(())
}

#[test]
fn star_of_four_nodes(rt: HostRuntime) -> Result<(), Fail> {
    let text = b"graph [
  node [ id 0 address \"10.0.0.1\" ]
  node [ id 1 address \"10.0.0.2\" ]
  node [ id 2 ]
  node [ id 3 address \"10.0.0.3\" ]
  edge [ source 0 target 2 bandwidth 8000000 latency 5000 ]
  edge [ source 1 target 2 bandwidth 8000000 latency 5000 ]
  edge [ source 2 target 3 bandwidth 8000000 latency 5000 ]
]
";
    let topology = read_gml(rt.alloc(), text)?;
    let nodes = [
        with_address(0, 0, 1),
        with_address(1, 0, 2),
        plain(2),
        with_address(3, 0, 3),
    ];
    let mut links = Vec::new(rt.alloc());
    for (from, to) in [(0, 2), (2, 0), (1, 2), (2, 1), (2, 3), (3, 2)] {
        links.push(link(from, to, 8_000_000, 5_000))?;
    }
    assert_eq!(rt; topology.nodes(), nodes.as_slice());
    assert_eq!(rt; topology.links(), links.as_slice());
    Ok(())
}

#[test]
fn line_of_three_nodes(rt: HostRuntime) -> Result<(), Fail> {
    let text = b"graph [
  node [ id 0 address \"10.0.0.1\" ]
  node [ id 1 ]
  node [ id 2 address \"10.0.0.2\" ]
  edge [ source 0 target 1 bandwidth 8000000 latency 5000 ]
  edge [ source 1 target 2 bandwidth 8000000 latency 5000 ]
]
";
    let topology = read_gml(rt.alloc(), text)?;
    let nodes = [with_address(0, 0, 1), plain(1), with_address(2, 0, 2)];
    let mut links = Vec::new(rt.alloc());
    for (from, to) in [(0, 1), (1, 0), (1, 2), (2, 1)] {
        links.push(link(from, to, 8_000_000, 5_000))?;
    }
    assert_eq!(rt; topology.nodes(), nodes.as_slice());
    assert_eq!(rt; topology.links(), links.as_slice());
    Ok(())
}

#[test]
fn two_stubs(rt: HostRuntime) -> Result<(), Fail> {
    let topology = read_gml(rt.alloc(), TWO_STUBS.as_bytes())?;
    let nodes = [
        with_address(0, 0, 1),
        with_address(1, 0, 2),
        plain(2),
        plain(3),
        with_address(4, 1, 1),
        with_address(5, 1, 2),
    ];
    let mut links = Vec::new(rt.alloc());
    for (from, to) in [(0, 2), (2, 0), (1, 2), (2, 1)] {
        links.push(link(from, to, 10_000_000, 1_000))?;
    }
    for (from, to) in [(2, 3), (3, 2)] {
        links.push(Link {
            queue: 20,
            ..link(from, to, 2_000_000, 20_000)
        })?;
    }
    for (from, to) in [(3, 4), (4, 3), (3, 5), (5, 3)] {
        links.push(link(from, to, 10_000_000, 1_000))?;
    }
    assert_eq!(rt; topology.nodes(), nodes.as_slice());
    assert_eq!(rt; topology.links(), links.as_slice());
    Ok(())
}

/// Written by NetworkX 3.6.1's `write_gml`, which quotes integers of more than 32 bits.
#[test]
fn graph_by_networkx(rt: HostRuntime) -> Result<(), Fail> {
    let topology = read_gml(rt.alloc(), BY_NETWORKX.as_bytes())?;
    let nodes = [with_address(0, 0, 1), plain(1), with_address(2, 0, 2)];
    let mut links = Vec::new(rt.alloc());
    for (from, to) in [(0, 1), (1, 0)] {
        links.push(link(from, to, 10_000_000_000, 1_000))?;
    }
    for (from, to) in [(1, 2), (2, 1)] {
        links.push(Link {
            queue: 20,
            ppm: 100,
            ..link(from, to, 8_000_000, 5_000)
        })?;
    }
    assert_eq!(rt; topology.nodes(), nodes.as_slice());
    assert_eq!(rt; topology.links(), links.as_slice());
    Ok(())
}

#[test]
fn lists_nest_to_depth_32(rt: HostRuntime) -> Result<(), Fail> {
    let mut text = String::from_str(rt.alloc(), "graph [")?;
    for _ in 1..32 {
        text.push_str(" a [")?;
    }
    let mut deeper = text.clone()?;
    deeper.push_str(" b [ ] ?")?;
    for _ in 0..32 {
        text.push_str(" ]")?;
    }
    assert!(rt; text.len() <= TEXT_MAX);
    let topology = read_gml(rt.alloc(), text.as_bytes())?;
    assert_eq!(rt; topology.nodes(), [].as_slice());
    assert_eq!(rt;
        refusal_of(rt.alloc(), &deeper),
        Some(Refusal::Fault(GmlFault::Lex { place: 138 }))
    );
    deeper.pop();
    assert_eq!(rt;
        refusal_of(rt.alloc(), &deeper),
        Some(Refusal::Fault(GmlFault::TooDeep { place: 134 }))
    );
    Ok(())
}

#[test]
fn one_edge_node_too_many(rt: HostRuntime) -> Result<(), Fail> {
    let mut text = String::from_str(rt.alloc(), "graph [")?;
    for n in 0..513u32 {
        let node = format!(in rt.alloc(); "node[id {n} address\"10.0.{}.{}\"]", n / 256, n % 256)?;
        text.push_str(&node)?;
    }
    text.push_str("]")?;
    let fault = GmlFault::Topo(TopoFault::TooMany(Many::EdgeNodes));
    assert_eq!(rt; refusal_of(rt.alloc(), &text), Some(Refusal::Fault(fault)));
    Ok(())
}

#[test]
fn largest_texts(rt: HostRuntime) -> Result<(), Fail> {
    for (piece, fault) in [
        ("a[", GmlFault::TooDeep { place: 65 }),
        ("a[]\n", GmlFault::NoGraph),
        ("# comment\n", GmlFault::NoGraph),
        ("word", GmlFault::Grammar { place: 16_777_216 }),
        ("\"x\"\"", GmlFault::Grammar { place: 0 }),
    ] {
        let text = piece.repeat(rt.alloc(), TEXT_MAX / piece.len())?;
        assert_eq!(rt;
            refusal_of(rt.alloc(), &text),
            Some(Refusal::Fault(fault)),
            "of {piece}"
        );
    }
    Ok(())
}
