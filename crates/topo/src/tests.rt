use crate::{EdgeSpec, Key, Link, Many, Node, TopoFault, Topology, laws};
use mn_base::Refusal;
use std::alloc::{AllocError, Global};
use std::test::Fail;

const PLAIN: EdgeSpec = EdgeSpec {
    source: 7,
    target: 9,
    bps: 8_000_000,
    latency_us: 5_000,
    queue: 50,
    ppm: 0,
};

fn some_nodes(alloc: Global) -> Result<Vec<Node>, AllocError> {
    let nodes = vec![in alloc;
        Node {
            id: 7,
            address: Some(167_772_161)
        },
        Node {
            id: 9,
            address: None
        },
        Node {
            id: 4,
            address: Some(167_772_162)
        },
    ]?;
    Ok(nodes)
}

fn fault_of(alloc: Global, nodes: Vec<Node>, edges: Vec<EdgeSpec>) -> Option<Refusal<TopoFault>> {
    if nodes.len() > 10_000 || edges.len() > 100_000 {
        return None;
    }
    Topology::new(alloc, nodes, edges, false).err()
}

#[test]
fn links_of_both_kinds_of_graph(rt: HostRuntime) -> Result<(), Fail> {
    let forth = Link {
        from: 0,
        to: 1,
        bps: 8_000_000,
        latency_us: 5_000,
        queue: 50,
        ppm: 0,
    };
    let back = Link {
        from: 1,
        to: 0,
        ..forth
    };
    let round = EdgeSpec { target: 7, ..PLAIN };
    for directed in [false, true] {
        let nodes = some_nodes(rt.alloc())?;
        assert!(rt; nodes.len() < 10);
        let edges = vec![in rt.alloc(); PLAIN, round, PLAIN]?;
        let topology = Topology::new(rt.alloc(), nodes, edges, directed)?;
        assert_eq!(rt; topology.nodes().len(), 3);
        if directed {
            assert_eq!(rt; topology.links(), [forth, forth].as_slice());
        } else {
            assert_eq!(rt; topology.links(), [forth, back, forth, back].as_slice());
        }
    }
    Ok(())
}

#[test]
fn faults_of_edges(rt: HostRuntime) -> Result<(), Fail> {
    let table = [
        (
            EdgeSpec {
                source: 8,
                bps: 0,
                ..PLAIN
            },
            TopoFault::UnknownNode(1),
        ),
        (EdgeSpec { target: 8, ..PLAIN }, TopoFault::UnknownNode(1)),
        (
            EdgeSpec {
                bps: 999,
                queue: 0,
                ..PLAIN
            },
            TopoFault::Range(1, Key::Bandwidth),
        ),
        (
            EdgeSpec {
                bps: 1_000_000_000_001,
                ..PLAIN
            },
            TopoFault::Range(1, Key::Bandwidth),
        ),
        (
            EdgeSpec {
                latency_us: 10_000_001,
                ..PLAIN
            },
            TopoFault::Range(1, Key::Latency),
        ),
        (
            EdgeSpec { queue: 0, ..PLAIN },
            TopoFault::Range(1, Key::Queue),
        ),
        (
            EdgeSpec {
                target: 7,
                queue: 1_001,
                ..PLAIN
            },
            TopoFault::Range(1, Key::Queue),
        ),
        (
            EdgeSpec {
                ppm: 1_000_001,
                ..PLAIN
            },
            TopoFault::Range(1, Key::Loss),
        ),
    ];
    for (edge, fault) in table {
        let edges = vec![in rt.alloc(); PLAIN, edge]?;
        let found = fault_of(rt.alloc(), some_nodes(rt.alloc())?, edges);
        assert_eq!(rt; found, Some(Refusal::Fault(fault)));
    }
    Ok(())
}

#[test]
fn faults_of_nodes(rt: HostRuntime) -> Result<(), Fail> {
    let same = Node {
        id: 9,
        address: Some(167_772_161),
    };
    let other = Node {
        id: 5,
        address: Some(167_772_161),
    };
    for (node, fault) in [
        (same, TopoFault::DuplicateId(3)),
        (other, TopoFault::DuplicateAddress(3)),
    ] {
        let mut nodes = some_nodes(rt.alloc())?;
        nodes.push(node)?;
        let found = fault_of(rt.alloc(), nodes, Vec::new(rt.alloc()));
        assert_eq!(rt; found, Some(Refusal::Fault(fault)));
    }
    Ok(())
}

#[test]
fn limits(rt: HostRuntime) -> Result<(), Fail> {
    for (count, addresses, fault) in [
        (4_096, 512, None),
        (
            4_097,
            513,
            Some(Refusal::Fault(TopoFault::TooMany(Many::Nodes))),
        ),
        (
            4_096,
            513,
            Some(Refusal::Fault(TopoFault::TooMany(Many::EdgeNodes))),
        ),
    ] {
        let mut nodes = Vec::new(rt.alloc());
        for id in 0..count {
            let address = (id < addresses).then_some(id);
            nodes.push(Node {
                id: u64::from(id),
                address,
            })?;
        }
        let found = fault_of(rt.alloc(), nodes, Vec::new(rt.alloc()));
        assert_eq!(rt; found, fault);
    }
    for (count, fault) in [
        (16_384, None),
        (
            16_385,
            Some(Refusal::Fault(TopoFault::TooMany(Many::Links))),
        ),
    ] {
        let mut edges = Vec::new(rt.alloc());
        for _ in 0..count {
            edges.push(PLAIN)?;
        }
        let found = fault_of(rt.alloc(), some_nodes(rt.alloc())?, edges);
        assert_eq!(rt; found, fault);
    }
    Ok(())
}

#[test]
fn keys_as_gml_spells_them(rt: HostRuntime) {
    laws::faultless_make_topology();
    laws::edge_nodes_in_order();
    let keys = [
        (Key::Directed, "directed"),
        (Key::Node, "node"),
        (Key::Edge, "edge"),
        (Key::Id, "id"),
        (Key::Address, "address"),
        (Key::Source, "source"),
        (Key::Target, "target"),
        (Key::Bandwidth, "bandwidth"),
        (Key::Latency, "latency"),
        (Key::Queue, "queue"),
        (Key::Loss, "loss"),
    ];
    for (key, name) in keys {
        assert_eq!(rt; key.name(), name);
    }
}
