use crate::frontiers;
use mn_base::Refusal;
use std::alloc::Global;
use std::test::Fail;
use topo::{EdgeSpec, Node, TopoFault, Topology};

/// Nodes 0 to `count` - 1, those below `addresses` with an address, and these edges.
fn topology_of(
    alloc: Global,
    count: u32,
    addresses: u32,
    edges: &[(u64, u64)],
    directed: bool,
) -> Result<Topology, Refusal<TopoFault>> {
    let mut nodes = Vec::new(alloc);
    for id in 0..count {
        let address = (id < addresses).then_some(id);
        nodes.push(Node {
            id: u64::from(id),
            address,
        })?;
    }
    let mut specs = Vec::new(alloc);
    for (source, target) in edges {
        specs.push(EdgeSpec {
            source: *source,
            target: *target,
            bps: 8_000_000,
            latency_us: 1_000,
            queue: 50,
            ppm: 0,
        })?;
    }
    if nodes.len() > 10_000 || specs.len() > 10_000 {
        return Err(Refusal::NoMemory);
    }
    Topology::new(alloc, nodes, specs, directed)
}

#[test]
fn frontiers_step_away_from_the_edge(rt: HostRuntime) -> Result<(), Fail> {
    // 0 and 1 have addresses; 0 - 4 - 3 and 1 - 3, 3 - 2; nothing leads to 5.
    let edges = [(0, 4), (3, 4), (1, 3), (3, 2)];
    for directed in [false, true] {
        let topology = topology_of(rt.alloc(), 6, 2, &edges, directed)?;
        let found = frontiers(rt.alloc(), &topology, 3)?;
        let expected = [
            [0, 1].as_slice(),
            [3, 4].as_slice(),
            [2].as_slice(),
            [].as_slice(),
        ];
        assert_eq!(rt; found.len(), 4);
        for (frontier, nodes) in found.iter().zip(expected) {
            assert_eq!(rt; frontier.as_slice(), nodes);
        }
    }
    Ok(())
}

#[test]
fn no_edge_nodes_and_no_steps(rt: HostRuntime) -> Result<(), Fail> {
    let topology = topology_of(rt.alloc(), 3, 0, &[(0, 1)], false)?;
    let found = frontiers(rt.alloc(), &topology, 1)?;
    assert_eq!(rt; found.len(), 2);
    for frontier in &found {
        assert!(rt; frontier.is_empty());
    }
    let topology = topology_of(rt.alloc(), 3, 3, &[(0, 1)], false)?;
    let found = frontiers(rt.alloc(), &topology, 0)?;
    assert_eq!(rt; found.len(), 1);
    for frontier in &found {
        assert_eq!(rt; frontier.as_slice(), [0, 1, 2].as_slice());
    }
    Ok(())
}
