use crate::{Distilled, DistilledPipe, Mode, TooManyPipes, distill};
use mn_base::{NoMemory, Refusal};
use routes::{Arc, Graph, Routes};
use std::alloc::Global;
use std::test::Fail;
use topo::{EdgeSpec, Node, TopoFault, Topology};

const LINE: EdgeSpec = EdgeSpec {
    source: 0,
    target: 0,
    bps: 10_000_000,
    latency_us: 1_000,
    queue: 50,
    ppm: 0,
};

/// Nodes 0 to `count` - 1, of which those in the list have addresses, and these edges without a direction.
fn topology_of(
    alloc: Global,
    count: u32,
    addresses: &[u32],
    edges: &[EdgeSpec],
) -> Result<Topology, Refusal<TopoFault>> {
    let mut nodes = Vec::new(alloc);
    for id in 0..count {
        let address = addresses.contains(&id).then_some(id);
        nodes.push(Node {
            id: u64::from(id),
            address,
        })?;
    }
    let specs = Vec::from_slice(alloc, edges)?;
    if nodes.len() > 10_000 || specs.len() > 10_000 {
        return Err(Refusal::NoMemory);
    }
    Topology::new(alloc, nodes, specs, false)
}

/// A row of nodes with addresses at both ends, joined by `LINE`.
fn row_of(alloc: Global, count: u32) -> Result<Topology, Refusal<TopoFault>> {
    let mut edges = Vec::new(alloc);
    for source in 1..count {
        edges.push(EdgeSpec {
            source: u64::from(source) - 1,
            target: u64::from(source),
            ..LINE
        })?;
    }
    topology_of(alloc, count, &[0, count.saturating_sub(1)], &edges)
}

/// Of each pipe its ends, how many links it stands for and its latency in microseconds.
fn shape_of(alloc: Global, distilled: &Distilled) -> Result<Vec<(u32, u32, u32, u64)>, NoMemory> {
    let mut shape = Vec::new(alloc);
    for pipe in distilled.pipes() {
        shape.push((pipe.from, pipe.to, pipe.links, pipe.params.latency_us))?;
    }
    Ok(shape)
}

/// The pipes of the least walk from the first node of a row of nine to the last; none where there are more than a hundred pipes.
fn route_along(alloc: Global, pipes: &[DistilledPipe]) -> Result<Option<Vec<u32>>, NoMemory> {
    if pipes.len() > 100 {
        return Ok(None);
    }
    let mut arcs = Vec::new(alloc);
    for pipe in pipes {
        if pipe.from < 9 && pipe.to < 9 {
            arcs.push(Arc {
                from: pipe.from,
                to: pipe.to,
                weight: pipe.params.latency_us,
            })?;
        }
    }
    let graph = Graph::new(9, arcs);
    Routes::toward(alloc, &graph, 8)?.walk(alloc, 0)
}

#[test]
fn a_walk_collapses_to_one_pipe(rt: HostRuntime) -> Result<(), Fail> {
    let edges = [
        EdgeSpec {
            target: 1,
            queue: 20,
            ..LINE
        },
        EdgeSpec {
            source: 1,
            target: 2,
            bps: 2_000_000,
            latency_us: 3_000,
            queue: 5,
            ppm: 500_000,
        },
        EdgeSpec {
            source: 2,
            target: 3,
            bps: 2_000_000,
            latency_us: 2_000,
            queue: 9,
            ppm: 500_000,
        },
    ];
    let topology = topology_of(rt.alloc(), 4, &[0, 3], &edges)?;
    let distilled = distill(rt.alloc(), &topology, Mode::End, 100_000)?;
    assert_eq!(rt; distilled.nodes(), 4);
    assert_eq!(rt; distilled.edge_nodes(), [0, 3].as_slice());
    let [there, back] = distilled.pipes() else {
        return Err("two pipes")?;
    };
    assert_eq!(rt; (there.from, there.to, there.links), (0, 3, 3));
    assert_eq!(rt; (there.params.bps, there.params.queue), (2_000_000, 5));
    assert_eq!(rt;
        (there.params.latency_us, there.params.latency_ticks),
        (6_000, 60)
    );
    assert_eq!(rt; there.params.keep, 1_073_741_824);
    assert_eq!(rt; (back.from, back.to, back.params.queue), (3, 0, 9));
    Ok(())
}

#[test]
fn latency_is_rounded_after_the_sum(rt: HostRuntime) -> Result<(), Fail> {
    let edges = [
        EdgeSpec {
            target: 1,
            latency_us: 50,
            ..LINE
        },
        EdgeSpec {
            source: 1,
            target: 2,
            latency_us: 50,
            ..LINE
        },
    ];
    let topology = topology_of(rt.alloc(), 3, &[0, 2], &edges)?;
    let hop = distill(rt.alloc(), &topology, Mode::Hop, 100_000)?;
    assert_eq!(rt; hop.pipes().len(), 4);
    for pipe in hop.pipes() {
        assert_eq!(rt;
            (pipe.params.latency_us, pipe.params.latency_ticks),
            (50, 1)
        );
    }
    let end = distill(rt.alloc(), &topology, Mode::End, 100_000)?;
    assert_eq!(rt; end.pipes().len(), 2);
    for pipe in end.pipes() {
        assert_eq!(rt;
            (pipe.params.latency_us, pipe.params.latency_ticks),
            (100, 1)
        );
    }
    Ok(())
}

#[test]
fn a_row_of_nine_walked_in_and_out(rt: HostRuntime) -> Result<(), Fail> {
    let topology = row_of(rt.alloc(), 9)?;
    let out = distill(rt.alloc(), &topology, Mode::WalkOut(1, 1), 100_000)?;
    let expected = [
        (0, 1, 1, 1_000),
        (1, 0, 1, 1_000),
        (3, 4, 1, 1_000),
        (4, 3, 1, 1_000),
        (4, 5, 1, 1_000),
        (5, 4, 1, 1_000),
        (7, 8, 1, 1_000),
        (8, 7, 1, 1_000),
        (1, 3, 2, 2_000),
        (3, 1, 2, 2_000),
        (5, 7, 2, 2_000),
        (7, 5, 2, 2_000),
    ];
    assert_eq!(rt; shape_of(rt.alloc(), &out)?.as_slice(), expected.as_slice());
    let Some(route) = route_along(rt.alloc(), out.pipes())? else {
        return Err("a route")?;
    };
    assert_eq!(rt; route.as_slice(), [0, 8, 2, 4, 10, 6].as_slice());
    let walked = distill(rt.alloc(), &topology, Mode::Walk(1), 100_000)?;
    let expected = [
        (0, 1, 1, 1_000),
        (1, 0, 1, 1_000),
        (7, 8, 1, 1_000),
        (8, 7, 1, 1_000),
        (1, 7, 6, 6_000),
        (7, 1, 6, 6_000),
    ];
    assert_eq!(rt;
        shape_of(rt.alloc(), &walked)?.as_slice(),
        expected.as_slice()
    );
    Ok(())
}

#[test]
fn cores_that_touch_the_edge_keep_every_link(rt: HostRuntime) -> Result<(), Fail> {
    let topology = row_of(rt.alloc(), 9)?;
    let walked = distill(rt.alloc(), &topology, Mode::Walk(3), 100_000)?;
    assert_eq!(rt; walked.pipes().len(), 14);
    assert_eq!(rt;
        walked
            .pipes()
            .get(12)
            .map(|pipe| (pipe.from, pipe.to, pipe.links)),
        Some((3, 5, 2))
    );
    for o in 1..3 {
        let out = distill(rt.alloc(), &topology, Mode::WalkOut(3, o), 100_000)?;
        assert_eq!(rt; out.pipes().len(), 16);
        for pipe in out.pipes() {
            assert_eq!(rt; pipe.links, 1);
        }
    }
    Ok(())
}

#[test]
fn too_many_pipes_are_counted(rt: HostRuntime) -> Result<(), Fail> {
    let mut edges = Vec::new(rt.alloc());
    for router in 1..1_001 {
        edges.push(EdgeSpec {
            target: router,
            ..LINE
        })?;
        edges.push(EdgeSpec {
            source: router,
            target: 1_001,
            ..LINE
        })?;
    }
    let topology = topology_of(rt.alloc(), 1_002, &[0], &edges)?;
    let refused = distill(rt.alloc(), &topology, Mode::Walk(1), 100_000).err();
    assert_eq!(rt;
        refused,
        Some(Refusal::Fault(TooManyPipes { count: 1_001_000 }))
    );
    Ok(())
}
