use crate::{Parts, hop, walk_in, walk_out};
use frontier::frontiers;
use mn_base::Refusal;
use mn_base::limits::FRONTIERS_MAX;
use std::alloc::Global;
use std::test::Fail;
use topo::{EdgeSpec, Node, TopoFault, Topology};

/// Nine nodes in a row, of which the first and the last have addresses, joined by edges without a direction.
fn row_of_nine(alloc: Global) -> Result<Topology, Refusal<TopoFault>> {
    let mut nodes = Vec::new(alloc);
    for id in 0..9u32 {
        let address = (id % 8 == 0).then_some(id);
        nodes.push(Node {
            id: u64::from(id),
            address,
        })?;
    }
    let mut edges = Vec::new(alloc);
    for source in 0..8u64 {
        edges.push(EdgeSpec {
            source,
            target: source + 1,
            bps: 10_000_000,
            latency_us: 1_000,
            queue: 50,
            ppm: 0,
        })?;
    }
    if nodes.len() > 10_000 || edges.len() > 10_000 {
        return Err(Refusal::NoMemory);
    }
    Topology::new(alloc, nodes, edges, false)
}

/// The kept links, the border and the links of the middle are these.
fn are(parts: &Parts, kept: &[u32], border: &[u32], middle: &[u32]) -> bool {
    parts.kept.as_slice() == kept
        && parts.border.as_slice() == border
        && parts.middle.as_slice() == middle
}

#[test]
fn links_stay_or_lie_in_the_middle(rt: HostRuntime) -> Result<(), Fail> {
    let alloc = rt.alloc();
    let topology = row_of_nine(alloc)?;
    let all = [0, 1, 2, 3, 4, 5, 6, 7, 8, 9, 10, 11, 12, 13, 14, 15];
    let whole = hop(alloc, &topology)?;
    assert!(rt; are(&whole, &all, &[], &[]), "{whole:?}");
    let end = walk_in(alloc, &topology, &frontiers(alloc, &topology, 0)?, 0)?;
    assert!(rt; are(&end, &[], &[0, 8], &all), "{end:?}");
    let walked = walk_in(alloc, &topology, &frontiers(alloc, &topology, 1)?, 1)?;
    let middle = &all[2..14];
    assert!(rt;
        are(&walked, &[0, 1, 14, 15], &[1, 7], middle),
        "{walked:?}"
    );
    Ok(())
}

#[test]
fn walk_out_keeps_the_core_too(rt: HostRuntime) -> Result<(), Fail> {
    let alloc = rt.alloc();
    let topology = row_of_nine(alloc)?;
    let frontiers = frontiers(alloc, &topology, FRONTIERS_MAX)?;
    let out = walk_out(alloc, &topology, &frontiers, 1, 1)?;
    let kept = [0, 1, 6, 7, 8, 9, 14, 15];
    let middle = [2, 3, 4, 5, 10, 11, 12, 13];
    assert!(rt; are(&out, &kept, &[1, 3, 5, 7], &middle), "{out:?}");
    // The core meets the border, so nothing is left between them.
    let all = [0, 1, 2, 3, 4, 5, 6, 7, 8, 9, 10, 11, 12, 13, 14, 15];
    for o in 1..3 {
        let out = walk_out(alloc, &topology, &frontiers, 3, o)?;
        assert!(rt; are(&out, &all, &[3, 5], &[]), "{out:?}");
    }
    // Six frontiers in: the core would begin behind the last frontier that has a node, so it is empty.
    let deep = walk_out(alloc, &topology, &frontiers, 5, 2)?;
    assert!(rt; are(&deep, &all, &[], &[]), "{deep:?}");
    Ok(())
}
