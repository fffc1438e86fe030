ghost use Rattle.std.specs.Prelude.{◌≡◌, ◌<◌, ◌≤◌, length, IfOk};

use crate::{Arc, Graph, Incoming, Routes};
use mn_base::NoMemory;
use mn_base::limits::{ARCS_MAX, NODES_MAX, PIPE_LATENCY_US_MAX};
use std::alloc::Global;
use std::test::Fail;

/// The graph of these arcs (from, to, weight); those whose ends aren't nodes are left out.
fn graph_of(alloc: Global, nodes: u32, ends: &[(u32, u32, u64)]) -> Result<Graph, NoMemory>
    requires nodes { nodes ≤ NODES_MAX }
    requires count { length ends.now ≤ ARCS_MAX }
    ensures { IfOk result (λ g. g.nodes ≡ nodes) }
{
    let mut arcs = Vec::new(alloc);
    for (from, to, weight) in ends {
        if *from < nodes && *to < nodes && *weight <= PIPE_LATENCY_US_MAX {
            arcs.push(Arc {
                from: *from,
                to: *to,
                weight: *weight,
            })?;
        }
    }
    Ok(Graph::new(nodes, arcs))
}

/// Whether the least walk is the one that is wanted.
fn has_walk(
    alloc: Global,
    graph: &Graph,
    from: u32,
    to: u32,
    wanted: Option<&[u32]>,
) -> Result<bool, NoMemory>
    requires from { from < graph.now.nodes }
    requires to { to < graph.now.nodes }
{
    let routes = Routes::toward(alloc, graph, to)?;
    let reaches = routes.reaches(from);
    Ok(match (routes.walk(alloc, from)?, wanted) {
        (None, None) => !reaches,
        (Some(found), Some(wanted)) => reaches && found.as_slice() == wanted,
        _ => false,
    })
}

/// Four nodes S, X, Y and D (0 to 3), each edge as two arcs: of two routes of equal latency the one with the lesser first
/// link is taken, in both directions.
#[test]
fn of_two_equal_routes_the_lesser_first_link_wins(rt: HostRuntime) -> Result<(), Fail> {
    let alloc = rt.alloc();
    let graph = graph_of(
        alloc,
        4,
        &[
            (0, 1, 50),
            (1, 0, 50),
            (0, 2, 50),
            (2, 0, 50),
            (1, 3, 50),
            (3, 1, 50),
            (2, 3, 50),
            (3, 2, 50),
        ],
    )?;
    assert!(rt; has_walk(alloc, &graph, 0, 3, Some(&[0, 4]))?);
    assert!(rt; has_walk(alloc, &graph, 3, 0, Some(&[5, 1]))?);
    Ok(())
}

/// The same with the first two edges the other way round: the node that is settled first isn't on the route.
#[test]
fn the_node_that_is_settled_first_does_not_win(rt: HostRuntime) -> Result<(), Fail> {
    let alloc = rt.alloc();
    let graph = graph_of(
        alloc,
        4,
        &[
            (0, 2, 50),
            (2, 0, 50),
            (0, 1, 50),
            (1, 0, 50),
            (1, 3, 50),
            (3, 1, 50),
            (2, 3, 50),
            (3, 2, 50),
        ],
    )?;
    assert!(rt; has_walk(alloc, &graph, 0, 3, Some(&[0, 6]))?);
    assert!(rt; has_walk(alloc, &graph, 3, 0, Some(&[5, 3]))?);
    Ok(())
}

#[test]
fn without_arcs_a_node_reaches_only_itself(rt: HostRuntime) -> Result<(), Fail> {
    let alloc = rt.alloc();
    let graph = graph_of(alloc, 2, &[])?;
    assert!(rt; has_walk(alloc, &graph, 0, 1, None)?);
    assert!(rt; has_walk(alloc, &graph, 1, 0, None)?);
    assert!(rt; has_walk(alloc, &graph, 0, 0, Some(&[]))?);
    assert!(rt; has_walk(alloc, &graph, 1, 1, Some(&[]))?);
    Ok(())
}

/// Of parallel arcs the lightest is taken, and of those the first; an arc isn't walked against its direction.
#[test]
fn of_parallel_arcs_the_first_lightest_is_taken(rt: HostRuntime) -> Result<(), Fail> {
    let alloc = rt.alloc();
    let graph = graph_of(alloc, 2, &[(0, 1, 9), (0, 1, 7), (0, 1, 7), (0, 0, 0)])?;
    assert!(rt; has_walk(alloc, &graph, 0, 1, Some(&[1]))?);
    assert!(rt; has_walk(alloc, &graph, 1, 0, None)?);
    Ok(())
}

/// A cycle of weight 0 is never walked round, and of walks of one weight the one with fewer arcs is taken.
#[test]
fn cycles_of_weight_0_are_left_out(rt: HostRuntime) -> Result<(), Fail> {
    let alloc = rt.alloc();
    let graph = graph_of(
        alloc,
        4,
        &[
            (0, 1, 0),
            (1, 2, 0),
            (2, 0, 0),
            (2, 3, 5),
            (1, 3, 5),
            (0, 0, 0),
        ],
    )?;
    assert!(rt; has_walk(alloc, &graph, 0, 3, Some(&[0, 4]))?);
    assert!(rt; has_walk(alloc, &graph, 2, 3, Some(&[3]))?);
    assert!(rt; has_walk(alloc, &graph, 2, 2, Some(&[]))?);
    Ok(())
}

/// Ties among walks of three arcs that differ first in the first, the second or the last arc.
#[test]
fn ties_are_broken_at_the_first_arc_that_differs(rt: HostRuntime) -> Result<(), Fail> {
    let alloc = rt.alloc();
    let ends = [
        (0, 2, 1),
        (0, 1, 1),
        (2, 4, 1),
        (2, 3, 1),
        (1, 3, 1),
        (4, 5, 1),
        (3, 5, 1),
        (3, 5, 1),
    ];
    let graph = graph_of(alloc, 6, &ends)?;
    assert!(rt; has_walk(alloc, &graph, 0, 5, Some(&[0, 2, 5]))?);
    assert!(rt; has_walk(alloc, &graph, 2, 5, Some(&[2, 5]))?);
    assert!(rt; has_walk(alloc, &graph, 1, 5, Some(&[4, 6]))?);
    Ok(())
}

/// The lesser of two keys: weight, number of arcs, first arc, second arc.
fn lesser(
    best: Option<(u64, u32, usize, usize)>,
    key: (u64, u32, usize, usize),
) -> Option<(u64, u32, usize, usize)> {
    match best {
        Some(own) if own <= key => Some(own),
        _ => Some(key),
    }
}

/// The least key of a walk from a to b by listing all walks of at most two arcs, which is enough for three nodes.
fn listed(ends: &[(u32, u32, u64)], a: u32, b: u32) -> Option<(u64, u32, usize, usize)> {
    if a == b {
        return Some((0, 0, 0, 0));
    }
    let mut best = None;
    for (e, (from, middle, weight)) in ends.iter().enumerate() {
        if *from == a && *middle == b {
            best = lesser(best, (*weight, 1, e, 0));
        }
        for (f, (start, to, more)) in ends.iter().enumerate() {
            if *from == a && start == middle && *to == b {
                best = lesser(best, (weight.saturating_add(*more), 2, e, f));
            }
        }
    }
    best
}

/// Whether a walk is the one of the key.
fn is_walk_of(walk: &[u32], key: (u64, u32, usize, usize)) -> bool {
    match walk {
        [] => key.1 == 0,
        [e] => key.1 == 1 && *e as usize == key.2,
        [e, f] => key.1 == 2 && *e as usize == key.2 && *f as usize == key.3,
        _ => false,
    }
}

/// Whether all walks to one node of a graph of three are those of the listing.
fn agrees_toward(
    alloc: Global,
    incoming: &Incoming,
    ends: &[(u32, u32, u64)],
    to: u32,
) -> Result<bool, NoMemory>
    requires nodes { incoming.now.nodes ≡ 3 }
    requires to { to < 3 }
{
    let routes = Routes::by_incoming(alloc, incoming, to)?;
    for from in 0..3 {
        let agrees = match (routes.walk(alloc, from)?, listed(ends, from, to)) {
            (None, None) => true,
            (Some(walk), Some(key)) => is_walk_of(walk.as_slice(), key),
            _ => false,
        };
        if !agrees {
            return Ok(false);
        }
    }
    Ok(true)
}

fn agrees(alloc: Global, ends: &[(u32, u32, u64)]) -> Result<bool, NoMemory>
    requires { length ends.now ≤ ARCS_MAX }
{
    let graph = graph_of(alloc, 3, ends)?;
    let incoming = Incoming::new(alloc, &graph)?;
    Ok(
        agrees_toward(alloc, &incoming, ends, 0)?
            && agrees_toward(alloc, &incoming, ends, 1)?
            && agrees_toward(alloc, &incoming, ends, 2)?,
    )
}

/// One of the 18 arcs among three nodes of weight 0 or 1.
fn arc_of(code: u32) -> (u32, u32, u64) {
    (code % 3, code / 3 % 3, u64::from(code / 9 % 2))
}

/// Every graph of three nodes and three arcs of weight 0 or 1.
#[test]
fn small_graphs_have_the_walks_of_a_listing(rt: HostRuntime) -> Result<(), Fail> {
    let alloc = rt.alloc();
    for first in 0..18 {
        for second in 0..18 {
            for third in 0..18 {
                let ends = [arc_of(first), arc_of(second), arc_of(third)];
                assert!(rt; agrees(alloc, &ends)?);
            }
        }
    }
    Ok(())
}
