use crate::{AssignFault, Directory, assign, print_directory, read_directory};
use distill::{Distilled, Mode, distill};
use mn_base::Refusal;
use std::alloc::Global;
use std::process::Abort;
use std::test::Fail;
use topo::{EdgeSpec, Node, TopoFault, Topology};

const EDGE: EdgeSpec = EdgeSpec {
    source: 0,
    target: 2,
    bps: 8_000_000,
    latency_us: 5_000,
    queue: 50,
    ppm: 0,
};

fn topology_of(
    alloc: Global,
    addresses: &[Option<u32>],
    ends: &[(u64, u64)],
) -> Result<Topology, Refusal<TopoFault>> {
    let mut nodes = Vec::new(alloc);
    for (id, address) in addresses.iter().enumerate() {
        nodes.push(Node {
            id: id as u64,
            address: *address,
        })?;
    }
    let mut edges = Vec::new(alloc);
    for (source, target) in ends {
        edges.push(EdgeSpec {
            source: *source,
            target: *target,
            ..EDGE
        })?;
    }
    if nodes.len() > 10 || edges.len() > 10 {
        return Err(Refusal::NoMemory);
    }
    Topology::new(alloc, nodes, edges, false)
}

/// Nodes 0, 1 and 3 around node 2, which has no address; six pipes.
fn star(alloc: Global) -> Result<Distilled, Fail> {
    let addresses = [Some(1), Some(2), None, Some(3)];
    let topology = topology_of(alloc, &addresses, &[(0, 2), (1, 2), (2, 3)])?;
    Ok(distill(alloc, &topology, Mode::Hop, 100_000)?)
}

/// The directory of the star that three cores share.
const STAR: &[u8] = b"modelnet-directory 1 cores 3 pipes 6\n\
    pipe 0 core 0\n\
    pipe 1 core 0\n\
    pipe 2 core 1\n\
    pipe 3 core 1\n\
    pipe 4 core 2\n\
    pipe 5 core 2\n";

fn read(
    rt: &impl Abort,
    alloc: Global,
    text: &[u8],
    distilled: &Distilled,
) -> Result<Directory, Refusal<AssignFault>> {
    assert!(rt; text.len() < 1000);
    read_directory(alloc, text, distilled, 3)
}

#[test]
fn a_directory_is_read_and_printed(rt: HostRuntime) -> Result<(), Fail> {
    let distilled = star(rt.alloc())?;
    let directory = read(&rt, rt.alloc(), STAR, &distilled)?;
    let text = print_directory(rt.alloc(), &directory)?;
    assert_eq!(rt; text.as_slice(), STAR);
    Ok(())
}

#[test]
fn lines_in_any_order_and_the_last_without_its_feed(rt: HostRuntime) -> Result<(), Fail> {
    let distilled = star(rt.alloc())?;
    let text = b"modelnet-directory 1 cores 03 pipes 6\n\
        pipe 5 core 2\n\
        pipe 4 core 002\n\
        pipe 3 core 1\n\
        pipe 2 core 1\n\
        pipe 1 core 0\n\
        pipe 0 core 0";
    let directory = read(&rt, rt.alloc(), text, &distilled)?;
    let text = print_directory(rt.alloc(), &directory)?;
    assert_eq!(rt; text.as_slice(), STAR);
    Ok(())
}

fn fault_of(
    rt: &impl Abort,
    alloc: Global,
    text: &[u8],
    distilled: &Distilled,
) -> Option<AssignFault> {
    match read(rt, alloc, text, distilled) {
        Err(Refusal::Fault(fault)) => Some(fault),
        _ => None,
    }
}

/// The fault of a text whose first line and two lines after it are these, and that ends with the given lines of `STAR`.
fn fault_of_lines(
    rt: &impl Abort,
    alloc: Global,
    lines: [&[u8]; 3],
    rest: &[u8],
) -> Result<Option<AssignFault>, Fail> {
    let distilled = star(alloc)?;
    let mut text = Vec::new(alloc);
    for line in &lines {
        text.extend_from_slice(line)?;
        text.push(b'\n')?;
    }
    text.extend_from_slice(rest)?;
    Ok(fault_of(rt, alloc, &text, &distilled))
}

#[test]
fn the_first_fault(rt: HostRuntime) -> Result<(), Fail> {
    const HEAD: &[u8] = b"modelnet-directory 1 cores 3 pipes 6";
    const ALL: &[u8] = b"pipe 2 core 1\npipe 3 core 1\npipe 4 core 2\npipe 5 core 2\n";
    const LAST_MISSING: &[u8] = b"pipe 2 core 1\npipe 3 core 1\npipe 4 core 2\n";
    let first = b"pipe 0 core 0".as_slice();
    let second = b"pipe 1 core 0".as_slice();
    for (lines, rest, fault) in [
        ([HEAD, first, second], ALL, None),
        (
            [
                b"modelnet-directory 1 cores 2 pipes 6".as_slice(),
                first,
                second,
            ],
            ALL,
            Some(AssignFault::Head),
        ),
        (
            [
                b"modelnet-directory 1 cores 3 pipes 5".as_slice(),
                first,
                second,
            ],
            ALL,
            Some(AssignFault::Head),
        ),
        (
            [b"".as_slice(), first, second],
            ALL,
            Some(AssignFault::Head),
        ),
        (
            [HEAD, b"pipe 9 core 0".as_slice(), second],
            ALL,
            Some(AssignFault::Line(2)),
        ),
        (
            [HEAD, b"pipe 0  core 0".as_slice(), second],
            ALL,
            Some(AssignFault::Line(2)),
        ),
        (
            [HEAD, b"".as_slice(), second],
            ALL,
            Some(AssignFault::Line(2)),
        ),
        (
            [HEAD, b"pipe 0 core 3".as_slice(), second],
            ALL,
            Some(AssignFault::Core(2)),
        ),
        (
            [HEAD, first, b"pipe 0 core 0".as_slice()],
            ALL,
            Some(AssignFault::Twice(3)),
        ),
        (
            [HEAD, first, second],
            LAST_MISSING,
            Some(AssignFault::Missing(5)),
        ),
        (
            [HEAD, first, b"pipe 5 core 0".as_slice()],
            LAST_MISSING,
            Some(AssignFault::Missing(1)),
        ),
    ] {
        assert_eq!(rt; fault_of_lines(&rt, rt.alloc(), lines, rest)?, fault);
    }
    Ok(())
}

#[test]
fn an_empty_text(rt: HostRuntime) -> Result<(), Fail> {
    let distilled = star(rt.alloc())?;
    assert_eq!(rt;
        fault_of(&rt, rt.alloc(), b"", &distilled),
        Some(AssignFault::Head)
    );
    Ok(())
}

#[test]
fn owners_and_entry_cores(rt: HostRuntime) -> Result<(), Fail> {
    let distilled = star(rt.alloc())?;
    let directory = read(&rt, rt.alloc(), STAR, &distilled)?;
    assert!(rt; directory.owners.len() == 6);
    for (pipe, core) in [(0, 0), (1, 0), (2, 1), (3, 1), (4, 2), (5, 2)] {
        assert_eq!(rt; directory.owner(pipe), core);
    }
    assert!(rt; directory.entries.len() == 4);
    for (node, core) in [(0, 0), (1, 1), (2, 0), (3, 2)] {
        assert_eq!(rt; directory.entry(node), core);
    }
    Ok(())
}

/// Two stubs of two nodes with addresses each, around nodes 2 and 3, and a link between these; ten pipes where it is walked out.
fn two_stubs(alloc: Global) -> Result<Distilled, Fail> {
    let addresses = [Some(1), Some(2), None, None, Some(3), Some(4)];
    let edges = [(0, 2), (1, 2), (2, 3), (3, 4), (3, 5)];
    let topology = topology_of(alloc, &addresses, &edges)?;
    Ok(distill(alloc, &topology, Mode::Walk(1), 100_000)?)
}

#[test]
fn two_cores_share_two_stubs(rt: HostRuntime) -> Result<(), Fail> {
    let distilled = two_stubs(rt.alloc())?;
    let directory = assign(rt.alloc(), &distilled, 2)?;
    let text = print_directory(rt.alloc(), &directory)?;
    let expected = b"modelnet-directory 1 cores 2 pipes 10\n\
        pipe 0 core 0\n\
        pipe 1 core 0\n\
        pipe 2 core 0\n\
        pipe 3 core 0\n\
        pipe 4 core 1\n\
        pipe 5 core 1\n\
        pipe 6 core 1\n\
        pipe 7 core 1\n\
        pipe 8 core 0\n\
        pipe 9 core 1\n";
    assert_eq!(rt; text.as_slice(), expected.as_slice());
    Ok(())
}

#[test]
fn each_of_three_cores_takes_its_arm_of_the_star(rt: HostRuntime) -> Result<(), Fail> {
    let distilled = star(rt.alloc())?;
    let directory = assign(rt.alloc(), &distilled, 3)?;
    let text = print_directory(rt.alloc(), &directory)?;
    assert_eq!(rt; text.as_slice(), STAR);
    Ok(())
}

/// The owners of the pipes of a topology of links, kept link by link, that three cores share.
fn owners(alloc: Global, addresses: &[Option<u32>], ends: &[(u64, u64)]) -> Result<Vec<u32>, Fail> {
    let topology = topology_of(alloc, addresses, ends)?;
    let distilled = distill(alloc, &topology, Mode::Hop, 100_000)?;
    Ok(assign(alloc, &distilled, 3)?.owners)
}

#[test]
fn fewer_pipes_than_cores(rt: HostRuntime) -> Result<(), Fail> {
    let owners = owners(rt.alloc(), &[Some(1), Some(2)], &[(0, 1)])?;
    assert_eq!(rt; owners.as_slice(), [0, 1].as_slice());
    Ok(())
}

#[test]
fn no_pipes(rt: HostRuntime) -> Result<(), Fail> {
    let owners = owners(rt.alloc(), &[Some(1), Some(2)], &[])?;
    assert_eq!(rt; owners.len(), 0);
    Ok(())
}

/// A core that reaches nothing takes the least pipe of all, and from then on those that it reaches.
#[test]
fn no_node_has_an_address(rt: HostRuntime) -> Result<(), Fail> {
    let edges = [(0, 1), (2, 3), (1, 4)];
    let owners = owners(rt.alloc(), &[None, None, None, None, None], &edges)?;
    assert_eq!(rt; owners.as_slice(), [0, 1, 2, 2, 0, 1].as_slice());
    Ok(())
}
