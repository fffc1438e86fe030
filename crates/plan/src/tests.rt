ghost use Rattle.std.specs.Prelude.{◌≤◌, length};
ghost use Rattle.std.specs.Option.{ForSome};
ghost use Rattle.mn_base.specs.declared.limits.TheConstants.{DIRECTORY_BYTES_MAX};
ghost use Rattle.distill.specs.Modes.{IsMode};
ghost use Rattle.plan.specs.Options.{AreOptions};

use crate::{Options, PlanFault, Planned, plan};
use changes::ChangesFault;
use distill::Mode;
use journal::LossBy;
use mn_base::limits::{LINK_TYPE_ETHERNET, LINK_TYPE_RAW, TICK_NS_DEFAULT};
use mn_base::{NoMemory, Refusal, Unbound};
use ownership::AssignFault;
use pcap_io::read_pcap;
use std::alloc::Global;
use std::process::Abort;
use std::test::Fail;
use topo::{EdgeSpec, Node, TopoFault, Topology};

const OPTIONS: Options = Options {
    mode: Mode::Walk(1),
    cores: 2,
    seed: 0,
    tick_ns: TICK_NS_DEFAULT,
    loss: LossBy::Packet,
};

const STUB: EdgeSpec = EdgeSpec {
    source: 0,
    target: 2,
    bps: 10_000_000,
    latency_us: 1_000,
    queue: 50,
    ppm: 0,
};

/// Nodes that are numbered from 0, with these addresses.
fn nodes_with(alloc: Global, addresses: &[Option<u32>]) -> Result<Vec<Node>, NoMemory> {
    let mut nodes = Vec::new(alloc);
    for (id, address) in addresses.iter().enumerate() {
        nodes.push(Node {
            id: id as u64,
            address: *address,
        })?;
    }
    Ok(nodes)
}

/// Nodes 0 and 1 (10.0.0.1, 10.0.0.2) behind node 2, nodes 4 and 5 (10.0.1.1, 10.0.1.2) behind node 3, and a slow link between.
fn two_stubs(alloc: Global) -> Result<Topology, Refusal<TopoFault>> {
    let addresses = [
        Some(0x0a00_0001),
        Some(0x0a00_0002),
        None,
        None,
        Some(0x0a00_0101),
        Some(0x0a00_0102),
    ];
    let nodes = nodes_with(alloc, &addresses)?;
    let edges = vec![in alloc;
        STUB,
        EdgeSpec { source: 1, ..STUB },
        EdgeSpec {
            source: 2,
            target: 3,
            bps: 2_000_000,
            latency_us: 20_000,
            queue: 20,
            ppm: 0
        },
        EdgeSpec {
            source: 3,
            target: 4,
            ..STUB
        },
        EdgeSpec {
            source: 3,
            target: 5,
            ..STUB
        },
    ]?;
    if nodes.len() > 10 || edges.len() > 10 {
        return Err(Refusal::NoMemory);
    }
    Topology::new(alloc, nodes, edges, false)
}

/// A capture in ns, so far without a record.
fn capture(alloc: Global, link_type: u32) -> Result<Vec<u8>, NoMemory> {
    let mut text = Vec::new(alloc);
    text.extend_from_slice(&[
        0x4d, 0x3c, 0xb2, 0xa1, 2, 0, 4, 0, 0, 0, 0, 0, 0, 0, 0, 0, 0, 0, 4, 0,
    ])?;
    text.extend_from_slice(&link_type.to_le_bytes())?;
    Ok(text)
}

/// A record of a packet of 1,250 bytes at a time in ns below a second, of which these bytes were captured.
fn push_record(text: &mut Vec<u8>, time_ns: u32, captured: &[u8]) -> Result<(), NoMemory> {
    let len = captured.len().min(1_000) as u32;
    for number in [0, time_ns, len, 1_250] {
        text.extend_from_slice(&number.to_le_bytes())?;
    }
    text.extend_from_slice(captured)?;
    Ok(())
}

/// An IPv4 header of a packet from one address to another.
fn header(from: [u8; 4], to: [u8; 4]) -> [u8; 20] {
    let [a, b, c, d] = from;
    let [e, f, g, h] = to;
    [
        0x45, 0, 4, 0xe2, 0, 0, 0, 0, 0x40, 0x11, 0, 0, a, b, c, d, e, f, g, h,
    ]
}

/// A record of an Ethernet frame that carries such a header.
fn push_frame(
    alloc: Global,
    text: &mut Vec<u8>,
    from: [u8; 4],
    to: [u8; 4],
) -> Result<(), NoMemory> {
    let mut frame = Vec::new(alloc);
    frame.extend_from_slice(&[0, 0, 0, 0, 0, 0, 0, 0, 0, 0, 0, 0, 8, 0])?;
    frame.extend_from_slice(&header(from, to))?;
    push_record(text, 0, &frame)
}

/// A record of an Ethernet frame of so many zero bytes but for its type.
fn push_other(
    alloc: Global,
    text: &mut Vec<u8>,
    len: usize,
    ether_type: [u8; 2],
) -> Result<(), NoMemory> {
    let mut frame = vec![in alloc; 0u8; len]?;
    if frame.len() > 13 {
        frame[12] = ether_type[0];
        frame[13] = ether_type[1];
    }
    push_record(text, 0, &frame)
}

const OWNERS: &[u8] = b"modelnet-directory 1 cores 2 pipes 10\n\
    pipe 0 core 0\npipe 1 core 0\npipe 2 core 0\npipe 3 core 0\npipe 4 core 1\n\
    pipe 5 core 1\npipe 6 core 1\npipe 7 core 1\npipe 8 core 0\npipe 9 core 1\n";

const A: [u8; 4] = [10, 0, 0, 1];

const B: [u8; 4] = [10, 0, 0, 2];

const C: [u8; 4] = [10, 0, 1, 1];

const D: [u8; 4] = [10, 0, 1, 2];

const NOBODY: [u8; 4] = [10, 9, 9, 9];

/// The plan of a capture, or the fault.
fn plan_of(
    alloc: Global,
    topology: &Topology,
    text: &[u8],
    options: &Options,
    directory: Option<&[u8]>,
) -> Result<Result<Planned, PlanFault>, Fail>
    requires options { AreOptions options.now }
    requires bytes { ForSome directory (λ text. length text.now ≤ DIRECTORY_BYTES_MAX) }
{
    if text.len() > 1_000_000 {
        return Err(Refusal::<PlanFault>::NoMemory.into());
    }
    let trace = read_pcap(alloc, text)?;
    match plan(alloc, topology, trace, options, directory) {
        Ok(planned) => Ok(Ok(planned)),
        Err(Refusal::Fault(fault)) => Ok(Err(fault)),
        Err(Refusal::NoMemory) => Err(Refusal::<PlanFault>::NoMemory.into()),
    }
}

/// Frames of which the fourth alone can be bound.
fn six_frames(alloc: Global) -> Result<Vec<u8>, NoMemory> {
    let mut text = capture(alloc, LINK_TYPE_ETHERNET)?;
    push_other(alloc, &mut text, 42, [8, 6])?;
    push_other(alloc, &mut text, 60, [0x86, 0xdd])?;
    push_frame(alloc, &mut text, A, NOBODY)?;
    push_frame(alloc, &mut text, A, C)?;
    push_other(alloc, &mut text, 33, [8, 0])?;
    push_frame(alloc, &mut text, NOBODY, C)?;
    Ok(text)
}

/// Packets of four pairs of addresses, one of them from a node to itself.
fn six_packets(alloc: Global) -> Result<Vec<u8>, NoMemory> {
    let mut text = capture(alloc, LINK_TYPE_RAW)?;
    for (time_ns, from, to) in [
        (900_000, B, D),
        (450_000, A, C),
        (200_000, B, D),
        (300_000, A, A),
        (399_999, A, C),
        (500_000, C, A),
    ] {
        push_record(&mut text, time_ns, &header(from, to))?;
    }
    Ok(text)
}

/// The plan of a capture over the two stubs, on two cores.
fn planned_over_stubs(rt: &impl Abort, alloc: Global, text: &[u8]) -> Result<Planned, Fail> {
    let topology = two_stubs(alloc)?;
    Ok(plan_of(alloc, &topology, text, &OPTIONS, Some(OWNERS))?.expect(rt, "a plan"))
}

#[test]
fn one_packet_of_six_is_bound(rt: HostRuntime) -> Result<(), Fail> {
    let text = six_frames(rt.alloc())?;
    let planned = planned_over_stubs(&rt, rt.alloc(), &text)?;
    let expected = [
        (0, Unbound::NotIpv4),
        (1, Unbound::NotIpv4),
        (2, Unbound::NoDestination),
        (4, Unbound::Short),
        (5, Unbound::NoSource),
    ];
    assert_eq!(rt; planned.unbounds.as_slice(), expected.as_slice());
    let parts = planned.setup.parts();
    assert!(rt; parts.packets.len() == 1 && parts.routes.len() == 1 && planned.bytes.len() == 1);
    let packet = parts.packets[0];
    assert_eq!(rt; (packet.number, packet.len, packet.core), (3, 1_250, 0));
    assert_eq!(rt; parts.routes[0].as_slice(), [0, 8, 4].as_slice());
    assert_eq!(rt; planned.bytes[0].as_slice().len(), 34);
    Ok(())
}

/// The tick at which each packet enters, the number of its route, and its core.
fn entries(alloc: Global, planned: &Planned) -> Result<Vec<(u64, u32, u32)>, NoMemory> {
    let mut entries = Vec::new(alloc);
    for plan in &planned.setup.parts().packets {
        entries.push((plan.entry_tick, plan.route, plan.core))?;
    }
    Ok(entries)
}

#[test]
fn packets_of_two_pairs_share_two_routes(rt: HostRuntime) -> Result<(), Fail> {
    let text = six_packets(rt.alloc())?;
    let planned = planned_over_stubs(&rt, rt.alloc(), &text)?;
    let parts = planned.setup.parts();
    assert_eq!(rt; parts.base_ns, 200_000);
    assert!(rt; parts.routes.len() == 4);
    assert_eq!(rt; parts.routes[0].as_slice(), [2, 8, 6].as_slice());
    assert_eq!(rt; parts.routes[1].as_slice(), [0, 8, 4].as_slice());
    assert_eq!(rt; parts.routes[2].len(), 0);
    assert_eq!(rt; parts.routes[3].as_slice(), [5, 9, 1].as_slice());
    let expected = [
        (7, 0, 0),
        (2, 1, 0),
        (0, 0, 0),
        (1, 2, 0),
        (1, 1, 0),
        (3, 3, 1),
    ];
    let entries = entries(rt.alloc(), &planned)?;
    assert_eq!(rt; entries.as_slice(), expected.as_slice());
    Ok(())
}

/// Nodes in a row, of which the first and the last have addresses, 10.0.0.1 and 10.0.0.2.
fn row(alloc: Global, count: u32) -> Result<Topology, Refusal<TopoFault>> {
    let mut nodes = Vec::new(alloc);
    let mut edges = Vec::new(alloc);
    for id in 0..count {
        let address = if id == 0 {
            Some(0x0a00_0001)
        } else if id + 1 == count {
            Some(0x0a00_0002)
        } else {
            None
        };
        nodes.push(Node {
            id: u64::from(id),
            address,
        })?;
        if id > 0 {
            edges.push(EdgeSpec {
                source: u64::from(id) - 1,
                target: u64::from(id),
                bps: 8_000_000,
                ..STUB
            })?;
        }
    }
    if nodes.len() > 1_000 || edges.len() > 1_000 {
        return Err(Refusal::NoMemory);
    }
    Topology::new(alloc, nodes, edges, false)
}

fn planned_over_a_row(rt: &impl Abort, alloc: Global, mode: Mode) -> Result<Planned, Fail>
    requires { IsMode mode }
{
    let topology = row(alloc, 257)?;
    let mut text = capture(alloc, LINK_TYPE_RAW)?;
    push_record(&mut text, 0, &header(A, B))?;
    let options = Options {
        mode,
        cores: 1,
        ..OPTIONS
    };
    Ok(plan_of(alloc, &topology, &text, &options, None)?.expect(rt, "a plan"))
}

#[test]
fn a_route_of_256_pipes_is_too_far(rt: HostRuntime) -> Result<(), Fail> {
    let hop = planned_over_a_row(&rt, rt.alloc(), Mode::Hop)?;
    assert_eq!(rt; hop.unbounds.as_slice(), [(0, Unbound::TooFar)].as_slice());
    assert_eq!(rt; hop.setup.parts().routes.len(), 0);
    let end = planned_over_a_row(&rt, rt.alloc(), Mode::End)?;
    assert_eq!(rt; end.unbounds.len(), 0);
    let parts = end.setup.parts();
    assert!(rt; parts.routes.len() == 1);
    assert_eq!(rt; parts.routes[0].as_slice(), [0].as_slice());
    Ok(())
}

/// Nodes 0 and 1 with addresses 10.0.0.1 and 10.0.0.2, and a link between.
fn one_link(alloc: Global) -> Result<Topology, Refusal<TopoFault>> {
    let nodes = vec![in alloc;
        Node {
            id: 0,
            address: Some(0x0a00_0001)
        },
        Node {
            id: 2,
            address: Some(0x0a00_0002)
        },
    ]?;
    let edges = vec![in alloc;
        EdgeSpec {
            bps: 8_000_000,
            latency_us: 5_000,
            ..STUB
        },
    ]?;
    if nodes.len() > 10 || edges.len() > 10 {
        return Err(Refusal::NoMemory);
    }
    Topology::new(alloc, nodes, edges, false)
}

const ONE_CORE: Options = Options {
    mode: Mode::Hop,
    cores: 1,
    ..OPTIONS
};

/// The plan of two packets over the one link, whose first pipe changes at tick 5.
fn planned_with_a_change(rt: &impl Abort, alloc: Global) -> Result<Planned, Fail> {
    const DIRECTORY: &[u8] = b"modelnet-directory 2 cores 1 pipes 2 changes 1\n\
        pipe 0 core 0\npipe 1 core 0\n\
        change tick 5 pipe 0 bps 80000000 us 1000 queue 50 ppm 0\n";
    let topology = one_link(alloc)?;
    let mut text = capture(alloc, LINK_TYPE_RAW)?;
    push_record(&mut text, 0, &header(A, B))?;
    push_record(&mut text, 500_000, &header(A, B))?;
    Ok(plan_of(alloc, &topology, &text, &ONE_CORE, Some(DIRECTORY))?.expect(rt, "a plan"))
}

#[test]
fn a_change_of_a_pipe(rt: HostRuntime) -> Result<(), Fail> {
    let planned = planned_with_a_change(&rt, rt.alloc())?;
    let parts = planned.setup.parts();
    assert!(rt; parts.changes.len() == 1 && parts.pipes.len() == 2 && parts.packets.len() == 2);
    let change = parts.changes[0];
    let params = change.params;
    assert_eq!(rt;
        (change.tick, change.pipe, params.bps, params.latency_us),
        (5, 0, 80_000_000, 1_000)
    );
    assert_eq!(rt;
        (params.latency_ticks, params.queue, params.keep),
        (10, 50, 1 << 32)
    );
    let first = parts.pipes[0];
    assert_eq!(rt; (first.bps, first.latency_ticks), (8_000_000, 50));
    assert_eq!(rt; parts.packets[1].entry_tick, 5);
    Ok(())
}

/// Nodes 0, 1 and 3 (10.0.0.1, 10.0.0.2, 10.0.0.3) around node 2.
fn three_spokes(alloc: Global) -> Result<Topology, Refusal<TopoFault>> {
    const SPOKE: EdgeSpec = EdgeSpec {
        bps: 8_000_000,
        latency_us: 5_000,
        ..STUB
    };
    let addresses = [
        Some(0x0a00_0001),
        Some(0x0a00_0002),
        None,
        Some(0x0a00_0003),
    ];
    let nodes = nodes_with(alloc, &addresses)?;
    let edges = vec![in alloc;
        SPOKE,
        EdgeSpec { source: 1, ..SPOKE },
        EdgeSpec {
            source: 2,
            target: 3,
            ..SPOKE
        },
    ]?;
    if nodes.len() > 10 || edges.len() > 10 {
        return Err(Refusal::NoMemory);
    }
    Topology::new(alloc, nodes, edges, false)
}

/// The plan of two packets from two spokes to the third, on three cores. A pipe changes when both have left.
fn planned_with_a_late_change(rt: &impl Abort, alloc: Global) -> Result<Planned, Fail> {
    const DIRECTORY: &[u8] = b"modelnet-directory 2 cores 3 pipes 6 changes 1\n\
        pipe 0 core 0\npipe 1 core 0\npipe 2 core 1\npipe 3 core 1\npipe 4 core 2\npipe 5 core 2\n\
        change tick 1000 pipe 0 bps 8000000 us 0 queue 50 ppm 0\n";
    const LAST: [u8; 4] = [10, 0, 0, 3];
    let topology = three_spokes(alloc)?;
    let mut text = capture(alloc, LINK_TYPE_RAW)?;
    push_record(&mut text, 0, &header(A, LAST))?;
    push_record(&mut text, 0, &header(B, LAST))?;
    let options = Options {
        cores: 3,
        ..ONE_CORE
    };
    Ok(plan_of(alloc, &topology, &text, &options, Some(DIRECTORY))?.expect(rt, "a plan"))
}

#[test]
fn a_change_after_the_last_packet(rt: HostRuntime) -> Result<(), Fail> {
    let planned = planned_with_a_late_change(&rt, rt.alloc())?;
    let parts = planned.setup.parts();
    assert_eq!(rt; parts.owners.as_slice(), [0, 0, 1, 1, 2, 2].as_slice());
    assert!(rt; parts.changes.len() == 1);
    let change = parts.changes[0];
    assert_eq!(rt;
        (change.tick, change.pipe, change.params.latency_ticks),
        (1_000, 0, 1)
    );
    let entries = entries(rt.alloc(), &planned)?;
    assert_eq!(rt; entries.as_slice(), [(0, 0, 0), (0, 1, 1)].as_slice());
    Ok(())
}

/// What is wrong with a directory text for the one link.
fn fault_of(alloc: Global, directory: &[u8]) -> Result<Option<PlanFault>, Fail>
    requires { length directory.now ≤ DIRECTORY_BYTES_MAX }
{
    let topology = one_link(alloc)?;
    let text = capture(alloc, LINK_TYPE_RAW)?;
    Ok(plan_of(alloc, &topology, &text, &ONE_CORE, Some(directory))?.err())
}

/// A directory text with this count of changes, line for the second pipe, and change.
fn directory(alloc: Global, count: u8, second: &[u8], change: &[u8]) -> Result<Vec<u8>, NoMemory> {
    let mut text = Vec::new(alloc);
    text.extend_from_slice(b"modelnet-directory 2 cores 1 pipes 2 changes ")?;
    text.push(count)?;
    text.extend_from_slice(b"\npipe 0 core 0\n")?;
    text.extend_from_slice(second)?;
    text.push(b'\n')?;
    text.extend_from_slice(change)?;
    Ok(text)
}

#[test]
fn faults_of_a_directory_text(rt: HostRuntime) -> Result<(), Fail> {
    const CHANGE: &[u8] = b"change tick 1000 pipe 0 bps 8000000 us 0 queue 50 ppm 0";
    const OTHER_PIPE: &[u8] = b"change tick 1000 pipe 2 bps 8000000 us 0 queue 50 ppm 0";
    const LONG: &[u8] = b"change tick 1000 pipe 0 bps 8000000 us 10000001 queue 50 ppm 0";
    const ONE: &[u8] = b"pipe 1 core 0";
    const TWICE: &[u8] = b"pipe 0 core 0";
    const COUNT: PlanFault = PlanFault::Changes(ChangesFault::Count);
    const LINE: PlanFault = PlanFault::Changes(ChangesFault::Line(4));
    const RANGE: PlanFault = PlanFault::Changes(ChangesFault::Range(4));
    for (count, second, change, fault) in [
        (b'1', ONE, CHANGE, None),
        (b'2', ONE, CHANGE, Some(COUNT)),
        (b'1', ONE, OTHER_PIPE, Some(LINE)),
        (b'1', ONE, LONG, Some(RANGE)),
        (
            b'1',
            TWICE,
            CHANGE,
            Some(PlanFault::Assign(AssignFault::Twice(3))),
        ),
        (b'1', TWICE, LONG, Some(RANGE)),
    ] {
        let text = directory(rt.alloc(), count, second, change)?;
        assert!(rt; text.len() < 1_000);
        assert_eq!(rt; fault_of(rt.alloc(), &text)?, fault);
    }
    Ok(())
}

/// Node 0 with an address, and 513 others between it and node 1.
fn wheel(alloc: Global) -> Result<Topology, Refusal<TopoFault>> {
    let mut nodes = Vec::new(alloc);
    let mut edges = Vec::new(alloc);
    for id in 0..515 {
        nodes.push(Node {
            id,
            address: (id == 0).then_some(1),
        })?;
        if id > 1 {
            edges.push(EdgeSpec {
                source: 0,
                target: id,
                ..STUB
            })?;
            edges.push(EdgeSpec {
                source: id,
                target: 1,
                ..STUB
            })?;
        }
    }
    if nodes.len() > 1_000 || edges.len() > 2_000 {
        return Err(Refusal::NoMemory);
    }
    Topology::new(alloc, nodes, edges, false)
}

/// The pairs of the 513 nodes are too many for the pipes of a run.
#[test]
fn too_many_pipes(rt: HostRuntime) -> Result<(), Fail> {
    let topology = wheel(rt.alloc())?;
    let text = capture(rt.alloc(), LINK_TYPE_RAW)?;
    let fault = plan_of(rt.alloc(), &topology, &text, &OPTIONS, None)?.err();
    assert_eq!(rt; fault, Some(PlanFault::TooManyPipes(263_682)));
    Ok(())
}
