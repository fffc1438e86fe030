use crate::print_pipes;
use distill::{Mode, distill};
use mn_base::Refusal;
use std::alloc::Global;
use std::test::Fail;
use topo::{EdgeSpec, Node, TopoFault, Topology};

const STUB: EdgeSpec = EdgeSpec {
    source: 0,
    target: 2,
    bps: 10_000_000,
    latency_us: 1_000,
    queue: 50,
    ppm: 0,
};

/// Two stubs: 0 and 1 behind 2, 4 and 5 behind 3, and a slow link between 2 and 3.
fn two_stubs(alloc: Global) -> Result<Topology, Refusal<TopoFault>> {
    let mut nodes = Vec::new(alloc);
    for id in 0..6u32 {
        let address = (id != 2 && id != 3).then_some(167_772_160 + id);
        nodes.push(Node {
            id: u64::from(id),
            address,
        })?;
    }
    let edges = vec![in alloc;
        STUB,
        EdgeSpec { source: 1, ..STUB },
        EdgeSpec {
            source: 2,
            target: 3,
            bps: 2_000_000,
            latency_us: 20_000,
            queue: 20,
            ppm: 0
        },
        EdgeSpec {
            source: 3,
            target: 4,
            ..STUB
        },
        EdgeSpec {
            source: 3,
            target: 5,
            ..STUB
        },
    ]?;
    if nodes.len() > 10 || edges.len() > 10 {
        return Err(Refusal::NoMemory);
    }
    Topology::new(alloc, nodes, edges, false)
}

#[test]
fn pipes_of_two_stubs_walked_in(rt: HostRuntime) -> Result<(), Fail> {
    let topology = two_stubs(rt.alloc())?;
    let distilled = distill(rt.alloc(), &topology, Mode::Walk(1), 100_000)?;
    let text = print_pipes(rt.alloc(), &topology, &distilled, Mode::Walk(1), 100_000)?;
    let expected = b"modelnet pipes 1\n\
        mode walk:1 tick-ns 100000 pipes 10\n\
        pipe 0 from 0 to 2 bps 10000000 us 1000 ticks 10 queue 50 keep 4294967296 links 1\n\
        pipe 1 from 2 to 0 bps 10000000 us 1000 ticks 10 queue 50 keep 4294967296 links 1\n\
        pipe 2 from 1 to 2 bps 10000000 us 1000 ticks 10 queue 50 keep 4294967296 links 1\n\
        pipe 3 from 2 to 1 bps 10000000 us 1000 ticks 10 queue 50 keep 4294967296 links 1\n\
        pipe 4 from 3 to 4 bps 10000000 us 1000 ticks 10 queue 50 keep 4294967296 links 1\n\
        pipe 5 from 4 to 3 bps 10000000 us 1000 ticks 10 queue 50 keep 4294967296 links 1\n\
        pipe 6 from 3 to 5 bps 10000000 us 1000 ticks 10 queue 50 keep 4294967296 links 1\n\
        pipe 7 from 5 to 3 bps 10000000 us 1000 ticks 10 queue 50 keep 4294967296 links 1\n\
        pipe 8 from 2 to 3 bps 2000000 us 20000 ticks 200 queue 20 keep 4294967296 links 1\n\
        pipe 9 from 3 to 2 bps 2000000 us 20000 ticks 200 queue 20 keep 4294967296 links 1\n";
    assert_eq!(rt; text.as_slice(), expected.as_slice());
    Ok(())
}

#[test]
fn modes_are_told_by_their_words(rt: HostRuntime) -> Result<(), Fail> {
    let topology = Topology::new(
        rt.alloc(),
        Vec::new(rt.alloc()),
        Vec::new(rt.alloc()),
        false,
    )?;
    let out = distill(rt.alloc(), &topology, Mode::WalkOut(2, 1), 100_000)?;
    let text = print_pipes(rt.alloc(), &topology, &out, Mode::WalkOut(2, 1), 100_000)?;
    let expected = b"modelnet pipes 1\nmode walk:2:1 tick-ns 100000 pipes 0\n";
    assert_eq!(rt; text.as_slice(), expected.as_slice());
    let hop = distill(rt.alloc(), &topology, Mode::Hop, 1_000)?;
    let text = print_pipes(rt.alloc(), &topology, &hop, Mode::Hop, 1_000)?;
    let expected = b"modelnet pipes 1\nmode hop tick-ns 1000 pipes 0\n";
    assert_eq!(rt; text.as_slice(), expected.as_slice());
    let end = distill(rt.alloc(), &topology, Mode::End, 1_000)?;
    let text = print_pipes(rt.alloc(), &topology, &end, Mode::End, 1_000)?;
    let expected = b"modelnet pipes 1\nmode end tick-ns 1000 pipes 0\n";
    assert_eq!(rt; text.as_slice(), expected.as_slice());
    Ok(())
}
