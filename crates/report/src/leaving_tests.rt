ghost use Rattle.std.specs.Prelude.{◌≡◌, ◌≤◌, [], ◌∷◌, length, map, All, IfOk};
ghost use Rattle.mn_base.specs.declared.limits.TheConstants.{PACKET_BYTES_MAX};

use crate::leaving_trace;
use journal::{LossBy, PacketPlan, Setup, SetupParts, fates};
use mn_base::limits::{KEEP_MAX, LINK_TYPE_RAW, TICK_NS_DEFAULT};
use mn_base::{Bytes, NoMemory, PipeParams};
use pcap_io::{Packet, Trace};
use std::alloc::Global;
use std::test::Fail;

/// Three packets of 1,000 bytes on a pipe of 8 Mbit/s, 5 ms and one place in its queue: packet 0 enters at the first of these ticks,
/// packet 1 at tick 9, packet 2 at the last.
fn setup(alloc: Global, first: u64, last: u64) -> Result<Setup, NoMemory>
    requires first { first ≤ 10 }
    requires last { last ≤ 10 }
    ensures { IfOk result (λ s. map (λ p. p.len) s.packets ≡ 1000 ∷ 1000 ∷ 1000 ∷ []) }
{
    let pipe = PipeParams::new(8_000_000, 5_000, 1, KEEP_MAX, TICK_NS_DEFAULT);
    let one = PacketPlan {
        number: 1,
        entry_tick: 9,
        len: 1_000,
        route: 0,
        core: 0,
    };
    let zero = PacketPlan {
        number: 0,
        entry_tick: first,
        ..one
    };
    let two = PacketPlan {
        number: 2,
        entry_tick: last,
        ..one
    };
    let route = vec![in alloc; 0]?;
    Ok(Setup::new(SetupParts {
        tick_ns: TICK_NS_DEFAULT,
        seed: 0,
        base_ns: 10_000_000_000,
        link_type: LINK_TYPE_RAW,
        cores: 1,
        pipes: vec![in alloc; pipe]?,
        owners: vec![in alloc; 0]?,
        routes: vec![in alloc; route]?,
        packets: vec![in alloc; zero, one, two]?,
        changes: Vec::new(alloc),
        loss: LossBy::Packet,
    }))
}

/// A packet of 1,000 bytes, of which these were captured.
fn packet(alloc: Global, bytes: &[u8]) -> Result<Packet, NoMemory>
    requires { length bytes.now ≤ PACKET_BYTES_MAX }
    ensures original { IfOk result (λ p. p.original ≡ 1000) }
    ensures captured { IfOk result (λ p. length p.bytes ≤ PACKET_BYTES_MAX) }
{
    let bytes = Bytes::copy(alloc, bytes)?;
    Ok(Packet {
        time_ns: 10_000_000_000,
        original: 1_000,
        bytes,
    })
}

/// Their packets.
fn packets(alloc: Global) -> Result<Vec<Packet>, NoMemory>
    ensures originals { IfOk result (λ ps. map (λ p. p.original) ps.items ≡ 1000 ∷ 1000 ∷ 1000 ∷ []) }
    ensures captured { IfOk result (λ ps. All (λ p. length p.bytes ≤ PACKET_BYTES_MAX) ps.items) }
{
    let zero = packet(alloc, b"a")?;
    let one = packet(alloc, b"b")?;
    let two = packet(alloc, b"c")?;
    let packets = vec![in alloc; zero, one, two]?;
    Ok(packets)
}

fn trace(alloc: Global, first: u64, last: u64) -> Result<Trace, NoMemory>
    requires first { first ≤ 10 }
    requires last { last ≤ 10 }
{
    let setup = setup(alloc, first, last)?;
    let fates = fates(alloc, &setup)?;
    leaving_trace(alloc, &setup, &fates, packets(alloc)?)
}

/// 1,000 bytes take 10 ticks, and the latency is 50: what enters at ticks 0 and 10 leaves at 60 and 70, and packet 1 is dropped.
#[test]
fn the_packets_that_came_become_those_that_leave(rt: HostRuntime) -> Result<(), Fail> {
    let trace = trace(rt.alloc(), 0, 10)?;
    let packets = trace.packets();
    assert_eq!(rt; packets.len(), 2);
    assert_eq!(rt;
        (packets[0].time_ns, packets[0].bytes.as_slice()),
        (10_006_000_000, b"a".as_slice())
    );
    assert_eq!(rt;
        (packets[1].time_ns, packets[1].bytes.as_slice()),
        (10_007_000_000, b"c".as_slice())
    );
    Ok(())
}

#[test]
fn a_later_packet_that_leaves_first_stands_first(rt: HostRuntime) -> Result<(), Fail> {
    let trace = trace(rt.alloc(), 10, 0)?;
    let packets = trace.packets();
    assert_eq!(rt; packets.len(), 2);
    assert_eq!(rt;
        (packets[0].time_ns, packets[0].bytes.as_slice()),
        (10_006_000_000, b"c".as_slice())
    );
    assert_eq!(rt;
        (packets[1].time_ns, packets[1].bytes.as_slice()),
        (10_007_000_000, b"a".as_slice())
    );
    Ok(())
}
