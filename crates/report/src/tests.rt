use crate::{Generated, out_trace, print_moves, print_report, print_summary};
use journal::{LossBy, PacketPlan, Setup, SetupParts};
use mn_base::limits::{KEEP_MAX, LINK_TYPE_RAW, TICK_NS_DEFAULT};
use mn_base::{Bytes, Cause, NoMemory, PipeParams, Unbound};
use parcel::PipeCounts;
use settle::{DropLine, Leaving, Outcome};
use std::alloc::Global;
use std::test::Fail;

fn report_of(
    alloc: Global,
    leaving: Vec<Leaving>,
    dropped: &[DropLine],
    pipe_counts: &[PipeCounts],
    unbounds: &[(u32, Unbound)],
) -> Result<Bytes, NoMemory> {
    let outcome = Outcome {
        leaving,
        dropped: dropped.to_vec(alloc)?,
        pipe_counts: pipe_counts.to_vec(alloc)?,
        cores: Vec::new(alloc),
    };
    print_report(alloc, &outcome, unbounds)
}

const fn counts(pipe: u32, passed: u64, full: u64) -> PipeCounts {
    PipeCounts {
        pipe,
        passed,
        lost: 0,
        full,
    }
}

#[test]
fn reports_of_a_packet_that_left_and_of_an_empty_trace(rt: HostRuntime) -> Result<(), Fail> {
    let bytes = Bytes::copy(rt.alloc(), b"\xde\xad\xbe\xef")?;
    let left = vec![in rt.alloc();
        Leaving {
            tick: 60,
            packet: 0,
            bytes
        },
    ]?;
    let text = report_of(rt.alloc(), left, &[], &[counts(0, 1, 0)], &[])?;
    let expected = b"modelnet report 1\n\
        packets 1 bound 1 unbound 0 left 1 dropped 0\n\
        pipe 0 passed 1 lost 0 full 0\n";
    assert_eq!(rt; text.as_slice(), expected.as_slice());

    let text = report_of(
        rt.alloc(),
        Vec::new(rt.alloc()),
        &[],
        &[counts(0, 0, 0)],
        &[],
    )?;
    let expected = b"modelnet report 1\npackets 0 bound 0 unbound 0 left 0 dropped 0\n";
    assert_eq!(rt; text.as_slice(), expected.as_slice());
    Ok(())
}

#[test]
fn report_of_drops_and_unbound_packets(rt: HostRuntime) -> Result<(), Fail> {
    let dropped = DropLine {
        packet: 2,
        pipe: 3,
        tick: 9,
        cause: Cause::Full,
    };
    let unbounds = [(0, Unbound::NotIpv4), (1, Unbound::TooFar)];
    let text = report_of(
        rt.alloc(),
        Vec::new(rt.alloc()),
        &[dropped],
        &[counts(3, 0, 1)],
        &unbounds,
    )?;
    let expected = b"modelnet report 1\n\
        packets 3 bound 1 unbound 2 left 0 dropped 1\n\
        pipe 3 passed 0 lost 0 full 1\n\
        drop 2 pipe 3 tick 9 cause full\n\
        unbound 0 cause not-ipv4\n\
        unbound 1 cause too-far\n";
    assert_eq!(rt; text.as_slice(), expected.as_slice());
    Ok(())
}

#[test]
fn words_of_all_causes(rt: HostRuntime) -> Result<(), Fail> {
    let lost = DropLine {
        packet: 7,
        pipe: 1,
        tick: 60,
        cause: Cause::Loss,
    };
    let unbounds = [
        (1, Unbound::Short),
        (2, Unbound::NoSource),
        (4, Unbound::NoDestination),
        (4294967295, Unbound::NoRoute),
    ];
    let text = report_of(rt.alloc(), Vec::new(rt.alloc()), &[lost], &[], &unbounds)?;
    let expected = b"modelnet report 1\n\
        packets 5 bound 1 unbound 4 left 0 dropped 1\n\
        drop 7 pipe 1 tick 60 cause loss\n\
        unbound 1 cause short\n\
        unbound 2 cause no-source\n\
        unbound 4 cause no-destination\n\
        unbound 4294967295 cause no-route\n";
    assert_eq!(rt; text.as_slice(), expected.as_slice());
    Ok(())
}

#[test]
fn trace_of_packets_that_leave_out_of_number_order(rt: HostRuntime) -> Result<(), Fail> {
    let pipe = PipeParams::new(8_000_000, 5_000, 50, KEEP_MAX, TICK_NS_DEFAULT);
    let second = PacketPlan {
        number: 1,
        entry_tick: 0,
        len: 1_000,
        route: 0,
        core: 0,
    };
    let first = PacketPlan {
        number: 0,
        entry_tick: 10,
        ..second
    };
    let setup = Setup::new(SetupParts {
        tick_ns: TICK_NS_DEFAULT,
        seed: 0,
        base_ns: 10_000_000_000,
        link_type: LINK_TYPE_RAW,
        cores: 1,
        pipes: vec![in rt.alloc(); pipe]?,
        owners: vec![in rt.alloc(); 0]?,
        routes: vec![in rt.alloc(); vec![in rt.alloc(); 0]?]?,
        packets: vec![in rt.alloc(); first, second]?,
        changes: Vec::new(rt.alloc()),
        loss: LossBy::Packet,
    });
    let left_last = Leaving {
        tick: 70,
        packet: 0,
        bytes: Bytes::copy(rt.alloc(), b"\xaa")?,
    };
    let left_first = Leaving {
        tick: 60,
        packet: 1,
        bytes: Bytes::copy(rt.alloc(), b"\xbb")?,
    };
    let trace = out_trace(
        rt.alloc(),
        &setup,
        vec![in rt.alloc(); left_first, left_last]?,
    )?;
    assert_eq!(rt; trace.link_type(), 101);
    let expected = [
        (10_006_000_000, b"\xbb".as_slice()),
        (10_007_000_000, b"\xaa".as_slice()),
    ];
    assert_eq!(rt; trace.packets().len(), 2);
    for (packet, (time_ns, bytes)) in trace.packets().iter().zip(expected) {
        assert_eq!(rt; packet.time_ns, time_ns);
        assert_eq!(rt; packet.original, 1_000);
        assert_eq!(rt; packet.bytes.as_slice(), bytes);
    }
    Ok(())
}

#[test]
fn summaries_tell_the_greatest_tick_of_all_that_left(rt: HostRuntime) -> Result<(), Fail> {
    let mut leaving = Vec::new(rt.alloc());
    for (packet, tick) in [(4, 7), (0, 60), (3, 9)] {
        leaving.push(Leaving {
            tick,
            packet,
            bytes: Bytes::copy(rt.alloc(), b"\xaa")?,
        })?;
    }
    let dropped = DropLine {
        packet: 1,
        pipe: 0,
        tick: 90,
        cause: Cause::Loss,
    };
    let outcome = Outcome {
        leaving,
        dropped: vec![in rt.alloc(); dropped]?,
        pipe_counts: Vec::new(rt.alloc()),
        cores: Vec::new(rt.alloc()),
    };
    let input = Generated {
        number: 7,
        packets: 5,
        gml_len: 8_300,
        trace_len: 204,
    };
    let text = print_summary(rt.alloc(), &input, &outcome, &[(2, Unbound::NoRoute)])?;
    let expected = b"workload 7 packets 5\n\
        gml 8300 trace 204\n\
        packets 5 bound 4 unbound 1 left 3 dropped 1\n\
        last-tick 60\n";
    assert_eq!(rt; text.as_slice(), expected.as_slice());
    Ok(())
}

#[test]
fn moves_are_told_before_the_visits_of_each_core(rt: HostRuntime) -> Result<(), Fail> {
    let text = print_moves(rt.alloc(), 2, 1, &[5, 0])?;
    let expected = b"modelnet moves 1\nwindows 2 moved 1\ncore 0 visits 5\ncore 1 visits 0\n";
    assert_eq!(rt; text.as_slice(), expected.as_slice());
    Ok(())
}
