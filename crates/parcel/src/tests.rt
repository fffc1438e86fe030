use crate::{CoreCounts, CoreResult, Empty, Note, Parcel, PlainBoxes, Ports, Settled, lookahead};
use journal::{Fate, LossBy, PacketPlan, PipeChange, Setup, SetupParts};
use mn_base::limits::KEEP_MAX;
use mn_base::{Bytes, Cause, PipeParams};
use std::test::Fail;

/// The parameters of a pipe of this latency in ticks of 100,000 ns.
macro_rules! params {
    ($ticks:expr) => {
        PipeParams {
            bps: 8_000_000,
            latency_us: 5_000,
            latency_ticks: $ticks,
            queue: 50,
            keep: KEEP_MAX,
        }
    };
}

/// A packet of 1,000 bytes that enters at core 0 at tick 0.
macro_rules! packet {
    ($number:expr, $route:expr) => {
        PacketPlan {
            entry_tick: 0,
            number: $number,
            len: 1000,
            route: $route,
            core: 0,
        }
    };
}

/// The setup of so many cores, with pipes of these latencies in ticks, owners, routes and changes (a pipe, and its latency from
/// tick 1,000 on). One packet enters for each of the packets' routes.
macro_rules! setup {
    (
        $rt:expr, $cores:expr, [$($ticks:expr),*], [$($owner:expr),*], [$([$($hop:expr),*]),*],
        [$($number:expr => $route:expr),*], [$($pipe:expr => $then:expr),*]
    ) => {
        Setup::new(SetupParts {
            tick_ns: 100_000,
            seed: 0,
            base_ns: 0,
            link_type: 101,
            cores: $cores,
            pipes: vec![in $rt.alloc(); $(params!($ticks)),*]?,
            owners: vec![in $rt.alloc(); $($owner),*]?,
            routes: vec![in $rt.alloc(); $(vec![in $rt.alloc(); $($hop),*]?),*]?,
            packets: vec![in $rt.alloc(); $(packet!($number, $route)),*]?,
            changes: vec![in $rt.alloc(); $(PipeChange { tick: 1000, pipe: $pipe, params: params!($then) }),*]?,
            loss: LossBy::Packet,
        })
    };
}

fn may_move_to_a_thread<T: Send>(_value: &T) {}

#[test]
fn notes_are_put_in_order(rt: HostRuntime) -> Result<(), Fail> {
    let arrives = Note::Arrive {
        packet: 3,
        hop: 1,
        tick: 60,
    };
    let dropped = Note::Settle {
        packet: 2,
        fate: Fate::Dropped {
            pipe: 0,
            tick: 60,
            cause: Cause::Full,
        },
    };
    let earlier = Note::Arrive {
        packet: 9,
        hop: 2,
        tick: 59,
    };
    let later = Note::Arrive {
        packet: 1,
        hop: 1,
        tick: 61,
    };
    let left = Note::Settle {
        packet: 0,
        fate: Fate::Left { tick: 70 },
    };
    let parcel = Parcel::in_order(
        vec![in rt.alloc(); left, arrives, later, earlier, dropped]?,
        Some(59),
    );
    may_move_to_a_thread(&parcel);
    assert_eq!(rt; parcel.least, Some(59));
    assert_eq!(rt;
        parcel.notes.as_slice(),
        [earlier, dropped, arrives, later, left].as_slice()
    );
    Ok(())
}

#[test]
fn results_go_to_other_threads(rt: HostRuntime) -> Result<(), Fail> {
    let alloc = rt.alloc();
    let left = Settled {
        packet: 7,
        fate: Fate::Left { tick: 70 },
        bytes: Some(Bytes::copy(alloc, &[0xaa])?),
    };
    may_move_to_a_thread(&left);
    let result = CoreResult {
        settled: vec![in alloc; left]?,
        pipe_counts: Vec::new(alloc),
        counts: CoreCounts {
            pipes: 0,
            entered: 1,
            visits: 0,
            arrivals: 0,
            settles: 0,
            windows: 0,
        },
    };
    may_move_to_a_thread(&result);
    assert_eq!(rt; result.settled.len(), 1);
    Ok(())
}

/// Two packets from cores 0 and 1 meet at a pipe of core 2.
#[test]
fn the_lookahead_is_the_latency_to_another_core(rt: HostRuntime) -> Result<(), Fail> {
    let setup = setup!(
        rt,
        3,
        [50, 50, 50, 50, 50, 50],
        [0, 0, 1, 1, 2, 2],
        [[0, 4], [2, 4]],
        [0 => 0, 1 => 1],
        []
    );
    assert_eq!(rt; lookahead(&setup), 50);
    Ok(())
}

/// Pipe 0 is changed to a latency of one tick.
#[test]
fn the_lookahead_is_over_all_changes(rt: HostRuntime) -> Result<(), Fail> {
    let setup = setup!(
        rt,
        3,
        [50, 50, 50, 50, 50, 50],
        [0, 0, 1, 1, 2, 2],
        [[0, 4], [2, 4]],
        [0 => 0, 1 => 1],
        [0 => 1]
    );
    assert_eq!(rt; lookahead(&setup), 1);
    Ok(())
}

/// Two stubs of fast pipes, with a core each; the slow pipe 8 between them is the only one that packets leave for the other core.
#[test]
fn the_lookahead_is_over_no_other_pipes(rt: HostRuntime) -> Result<(), Fail> {
    let setup = setup!(
        rt,
        2,
        [10, 10, 10, 10, 10, 10, 10, 10, 200, 200],
        [0, 0, 0, 0, 1, 1, 1, 1, 0, 1],
        [[0, 8, 4], [2, 8, 6]],
        [0 => 0, 1 => 1],
        [4 => 1]
    );
    assert_eq!(rt; lookahead(&setup), 200);
    Ok(())
}

#[test]
fn one_core_has_the_greatest_lookahead(rt: HostRuntime) -> Result<(), Fail> {
    let setup = setup!(rt, 1, [10, 10], [0, 0], [[0, 1]], [0 => 0], []);
    assert_eq!(rt; lookahead(&setup), 1_099_511_627_776);
    Ok(())
}

/// A setup without packets has no window: each core posts one parcel to each other, and it has no note.
#[test]
fn each_pair_of_cores_has_its_own_box(rt: HostRuntime) -> Result<(), Fail> {
    let alloc = rt.alloc();
    let setup = setup!(rt, 3, [], [], [], [], []);
    let mut boxes = PlainBoxes::new(alloc, &setup)?;
    may_move_to_a_thread(&boxes);
    let parcel = Parcel {
        notes: Vec::new(alloc),
        least: None,
    };
    assert!(rt; boxes.try_post(2, parcel).is_ok());
    boxes.serve(1);
    assert_eq!(rt; boxes.try_take(0).err(), Some(Empty { seen: 0 }));
    boxes.serve(2);
    assert_eq!(rt; boxes.try_take(1).err(), Some(Empty { seen: 0 }));
    assert!(rt; boxes.try_take(0).is_ok());
    Ok(())
}
