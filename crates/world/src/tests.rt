ghost use Rattle.std.specs.Prelude.{◌≡◌, length, IfOk};

use crate::{World, order_list};
use core_loop::{PortName, Tally, Turn, stock};
use journal::{Fate, LossBy, PacketPlan, PipeChange, Setup, SetupParts, fates};
use mn_base::limits::KEEP_MAX;
use mn_base::{Bytes, Cause, NoMemory, PipeParams};
use parcel::{CoreResult, Settled, lookahead};
use std::alloc::Global;
use std::process::Abort;
use std::test::Fail;

/// The parameters of a pipe of this bandwidth (in bit/s), latency in ticks of 100,000 ns, queue limit and keep.
macro_rules! params {
    ($bps:expr, $ticks:expr, $queue:expr, $keep:expr) => {
        PipeParams {
            bps: $bps,
            latency_us: 5_000,
            latency_ticks: $ticks,
            queue: $queue,
            keep: $keep,
        }
    };
}

/// The setup of so many cores, with these pipes (bandwidth, latency, queue limit and keep), owners, routes, packets (number, length in
/// bytes, route, entry core and entry tick) and changes (tick, pipe, bandwidth and latency).
macro_rules! setup {
    (
        $alloc:expr, $cores:expr, [$($bps:expr, $ticks:expr, $queue:expr, $keep:expr);*], [$($owner:expr),*],
        [$([$($hop:expr),*]),*], [$($number:expr => $len:expr, $route:expr, $core:expr, $entry:expr);*],
        [$($from:expr, $pipe:expr, $then_bps:expr, $then_ticks:expr);*]
    ) => {
        Setup::new(SetupParts {
            tick_ns: 100_000,
            seed: 0,
            base_ns: 0,
            link_type: 101,
            cores: $cores,
            pipes: vec![in $alloc; $(params!($bps, $ticks, $queue, $keep)),*]?,
            owners: vec![in $alloc; $($owner),*]?,
            routes: vec![in $alloc; $(vec![in $alloc; $($hop),*]?),*]?,
            packets: vec![in $alloc; $(PacketPlan {
                entry_tick: $entry,
                number: $number,
                len: $len,
                route: $route,
                core: $core,
            }),*]?,
            changes: vec![in $alloc; $(PipeChange {
                tick: $from,
                pipe: $pipe,
                params: params!($then_bps, $then_ticks, 50, KEEP_MAX),
            }),*]?,
            loss: LossBy::Packet,
        })
    };
}

/// Two packets that enter at cores 0 and 1 meet at pipe 4, which core 2 owns.
fn meeting(alloc: Global) -> Result<Setup, Fail> {
    Ok(setup!(
        alloc,
        3,
        [8_000_000, 50, 50, KEEP_MAX; 8_000_000, 50, 50, KEEP_MAX; 8_000_000, 50, 50, KEEP_MAX; 8_000_000, 50, 50, KEEP_MAX;
         8_000_000, 50, 50, KEEP_MAX; 8_000_000, 50, 50, KEEP_MAX],
        [0, 0, 1, 1, 2, 2],
        [[0, 4], [2, 4]],
        [0 => 1000, 0, 0, 0; 1 => 1000, 1, 1, 0],
        []
    ))
}

/// The bytes of the packets of a setup: the number of each.
fn bytes_of(alloc: Global, setup: &Setup) -> Result<Vec<Bytes>, Fail>
    ensures { IfOk result (λ bytes. length bytes.items ≡ length setup.now.packets) }
{
    let mut bytes = Vec::new(alloc);
    for plan in &setup.parts().packets {
        bytes.push(Bytes::copy(alloc, &plan.number.to_le_bytes())?)?;
    }
    Ok(bytes)
}

/// The cores of a setup before any turn.
fn begun<'s>(alloc: Global, setup: &'s Setup) -> Result<World<'s>, Fail>
    ensures { IfOk result (λ world. world.setup ≡ setup.now) }
{
    let bytes = bytes_of(alloc, setup)?;
    let stores = stock(alloc, setup, bytes)?;
    Ok(World::start(alloc, setup, stores)?)
}

/// Turns these cores, one after the other, and compares what each answers.
fn turn_all(rt: &impl Abort, alloc: Global, world: &mut World<'_>, turns: &[(u32, Turn)]) {
    for (core, expected) in turns {
        assert!(rt; *core < world.setup.parts().cores);
        assert_eq!(rt; world.turn(alloc, *core), *expected);
    }
}

/// The results of all cores, which are turned to their end, and what they count in the tally.
fn ended(alloc: Global, world: World<'_>) -> Result<(Vec<CoreResult>, Tally), Fail> {
    let mut world = world;
    world.run_round_robin(alloc)?;
    let mut tally = Tally::new();
    let results = world.finish(alloc, &mut tally)?;
    Ok((results, tally))
}

/// The results of all cores of a setup, which are turned in the order that is drawn from this number, and then to their end.
fn drawn(alloc: Global, setup: &Setup, number: u64) -> Result<(Vec<CoreResult>, Tally), Fail> {
    let order = order_list(alloc, number, 20, setup.parts().cores)?;
    let mut world = begun(alloc, setup)?;
    world.run_order(alloc, &order)?;
    ended(alloc, world)
}

/// What a core settled of a packet.
fn settled_at<'a>(results: &'a [CoreResult], core: u32, packet: u32) -> Option<&'a Settled> {
    for each in &results.get(core as usize)?.settled {
        if each.packet == packet {
            return Some(each);
        }
    }
    None
}

/// How many packets all cores settled.
fn settled_count(results: &[CoreResult]) -> usize {
    let mut count: usize = 0;
    for result in results {
        count = count.saturating_add(result.settled.len());
    }
    count
}

/// A packet is settled with this fate, and with its bytes where it left.
fn compare_settled(rt: &impl Abort, settled: Option<&Settled>, packet: u32, fate: Fate) {
    let Some(settled) = settled else {
        panic!(rt; "the packet isn't settled where it entered");
    };
    assert_eq!(rt; settled.fate, fate);
    match &settled.bytes {
        Some(bytes) => assert_eq!(rt; bytes.as_slice(), packet.to_le_bytes().as_slice()),
        None => assert!(rt; !matches!(fate, Fate::Left { tick: _ })),
    }
}

/// The fates that the cores settled are those of the journal that one thread makes, each at the core where its packet entered.
fn compare_fates(
    rt: &impl Abort,
    alloc: Global,
    setup: &Setup,
    results: &[CoreResult],
) -> Result<(), Fail> {
    let expected = fates(alloc, setup)?;
    let packets = &setup.parts().packets;
    for (plan, fate) in packets.iter().zip(expected.iter()) {
        compare_settled(
            rt,
            settled_at(results, plan.core, plan.number),
            plan.number,
            *fate,
        );
    }
    assert_eq!(rt; settled_count(results), packets.len());
    Ok(())
}

/// The same in several orders of turns, which are drawn from numbers.
fn compare_orders(rt: &impl Abort, alloc: Global, setup: &Setup) -> Result<(), Fail> {
    for number in 0..8 {
        let (results, _tally) = drawn(alloc, setup, number)?;
        compare_fates(rt, alloc, setup, &results)?;
    }
    Ok(())
}

/// What a core did: its pipes, the packets that entered there, its visits, the arrivals and fates of which it told others, its windows.
fn counts_at(results: &[CoreResult], core: usize) -> Option<[u64; 6]> {
    let counts = &results.get(core)?.counts;
    Some([
        counts.pipes,
        counts.entered,
        counts.visits,
        counts.arrivals,
        counts.settles,
        counts.windows,
    ])
}

fn fate_at(results: &[CoreResult], core: u32, packet: u32) -> Option<Fate> {
    Some(settled_at(results, core, packet)?.fate)
}

/// Packets 0 and 1 enter at cores 0 and 1, and meet at pipe 4 of core 2, where they find each other at tick 60. Each core runs two
/// windows, and makes parcels 0, 1 and 2 for each other core. A box holds one parcel.
#[test]
fn two_packets_meet(rt: HostRuntime) -> Result<(), Fail> {
    let alloc = rt.alloc();
    let setup = meeting(alloc)?;
    let mut world = begun(alloc, &setup)?;
    let wait_for_0 = Turn::Waiting {
        on: PortName::Take(0),
    };
    let wait_for_1 = Turn::Waiting {
        on: PortName::Take(1),
    };
    let wait_to_post = Turn::Waiting {
        on: PortName::Post(0),
    };
    turn_all(
        &rt,
        alloc,
        &mut world,
        &[
            // Parcels 0. Core 2 has nothing due, and isn't done.
            (2, Turn::Moved),
            (2, wait_for_0),
            (0, Turn::Moved),
            (0, wait_for_1),
            (2, Turn::Moved),
            (2, wait_for_1),
            // Core 1 runs window 0, and finds its first parcels still in their boxes.
            (1, Turn::Moved),
            (1, wait_to_post),
            (0, Turn::Moved),
            (0, wait_for_1),
            (2, Turn::Moved),
            (2, wait_for_1),
            // The same with window 1.
            (1, Turn::Moved),
            (1, wait_to_post),
            (0, Turn::Moved),
            (2, Turn::Moved),
            (1, Turn::Done),
            (0, Turn::Done),
            (2, Turn::Done),
            (2, Turn::Done),
        ],
    );
    let (results, tally) = ended(alloc, world)?;
    compare_fates(&rt, alloc, &setup, &results)?;
    assert_eq!(rt; fate_at(&results, 0, 0), Some(Fate::Left { tick: 120 }));
    assert_eq!(rt; fate_at(&results, 1, 1), Some(Fate::Left { tick: 130 }));
    assert_eq!(rt; counts_at(&results, 0), Some([2, 1, 1, 1, 0, 2]));
    assert_eq!(rt; counts_at(&results, 1), Some([2, 1, 1, 1, 0, 2]));
    assert_eq!(rt; counts_at(&results, 2), Some([2, 0, 2, 0, 2, 2]));
    let text = format!(in alloc; "{tally:?}")?;
    assert_eq!(rt; text.as_str(), "Tally { cores: 3, windows: 6, visits: 4 }");
    compare_orders(&rt, alloc, &setup)
}

/// Core 2 is named twice before the others and once after them. Its last turn takes the parcel of core 1, so that it waits for core 0
/// alone: where a name is left out, or another core is turned for it, it answers otherwise.
#[test]
fn an_order_is_turned_name_by_name(rt: HostRuntime) -> Result<(), Fail> {
    let alloc = rt.alloc();
    let setup = meeting(alloc)?;
    let mut world = begun(alloc, &setup)?;
    let order = order_list(alloc, 304, 5, setup.parts().cores)?;
    assert_eq!(rt; order.as_slice(), [2, 2, 0, 1, 2].as_slice());
    world.run_order(alloc, &order)?;
    let wait_for_0 = Turn::Waiting {
        on: PortName::Take(0),
    };
    turn_all(&rt, alloc, &mut world, &[(2, wait_for_0), (0, Turn::Moved)]);
    Ok(())
}

/// Two packets go over one slow pipe from core 0 to core 1, with other pipes before and behind it: 10 ticks at the first pipe, and 50
/// at the slow one.
fn bottleneck(alloc: Global) -> Result<Setup, Fail> {
    Ok(setup!(
        alloc,
        2,
        [10_000_000, 10, 50, KEEP_MAX; 10_000_000, 10, 50, KEEP_MAX; 2_000_000, 200, 20, KEEP_MAX;
         10_000_000, 10, 50, KEEP_MAX; 10_000_000, 10, 50, KEEP_MAX],
        [0, 0, 0, 1, 1],
        [[0, 2, 3], [1, 2, 4]],
        [0 => 1250, 0, 0, 0; 1 => 1250, 1, 0, 0],
        []
    ))
}

/// Window 0 is that of the slow pipe, from tick 0 on; window 1 starts where the first packet comes to core 1, at tick 270.
#[test]
fn two_packets_share_a_slow_pipe(rt: HostRuntime) -> Result<(), Fail> {
    let alloc = rt.alloc();
    let setup = bottleneck(alloc)?;
    assert_eq!(rt; lookahead(&setup), 200);
    let mut world = begun(alloc, &setup)?;
    let wait_to_take = Turn::Waiting {
        on: PortName::Take(1),
    };
    let wait_to_post = Turn::Waiting {
        on: PortName::Post(0),
    };
    turn_all(
        &rt,
        alloc,
        &mut world,
        &[
            (0, Turn::Moved),
            (0, wait_to_take),
            (1, Turn::Moved),
            (1, wait_to_post),
            (0, Turn::Moved),
            (0, wait_to_take),
            (1, Turn::Moved),
            (1, wait_to_post),
            (0, Turn::Moved),
            (1, Turn::Done),
            (0, Turn::Done),
        ],
    );
    let (results, tally) = ended(alloc, world)?;
    compare_fates(&rt, alloc, &setup, &results)?;
    assert_eq!(rt; fate_at(&results, 0, 0), Some(Fate::Left { tick: 290 }));
    assert_eq!(rt; fate_at(&results, 0, 1), Some(Fate::Left { tick: 340 }));
    assert_eq!(rt; counts_at(&results, 0), Some([3, 2, 4, 2, 0, 2]));
    assert_eq!(rt; counts_at(&results, 1), Some([2, 0, 2, 0, 2, 2]));
    let text = format!(in alloc; "{tally:?}")?;
    assert_eq!(rt; text.as_str(), "Tally { cores: 2, windows: 4, visits: 6 }");
    compare_orders(&rt, alloc, &setup)
}

/// Packet 0 comes from core 0 to the short queue of pipe 1 at tick 60, when packet 1 enters there: packet 0 is first. Packet 2 enters at
/// core 0, and pipe 2 of core 1, its first, loses all.
fn drops(alloc: Global) -> Result<Setup, Fail> {
    Ok(setup!(
        alloc,
        2,
        [8_000_000, 50, 50, KEEP_MAX; 8_000_000, 50, 1, KEEP_MAX; 8_000_000, 50, 50, 0],
        [0, 1, 1],
        [[0, 1], [1], [2]],
        [0 => 1000, 0, 0, 0; 1 => 1000, 1, 1, 60; 2 => 1000, 2, 0, 0],
        []
    ))
}

#[test]
fn drops_are_told_where_packets_entered(rt: HostRuntime) -> Result<(), Fail> {
    let alloc = rt.alloc();
    let setup = drops(alloc)?;
    let (results, tally) = ended(alloc, begun(alloc, &setup)?)?;
    compare_fates(&rt, alloc, &setup, &results)?;
    let full = Fate::Dropped {
        pipe: 1,
        tick: 60,
        cause: Cause::Full,
    };
    let lost = Fate::Dropped {
        pipe: 2,
        tick: 0,
        cause: Cause::Loss,
    };
    assert_eq!(rt; fate_at(&results, 0, 0), Some(Fate::Left { tick: 120 }));
    assert_eq!(rt; fate_at(&results, 1, 1), Some(full));
    assert_eq!(rt; fate_at(&results, 0, 2), Some(lost));
    assert_eq!(rt; counts_at(&results, 0), Some([1, 2, 1, 2, 0, 2]));
    assert_eq!(rt; counts_at(&results, 1), Some([2, 1, 3, 0, 2, 2]));
    let text = format!(in alloc; "{tally:?}")?;
    assert_eq!(rt; text.as_str(), "Tally { cores: 2, windows: 4, visits: 4 }");
    compare_orders(&rt, alloc, &setup)
}

/// A packet that enters at core 1 and has no way to go.
fn no_way(alloc: Global) -> Result<Setup, Fail> {
    Ok(setup!(
        alloc,
        2,
        [8_000_000, 50, 50, KEEP_MAX; 8_000_000, 50, 50, KEEP_MAX],
        [0, 1],
        [[]],
        [3 => 1000, 0, 1, 42],
        []
    ))
}

/// It leaves as it enters. No window is run, and each core posts one parcel.
#[test]
fn a_packet_may_have_no_way_to_go(rt: HostRuntime) -> Result<(), Fail> {
    let alloc = rt.alloc();
    let setup = no_way(alloc)?;
    let mut world = begun(alloc, &setup)?;
    turn_all(
        &rt,
        alloc,
        &mut world,
        &[(0, Turn::Moved), (1, Turn::Done), (0, Turn::Done)],
    );
    let (results, tally) = ended(alloc, world)?;
    compare_fates(&rt, alloc, &setup, &results)?;
    assert_eq!(rt; fate_at(&results, 1, 3), Some(Fate::Left { tick: 42 }));
    assert_eq!(rt; counts_at(&results, 0), Some([1, 0, 0, 0, 0, 0]));
    assert_eq!(rt; counts_at(&results, 1), Some([1, 1, 0, 0, 0, 0]));
    let text = format!(in alloc; "{tally:?}")?;
    assert_eq!(rt; text.as_str(), "Tally { cores: 2, windows: 0, visits: 0 }");
    Ok(())
}

/// Sixteen cores, of which four own a pipe, and two packets that are far apart in time.
fn sixteen(alloc: Global) -> Result<Setup, Fail> {
    Ok(setup!(
        alloc,
        16,
        [8_000_000, 50, 50, KEEP_MAX; 8_000_000, 50, 50, KEEP_MAX; 8_000_000, 50, 50, KEEP_MAX; 8_000_000, 50, 50, KEEP_MAX],
        [0, 1, 2, 3],
        [[0, 2]],
        [0 => 1000, 0, 0, 0; 1 => 1000, 0, 0, 1_000_000_000],
        []
    ))
}

#[test]
fn idle_cores_go_along(rt: HostRuntime) -> Result<(), Fail> {
    let alloc = rt.alloc();
    let setup = sixteen(alloc)?;
    let (results, tally) = drawn(alloc, &setup, 3)?;
    compare_fates(&rt, alloc, &setup, &results)?;
    assert_eq!(rt;
        fate_at(&results, 0, 1),
        Some(Fate::Left {
            tick: 1_000_000_120
        })
    );
    assert_eq!(rt; counts_at(&results, 0), Some([1, 2, 2, 2, 0, 4]));
    assert_eq!(rt; counts_at(&results, 1), Some([1, 0, 0, 0, 0, 4]));
    assert_eq!(rt; counts_at(&results, 2), Some([1, 0, 2, 0, 2, 4]));
    assert_eq!(rt; counts_at(&results, 15), Some([0, 0, 0, 0, 0, 4]));
    let text = format!(in alloc; "{tally:?}")?;
    assert_eq!(rt;
        text.as_str(),
        "Tally { cores: 16, windows: 64, visits: 4 }"
    );
    Ok(())
}

/// One core, and a pipe that is ten times as fast from tick 5 on, with a fifth of its latency.
fn quicker(alloc: Global) -> Result<Setup, Fail> {
    Ok(setup!(
        alloc,
        1,
        [8_000_000, 50, 50, KEEP_MAX; 8_000_000, 50, 50, KEEP_MAX],
        [0, 0],
        [[0]],
        [0 => 1000, 0, 0, 0; 1 => 1000, 0, 0, 5],
        [5, 0, 80_000_000, 10]
    ))
}

/// Packet 1 starts when packet 0 has finished, at tick 10, and overtakes it.
#[test]
fn a_pipe_changes_under_way(rt: HostRuntime) -> Result<(), Fail> {
    let alloc = rt.alloc();
    let setup = quicker(alloc)?;
    let mut world = begun(alloc, &setup)?;
    turn_all(&rt, alloc, &mut world, &[(0, Turn::Done)]);
    let (results, _tally) = ended(alloc, world)?;
    compare_fates(&rt, alloc, &setup, &results)?;
    assert_eq!(rt; fate_at(&results, 0, 0), Some(Fate::Left { tick: 60 }));
    assert_eq!(rt; fate_at(&results, 0, 1), Some(Fate::Left { tick: 21 }));
    Ok(())
}

/// Two packets that meet, and a change of the first pipe's latency to one tick when they have left.
fn later_change(alloc: Global) -> Result<Setup, Fail> {
    Ok(setup!(
        alloc,
        3,
        [8_000_000, 50, 50, KEEP_MAX; 8_000_000, 50, 50, KEEP_MAX; 8_000_000, 50, 50, KEEP_MAX],
        [0, 1, 2],
        [[0, 2], [1, 2]],
        [0 => 1000, 0, 0, 0; 1 => 1000, 1, 1, 0],
        [1000, 0, 8_000_000, 1]
    ))
}

/// A change shortens the windows from the start, whenever it comes.
#[test]
fn a_change_shortens_all_windows(rt: HostRuntime) -> Result<(), Fail> {
    let alloc = rt.alloc();
    let setup = later_change(alloc)?;
    assert_eq!(rt; lookahead(&setup), 1);
    let (results, tally) = ended(alloc, begun(alloc, &setup)?)?;
    assert_eq!(rt; fate_at(&results, 0, 0), Some(Fate::Left { tick: 120 }));
    assert_eq!(rt; fate_at(&results, 1, 1), Some(Fate::Left { tick: 130 }));
    let text = format!(in alloc; "{tally:?}")?;
    assert_eq!(rt; text.as_str(), "Tally { cores: 3, windows: 6, visits: 4 }");
    compare_orders(&rt, alloc, &setup)
}

/// A world that is given up, with stores and parcels.
#[test]
fn a_world_may_be_given_up(rt: HostRuntime) -> Result<(), Fail> {
    let alloc = rt.alloc();
    let setup = meeting(alloc)?;
    let mut world = begun(alloc, &setup)?;
    turn_all(&rt, alloc, &mut world, &[(0, Turn::Moved)]);
    world.abandon();
    Ok(())
}

/// The cores of a world that are given up one by one, with stores and parcels.
#[test]
fn a_core_may_be_given_up(rt: HostRuntime) -> Result<(), Fail> {
    let alloc = rt.alloc();
    let setup = meeting(alloc)?;
    let mut world = begun(alloc, &setup)?;
    turn_all(&rt, alloc, &mut world, &[(0, Turn::Moved)]);
    let World {
        setup: _,
        cores,
        boxes: _,
        failed: _,
    } = world;
    for core in cores {
        core.abandon();
    }
    Ok(())
}

/// A world in which a core found no memory goes no further, also where no core is named. The mark of it is set by hand: memory isn't
/// refused here.
#[test]
fn a_world_without_memory_goes_no_further(rt: HostRuntime) -> Result<(), Fail> {
    let alloc = rt.alloc();
    let setup = meeting(alloc)?;
    let order = order_list(alloc, 304, 5, setup.parts().cores)?;
    let mut world = begun(alloc, &setup)?;
    world.failed = true;
    assert_eq!(rt; world.run_order(alloc, &[]), Err(NoMemory));
    assert_eq!(rt; world.run_round_robin(alloc), Err(NoMemory));
    assert_eq!(rt; world.run_order(alloc, &order), Err(NoMemory));
    world.abandon();
    Ok(())
}

/// An order that is drawn from the stream that starts at 0.
#[test]
fn orders_are_drawn(rt: HostRuntime) -> Result<(), Fail> {
    let alloc = rt.alloc();
    let of_three = order_list(alloc, 0, 1, 3)?;
    assert_eq!(rt; of_three.as_slice(), [2u32].as_slice());
    let of_all = order_list(alloc, 0, 1, 16)?;
    assert_eq!(rt; of_all.as_slice(), [15u32].as_slice());
    Ok(())
}
