ghost use Rattle.std.specs.Prelude.{◌<◌, length, IfOk};

use super::*;
use mn_base::limits::KEEP_MAX;
use mn_base::{Cause, NoMemory, PipeParams};
use pipe::Step;
use std::alloc::Global;
use std::process::Abort;
use std::test::Fail;

/// 1,000 bytes take 10 ticks of 100,000 ns, and the latency is 10 ticks.
const USUAL: PipeParams = PipeParams {
    bps: 8_000_000,
    latency_us: 1_000,
    latency_ticks: 10,
    queue: 3,
    keep: KEEP_MAX,
};

/// Ten times as fast.
const FAST: PipeParams = PipeParams {
    bps: 80_000_000,
    latency_us: 1_000,
    latency_ticks: 10,
    queue: 3,
    keep: KEEP_MAX,
};

/// A tenth of the visits are lost.
const LOSSY: PipeParams = PipeParams {
    bps: 4_000_000,
    latency_us: 250,
    latency_ticks: 3,
    queue: 2,
    keep: 3_865_470_566,
};

/// Three tenths are lost, and one packet fills the queue.
const SLOW: PipeParams = PipeParams {
    bps: 1_000_000,
    latency_us: 3_000,
    latency_ticks: 30,
    queue: 1,
    keep: 3_006_477_107,
};

/// A fifth are lost.
const SHORT: PipeParams = PipeParams {
    bps: 10_000_000,
    latency_us: 0,
    latency_ticks: 1,
    queue: 5,
    keep: 3_435_973_836,
};

/// A packet by number, entry tick, length and route, at core 0.
macro_rules! packet {
    ($number:expr, $entry_tick:expr, $len:expr, $route:expr) => {
        PacketPlan {
            entry_tick: $entry_tick,
            number: $number,
            len: $len,
            route: $route,
            core: 0,
        }
    };
}

/// Four pipes, of which the first becomes ten times as fast at tick 8, while a packet waits there.
fn many_routes(alloc: Global, loss: LossBy) -> Result<Setup, NoMemory>
    ensures { IfOk result (λ setup. 0 < length setup.pipes) }
{
    Ok(Setup::new(SetupParts {
        tick_ns: 100_000,
        seed: 16,
        base_ns: 0,
        link_type: 101,
        cores: 1,
        pipes: vec![in alloc; USUAL, LOSSY, SLOW, SHORT]?,
        owners: vec![in alloc; 0, 0, 0, 0]?,
        routes: vec![in alloc;
            vec![in alloc; 0, 2]?,
            vec![in alloc; 1, 3, 2]?,
            Vec::new(alloc),
            vec![in alloc; 3]?,
        ]?,
        packets: vec![in alloc;
            packet!(0, 0, 1_000, 0),
            packet!(2, 0, 500, 1),
            packet!(3, 0, 100, 0),
            packet!(5, 3, 40, 1),
            packet!(6, 8, 1_000, 0),
            packet!(7, 9, 0, 2),
            packet!(8, 13, 1_000, 3),
            packet!(9, 20, 600, 1),
        ]?,
        changes: vec![in alloc;
            PipeChange {
                tick: 8,
                pipe: 0,
                params: FAST
            },
        ]?,
        loss,
    }))
}

fn may_move_to_threads_and_be_shared<T: Send + Sync>(_value: &T) {}

fn may_move_to_a_thread<T: Send>(_value: &T) {}

#[test]
fn a_setup_has_its_parts_and_finds_its_packets(rt: HostRuntime) -> Result<(), Fail> {
    let setup = many_routes(rt.alloc(), LossBy::Packet)?;
    may_move_to_threads_and_be_shared(&setup);
    may_move_to_a_thread(&steps::idle_pipe(rt.alloc(), &setup, 0)?);
    assert_eq!(rt; steps::idle_pipes(rt.alloc(), &setup)?.len(), 4);
    assert_eq!(rt; setup.parts().seed, 16);
    for (number, entry_tick) in [(0, Some(0)), (1, None), (4, None), (5, Some(3)), (10, None)] {
        assert_eq!(rt;
            setup.find(number).map(|packet| packet.entry_tick),
            entry_tick
        );
    }
    Ok(())
}

/// A visit as its tick, packet, hop, pipe and step.
type Told = (u64, u32, u32, u32, Step);

fn told(visit: Visit) -> Told {
    (visit.tick, visit.packet, visit.hop, visit.pipe, visit.step)
}

/// Both the list and the visits that are made one after the other are these.
fn assert_visits(
    rt: &impl Abort,
    alloc: Global,
    setup: &Setup,
    expected: &[Told],
) -> Result<(), NoMemory> {
    let whole = journal(alloc, setup)?;
    assert_eq!(rt; whole.len(), expected.len());
    let mut visits = Visits::start(alloc, setup)?;
    for (visit, expected) in whole.iter().zip(expected) {
        assert_eq!(rt; told(*visit), *expected);
        assert_eq!(rt; visits.next(alloc)?, Some(*visit));
    }
    assert_eq!(rt; visits.next(alloc)?, None);
    Ok(())
}

/// The visits and fates were worked out by a program of its own in Python, which does what the rule says and no more: it appends
/// the least visit that is due, again and again, each time with all finishes of the pipe computed anew.
#[test]
fn a_journal_of_many_routes_is_that_of_a_plain_program(rt: HostRuntime) -> Result<(), Fail> {
    let setup = many_routes(rt.alloc(), LossBy::Packet)?;
    assert_visits(
        &rt,
        rt.alloc(),
        &setup,
        &[
            (0, 0, 0, 0, Step::Pass { exit: 20 }),
            (0, 2, 0, 1, Step::Pass { exit: 13 }),
            (0, 3, 0, 0, Step::Pass { exit: 21 }),
            (3, 5, 0, 1, Step::Pass { exit: 14 }),
            (8, 6, 0, 0, Step::Pass { exit: 22 }),
            (13, 2, 1, 3, Step::Pass { exit: 18 }),
            (13, 8, 0, 3, Step::Lost),
            (14, 5, 1, 3, Step::Pass { exit: 19 }),
            (18, 2, 2, 2, Step::Pass { exit: 88 }),
            (19, 5, 2, 2, Step::Full),
            (20, 0, 1, 2, Step::Full),
            (20, 9, 0, 1, Step::Lost),
            (21, 3, 1, 2, Step::Full),
            (22, 6, 1, 2, Step::Lost),
        ],
    )?;
    let dropped = |pipe: u32, tick: u64, cause: Cause| Fate::Dropped { pipe, tick, cause };
    let fates = fates(rt.alloc(), &setup)?;
    assert_eq!(rt;
        fates.as_slice(),
        [
            dropped(2, 20, Cause::Full),
            Fate::Left { tick: 88 },
            dropped(2, 21, Cause::Full),
            dropped(2, 19, Cause::Full),
            dropped(2, 22, Cause::Loss),
            Fate::Left { tick: 9 },
            dropped(3, 13, Cause::Loss),
            dropped(1, 20, Cause::Loss),
        ]
        .as_slice()
    );
    Ok(())
}

/// By the same program.
#[test]
fn by_arrival_other_packets_are_lost(rt: HostRuntime) -> Result<(), Fail> {
    let setup = many_routes(rt.alloc(), LossBy::Arrival)?;
    assert_visits(
        &rt,
        rt.alloc(),
        &setup,
        &[
            (0, 0, 0, 0, Step::Pass { exit: 20 }),
            (0, 2, 0, 1, Step::Pass { exit: 13 }),
            (0, 3, 0, 0, Step::Pass { exit: 21 }),
            (3, 5, 0, 1, Step::Lost),
            (8, 6, 0, 0, Step::Pass { exit: 22 }),
            (13, 2, 1, 3, Step::Lost),
            (13, 8, 0, 3, Step::Pass { exit: 22 }),
            (20, 0, 1, 2, Step::Pass { exit: 130 }),
            (20, 9, 0, 1, Step::Pass { exit: 35 }),
            (21, 3, 1, 2, Step::Full),
            (22, 6, 1, 2, Step::Full),
            (35, 9, 1, 3, Step::Pass { exit: 41 }),
            (41, 9, 2, 2, Step::Full),
        ],
    )?;
    Ok(())
}
