ghost use Rattle.std.specs.Prelude.{◌≡◌, length, IfOk};

use crate::{Hook, Ran, run_threads};
use core_loop::{Tally, stock};
use journal::{Fate, LossBy, PacketPlan, Setup, SetupParts, fates};
use mn_base::limits::KEEP_MAX;
use mn_base::{Bytes, PipeParams};
use std::alloc::Global;
use std::process::Abort;
use std::sync::Wait;
use std::sync::atomic::{AtomicBool, AtomicU64, Ordering};
use std::test::Fail;
use std::thread::{Threads, yield_now};

/// The parameters of a pipe of this bandwidth (in bit/s), and of this latency in ticks of 100,000 ns.
macro_rules! params {
    ($bps:expr, $ticks:expr) => {
        PipeParams {
            bps: $bps,
            latency_us: 5_000,
            latency_ticks: $ticks,
            queue: 50,
            keep: KEEP_MAX,
        }
    };
}

/// The setup of so many cores, with these pipes (bandwidth and latency), owners, routes, and packets of 1,000 bytes (number, route,
/// entry core and entry tick).
macro_rules! setup {
    (
        $rt:expr, $cores:expr, [$($bps:expr, $ticks:expr);*], [$($owner:expr),*], [$([$($hop:expr),*]),*],
        [$($number:expr => $route:expr, $core:expr, $entry:expr);*]
    ) => {
        Setup::new(SetupParts {
            tick_ns: 100_000,
            seed: 7,
            base_ns: 0,
            link_type: 101,
            cores: $cores,
            pipes: vec![in $rt.alloc(); $(params!($bps, $ticks)),*]?,
            owners: vec![in $rt.alloc(); $($owner),*]?,
            routes: vec![in $rt.alloc(); $(vec![in $rt.alloc(); $($hop),*]?),*]?,
            packets: vec![in $rt.alloc(); $(PacketPlan {
                entry_tick: $entry,
                number: $number,
                len: 1000,
                route: $route,
                core: $core,
            }),*]?,
            changes: Vec::new($rt.alloc()),
            loss: LossBy::Packet,
        })
    };
}

/// A hook that does nothing.
struct Quiet;

impl Hook for Quiet {
    fn at_start(&self, _core: u32) {}
}

/// Counts its calls, all of them and those for each of 16 cores, four bits a core.
#[derive(Drop)]
struct Starts {
    count: AtomicU64,
    cores: AtomicU64,
}

impl Hook for Starts {
    fn at_start(&self, core: u32) {
        self.count.fetch_add(1, Ordering::SeqCst);
        self.cores
            .fetch_add(1u64 << (core % 16 * 4), Ordering::SeqCst);
    }
}

/// Each of four cores counts itself, and waits until all four have.
#[derive(Drop)]
struct Meeting {
    here: AtomicU64,
    missed: AtomicBool,
}

impl Hook for Meeting {
    fn at_start(&self, _core: u32) {
        self.here.fetch_add(1, Ordering::SeqCst);
        for _look in 0..20_000_000u32 {
            if self.here.load(Ordering::SeqCst) >= 4 {
                return;
            }
            yield_now();
        }
        self.missed.store(true, Ordering::SeqCst);
    }
}

/// The bytes of the packets of a setup: the number of each.
fn bytes_of(alloc: Global, setup: &Setup) -> Result<Vec<Bytes>, Fail>
    ensures { IfOk result (λ bytes. length bytes.items ≡ length setup.now.packets) }
{
    let mut bytes = Vec::new(alloc);
    for plan in &setup.parts().packets {
        bytes.push(Bytes::copy(alloc, &plan.number.to_le_bytes())?)?;
    }
    Ok(bytes)
}

/// Each packet was settled once, where it entered: with the fate that the maker on one core gives it, and with its bytes where it left.
fn fates_agree(rt: &impl Abort, alloc: Global, setup: &Setup, all: &[Ran]) -> Result<(), Fail> {
    let expected = fates(alloc, setup)?;
    for (plan, fate) in setup.parts().packets.iter().zip(&expected) {
        let Some(ran) = all.get(plan.core as usize) else {
            panic!(rt; "no core {}", plan.core);
        };
        let Some(settled) = ran.result.settled.iter().find(|t| t.packet == plan.number) else {
            panic!(rt; "packet {} isn't settled", plan.number);
        };
        assert_eq!(rt; settled.fate, *fate);
        let number = plan.number.to_le_bytes();
        match (&settled.bytes, fate) {
            (Some(bytes), Fate::Left { .. }) => {
                assert_eq!(rt; bytes.as_slice(), number.as_slice());
            }
            (None, Fate::Dropped { .. }) => {}
            _ => panic!(rt; "packet {} has bytes, or none", plan.number),
        }
    }
    let mut settled = 0usize;
    for ran in all {
        settled = settled.wrapping_add(ran.result.settled.len());
    }
    assert_eq!(rt; settled, expected.len());
    Ok(())
}

/// Runs all cores of a setup, and looks at what they settled and counted.
fn agrees<R: Threads + Wait + Sync + Abort>(
    rt: &R,
    alloc: Global,
    setup: &Setup,
    tally_text: &str,
) -> Result<(), Fail> {
    let stores = stock(alloc, setup, bytes_of(alloc, setup)?)?;
    let mut tally = Tally::new();
    let all = run_threads(rt, alloc, setup, stores, &Quiet, &mut tally)?;
    fates_agree(rt, alloc, setup, &all)?;
    let text = format!(in alloc; "{tally:?}")?;
    assert_eq!(rt; text.as_str(), tally_text);
    Ok(())
}

/// One core, which runs on the caller's thread alone.
#[test]
fn one_core_runs(rt: HostRuntime) -> Result<(), Fail> {
    let setup = setup!(rt, 1, [8_000_000, 50; 8_000_000, 10], [0, 0], [[0, 1], []],
        [0 => 0, 0, 0; 1 => 0, 0, 3; 2 => 1, 0, 42]);
    agrees(
        &rt,
        rt.alloc(),
        &setup,
        "Tally { cores: 1, windows: 1, visits: 4 }",
    )
}

/// Two packets go over one slow pipe between two cores.
#[test]
fn two_cores_share_a_slow_pipe(rt: HostRuntime) -> Result<(), Fail> {
    let setup = setup!(rt, 2,
        [10_000_000, 10; 10_000_000, 10; 10_000_000, 10; 10_000_000, 10; 2_000_000, 200], [0, 0, 1, 1, 0],
        [[0, 4, 2], [1, 4, 3]], [0 => 0, 0, 0; 1 => 1, 0, 0]);
    agrees(
        &rt,
        rt.alloc(),
        &setup,
        "Tally { cores: 2, windows: 4, visits: 6 }",
    )
}

/// Two packets that enter at cores 0 and 1 meet at a pipe of core 2, and leave it one after the other.
#[test]
fn two_packets_meet_at_a_third_core(rt: HostRuntime) -> Result<(), Fail> {
    let setup = setup!(rt, 3,
        [8_000_000, 50; 8_000_000, 50; 8_000_000, 50; 8_000_000, 50; 8_000_000, 50; 8_000_000, 50], [0, 0, 1, 1, 2, 2],
        [[0, 4], [2, 4]], [0 => 0, 0, 0; 1 => 1, 1, 0]);
    agrees(
        &rt,
        rt.alloc(),
        &setup,
        "Tally { cores: 3, windows: 6, visits: 4 }",
    )
}

/// Sixteen cores, of which four own a pipe, and two packets that are far apart in time.
#[test]
fn idle_cores_go_along(rt: HostRuntime) -> Result<(), Fail> {
    let setup =
        setup!(rt, 16, [8_000_000, 50; 8_000_000, 50; 8_000_000, 50; 8_000_000, 50], [0, 1, 2, 3],
        [[0, 2]], [0 => 0, 0, 0; 1 => 0, 0, 1_000_000_000]);
    agrees(
        &rt,
        rt.alloc(),
        &setup,
        "Tally { cores: 16, windows: 64, visits: 4 }",
    )
}

/// The hook is told of each of eight cores once, also of those that no packet meets.
#[test]
fn each_core_starts_once(rt: HostRuntime) -> Result<(), Fail> {
    let alloc = rt.alloc();
    let setup =
        setup!(rt, 8, [8_000_000, 50; 8_000_000, 50; 8_000_000, 50; 8_000_000, 50], [0, 1, 2, 3],
        [[0, 2]], [0 => 0, 0, 0; 1 => 0, 0, 9]);
    let starts = Starts {
        count: AtomicU64::new(0),
        cores: AtomicU64::new(0),
    };
    let stores = stock(alloc, &setup, bytes_of(alloc, &setup)?)?;
    let mut tally = Tally::new();
    let all = run_threads(&rt, alloc, &setup, stores, &starts, &mut tally)?;
    fates_agree(&rt, alloc, &setup, &all)?;
    assert_eq!(rt; starts.count.load(Ordering::SeqCst), 8);
    assert_eq!(rt; starts.cores.load(Ordering::SeqCst), 0x1111_1111);
    Ok(())
}

/// Four cores that wait for one another in the hook all come to it, so each of them has a thread of its own, and core 0 isn't told
/// after its last turn: it can't come to that before the others begin.
#[test]
fn each_core_has_its_own_thread(rt: HostRuntime) -> Result<(), Fail> {
    let alloc = rt.alloc();
    let setup =
        setup!(rt, 4, [8_000_000, 50; 8_000_000, 50; 8_000_000, 50; 8_000_000, 50], [0, 1, 2, 3],
        [[0, 2]], [0 => 0, 0, 0; 1 => 0, 0, 9]);
    let meeting = Meeting {
        here: AtomicU64::new(0),
        missed: AtomicBool::new(false),
    };
    let stores = stock(alloc, &setup, bytes_of(alloc, &setup)?)?;
    let mut tally = Tally::new();
    let all = run_threads(&rt, alloc, &setup, stores, &meeting, &mut tally)?;
    fates_agree(&rt, alloc, &setup, &all)?;
    assert_eq!(rt; meeting.here.load(Ordering::SeqCst), 4);
    assert!(rt; !meeting.missed.load(Ordering::SeqCst));
    Ok(())
}
