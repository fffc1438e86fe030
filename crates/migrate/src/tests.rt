ghost use Rattle.std.specs.Prelude.{◌≡◌, ◌<◌, ◌≤◌, length, All, AllPairs, IfOk};
ghost use Rattle.core_loop.specs.Stocked.{AreStores};

use crate::{Move, Ran, Shelves, run_moves};
use core_loop::stock;
use journal::{Fate, LossBy, PacketPlan, Setup, SetupParts, fates};
use mn_base::limits::{KEEP_MAX, LINK_TYPE_RAW, TICK_NS_DEFAULT};
use mn_base::{Bytes, Cause, PipeParams};
use parcel::CoreCounts;
use payload_store::Store;
use settle::DropLine;
use std::alloc::Global;
use std::process::Abort;
use std::test::Fail;

/// Two packets of 1,000 bytes go over three pipes, each of 8 Mbit/s and 5 ms. Core 0 owns pipe 0, and core 1 owns the others.
///
/// The packets take 10 ticks at a pipe, and its latency is 50: the visits are at ticks 0 and 5, 60 and 70, 120 and 130.
fn setup(alloc: Global) -> Result<Setup, Fail>
    ensures pipes { IfOk result (λ s. length s.pipes ≡ 3) }
    ensures cores { IfOk result (λ s. s.cores ≡ 2) }
    ensures packets { IfOk result (λ s. length s.packets ≡ 2) }
{
    setup_with(alloc, 50, 0)
}

/// The same where a pipe holds so many packets, and where the second packet takes route 0, or route 1, which has no pipes.
fn setup_with(alloc: Global, queue: u32, route: u32) -> Result<Setup, Fail>
    requires queue { 1 ≤ queue }
    requires queue_most { queue ≤ 50 }
    requires route { route < 2 }
    ensures pipes { IfOk result (λ s. length s.pipes ≡ 3) }
    ensures cores { IfOk result (λ s. s.cores ≡ 2) }
    ensures packets { IfOk result (λ s. length s.packets ≡ 2) }
{
    let pipe = PipeParams::new(8_000_000, 5_000, queue, KEEP_MAX, TICK_NS_DEFAULT);
    let first = PacketPlan {
        number: 0,
        entry_tick: 0,
        len: 1_000,
        route: 0,
        core: 0,
    };
    let second = PacketPlan {
        number: 1,
        entry_tick: 5,
        route,
        ..first
    };
    let pipes = vec![in alloc; 0, 1, 2]?;
    Ok(Setup::new(SetupParts {
        tick_ns: TICK_NS_DEFAULT,
        seed: 0,
        base_ns: 0,
        link_type: LINK_TYPE_RAW,
        cores: 2,
        pipes: vec![in alloc; pipe, pipe, pipe]?,
        owners: vec![in alloc; 0, 1, 1]?,
        routes: vec![in alloc; pipes, Vec::new(alloc)]?,
        packets: vec![in alloc; first, second]?,
        changes: Vec::new(alloc),
        loss: LossBy::Packet,
    }))
}

/// The stores of the cores, with a byte for each packet.
fn stores(alloc: Global, setup: &Setup) -> Result<Vec<Store>, Fail>
    requires packets { length setup.now.packets ≡ 2 }
    ensures stores { IfOk result (λ stores. AreStores setup.now stores.items) }
{
    let first = Bytes::copy(alloc, b"a")?;
    let second = Bytes::copy(alloc, b"b")?;
    Ok(stock(alloc, setup, vec![in alloc; first, second]?)?)
}

/// What the run of a setup with these moves comes to.
fn ran(alloc: Global, setup: &Setup, moves: &[Move]) -> Result<Ran, Fail>
    requires packets { length setup.now.packets ≡ 2 }
    requires order { AllPairs (λ m n. m.window ≤ n.window) moves.now }
    requires pipes { All (λ m. m.pipe < length setup.now.pipes) moves.now }
    requires cores { All (λ m. m.core < setup.now.cores) moves.now }
{
    let stores = stores(alloc, setup)?;
    Ok(run_moves(alloc, setup, stores, moves)?)
}

/// What a core did: it has no notes to other cores.
fn did(pipes: u64, entered: u64, visits: u64, windows: u64) -> CoreCounts {
    CoreCounts {
        pipes,
        entered,
        visits,
        arrivals: 0,
        settles: 0,
        windows,
    }
}

/// The packets leave at these ticks, as the journal that no move changes has it.
fn compare_outcome(rt: &impl Abort, alloc: Global, setup: &Setup, ran: &Ran) -> Result<(), Fail> {
    let fates = fates(alloc, setup)?;
    let left = [Fate::Left { tick: 180 }, Fate::Left { tick: 190 }];
    assert_eq!(rt; fates.as_slice(), left.as_slice());
    compare_leaving(rt, alloc, ran, &[(180, 0, b"a"), (190, 1, b"b")])?;
    assert_eq!(rt; ran.outcome.dropped.len(), 0);
    Ok(())
}

/// What leaves, as (tick, packet, bytes).
fn compare_leaving(
    rt: &impl Abort,
    alloc: Global,
    ran: &Ran,
    left: &[(u64, u32, &[u8])],
) -> Result<(), Fail> {
    let mut seen = Vec::new(alloc);
    for each in &ran.outcome.leaving {
        seen.push((each.tick, each.packet, each.bytes.as_slice()))?;
    }
    assert_eq!(rt; seen.as_slice(), left);
    Ok(())
}

/// Before window 1 pipe 1 goes to core 0. The move before window 7 is never made: windows start at ticks 0, 60 and 120.
#[test]
fn a_pipe_with_due_visits_moves(rt: HostRuntime) -> Result<(), Fail> {
    let alloc = rt.alloc();
    let setup = setup(alloc)?;
    let moves = [
        Move {
            window: 1,
            pipe: 1,
            core: 0,
        },
        Move {
            window: 7,
            pipe: 0,
            core: 1,
        },
    ];
    let ran = ran(alloc, &setup, &moves)?;
    assert_eq!(rt; (ran.windows, ran.moved), (3, 1));
    assert_eq!(rt; ran.visits.as_slice(), [4, 2].as_slice());
    assert_eq!(rt;
        ran.outcome.cores.as_slice(),
        [did(2, 2, 4, 3), did(1, 0, 2, 3)].as_slice()
    );
    compare_outcome(&rt, alloc, &setup, &ran)
}

/// Before window 1 both pipes of core 1 go to core 0. No packet goes from core to core any more, so window 1 has all visits that are left.
#[test]
fn windows_grow_as_pipes_move(rt: HostRuntime) -> Result<(), Fail> {
    let alloc = rt.alloc();
    let setup = setup(alloc)?;
    let moves = [
        Move {
            window: 1,
            pipe: 1,
            core: 0,
        },
        Move {
            window: 1,
            pipe: 2,
            core: 0,
        },
    ];
    let ran = ran(alloc, &setup, &moves)?;
    assert_eq!(rt; (ran.windows, ran.moved), (2, 2));
    assert_eq!(rt; ran.visits.as_slice(), [6, 0].as_slice());
    assert_eq!(rt;
        ran.outcome.cores.as_slice(),
        [did(3, 2, 6, 2), did(0, 0, 0, 2)].as_slice()
    );
    compare_outcome(&rt, alloc, &setup, &ran)
}

/// Pipe 1 goes to the core that has it.
#[test]
fn a_pipe_moves_to_its_own_core(rt: HostRuntime) -> Result<(), Fail> {
    let alloc = rt.alloc();
    let setup = setup(alloc)?;
    let stays = Move {
        window: 1,
        pipe: 1,
        core: 1,
    };
    let ran = ran(alloc, &setup, &[stays])?;
    assert_eq!(rt; (ran.windows, ran.moved), (3, 1));
    assert_eq!(rt;
        ran.outcome.cores.as_slice(),
        [did(1, 2, 2, 3), did(2, 0, 4, 3)].as_slice()
    );
    compare_outcome(&rt, alloc, &setup, &ran)
}

/// Pipe 1 goes to core 0 before window 1, and back before window 2.
#[test]
fn a_pipe_moves_twice(rt: HostRuntime) -> Result<(), Fail> {
    let alloc = rt.alloc();
    let setup = setup(alloc)?;
    let there = Move {
        window: 1,
        pipe: 1,
        core: 0,
    };
    let back = Move {
        window: 2,
        pipe: 1,
        core: 1,
    };
    let ran = ran(alloc, &setup, &[there, back])?;
    assert_eq!(rt; (ran.windows, ran.moved), (3, 2));
    assert_eq!(rt;
        ran.outcome.cores.as_slice(),
        [did(1, 2, 4, 3), did(2, 0, 2, 3)].as_slice()
    );
    compare_outcome(&rt, alloc, &setup, &ran)
}

/// Packet 1 has no pipe to visit: it leaves when it enters.
#[test]
fn an_empty_route_has_no_visit(rt: HostRuntime) -> Result<(), Fail> {
    let alloc = rt.alloc();
    let setup = setup_with(alloc, 50, 1)?;
    let to_core_0 = Move {
        window: 1,
        pipe: 1,
        core: 0,
    };
    let ran = ran(alloc, &setup, &[to_core_0])?;
    assert_eq!(rt;
        ran.outcome.cores.as_slice(),
        [did(2, 2, 2, 3), did(1, 0, 1, 3)].as_slice()
    );
    compare_leaving(&rt, alloc, &ran, &[(5, 1, b"b"), (180, 0, b"a")])
}

/// Packet 1 comes to pipe 0 while packet 0 is all that the pipe holds.
#[test]
fn a_full_pipe_drops_a_packet(rt: HostRuntime) -> Result<(), Fail> {
    let alloc = rt.alloc();
    let setup = setup_with(alloc, 1, 0)?;
    let to_core_0 = Move {
        window: 1,
        pipe: 1,
        core: 0,
    };
    let ran = ran(alloc, &setup, &[to_core_0])?;
    assert_eq!(rt;
        ran.outcome.cores.as_slice(),
        [did(2, 2, 3, 3), did(1, 0, 1, 3)].as_slice()
    );
    let drop = DropLine {
        packet: 1,
        pipe: 0,
        tick: 5,
        cause: Cause::Full,
    };
    assert_eq!(rt; ran.outcome.dropped.as_slice(), [drop].as_slice());
    compare_leaving(&rt, alloc, &ran, &[(180, 0, b"a")])
}

/// The calls of a run, one by one: pipe 1 goes to core 0 between the first two of three windows.
#[test]
fn a_run_goes_on_call_by_call(rt: HostRuntime) -> Result<(), Fail> {
    let alloc = rt.alloc();
    let setup = setup(alloc)?;
    let stores = stores(alloc, &setup)?;
    let mut shelves = Shelves::start(alloc, &setup, stores)?;
    let first = shelves.run_window(alloc)?;
    shelves.move_pipe(alloc, 1, 0)?;
    let second = shelves.run_window(alloc)?;
    let third = shelves.run_window(alloc)?;
    assert_eq!(rt; (first, second, third), (true, true, true));
    if shelves.run_window(alloc)? {
        panic!(rt; "there is a fourth window");
    }
    let outcome = shelves.finish(alloc)?;
    assert_eq!(rt; outcome.leaving.len(), 2);
    assert_eq!(rt;
        outcome.cores.as_slice(),
        [did(2, 2, 4, 3), did(1, 0, 2, 3)].as_slice()
    );
    Ok(())
}

/// A run may be given up at any window.
#[test]
fn a_run_is_given_up(rt: HostRuntime) -> Result<(), Fail> {
    let alloc = rt.alloc();
    let setup = setup(alloc)?;
    let stores = stores(alloc, &setup)?;
    let mut shelves = Shelves::start(alloc, &setup, stores)?;
    let first = shelves.run_window(alloc)?;
    assert!(rt; first);
    shelves.abandon();
    Ok(())
}
