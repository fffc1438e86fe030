ghost use Rattle.std.specs.Prelude.{◌≡◌};
ghost use Rattle.mn_base.specs.Ranges.{IsBandwidth, IsLatency, IsQueueLimit};

use super::{DueVisit, DueVisits, Pipe, Step};
use mn_base::limits::{KEEP_MAX, TICK_NS_DEFAULT};
use mn_base::{Due, PipeParams};
use std::alloc::Global;
use std::test::Fail;

/// 8,000,000 bit/s, on which 1,000 bytes take 10 ticks of 100,000 ns.
fn pipe(alloc: Global, latency_us: u64, queue: u32) -> Pipe
    requires latency { IsLatency latency_us }
    requires queue_limit { IsQueueLimit queue }
    ensures last_tick { result.last_tick ≡ 0 }
    ensures visits { result.visits ≡ 0 }
    ensures tick_ns { result.tick_ns ≡ TICK_NS_DEFAULT }
{
    Pipe::new(alloc, params(8_000_000, latency_us, queue), TICK_NS_DEFAULT)
}

/// Parameters that lose nothing.
fn params(bps: u64, latency_us: u64, queue: u32) -> PipeParams
    requires bandwidth { IsBandwidth bps }
    requires latency { IsLatency latency_us }
    requires queue_limit { IsQueueLimit queue }
{
    PipeParams::new(bps, latency_us, queue, KEEP_MAX, TICK_NS_DEFAULT)
}

#[test]
fn one_packet_transmits_and_is_delayed(rt: HostRuntime) -> Result<(), Fail> {
    let mut one = pipe(rt.alloc(), 5_000, 50);
    assert_eq!(rt; one.visit(0, 1_000, false)?, Step::Pass { exit: 60 });
    Ok(())
}

#[test]
fn empty_packets_are_delayed_alone(rt: HostRuntime) -> Result<(), Fail> {
    let mut empty = pipe(rt.alloc(), 5_000, 50);
    assert_eq!(rt; empty.visit(0, 0, false)?, Step::Pass { exit: 50 });
    assert_eq!(rt; empty.visit(7, 0, false)?, Step::Pass { exit: 57 });
    Ok(())
}

#[test]
fn the_second_packet_waits_for_the_first(rt: HostRuntime) -> Result<(), Fail> {
    let mut two = pipe(rt.alloc(), 5_000, 50);
    assert_eq!(rt; two.visit(0, 1_000, false)?, Step::Pass { exit: 60 });
    assert_eq!(rt; two.visit(0, 1_000, false)?, Step::Pass { exit: 70 });
    Ok(())
}

#[test]
fn a_finish_at_the_tick_is_out_of_the_queue(rt: HostRuntime) -> Result<(), Fail> {
    let mut short = pipe(rt.alloc(), 5_000, 1);
    assert_eq!(rt; short.visit(0, 1_000, false)?, Step::Pass { exit: 60 });
    assert_eq!(rt; short.visit(9, 1_000, false)?, Step::Full);
    assert_eq!(rt; short.visit(10, 1_000, false)?, Step::Pass { exit: 70 });
    Ok(())
}

#[test]
fn no_latency_is_one_tick(rt: HostRuntime) -> Result<(), Fail> {
    let mut near = pipe(rt.alloc(), 0, 50);
    assert_eq!(rt; near.visit(0, 1_000, false)?, Step::Pass { exit: 11 });
    Ok(())
}

fn may_move_to_a_thread<T: Send>(_value: &T) {}

#[test]
fn a_pipe_may_move_to_a_thread(rt: HostRuntime) {
    may_move_to_a_thread(&pipe(rt.alloc(), 5_000, 50));
}

#[test]
fn a_lost_packet_takes_no_place(rt: HostRuntime) -> Result<(), Fail> {
    let mut lossy = pipe(rt.alloc(), 5_000, 1);
    assert_eq!(rt; lossy.visit(0, 1_000, true)?, Step::Lost);
    assert_eq!(rt; lossy.visit(0, 1_000, false)?, Step::Pass { exit: 60 });
    Ok(())
}

#[test]
fn a_packet_that_waits_over_a_change_transmits_by_the_new_parameters(
    rt: HostRuntime,
) -> Result<(), Fail> {
    let changes = vec![in rt.alloc(); (5, params(80_000_000, 1_000, 50))]?;
    let mut faster = Pipe::with_changes(
        rt.alloc(),
        params(8_000_000, 5_000, 50),
        changes,
        TICK_NS_DEFAULT,
    );
    assert_eq!(rt; faster.visit(0, 1_000, false)?, Step::Pass { exit: 60 });
    assert_eq!(rt; faster.visit(5, 1_000, false)?, Step::Pass { exit: 21 });
    Ok(())
}

#[test]
fn a_change_counts_from_its_tick_on(rt: HostRuntime) -> Result<(), Fail> {
    let changes = vec![in rt.alloc();
        (10, params(8_000_000, 1_000, 1)),
        (20, params(8_000_000, 0, 2)),
    ]?;
    let mut changing = Pipe::with_changes(
        rt.alloc(),
        params(8_000_000, 5_000, 3),
        changes,
        TICK_NS_DEFAULT,
    );
    assert_eq!(rt; changing.visit(9, 1_000, false)?, Step::Pass { exit: 69 });
    assert_eq!(rt; changing.visit(9, 1_000, false)?, Step::Pass { exit: 79 });
    assert_eq!(rt; changing.visit(10, 1_000, false)?, Step::Full);
    assert_eq!(rt; changing.visit(19, 1_000, false)?, Step::Full);
    assert_eq!(rt; changing.visit(20, 1_000, false)?, Step::Pass { exit: 40 });
    assert_eq!(rt; changing.visits(), 5);
    Ok(())
}

/// A due visit of a packet that stands at the index of its number.
fn due_visit(tick: u64, packet: u32, hop: u32) -> DueVisit
    ensures packet { result.due.packet ≡ packet }
{
    DueVisit {
        due: Due { tick, packet, hop },
        index: packet,
    }
}

#[test]
fn due_visits_come_by_tick_and_then_by_packet(rt: HostRuntime) -> Result<(), Fail> {
    let firsts = vec![in rt.alloc(); due_visit(5, 2, 0), due_visit(3, 4, 0)]?;
    let mut held = DueVisits::of_firsts(rt.alloc(), firsts);
    held.add(due_visit(5, 3, 1))?;
    assert_eq!(rt; held.pop(), Some(due_visit(3, 4, 0)));
    assert_eq!(rt; held.pop(), Some(due_visit(5, 2, 0)));
    assert_eq!(rt; held.pop(), Some(due_visit(5, 3, 1)));
    assert_eq!(rt; held.pop(), None);
    Ok(())
}
