//! `red` on one pipe, whose latency is 50 ticks and on which 1,000 bytes take 10: packets that all come at tick 0.

use super::assert_leave;
use std::process::Abort;

/// Runs it on so many packets of 1,000 bytes, of which the last is dropped: the others leave at 60 ticks, 70 ticks and so on.
fn assert_drops_the_last(
    rt: &(impl Abort + AllocGlobal),
    line: &str,
    packets: usize,
    report: &str,
) {
    let leave = [(6_000_000, 1_000), (7_000_000, 1_000), (8_000_000, 1_000)];
    let come = vec![in rt.alloc(); (0, 1_000); packets].expect(rt, "memory");
    let left = leave
        .get(..packets.saturating_sub(1))
        .expect(rt, "three at most");
    assert_leave(rt, line, &come, left, report);
}

#[test]
fn the_third_of_three_packets_is_dropped_early(rt: HostRuntime) {
    assert_drops_the_last(
        &rt,
        "red --trace t --out o --report r 8000000:5000:50:0:0:1:2:0",
        3,
        "modelnet red report 1\n\
        packets 3 bound 3 unbound 0 left 2 dropped 1\n\
        pipe 0 passed 2 lost 0 full 0 early 1\n\
        drop 2 pipe 0 tick 0 cause early\n",
    );
}

#[test]
fn averages_that_move_half_of_the_way_drop_the_fourth(rt: HostRuntime) {
    assert_drops_the_last(
        &rt,
        "red --trace t --out o --report r 8000000:5000:50:0:1:1:2:0",
        4,
        "modelnet red report 1\n\
        packets 4 bound 4 unbound 0 left 3 dropped 1\n\
        pipe 0 passed 3 lost 0 full 0 early 1\n\
        drop 3 pipe 0 tick 0 cause early\n",
    );
}
