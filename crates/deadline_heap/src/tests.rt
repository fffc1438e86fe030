ghost use Rattle.std.specs.Prelude.{◌≡◌};

use crate::{Due, Heap};
use std::test::Fail;

/// A visit to the first hop.
fn due(tick: u64, packet: u32) -> Due
    ensures tick { result.tick ≡ tick }
    ensures packet { result.packet ≡ packet }
{
    Due {
        tick,
        packet,
        hop: 0,
    }
}

fn may_move_to_a_thread<T: Send>(_value: &T) {}

#[test]
fn ties_go_by_packet_and_a_limit_is_left_out(rt: HostRuntime) -> Result<(), Fail> {
    let mut heap = Heap::new(rt.alloc())?;
    may_move_to_a_thread(&heap);
    assert_eq!(rt; heap.least(), None);
    assert_eq!(rt; heap.pop_before(u64::MAX), None);
    heap.insert(due(60, 1))?;
    heap.insert(due(60, 0))?;
    heap.insert(due(10, 2))?;
    assert_eq!(rt; heap.least(), Some(10));
    assert_eq!(rt; heap.pop_before(60), Some(due(10, 2)));
    assert_eq!(rt; heap.pop_before(60), None);
    assert_eq!(rt; heap.pop_before(61), Some(due(60, 0)));
    assert_eq!(rt; heap.pop_before(61), Some(due(60, 1)));
    assert_eq!(rt; heap.least(), None);
    Ok(())
}

#[test]
fn a_turn_later_far_later_and_below_the_base(rt: HostRuntime) -> Result<(), Fail> {
    let mut heap = Heap::new(rt.alloc())?;
    heap.insert(due(5, 0))?;
    heap.insert(due(1_029, 1))?;
    heap.insert(due(1_099_511_627_776, 2))?;
    assert_eq!(rt; heap.pop_before(2_000), Some(due(5, 0)));
    assert_eq!(rt; heap.pop_before(2_000), Some(due(1_029, 1)));
    assert_eq!(rt; heap.pop_before(2_000), None);
    heap.insert(due(3, 3))?;
    assert_eq!(rt; heap.least(), Some(3));
    assert_eq!(rt; heap.pop_before(4), Some(due(3, 3)));
    assert_eq!(rt; heap.least(), Some(1_099_511_627_776));
    Ok(())
}
