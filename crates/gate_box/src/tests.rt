ghost use Rattle.std.specs.Prelude.{◌≡◌, ◌≤◌, ◌<◌, ◌^◌};

use crate::{Lane, LaneBusy, LaneEmpty, Receiver, Sender, pair};
use std::test::Fail;
use std::thread;

/// A lane whose item n is the number n.
struct Numbers;

impl Lane for Numbers {
    ghost use Rattle.std.specs.Prelude.{◌≡◌};

    type Name = u32;

    type Item = u64;

    ghost is_item = { λ name n item. item ≡ n };
}

fn may_move_to_a_thread<T: Send>(_value: &T) {}

#[test]
fn items_go_through_in_order(rt: HostRuntime) -> Result<(), Fail> {
    let (mut sender, mut receiver) = pair::<Numbers>(rt.alloc(), 7)?;
    may_move_to_a_thread(&sender);
    may_move_to_a_thread(&receiver);
    assert_eq!(rt; receiver.try_take(), Err(LaneEmpty { seen: 0 }));
    assert!(rt; sender.try_post(0).is_ok());
    assert_eq!(rt; sender.next(), 1);
    assert_eq!(rt; receiver.next(), 0);
    let Err(LaneBusy { item, seen }) = sender.try_post(1) else {
        panic!(rt; "the box holds item 0");
    };
    assert_eq!(rt; (item, seen), (1, 2));
    assert_eq!(rt; receiver.try_take(), Ok(0));
    assert_eq!(rt; receiver.try_take(), Err(LaneEmpty { seen: 4 }));
    assert!(rt; sender.try_post(1).is_ok());
    assert_eq!(rt; receiver.try_take(), Ok(1));
    Ok(())
}

/// Posts items 0 to `count` - 1, and says how many went.
fn post_all(mut sender: Sender<Numbers>, count: u64) -> u64
    requires { count < 2 ^ 60 }
{
    for _attempt in 0..1_000_000_000u64 {
        let next = sender.next();
        if next >= count {
            break;
        }
        if sender.try_post(next).is_err() {
            std::hint::spin_loop();
        }
    }
    sender.next()
}

/// Takes so many items, and adds them up.
fn take_all(mut receiver: Receiver<Numbers>, count: u64) -> u64
    requires { count < 2 ^ 60 }
{
    let mut sum = 0u64;
    for _attempt in 0..1_000_000_000u64 {
        if receiver.next() >= count {
            break;
        }
        match receiver.try_take() {
            Ok(item) => sum = sum.wrapping_add(item),
            Err(_) => std::hint::spin_loop(),
        }
    }
    sum
}

#[test]
fn two_threads_pass_items(rt: HostRuntime) -> Result<(), Fail> {
    let (sender, receiver) = pair::<Numbers>(rt.alloc(), 7)?;
    let (posted, sum) = thread::join(
        &rt,
        move || post_all(sender, 200),
        move || take_all(receiver, 200),
    );
    assert_eq!(rt; posted, 200);
    assert_eq!(rt; sum, 19_900);
    Ok(())
}
