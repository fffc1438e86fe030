use crate::lanes;
use journal::{LossBy, Setup, SetupParts};
use parcel::{Empty, Parcel, Ports};
use std::test::Fail;

fn may_move_to_a_thread<T: Send>(_value: &T) {}

/// A setup without packets has no window: each core posts one parcel to each other, and it has no note.
#[test]
fn a_parcel_goes_through_its_lane(rt: HostRuntime) -> Result<(), Fail> {
    let alloc = rt.alloc();
    let setup = Setup::new(SetupParts {
        tick_ns: 100_000,
        seed: 0,
        base_ns: 0,
        link_type: 101,
        cores: 2,
        pipes: Vec::new(alloc),
        owners: Vec::new(alloc),
        routes: Vec::new(alloc),
        packets: Vec::new(alloc),
        changes: Vec::new(alloc),
        loss: LossBy::Packet,
    });
    let mut ports = lanes(alloc, &setup)?;
    let mut receiver = ports.pop().unwrap();
    let mut sender = ports.pop().unwrap();
    may_move_to_a_thread(&sender);
    let Err(empty) = receiver.try_take(0) else {
        panic!(rt; "nothing was posted");
    };
    assert_eq!(rt; empty, Empty { seen: 0 });
    let parcel = Parcel {
        notes: Vec::new(alloc),
        least: None,
    };
    assert!(rt; sender.try_post(1, parcel).is_ok());
    assert!(rt; receiver.try_take(0).is_ok());
    Ok(())
}
