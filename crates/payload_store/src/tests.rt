use crate::{Payload, Store};
use mn_base::Bytes;
use std::test::Fail;

fn may_move_to_a_thread<T: Send>(_value: &T) {}

fn payload_may_move_too(payload: Payload) -> Payload {
    may_move_to_a_thread(&payload);
    payload
}

#[test]
fn what_was_put_comes_out(rt: HostRuntime) -> Result<(), Fail> {
    let alloc = rt.alloc();
    let mut store = Store::new(alloc);
    may_move_to_a_thread(&store);
    assert!(rt; store.is_empty());
    let Ok(()) = store.put(3, Bytes::copy(alloc, &[0xaa, 0xbb])?) else {
        panic!(rt; "no memory");
    };
    assert_eq!(rt; store.len(), 1);
    let payload = payload_may_move_too(store.release(3));
    assert_eq!(rt; payload.packet(), 3);
    assert_eq!(rt; payload.into_bytes().as_slice(), [0xaa, 0xbb].as_slice());
    assert_eq!(rt; store.len(), 0);
    Ok(())
}

#[test]
fn each_packet_has_its_own_bytes(rt: HostRuntime) -> Result<(), Fail> {
    let alloc = rt.alloc();
    let mut store = Store::new(alloc);
    let Ok(()) = store.put(3, Bytes::copy(alloc, &[0xaa])?) else {
        panic!(rt; "no memory");
    };
    let Ok(()) = store.put(70_000, Bytes::copy(alloc, &[])?) else {
        panic!(rt; "no memory");
    };
    store.release(3).discard();
    assert!(rt; !store.is_empty());
    let last = store.release(70_000);
    assert_eq!(rt; last.into_bytes().as_slice().len(), 0);
    assert!(rt; store.is_empty());
    Ok(())
}
