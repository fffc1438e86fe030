use crate::{Change, ChangesFault, Split, read_changes};
use mn_base::Refusal;
use std::alloc::Global;
use std::process::Abort;
use std::test::Fail;

/// Two pipes on one core, and one change.
const ONE_CHANGE: &[u8] = b"modelnet-directory 2 cores 1 pipes 2 changes 1\n\
    pipe 0 core 0\n\
    pipe 1 core 0\n\
    change tick 5 pipe 0 bps 80000000 us 1000 queue 50 ppm 0\n";

fn fault_of(
    rt: &impl Abort,
    alloc: Global,
    text: &[u8],
    cores: u32,
    pipes: u32,
) -> Option<ChangesFault> {
    assert!(rt; text.len() < 1000 && 1 <= cores && cores < 10 && pipes < 10);
    match read_changes(alloc, text, cores, pipes) {
        Err(Refusal::Fault(fault)) => Some(fault),
        _ => None,
    }
}

fn split_of(rt: &impl Abort, alloc: Global, text: &[u8]) -> Result<Split, Refusal<ChangesFault>> {
    assert!(rt; text.len() < 1000);
    read_changes(alloc, text, 1, 2)
}

#[test]
fn a_text_with_one_change(rt: HostRuntime) -> Result<(), Fail> {
    let split = split_of(&rt, rt.alloc(), ONE_CHANGE)?;
    let directory = b"modelnet-directory 1 cores 1 pipes 2\npipe 0 core 0\npipe 1 core 0\n";
    assert_eq!(rt; split.directory.as_slice(), directory.as_slice());
    let change = Change {
        tick: 5,
        pipe: 0,
        bps: 80_000_000,
        latency_us: 1_000,
        queue: 50,
        ppm: 0,
    };
    assert_eq!(rt; split.changes.as_slice(), [change].as_slice());
    Ok(())
}

#[test]
fn lines_of_pipes_are_not_looked_at(rt: HostRuntime) -> Result<(), Fail> {
    let text = b"modelnet-directory 2 cores 01 pipes 2 changes 00\n\xff?\n  pipe";
    let split = split_of(&rt, rt.alloc(), text)?;
    let directory = b"modelnet-directory 1 cores 1 pipes 2\n\xff?\n  pipe\n";
    assert_eq!(rt; split.directory.as_slice(), directory.as_slice());
    assert_eq!(rt; split.changes.len(), 0);
    Ok(())
}

#[test]
fn other_texts_come_back(rt: HostRuntime) -> Result<(), Fail> {
    for text in [
        b"modelnet-directory 1 cores 9 pipes 7\npipe".as_slice(),
        b"modelnet-directory 2".as_slice(),
        b"".as_slice(),
        b" modelnet-directory 2 ".as_slice(),
    ] {
        let split = split_of(&rt, rt.alloc(), text)?;
        assert_eq!(rt; split.directory.as_slice(), text);
        assert_eq!(rt; split.changes.len(), 0);
    }
    Ok(())
}

#[test]
fn heads(rt: HostRuntime) -> Result<(), Fail> {
    let good = b"modelnet-directory 2 cores 3 pipes 0 changes 0";
    assert_eq!(rt; fault_of(&rt, rt.alloc(), good, 3, 0), None);
    let head = Some(ChangesFault::Head);
    assert_eq!(rt; fault_of(&rt, rt.alloc(), good, 2, 0), head);
    assert_eq!(rt; fault_of(&rt, rt.alloc(), good, 3, 1), head);
    for text in [
        b"modelnet-directory 2 ".as_slice(),
        b"modelnet-directory 2 cores 3 pipes 0 changes 65537".as_slice(),
        b"modelnet-directory 2 cores 3 pipes 0 changes 0 ".as_slice(),
        b"modelnet-directory 2  cores 3 pipes 0 changes 0".as_slice(),
        b"modelnet-directory 2 cores 3 pipes 0 changes 18446744073709551616".as_slice(),
    ] {
        assert_eq!(rt; fault_of(&rt, rt.alloc(), text, 3, 0), head);
    }
    Ok(())
}

#[test]
fn numbers_of_lines(rt: HostRuntime) -> Result<(), Fail> {
    let count = Some(ChangesFault::Count);
    for text in [
        b"modelnet-directory 2 cores 3 pipes 1 changes 0".as_slice(),
        b"modelnet-directory 2 cores 3 pipes 1 changes 0\n1\n2".as_slice(),
        b"modelnet-directory 2 cores 3 pipes 1 changes 1\npipe 0 core 0\n".as_slice(),
        b"modelnet-directory 2 cores 3 pipes 1 changes 65536\npipe 0 core 0\n\n".as_slice(),
    ] {
        assert_eq!(rt; fault_of(&rt, rt.alloc(), text, 3, 1), count);
    }
    Ok(())
}

/// The fault of a text whose two changes are these lines.
fn fault_of_lines(
    rt: &impl Abort,
    alloc: Global,
    first: &[u8],
    second: &[u8],
) -> Result<Option<ChangesFault>, Fail> {
    let mut text = Vec::new(alloc);
    text.extend_from_slice(b"modelnet-directory 2 cores 1 pipes 2 changes 2\n1\n2\n")?;
    text.extend_from_slice(first)?;
    text.push(b'\n')?;
    text.extend_from_slice(second)?;
    Ok(fault_of(rt, alloc, &text, 1, 2))
}

#[test]
fn lines_of_changes(rt: HostRuntime) -> Result<(), Fail> {
    const FIRST: &[u8] = b"change tick 7 pipe 0 bps 1000 us 0 queue 1 ppm 1000000";
    let line = Some(ChangesFault::Line(5));
    let range = Some(ChangesFault::Range(5));
    let order = Some(ChangesFault::Order(5));
    for (second, fault) in [
        (
            b"change tick 1099511627776 pipe 1 bps 1000000000000 us 10000000 queue 1000 ppm 0".as_slice(),
            None,
        ),
        (
            b"change tick 7 pipe 1 bps 1000 us 0 queue 1 ppm 0".as_slice(),
            None,
        ),
        (
            b"change tick 8 pipe 2 bps 1 us 0 queue 1 ppm 0".as_slice(),
            line,
        ),
        (
            b"change tick 8 pipe 0 bps 1000 us 0 queue 1 ppm".as_slice(),
            line,
        ),
        (
            b"change tick 8 pipe 0 bps 1000 us 0 queue 1 ppm 0 ".as_slice(),
            line,
        ),
        (
            b"change tick 18446744073709551616 pipe 0 bps 1000 us 0 queue 1 ppm 0".as_slice(),
            line,
        ),
        (
            b"change tick 1099511627777 pipe 0 bps 1000 us 0 queue 1 ppm 0".as_slice(),
            range,
        ),
        (
            b"change tick 1 pipe 0 bps 999 us 0 queue 1 ppm 0".as_slice(),
            range,
        ),
        (
            b"change tick 8 pipe 0 bps 1000 us 10000001 queue 1 ppm 0".as_slice(),
            range,
        ),
        (
            b"change tick 8 pipe 0 bps 1000 us 0 queue 0 ppm 0".as_slice(),
            range,
        ),
        (
            b"change tick 8 pipe 0 bps 1000 us 0 queue 1001 ppm 0".as_slice(),
            range,
        ),
        (
            b"change tick 8 pipe 0 bps 1000 us 0 queue 1 ppm 1000001".as_slice(),
            range,
        ),
        (
            b"change tick 7 pipe 0 bps 1000 us 0 queue 1 ppm 0".as_slice(),
            order,
        ),
        (
            b"change tick 6 pipe 1 bps 1000 us 0 queue 1 ppm 0".as_slice(),
            order,
        ),
    ] {
        assert_eq!(rt; fault_of_lines(&rt, rt.alloc(), FIRST, second)?, fault);
    }
    let bad_first = fault_of_lines(&rt, rt.alloc(), b"change", b"x")?;
    assert_eq!(rt; bad_first, Some(ChangesFault::Line(4)));
    Ok(())
}
