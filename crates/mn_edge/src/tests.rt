ghost use Rattle.std.specs.Prelude.{◌≡◌, ◌≤◌, true, false};
ghost use Rattle.mn_edge.specs.declared.role.Role.{Role};

use crate::{
    Fail, Failed, Host, MemoryHost, Op, ReadEnd, RealHost, Role, WriteFault, read_all, write_all,
};
use mn_base::Bytes;
use mn_base::limits::TRACE_BYTES_MAX;
use std::fs;
use std::process::Abort;
use std::test::Fail as Failure;

/// Begins a role of a host that is new.
fn begun<H: Host>(rt: &impl Abort, host: &mut H, role: Role, name: &str)
    requires { (each : Role) → (H.part host.old each).active ≡ false }
    ensures { (H.part host.new role).active ≡ true }
{
    assert_eq!(rt; host.begin(role, name), Ok(()));
}

/// Begins a role of a host that is new, under a name that it refuses.
fn refused<H: Host>(rt: &impl Abort, host: &mut H, role: Role, name: &str)
    requires { (each : Role) → (H.part host.old each).active ≡ false }
{
    assert_eq!(rt; host.begin(role, name), Err(Failed));
}

fn finished<H: Host>(rt: &impl Abort, host: &mut H, role: Role)
    requires { (H.part host.old role).active ≡ true }
{
    assert_eq!(rt; host.finish(role), Ok(()));
}

fn written<H: Host>(rt: &impl Abort, host: &mut H, role: Role, text: &[u8])
    requires { (H.part host.old role).active ≡ true }
    ensures { (H.part host.new role).active ≡ true }
{
    assert_eq!(rt; write_all(host, role, text), Ok(()));
}

/// What a whole read answers on a trace of these bytes, 3 at a time.
fn read_trace(
    rt: &(impl Abort + AllocGlobal),
    trace: &[u8],
    fails: &[Fail],
    limit: usize,
) -> Result<Bytes, ReadEnd>
    requires { limit ≤ TRACE_BYTES_MAX }
{
    let host = MemoryHost::new(rt.alloc(), &[], trace, &[], fails, 3, 0);
    let Ok(mut host) = host else {
        return Err(ReadEnd::NoMemory);
    };
    begun(rt, &mut host, Role::Trace, "trace");
    read_all(rt.alloc(), &mut host, Role::Trace, limit)
}

#[test]
fn a_whole_read_ends_at_its_limit_and_at_the_call_that_is_named(rt: HostRuntime) {
    let four = read_trace(&rt, b"abcd", &[], 4).expect(&rt, "four bytes");
    assert_eq!(rt; four.as_slice(), b"abcd".as_slice());
    let five = read_trace(&rt, b"abcde", &[], 4);
    assert_eq!(rt; five.err(), Some(ReadEnd::TooLarge));
    let second = Fail {
        role: Role::Trace,
        op: Op::Read,
        k: 1,
    };
    let cut = read_trace(&rt, b"abcd", &[second], 4);
    assert_eq!(rt; cut.err(), Some(ReadEnd::Fault));
}

#[test]
fn a_journal_that_is_given_later_is_read(rt: HostRuntime) {
    let host = MemoryHost::new(rt.alloc(), &[], b"trace", &[], &[], 3, 0);
    let Ok(host) = host else {
        panic!(rt; "memory");
    };
    let Ok(mut host) = host.with_journal(rt.alloc(), b"visits") else {
        panic!(rt; "memory");
    };
    begun(&rt, &mut host, Role::Journal, "journal");
    let bytes = read_all(rt.alloc(), &mut host, Role::Journal, 6).expect(&rt, "six bytes");
    assert_eq!(rt; bytes.as_slice(), b"visits".as_slice());
}

/// What a whole write to Out answers, 8 bytes at a time, and what Out then holds.
fn write_out(
    rt: &(impl Abort + AllocGlobal),
    fails: &[Fail],
    room: usize,
    held: &[u8],
) -> Result<(), WriteFault> {
    let host = MemoryHost::new(rt.alloc(), &[], &[], &[], fails, 8, room);
    let Ok(mut host) = host else {
        return Err(WriteFault);
    };
    begun(rt, &mut host, Role::Out, "out");
    let answer = write_all(&mut host, Role::Out, b"0123456789abcdef");
    assert_eq!(rt; host.written_bytes(Role::Out), held);
    assert_eq!(rt; host.written_bytes(Role::Report), b"".as_slice());
    answer
}

#[test]
fn a_whole_write_stops_at_a_fault_and_where_room_ends(rt: HostRuntime) {
    let whole = b"0123456789abcdef".as_slice();
    let front = b"01234567".as_slice();
    let second = Fail {
        role: Role::Out,
        op: Op::Write,
        k: 1,
    };
    assert_eq!(rt; write_out(&rt, &[], 16, whole), Ok(()));
    assert_eq!(rt; write_out(&rt, &[], 8, front), Err(WriteFault));
    assert_eq!(rt; write_out(&rt, &[second], 16, front), Err(WriteFault));
}

/// A name of so many letters.
fn name_of(rt: &impl AllocGlobal, letters: usize) -> Result<String, Failure> {
    let letters = vec![in rt.alloc(); b'n'; letters]?;
    Ok(String::from_utf8(letters)?)
}

#[test]
fn a_name_has_at_most_4096_bytes(rt: HostRuntime) -> Result<(), Failure> {
    let host = MemoryHost::new(rt.alloc(), b"", b"", b"", &[], 1, 0);
    let Ok(mut host) = host else {
        panic!(rt; "memory");
    };
    let long = name_of(&rt, 4097)?;
    refused(&rt, &mut host, Role::Trace, long.as_str());
    let host = MemoryHost::new(rt.alloc(), b"", b"", b"", &[], 1, 0);
    let Ok(mut host) = host else {
        panic!(rt; "memory");
    };
    let longest = name_of(&rt, 4096)?;
    begun(&rt, &mut host, Role::Trace, longest.as_str());
    Ok(())
}

#[test]
fn roles_are_in_order(rt: HostRuntime) {
    assert_eq!(rt; Role::Topology.index(), 0);
    assert_eq!(rt; Role::Screen.index() + 1, Role::COUNT);
    assert!(rt; Role::Journal.is_input());
    assert!(rt; !Role::Out.is_input());
}

#[test]
fn the_real_host_refuses_a_missing_file(rt: HostRuntime) {
    let mut host = RealHost::new(rt);
    refused(&rt, &mut host, Role::Trace, "mn_edge_missing.bytes");
}

#[test]
fn an_output_over_a_longer_file_reads_back_whole(rt: HostRuntime) -> Result<(), Failure> {
    let name = "mn_edge_real_host.bytes";
    fs::write(&rt, name, "what an earlier run left")?;
    let mut host = RealHost::new(rt);
    begun(&rt, &mut host, Role::Out, name);
    written(&rt, &mut host, Role::Out, b"kept");
    finished(&rt, &mut host, Role::Out);

    let mut host = RealHost::new(rt);
    begun(&rt, &mut host, Role::Trace, name);
    let bytes = read_all(rt.alloc(), &mut host, Role::Trace, 24);
    fs::remove_file(&rt, name)?;
    let bytes = bytes.ok().ok_or("four bytes")?;
    assert_eq!(rt; bytes.as_slice(), b"kept".as_slice());
    Ok(())
}

#[test]
fn a_real_host_over_another_stream_prints_to_it(rt: HostRuntime) {
    let mut host = RealHost::over(rt, Vec::new(rt.alloc()));
    begun(&rt, &mut host, Role::Screen, "any name");
    written(&rt, &mut host, Role::Screen, b"shown");
}
