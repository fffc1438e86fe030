//! `workload`: the four lines of a generated input, on any number of cores, and each answer that may come in their place.
ghost use Rattle.std.specs.Prelude.{◌≡◌, ◌≤◌, false};
ghost use Rattle.mn_edge.specs.declared.role.Role.{Role};
ghost use Rattle.mn_edge.specs.MemoryHostView.{stream_of};

use super::words_in;
use crate::plain::plain;
use crate::status::Status;
use core_loop::Tally;
use mn_edge::{Fail, MemoryHost, Op, Role};
use std::process::Abort;

/// What another program of the same rules writes of these 423 packets. It has one core for all pipes.
const SUMMARY: &str = "workload 123456789012345 packets 423\n\
    gml 8306 trace 15252\n\
    packets 423 bound 423 unbound 0 left 423 dropped 0\n\
    last-tick 867\n";

fn host(rt: &(impl Abort + AllocGlobal), fails: &[Fail], piece: usize, room: usize) -> MemoryHost
    requires { 1 ≤ piece }
    ensures { (role : Role) → (stream_of result role).active ≡ false }
{
    let host = MemoryHost::new(rt.alloc(), &[], &[], &[], fails, piece, room);
    host.expect(rt, "memory for a host")
}

#[test]
fn summaries_are_the_same_on_any_number_of_cores(rt: HostRuntime) {
    let lines = [
        "workload --number 123456789012345 --packets 423 --cores 1",
        "workload --packets=423 --number=123456789012345",
        "workload --number 123456789012345 --packets 423 --cores 16",
    ];
    for line in lines {
        let words = words_in(&rt, line);
        let mut host = host(&rt, &[], 4_096, 4_096);
        let status = plain(rt.alloc(), &words, &mut host, &mut Tally::new());
        assert_eq!(rt; status, Status::Done);
        assert_eq!(rt; host.written_bytes(Role::Screen), SUMMARY.as_bytes());
        assert_eq!(rt; host.written_bytes(Role::Out).len(), 0);
        assert_eq!(rt; host.written_bytes(Role::Report).len(), 0);
    }
}

#[test]
fn a_failed_write_leaves_a_front_of_the_summary(rt: HostRuntime) {
    let words = words_in(&rt, "workload --number 123456789012345 --packets 423");
    let fail = Fail {
        role: Role::Screen,
        op: Op::Write,
        k: 1,
    };
    let mut host = host(&rt, &[fail], 20, 4_096);
    let status = plain(rt.alloc(), &words, &mut host, &mut Tally::new());
    assert_eq!(rt; status, Status::WriteFault(Role::Screen));
    assert_eq!(rt;
        host.written_bytes(Role::Screen),
        b"workload 12345678901".as_slice()
    );
}
