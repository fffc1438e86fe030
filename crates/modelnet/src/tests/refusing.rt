//! `rehearse` and `emulate` that end early: each answer that may come in the place of Done; and what the other commands that plan refuse.
ghost use Rattle.mn_edge.specs.declared.role.Role.{Role};
ghost use Rattle.modelnet.specs.TheCommands.{AreWithinUsual};

use super::distilling::fan_of_routers;
use super::journals::{CHECK, LIST};
use super::moving::MOVE;
use super::pcapng::first_bytes;
use super::rehearsing::{
    CROSS, CROSS_AND_TELL, Inputs, MEET, Quiet, STAR, TWO_CORES, TWO_PACKETS, TWO_PACKETS_OUT,
    TWO_PACKETS_REPORT, TWO_STUBS, TWO_STUBS_CROSSED, TWO_STUBS_ON_TWO_CORES, host, line_of,
    star_with_a_change, to_the_third,
};
use super::words_in;
use crate::plain::{plain, plain_within};
use crate::read_limits::ReadLimits;
use crate::status::Status;
use crate::top::modelnet;
use changes::ChangesFault;
use core_loop::Tally;
use gml_reader::{GmlFault, Item};
use mn_base::limits::{JOURNAL_BYTES_MAX, TOPOLOGY_BYTES_MAX, TRACE_BYTES_MAX};
use mn_edge::{Fail, MemoryHost, Op, Role};
use ownership::AssignFault;
use pcap_io::PcapFault;
use pcapng_in::NgFault;
use plan::PlanFault;
use std::process::Abort;
use std::sync::Wait;
use std::thread::Threads;
use topo::Key;

/// Nothing is written or counted.
fn assert_nothing(rt: &(impl Abort + AllocGlobal), host: &MemoryHost, tally: Tally) {
    for role in [Role::Out, Role::Report, Role::Screen] {
        assert_eq!(rt; host.written_bytes(role).len(), 0);
    }
    let told = format!(in rt.alloc(); "{tally:?}").expect(rt, "memory");
    assert_eq!(rt; told.as_str(), "Tally { cores: 0, windows: 0, visits: 0 }");
}

/// Runs a command line that is refused on one thread.
fn assert_refused(rt: &(impl Abort + AllocGlobal), line: &str, inputs: &Inputs, status: Status) {
    let words = words_in(rt, line);
    let mut host = host(rt, inputs, &[], 65_536);
    let mut tally = Tally::new();
    assert_eq!(rt; plain(rt.alloc(), &words, &mut host, &mut tally), status);
    assert_nothing(rt, &host, tally);
}

/// Runs `rehearse` with these options on one thread, and `emulate` on several: both are refused.
fn assert_both_refused(
    rt: &(impl Abort + AllocGlobal + Threads + Wait + Sync),
    options: &str,
    inputs: &Inputs,
    status: Status,
) {
    assert_refused(
        rt,
        line_of(rt, "rehearse", options).as_str(),
        inputs,
        status,
    );
    let line = line_of(rt, "emulate", options);
    let words = words_in(rt, line.as_str());
    let mut host = host(rt, inputs, &[], 65_536);
    let mut tally = Tally::new();
    let ended = modelnet(rt, &words, &mut host, &Quiet, &mut tally);
    assert_eq!(rt; ended, status);
    assert_nothing(rt, &host, tally);
}

#[test]
fn changes_that_are_refused(rt: HostRuntime) {
    let trace = to_the_third(&rt, 0, 0);
    for (changes, pipe, latency_us, fault) in [
        (2, 0, 0, ChangesFault::Count),
        (1, 6, 0, ChangesFault::Line(8)),
        (1, 0, 10_000_001, ChangesFault::Range(8)),
    ] {
        let directory = star_with_a_change(&rt, changes, pipe, latency_us);
        let inputs = Inputs {
            topology: STAR,
            trace: &trace,
            directory: directory.as_str(),
        };
        let status = Status::BadPlan(PlanFault::Changes(fault));
        assert_both_refused(&rt, MEET, &inputs, status);
    }
}

#[test]
fn each_input_is_refused_by_its_first_fault(rt: HostRuntime) {
    let cut = first_bytes(&rt, 28);
    let no_id = GmlFault::Missing {
        item: Item::Node(0),
        key: Key::Id,
    };
    let of_three = "modelnet-directory 1 cores 3 pipes 6";
    let head = PlanFault::Assign(AssignFault::Head);
    for (topology, trace, directory, status) in [
        (
            "graph [ node [ ] ]",
            "".as_bytes(),
            "",
            Status::BadTopology(no_id),
        ),
        (
            STAR,
            cut.as_slice(),
            "",
            Status::BadCapture(NgFault::NoInterface),
        ),
        (STAR, &TWO_PACKETS, of_three, Status::BadPlan(head)),
    ] {
        let inputs = Inputs {
            topology,
            trace,
            directory,
        };
        assert_both_refused(&rt, CROSS_AND_TELL, &inputs, status);
        for line in [LIST, CHECK, MOVE] {
            assert_refused(&rt, line, &inputs, status);
        }
    }
}

#[test]
fn a_mesh_of_1001000_pipes_is_refused(rt: HostRuntime) {
    let fan = fan_of_routers(&rt).expect(&rt, "memory");
    let inputs = Inputs {
        topology: fan.as_str(),
        trace: &TWO_PACKETS,
        directory: "",
    };
    let status = Status::BadPlan(PlanFault::TooManyPipes(1_001_000));
    assert_both_refused(&rt, CROSS_AND_TELL, &inputs, status);
}

#[test]
fn fronts_of_a_trace(rt: HostRuntime) {
    for length in 0usize..97 {
        let trace = TWO_PACKETS.get(..length).expect(&rt, "so many bytes");
        let inputs = Inputs {
            topology: TWO_STUBS,
            trace,
            directory: "",
        };
        let fault = match length {
            0..4 => PcapFault::NotPcap,
            4..24 => PcapFault::ShortHeader,
            25..60 => PcapFault::Truncated(0),
            61..96 => PcapFault::Truncated(1),
            _ => continue,
        };
        assert_both_refused(&rt, CROSS, &inputs, Status::BadTrace(fault));
    }
}

/// Compares how many bytes of each whole output are written.
fn assert_written(rt: &impl Abort, host: &MemoryHost, written: [usize; 3]) {
    let [out, report, screen] = written;
    let whole = TWO_PACKETS_OUT.get(..out);
    assert_eq!(rt; Some(host.written_bytes(Role::Out)), whole);
    let whole = TWO_PACKETS_REPORT.as_bytes().get(..report);
    assert_eq!(rt; Some(host.written_bytes(Role::Report)), whole);
    let whole = TWO_CORES.as_bytes().get(..screen);
    assert_eq!(rt; Some(host.written_bytes(Role::Screen)), whole);
}

/// Runs `rehearse` and `emulate` over hosts of which one call fails, the first of its kind and role, and compares how they end and
/// what is written.
fn assert_stops(
    rt: &(impl Abort + AllocGlobal + Threads + Wait + Sync),
    role: Role,
    op: Op,
    status: Status,
    written: [usize; 3],
) {
    let fail = Fail { role, op, k: 0 };
    let line = line_of(rt, "rehearse", CROSS_AND_TELL);
    let words = words_in(rt, line.as_str());
    let mut alone = host(rt, &TWO_STUBS_CROSSED, &[fail], 4_096);
    let ended = plain(rt.alloc(), &words, &mut alone, &mut Tally::new());
    assert_eq!(rt; ended, status);
    assert_written(rt, &alone, written);
    let line = line_of(rt, "emulate", CROSS_AND_TELL);
    let words = words_in(rt, line.as_str());
    let mut crossed = host(rt, &TWO_STUBS_CROSSED, &[fail], 4_096);
    let ended = modelnet(rt, &words, &mut crossed, &Quiet, &mut Tally::new());
    assert_eq!(rt; ended, status);
    assert_written(rt, &crossed, written);
}

#[test]
fn each_failed_call_is_named_by_its_role(rt: HostRuntime) {
    for role in [Role::Topology, Role::Trace, Role::Directory] {
        for op in [Op::Begin, Op::Read, Op::Finish] {
            assert_stops(&rt, role, op, Status::ReadFault(role), [0, 0, 0]);
        }
    }
    let out = TWO_PACKETS_OUT.len();
    let report = TWO_PACKETS_REPORT.len();
    let screen = TWO_CORES.len();
    for (role, before, after) in [
        (Role::Out, [0, 0, 0], [out, 0, 0]),
        (Role::Report, [out, 0, 0], [out, report, 0]),
        (Role::Screen, [out, report, 0], [out, report, screen]),
    ] {
        let status = Status::WriteFault(role);
        assert_stops(&rt, role, Op::Begin, status, before);
        assert_stops(&rt, role, Op::Write, status, before);
        assert_stops(&rt, role, Op::Finish, status, after);
    }
}

/// How the crossing of two stubs ends, where so many bytes of each input are read at most.
fn status_within(rt: &(impl Abort + AllocGlobal), limits: &ReadLimits) -> Status
    requires { AreWithinUsual limits.now }
{
    let line = line_of(rt, "rehearse", CROSS_AND_TELL);
    let words = words_in(rt, line.as_str());
    let mut host = host(rt, &TWO_STUBS_CROSSED, &[], 4_096);
    plain_within(rt.alloc(), limits, &words, &mut host, &mut Tally::new())
}

#[test]
fn inputs_above_their_limits_are_too_large(rt: HostRuntime) {
    let mut limits = ReadLimits {
        topology: TOPOLOGY_BYTES_MAX,
        trace: TRACE_BYTES_MAX,
        directory: TWO_STUBS_ON_TWO_CORES.len(),
        journal: JOURNAL_BYTES_MAX,
    };
    assert_eq!(rt; status_within(&rt, &limits), Status::Done);
    limits.directory = 8;
    assert_eq!(rt;
        status_within(&rt, &limits),
        Status::TooLarge(Role::Directory)
    );
    limits.trace = 95;
    assert_eq!(rt; status_within(&rt, &limits), Status::TooLarge(Role::Trace));
    limits.topology = 8;
    assert_eq!(rt;
        status_within(&rt, &limits),
        Status::TooLarge(Role::Topology)
    );
}
