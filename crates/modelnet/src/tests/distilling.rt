//! `distill`: the pipes of a topology, and each answer that may come in their place.
ghost use Rattle.std.specs.Prelude.{◌≡◌, ◌≤◌, false};
ghost use Rattle.mn_edge.specs.declared.role.Role.{Role};
ghost use Rattle.mn_edge.specs.MemoryHostView.{stream_of};

use super::words_in;
use crate::plain::{plain, plain_within};
use crate::read_limits::ReadLimits;
use crate::status::Status;
use core_loop::Tally;
use gml_reader::{GmlFault, Item};
use mn_base::limits::{
    DIRECTORY_BYTES_MAX, JOURNAL_BYTES_MAX, TOPOLOGY_BYTES_MAX, TRACE_BYTES_MAX,
};
use mn_edge::{Fail, MemoryHost, Op, Role};
use plan::PlanFault;
use std::alloc::AllocError;
use std::process::Abort;
use topo::{Key, Many, TopoFault};

/// Two stubs of two nodes each, joined by a slow link between routers.
pub const TWO_STUBS: &str = "graph [
  node [ id 0 address \"10.0.0.1\" ]
  node [ id 1 address \"10.0.0.2\" ]
  node [ id 2 ]
  node [ id 3 ]
  node [ id 4 address \"10.0.1.1\" ]
  node [ id 5 address \"10.0.1.2\" ]
  edge [ source 0 target 2 bandwidth 10000000 latency 1000 ]
  edge [ source 1 target 2 bandwidth 10000000 latency 1000 ]
  edge [ source 2 target 3 bandwidth 2000000 latency 20000 queue 20 weight 1.5 ]
  edge [ source 3 target 4 bandwidth 10000000 latency 1000 ]
  edge [ source 3 target 5 bandwidth 10000000 latency 1000 ]
]
";

const TWO_STUBS_WALKED_IN: &str = "modelnet pipes 1
mode walk:1 tick-ns 100000 pipes 10
pipe 0 from 0 to 2 bps 10000000 us 1000 ticks 10 queue 50 keep 4294967296 links 1
pipe 1 from 2 to 0 bps 10000000 us 1000 ticks 10 queue 50 keep 4294967296 links 1
pipe 2 from 1 to 2 bps 10000000 us 1000 ticks 10 queue 50 keep 4294967296 links 1
pipe 3 from 2 to 1 bps 10000000 us 1000 ticks 10 queue 50 keep 4294967296 links 1
pipe 4 from 3 to 4 bps 10000000 us 1000 ticks 10 queue 50 keep 4294967296 links 1
pipe 5 from 4 to 3 bps 10000000 us 1000 ticks 10 queue 50 keep 4294967296 links 1
pipe 6 from 3 to 5 bps 10000000 us 1000 ticks 10 queue 50 keep 4294967296 links 1
pipe 7 from 5 to 3 bps 10000000 us 1000 ticks 10 queue 50 keep 4294967296 links 1
pipe 8 from 2 to 3 bps 2000000 us 20000 ticks 200 queue 20 keep 4294967296 links 1
pipe 9 from 3 to 2 bps 2000000 us 20000 ticks 200 queue 20 keep 4294967296 links 1
";

const TWO_STUBS_END_TO_END: &str = "modelnet pipes 1
mode end tick-ns 100000 pipes 12
pipe 0 from 0 to 1 bps 10000000 us 2000 ticks 20 queue 50 keep 4294967296 links 2
pipe 1 from 0 to 4 bps 2000000 us 22000 ticks 220 queue 20 keep 4294967296 links 3
pipe 2 from 0 to 5 bps 2000000 us 22000 ticks 220 queue 20 keep 4294967296 links 3
pipe 3 from 1 to 0 bps 10000000 us 2000 ticks 20 queue 50 keep 4294967296 links 2
pipe 4 from 1 to 4 bps 2000000 us 22000 ticks 220 queue 20 keep 4294967296 links 3
pipe 5 from 1 to 5 bps 2000000 us 22000 ticks 220 queue 20 keep 4294967296 links 3
pipe 6 from 4 to 0 bps 2000000 us 22000 ticks 220 queue 20 keep 4294967296 links 3
pipe 7 from 4 to 1 bps 2000000 us 22000 ticks 220 queue 20 keep 4294967296 links 3
pipe 8 from 4 to 5 bps 10000000 us 2000 ticks 20 queue 50 keep 4294967296 links 2
pipe 9 from 5 to 0 bps 2000000 us 22000 ticks 220 queue 20 keep 4294967296 links 3
pipe 10 from 5 to 1 bps 2000000 us 22000 ticks 220 queue 20 keep 4294967296 links 3
pipe 11 from 5 to 4 bps 10000000 us 2000 ticks 20 queue 50 keep 4294967296 links 2
";

fn host(
    rt: &(impl Abort + AllocGlobal),
    topology: &str,
    fails: &[Fail],
    piece: usize,
    room: usize,
) -> MemoryHost
    requires { 1 ≤ piece }
    ensures { (role : Role) → (stream_of result role).active ≡ false }
{
    let host = MemoryHost::new(
        rt.alloc(),
        topology.as_bytes(),
        &[],
        &[],
        fails,
        piece,
        room,
    );
    host.expect(rt, "memory for a host")
}

/// Runs a command line on a topology, and compares how it ends and what stands on the screen.
pub fn assert_prints(
    rt: &(impl Abort + AllocGlobal),
    line: &str,
    topology: &str,
    status: Status,
    screen: &str,
) {
    let words = words_in(rt, line);
    let mut host = host(rt, topology, &[], 65_536, 4_096);
    assert_eq!(rt;
        plain(rt.alloc(), &words, &mut host, &mut Tally::new()),
        status
    );
    assert_eq!(rt; host.written_bytes(Role::Screen), screen.as_bytes());
}

#[test]
fn two_stubs_are_walked_in(rt: HostRuntime) {
    let line = "distill --mode=walk:1 --topology g";
    assert_prints(&rt, line, TWO_STUBS, Status::Done, TWO_STUBS_WALKED_IN);
}

#[test]
fn two_stubs_are_a_mesh_from_end_to_end(rt: HostRuntime) {
    let line = "distill --mode end --topology g";
    assert_prints(&rt, line, TWO_STUBS, Status::Done, TWO_STUBS_END_TO_END);
}

#[test]
fn two_links_in_a_row_are_two_pipes_or_one(rt: HostRuntime) {
    let row =
        "graph [ directed 1 node [ id 7 address \"10.0.0.1\" ] node [ id 8 ] node [ id 9 address \"10.0.0.2\" ] \
        edge [ source 7 target 8 bandwidth 8000000 latency 50 ] \
        edge [ source 8 target 9 bandwidth 8000000 latency 50 ] ]";
    let hops = "modelnet pipes 1
mode hop tick-ns 100000 pipes 2
pipe 0 from 7 to 8 bps 8000000 us 50 ticks 1 queue 50 keep 4294967296 links 1
pipe 1 from 8 to 9 bps 8000000 us 50 ticks 1 queue 50 keep 4294967296 links 1
";
    assert_prints(&rt, "distill --topology g", row, Status::Done, hops);
    let whole = "modelnet pipes 1
mode end tick-ns 100000 pipes 1
pipe 0 from 7 to 9 bps 8000000 us 100 ticks 1 queue 50 keep 4294967296 links 2
";
    let line = "distill --topology g --mode end";
    assert_prints(&rt, line, row, Status::Done, whole);
}

/// Nodes with addresses, so many, each 10.0 and the two bytes of its number.
fn edge_nodes(rt: &impl AllocGlobal, count: u32) -> Result<String, AllocError> {
    let mut text = String::from_str(rt.alloc(), "graph [")?;
    for id in 0..count {
        let high = id / 256 % 256;
        let low = id % 256;
        writeln!(text, " node [ id {id} address \"10.0.{high}.{low}\" ]")?;
    }
    text.push_str("]")?;
    Ok(text)
}

/// One edge node, 1,000 routers next to it, and one further router beyond them all.
pub fn fan_of_routers(rt: &impl AllocGlobal) -> Result<String, AllocError> {
    let start = "graph [ node [ id 0 address \"10.0.0.1\" ] node [ id 1001 ]";
    let mut text = String::from_str(rt.alloc(), start)?;
    for id in 1..1_001 {
        writeln!(text, " node [ id {id} ]")?;
        writeln!(
            text,
            " edge [ source 0 target {id} bandwidth 1000 latency 0 ]"
        )?;
        writeln!(
            text,
            " edge [ source {id} target 1001 bandwidth 1000 latency 0 ]"
        )?;
    }
    text.push_str("]")?;
    Ok(text)
}

#[test]
fn a_topology_is_refused_by_its_first_fault(rt: HostRuntime) {
    let missing = GmlFault::Missing {
        item: Item::Node(0),
        key: Key::Id,
    };
    assert_prints(
        &rt,
        "distill --topology g",
        "graph [ node [ ] ]",
        Status::BadTopology(missing),
        "",
    );
    let many = edge_nodes(&rt, 513).expect(&rt, "memory");
    let fault = GmlFault::Topo(TopoFault::TooMany(Many::EdgeNodes));
    let status = Status::BadTopology(fault);
    assert_prints(&rt, "distill --topology g", many.as_str(), status, "");
}

#[test]
fn a_mesh_of_1001000_pipes_is_refused(rt: HostRuntime) {
    let fan = fan_of_routers(&rt).expect(&rt, "memory");
    let status = Status::BadPlan(PlanFault::TooManyPipes(1_001_000));
    let line = "distill --topology g --mode walk:1";
    assert_prints(&rt, line, fan.as_str(), status, "");
}

/// Runs a command line on two stubs over a host whose calls may fail, and compares how it ends and how much of the whole text
/// stands on the screen.
pub fn assert_stops(
    rt: &(impl Abort + AllocGlobal),
    line: &str,
    whole: &str,
    fails: &[Fail],
    room: usize,
    status: Status,
    written: usize,
) {
    let words = words_in(rt, line);
    let mut host = host(rt, TWO_STUBS, fails, 8, room);
    assert_eq!(rt;
        plain(rt.alloc(), &words, &mut host, &mut Tally::new()),
        status
    );
    let screen = host.written_bytes(Role::Screen);
    assert_eq!(rt; screen.len(), written);
    assert!(rt; whole.as_bytes().starts_with(screen));
}

/// Each call on the topology fails in turn.
pub fn assert_read_faults(rt: &(impl Abort + AllocGlobal), line: &str, whole: &str) {
    for op in [Op::Begin, Op::Read, Op::Finish] {
        let first = Fail {
            role: Role::Topology,
            op,
            k: 0,
        };
        let status = Status::ReadFault(Role::Topology);
        assert_stops(rt, line, whole, &[first], 4_096, status, 0);
    }
}

/// The second write of eight bytes to the screen fails, then one without room, then the finish.
pub fn assert_write_faults(rt: &(impl Abort + AllocGlobal), line: &str, whole: &str) {
    let second = Fail {
        role: Role::Screen,
        op: Op::Write,
        k: 1,
    };
    let status = Status::WriteFault(Role::Screen);
    assert_stops(rt, line, whole, &[second], 4_096, status, 8);
    assert_stops(rt, line, whole, &[], 20, status, 20);
    let last = Fail {
        role: Role::Screen,
        op: Op::Finish,
        k: 0,
    };
    assert_stops(rt, line, whole, &[last], 4_096, status, whole.len());
}

const WALK_IN: &str = "distill --topology g --mode walk:1";

#[test]
fn a_failed_read_of_the_topology_is_named(rt: HostRuntime) {
    assert_read_faults(&rt, WALK_IN, TWO_STUBS_WALKED_IN);
}

#[test]
fn a_failed_write_leaves_a_front_of_the_screen(rt: HostRuntime) {
    assert_write_faults(&rt, WALK_IN, TWO_STUBS_WALKED_IN);
}

/// How a command line ends on the empty topology of 9 bytes, where so many bytes of a topology are read at most.
pub fn status_within(rt: &(impl Abort + AllocGlobal), line: &str, limit: usize) -> Status
    requires { limit ≤ TOPOLOGY_BYTES_MAX }
{
    let words = words_in(rt, line);
    let mut host = host(rt, "graph [ ]", &[], 8, 4_096);
    let limits = ReadLimits {
        topology: limit,
        trace: TRACE_BYTES_MAX,
        directory: DIRECTORY_BYTES_MAX,
        journal: JOURNAL_BYTES_MAX,
    };
    plain_within(rt.alloc(), &limits, &words, &mut host, &mut Tally::new())
}

#[test]
fn a_topology_above_its_limit_is_too_large(rt: HostRuntime) {
    let line = "distill --topology g";
    assert_eq!(rt; status_within(&rt, line, 9), Status::Done);
    assert_eq!(rt;
        status_within(&rt, line, 8),
        Status::TooLarge(Role::Topology)
    );
}
