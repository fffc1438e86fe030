// Out of memory may stand in the place of any answer, and no contract can rule that out. So each status that a command has
// comes in a test here, with memory:
//
// | status | `chain` | `distill`, in `distilling` | `assign`, in `assigning` | `rehearse`, in `refusing` |
// |---|---|---|---|---|
// | Done | one_packet_leaves_at_tick_60 | two_stubs_are_walked_in | two_stubs_are_dealt_to_two_cores | rehearsing::two_packets_cross_two_stubs |
// | BadWords | words_that_are_no_order_are_refused | the same for all commands | the same for all commands | the same for all commands |
// | BadTopology | | a_topology_is_refused_by_its_first_fault | the same name | each_input_is_refused_by_its_first_fault |
// | BadTrace | a_cut_record_is_refused_and_nothing_is_written | | | fronts_of_a_trace |
// | BadPlan(TooManyPipes) | | a_mesh_of_1001000_pipes_is_refused | the same name | the same name |
// | BadPlan(Changes) | | | | changes_that_are_refused |
// | BadPlan(Assign) | | | | each_input_is_refused_by_its_first_fault |
// | ReadFault(Topology) | | a_failed_read_of_the_topology_is_named | the same name | each_failed_call_is_named_by_its_role |
// | ReadFault(Trace) | a_failed_read_is_named_by_its_role | | | each_failed_call_is_named_by_its_role |
// | ReadFault(Directory) | | | | each_failed_call_is_named_by_its_role |
// | WriteFault(Out) | a_failed_write_leaves_a_front_of_the_output_trace | | | each_failed_call_is_named_by_its_role |
// | WriteFault(Report) | a_failed_write_of_the_report_leaves_the_output_trace_whole | | | each_failed_call_is_named_by_its_role |
// | WriteFault(Screen) | | a_failed_write_leaves_a_front_of_the_screen | the same name | each_failed_call_is_named_by_its_role |
// | TooLarge(Topology) | | a_topology_above_its_limit_is_too_large | the same name | inputs_above_their_limits_are_too_large |
// | TooLarge(Trace) | a_trace_above_its_limit_is_too_large | | | inputs_above_their_limits_are_too_large |
// | TooLarge(Directory) | | | | inputs_above_their_limits_are_too_large |
// | BadCapture | pcapng::a_cut_block_is_refused_and_nothing_is_written | | | each_input_is_refused_by_its_first_fault |
//
// `journal`, `check` (in `journals`) and `migrate` (in `moving`) read what `rehearse` reads, by the same code; `refusing` has their
// faults of a topology, a trace and a plan, too. Done comes in the_visits_of_two_packets_are_the_same_on_any_number_of_cores,
// a_journal_is_right_or_differs_at_a_line and a_pipe_that_moves_changes_no_output; BadJournal and BadMove come in the last two;
// TooLarge(Journal) in a_journal_above_its_limit_is_too_large; the faults of roles in each_failed_call_is_named_by_its_role.
//
// `red` reads and writes what `chain` does, by the same code; Done comes in dropping_early::the_third_of_three_packets_is_dropped_early.
//
// `workload` reads no role; in `generating`: Done comes in summaries_are_the_same_on_any_number_of_cores, WriteFault(Screen) in
// a_failed_write_leaves_a_front_of_the_summary.
ghost use Rattle.std.specs.Prelude.{◌≡◌, ◌≤◌, false};
ghost use Rattle.mn_edge.specs.declared.role.Role.{Role};
ghost use Rattle.mn_edge.specs.MemoryHostView.{stream_of};

mod assigning;
mod bursts;
mod distilling;
mod dropping_early;
mod emulating;
mod generating;
mod journals;
mod moving;
mod pcapng;
mod refusing;
mod rehearsing;

use crate::plain::{plain, plain_within};
use crate::read_limits::ReadLimits;
use crate::status::Status;
use core_loop::Tally;
use mn_base::limits::{
    DIRECTORY_BYTES_MAX, JOURNAL_BYTES_MAX, TOPOLOGY_BYTES_MAX, TRACE_BYTES_MAX,
};
use mn_edge::{Fail, MemoryHost, Op, RealHost, Role};
use mn_words::{Opt, WordsFault};
use pcap_io::PcapFault;
use std::fs;
use std::process::Abort;

/// A chain of one pipe, on which 1,000 bytes take 10 ticks of 100,000 ns; its latency is 50 ticks.
const ONE_PIPE: &str = "chain --trace t --out o --report r 8000000:5000:50:0";

/// A capture of one packet of 1,000 bytes, of which four were captured.
const ONE_PACKET: [u8; 44] = [
    0x4d, 0x3c, 0xb2, 0xa1, 2, 0, 4, 0, 0, 0, 0, 0, 0, 0, 0, 0, 0, 0, 4, 0, 0x65, 0, 0, 0, //
    0, 0, 0, 0, 0, 0, 0, 0, 4, 0, 0, 0, 0xe8, 3, 0, 0, 0xde, 0xad, 0xbe, 0xef,
];

/// What leaves of it: 60 ticks are 6,000,000 ns.
const ONE_PACKET_OUT: [u8; 44] = [
    0x4d, 0x3c, 0xb2, 0xa1, 2, 0, 4, 0, 0, 0, 0, 0, 0, 0, 0, 0, 0, 0, 4, 0, 0x65, 0, 0, 0, //
    0, 0, 0, 0, 0x80, 0x8d, 0x5b, 0, 4, 0, 0, 0, 0xe8, 3, 0, 0, 0xde, 0xad, 0xbe, 0xef,
];

const ONE_PACKET_REPORT: &str = "modelnet report 1\n\
    packets 1 bound 1 unbound 0 left 1 dropped 0\n\
    pipe 0 passed 1 lost 0 full 0\n";

/// Big-endian and in microseconds, its two packets out of time order; the base is 10 s.
const BIG_ENDIAN: [u8; 58] = [
    0xa1, 0xb2, 0xc3, 0xd4, 0, 2, 0, 4, 0, 0, 0, 0, 0, 0, 0, 0, 0, 0, 0xff, 0xff, 0, 0, 0, 0x65, //
    0, 0, 0, 0x0a, 0, 0, 3, 0xe8, 0, 0, 0, 1, 0, 0, 3, 0xe8, 0xaa, //
    0, 0, 0, 0x0a, 0, 0, 0, 0, 0, 0, 0, 1, 0, 0, 3, 0xe8, 0xbb,
];

/// Packet 1 leaves at tick 60, packet 0 at tick 70.
const BIG_ENDIAN_OUT: [u8; 58] = [
    0x4d, 0x3c, 0xb2, 0xa1, 2, 0, 4, 0, 0, 0, 0, 0, 0, 0, 0, 0, 0, 0, 4, 0, 0x65, 0, 0, 0, //
    0x0a, 0, 0, 0, 0x80, 0x8d, 0x5b, 0, 1, 0, 0, 0, 0xe8, 3, 0, 0, 0xbb, //
    0x0a, 0, 0, 0, 0xc0, 0xcf, 0x6a, 0, 1, 0, 0, 0, 0xe8, 3, 0, 0, 0xaa,
];

fn words_in<'a>(rt: &(impl Abort + AllocGlobal), line: &'a str) -> Vec<&'a str> {
    let words: Result<Vec<&str>, _> = line.split(' ').collect(rt.alloc());
    words.expect(rt, "memory for words")
}

fn host(
    rt: &(impl Abort + AllocGlobal),
    trace: &[u8],
    fails: &[Fail],
    piece: usize,
    room: usize,
) -> MemoryHost
    requires { 1 ≤ piece }
    ensures { (role : Role) → (stream_of result role).active ≡ false }
{
    let host = MemoryHost::new(rt.alloc(), &[], trace, &[], fails, piece, room);
    host.expect(rt, "memory for a host")
}

/// Runs a command line on a trace, and compares what is written.
fn assert_writes(
    rt: &(impl Abort + AllocGlobal),
    line: &str,
    trace: &[u8],
    out: &[u8],
    report: &str,
) {
    let words = words_in(rt, line);
    let mut host = host(rt, trace, &[], 4_096, 4_096);
    let status = plain(rt.alloc(), &words, &mut host, &mut Tally::new());
    assert_eq!(rt; status, Status::Done);
    assert_eq!(rt; host.written_bytes(Role::Out), out);
    assert_eq!(rt; host.written_bytes(Role::Report), report.as_bytes());
}

/// A capture in ns of packets, each as (time in ns, original length), of which no byte was captured.
fn capture(rt: &(impl Abort + AllocGlobal), packets: &[(u64, u32)]) -> Vec<u8> {
    let (header, _) = ONE_PACKET.split_at(24);
    let mut text = Vec::from_slice(rt.alloc(), header).expect(rt, "memory");
    for (time_ns, original) in packets {
        push_record(rt, &mut text, *time_ns, *original, &[]);
    }
    text
}

/// One more packet of a capture in ns: its time, its original length, and its captured bytes.
fn push_record(rt: &impl Abort, text: &mut Vec<u8>, time_ns: u64, original: u32, bytes: &[u8]) {
    let seconds = (time_ns / 1_000_000_000).min(u64::from(u32::MAX)) as u32;
    let fraction = (time_ns % 1_000_000_000) as u32;
    let captured = (bytes.len() as u64).min(u64::from(u32::MAX)) as u32;
    push_number(rt, text, seconds);
    push_number(rt, text, fraction);
    push_number(rt, text, captured);
    push_number(rt, text, original);
    text.extend_from_slice(bytes).expect(rt, "memory");
}

fn push_number(rt: &impl Abort, text: &mut Vec<u8>, number: u32) {
    let bytes = number.to_le_bytes();
    text.extend_from_slice(&bytes).expect(rt, "memory");
}

/// The same for packets of which no byte was captured: those that come, and those that leave, in order.
fn assert_leave(
    rt: &(impl Abort + AllocGlobal),
    line: &str,
    packets: &[(u64, u32)],
    left: &[(u64, u32)],
    report: &str,
) {
    let trace = capture(rt, packets);
    let out = capture(rt, left);
    assert_writes(rt, line, &trace, &out, report);
}

#[test]
fn one_packet_leaves_at_tick_60(rt: HostRuntime) {
    assert_writes(
        &rt,
        ONE_PIPE,
        &ONE_PACKET,
        &ONE_PACKET_OUT,
        ONE_PACKET_REPORT,
    );
}

#[test]
fn a_header_alone_is_an_empty_trace(rt: HostRuntime) {
    assert_leave(
        &rt,
        "chain --trace t --out o --report r 8000000:5000:50:0",
        &[],
        &[],
        "modelnet report 1\n\
        packets 0 bound 0 unbound 0 left 0 dropped 0\n",
    );
}

#[test]
fn empty_packets_take_the_latency_alone(rt: HostRuntime) {
    assert_leave(
        &rt,
        "chain --trace t --out o --report r 8000000:5000:50:0",
        &[(0, 0), (700_000, 0)],
        &[(5_000_000, 0), (5_700_000, 0)],
        "modelnet report 1\n\
        packets 2 bound 2 unbound 0 left 2 dropped 0\n\
        pipe 0 passed 2 lost 0 full 0\n",
    );
}

#[test]
fn the_second_of_two_packets_waits(rt: HostRuntime) {
    assert_leave(
        &rt,
        "chain --trace t --out o --report r 8000000:5000:50:0",
        &[(0, 1000), (0, 1000)],
        &[(6_000_000, 1000), (7_000_000, 1000)],
        "modelnet report 1\n\
        packets 2 bound 2 unbound 0 left 2 dropped 0\n\
        pipe 0 passed 2 lost 0 full 0\n",
    );
}

#[test]
fn a_finish_exactly_at_the_tick_waits_no_longer(rt: HostRuntime) {
    assert_leave(
        &rt,
        "chain --trace t --out o --report r 8000000:5000:1:0",
        &[(0, 1000), (900_000, 1000), (1_000_000, 1000)],
        &[(6_000_000, 1000), (7_000_000, 1000)],
        "modelnet report 1\n\
        packets 3 bound 3 unbound 0 left 2 dropped 1\n\
        pipe 0 passed 2 lost 0 full 1\n\
        drop 1 pipe 0 tick 9 cause full\n",
    );
}

#[test]
fn a_second_pipe_that_keeps_nothing_loses_all(rt: HostRuntime) {
    assert_leave(
        &rt,
        "chain --trace t --out o --report r 8000000:5000:50:0 8000000:5000:50:1000000",
        &[(0, 1000)],
        &[],
        "modelnet report 1\n\
        packets 1 bound 1 unbound 0 left 0 dropped 1\n\
        pipe 0 passed 1 lost 0 full 0\n\
        pipe 1 passed 0 lost 1 full 0\n\
        drop 0 pipe 1 tick 60 cause loss\n",
    );
}

#[test]
fn no_latency_is_one_tick(rt: HostRuntime) {
    assert_leave(
        &rt,
        "chain --trace t --out o --report r 8000000:0:50:0",
        &[(0, 1000)],
        &[(1_100_000, 1000)],
        "modelnet report 1\n\
        packets 1 bound 1 unbound 0 left 1 dropped 0\n\
        pipe 0 passed 1 lost 0 full 0\n",
    );
}

#[test]
fn packets_out_of_time_order_enter_by_their_times(rt: HostRuntime) {
    let report = "modelnet report 1\n\
        packets 2 bound 2 unbound 0 left 2 dropped 0\n\
        pipe 0 passed 2 lost 0 full 0\n";
    assert_writes(&rt, ONE_PIPE, &BIG_ENDIAN, &BIG_ENDIAN_OUT, report);
}

/// Packets of 1,000 bytes at these times in ns.
fn packets_at(rt: &(impl Abort + AllocGlobal), times: &[u64]) -> Vec<(u64, u32)> {
    let mut packets = Vec::new(rt.alloc());
    for time_ns in times {
        packets.push((*time_ns, 1000)).expect(rt, "memory");
    }
    packets
}

/// A pipe that loses half of the packets, which are 100 ticks apart. The first 16 words of ChaCha8 with the key 0 are at least
/// 2^31 at the places 1, 2, 3, 4, 6, 12 and 14; they were worked out by another program.
const HALF_BY_ARRIVAL: &str =
    "chain --loss arrival --trace t --out o --report r 8000000:5000:50:500000";

const HALF_LEFT: [u64; 9] = [
    6_000_000,
    56_000_000,
    76_000_000,
    86_000_000,
    96_000_000,
    106_000_000,
    116_000_000,
    136_000_000,
    156_000_000,
];

#[test]
fn loss_by_arrival_takes_the_words_in_the_order_of_visits(rt: HostRuntime) {
    let packets = packets_at(
        &rt,
        &[
            0,
            10_000_000,
            20_000_000,
            30_000_000,
            40_000_000,
            50_000_000,
            60_000_000,
            70_000_000,
            80_000_000,
            90_000_000,
            100_000_000,
            110_000_000,
            120_000_000,
            130_000_000,
            140_000_000,
            150_000_000,
        ],
    );
    let report = "modelnet report 1\n\
        packets 16 bound 16 unbound 0 left 9 dropped 7\n\
        pipe 0 passed 9 lost 7 full 0\n\
        drop 1 pipe 0 tick 100 cause loss\n\
        drop 2 pipe 0 tick 200 cause loss\n\
        drop 3 pipe 0 tick 300 cause loss\n\
        drop 4 pipe 0 tick 400 cause loss\n\
        drop 6 pipe 0 tick 600 cause loss\n\
        drop 12 pipe 0 tick 1200 cause loss\n\
        drop 14 pipe 0 tick 1400 cause loss\n";
    let left = packets_at(&rt, &HALF_LEFT);
    assert_leave(&rt, HALF_BY_ARRIVAL, &packets, &left, report);
}

#[test]
fn records_in_another_order_are_lost_at_the_same_ticks(rt: HostRuntime) {
    let packets = packets_at(
        &rt,
        &[
            150_000_000,
            140_000_000,
            130_000_000,
            120_000_000,
            110_000_000,
            100_000_000,
            90_000_000,
            80_000_000,
            70_000_000,
            60_000_000,
            50_000_000,
            40_000_000,
            30_000_000,
            20_000_000,
            10_000_000,
            0,
        ],
    );
    let report = "modelnet report 1\n\
        packets 16 bound 16 unbound 0 left 9 dropped 7\n\
        pipe 0 passed 9 lost 7 full 0\n\
        drop 1 pipe 0 tick 1400 cause loss\n\
        drop 3 pipe 0 tick 1200 cause loss\n\
        drop 9 pipe 0 tick 600 cause loss\n\
        drop 11 pipe 0 tick 400 cause loss\n\
        drop 12 pipe 0 tick 300 cause loss\n\
        drop 13 pipe 0 tick 200 cause loss\n\
        drop 14 pipe 0 tick 100 cause loss\n";
    let left = packets_at(&rt, &HALF_LEFT);
    assert_leave(&rt, HALF_BY_ARRIVAL, &packets, &left, report);
}

/// Runs a command line over a host whose calls may fail, and compares how it ends and what stands in the output trace.
fn assert_stops(
    rt: &(impl Abort + AllocGlobal),
    line: &str,
    trace: &[u8],
    fails: &[Fail],
    room: usize,
    status: Status,
    written: usize,
) {
    let words = words_in(rt, line);
    let mut host = host(rt, trace, fails, 8, room);
    assert_eq!(rt;
        plain(rt.alloc(), &words, &mut host, &mut Tally::new()),
        status
    );
    let out = host.written_bytes(Role::Out);
    assert_eq!(rt; out.len(), written);
    assert!(rt; ONE_PACKET_OUT.starts_with(out));
    assert_eq!(rt; host.written_bytes(Role::Report).len(), 0);
}

#[test]
fn a_cut_record_is_refused_and_nothing_is_written(rt: HostRuntime) {
    let (cut, _) = ONE_PACKET.split_at(ONE_PACKET.len() - 1);
    let status = Status::BadTrace(PcapFault::Truncated(0));
    assert_stops(&rt, ONE_PIPE, cut, &[], 4_096, status, 0);
}

#[test]
fn words_that_are_no_order_are_refused(rt: HostRuntime) {
    let mut host = host(&rt, &ONE_PACKET, &[], 8, 4_096);
    let status = plain(rt.alloc(), &[], &mut host, &mut Tally::new());
    assert_eq!(rt; status, Status::BadWords(WordsFault::Command));
    for line in [
        "emulate",
        "emulate --topology g --trace t --out o --report r --cores 17",
        "emulate --topology g --trace t --out o --report r",
    ] {
        let command = Status::BadWords(WordsFault::Command);
        assert_stops(&rt, line, &ONE_PACKET, &[], 4_096, command, 0);
    }
    let form = Status::BadWords(WordsFault::Form);
    assert_stops(&rt, "chain --trace t", &ONE_PACKET, &[], 4_096, form, 0);
    let line = "chain --trace t --out o --report r 8000000:5000:1001:0";
    let value = Status::BadWords(WordsFault::Value(Opt::Pipe));
    assert_stops(&rt, line, &ONE_PACKET, &[], 4_096, value, 0);
    let line = "distill --topology g --mode walk:0";
    let mode = Status::BadWords(WordsFault::Value(Opt::Mode));
    assert_stops(&rt, line, &ONE_PACKET, &[], 4_096, mode, 0);
    let line = "assign --topology g --cores 17";
    let cores = Status::BadWords(WordsFault::Value(Opt::Cores));
    assert_stops(&rt, line, &ONE_PACKET, &[], 4_096, cores, 0);
}

#[test]
fn a_failed_write_leaves_a_front_of_the_output_trace(rt: HostRuntime) {
    let second = Fail {
        role: Role::Out,
        op: Op::Write,
        k: 1,
    };
    let status = Status::WriteFault(Role::Out);
    assert_stops(&rt, ONE_PIPE, &ONE_PACKET, &[second], 4_096, status, 8);
    assert_stops(&rt, ONE_PIPE, &ONE_PACKET, &[], 8, status, 8);
}

#[test]
fn a_failed_write_of_the_report_leaves_the_output_trace_whole(rt: HostRuntime) {
    let first = Fail {
        role: Role::Report,
        op: Op::Write,
        k: 0,
    };
    let status = Status::WriteFault(Role::Report);
    assert_stops(&rt, ONE_PIPE, &ONE_PACKET, &[first], 4_096, status, 44);
}

/// How the chain of one pipe ends on its capture of 44 bytes, where so many bytes of a trace are read at most.
fn status_within(rt: &(impl Abort + AllocGlobal), limit: usize) -> Status
    requires { limit ≤ TRACE_BYTES_MAX }
{
    let words = words_in(rt, ONE_PIPE);
    let mut host = host(rt, &ONE_PACKET, &[], 8, 4_096);
    let limits = ReadLimits {
        topology: TOPOLOGY_BYTES_MAX,
        trace: limit,
        directory: DIRECTORY_BYTES_MAX,
        journal: JOURNAL_BYTES_MAX,
    };
    plain_within(rt.alloc(), &limits, &words, &mut host, &mut Tally::new())
}

#[test]
fn a_trace_above_its_limit_is_too_large(rt: HostRuntime) {
    assert_eq!(rt; status_within(&rt, 44), Status::Done);
    assert_eq!(rt; status_within(&rt, 43), Status::TooLarge(Role::Trace));
}

#[test]
fn a_failed_read_is_named_by_its_role(rt: HostRuntime) {
    let first = Fail {
        role: Role::Trace,
        op: Op::Read,
        k: 0,
    };
    let status = Status::ReadFault(Role::Trace);
    assert_stops(&rt, ONE_PIPE, &ONE_PACKET, &[first], 4_096, status, 0);
}

#[test]
fn a_name_of_4097_bytes_cannot_be_read(rt: HostRuntime) {
    let mut line = String::from_str(rt.alloc(), "chain --trace ").expect(&rt, "memory");
    for _ in 0..4_097 {
        line.push('n').expect(&rt, "memory");
    }
    line.push_str(" --out o --report r 8000000:5000:50:0")
        .expect(&rt, "memory");
    let status = Status::ReadFault(Role::Trace);
    assert_stops(&rt, line.as_str(), &ONE_PACKET, &[], 4_096, status, 0);
}

#[test]
fn files_are_read_and_written(rt: HostRuntime) {
    fs::write(&rt, "chain_in.pcap", &ONE_PACKET).expect(&rt, "a folder to write to");
    let line =
        "chain --trace chain_in.pcap --out chain_out.pcap --report chain.txt 8000000:5000:50:0";
    let words = words_in(&rt, line);
    let mut host = RealHost::new(rt);
    let status = plain(rt.alloc(), &words, &mut host, &mut Tally::new());
    assert_eq!(rt; status, Status::Done);
    let out = fs::read(&rt, "chain_out.pcap").expect(&rt, "the output trace");
    assert_eq!(rt; out.as_slice(), ONE_PACKET_OUT.as_slice());
    let report = fs::read(&rt, "chain.txt").expect(&rt, "the report");
    assert_eq!(rt; report.as_slice(), ONE_PACKET_REPORT.as_bytes());
}

#[test]
fn a_missing_file_cannot_be_read(rt: HostRuntime) {
    let line = "chain --trace no_such_file.pcap --out o --report r 8000000:5000:50:0";
    let words = words_in(&rt, line);
    let mut host = RealHost::new(rt);
    let status = plain(rt.alloc(), &words, &mut host, &mut Tally::new());
    assert_eq!(rt; status, Status::ReadFault(Role::Trace));
}
