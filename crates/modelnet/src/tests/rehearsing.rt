//! `rehearse`, and `emulate` beside it: what leaves a topology, with its report, its cluster report and what is counted.
ghost use Rattle.std.specs.Prelude.{◌≡◌, ◌≤◌, false};
ghost use Rattle.mn_edge.specs.declared.role.Role.{Role};
ghost use Rattle.mn_edge.specs.MemoryHostView.{stream_of};

use super::{ONE_PACKET, push_number, push_record, words_in};
use crate::plain::plain;
use crate::status::Status;
use crate::top::modelnet;
use core_loop::Tally;
use mn_edge::{Fail, MemoryHost, Role};
use std::alloc::AllocError;
use std::process::Abort;
use std::sync::Wait;
use std::thread::Threads;
use workers::Hook;

/// A hook that does nothing.
pub struct Quiet;

impl Hook for Quiet {
    fn at_start(&self, _core: u32) {}
}

/// What a run reads.
#[derive(Drop)]
pub struct Inputs<'a> {
    pub topology: &'a str,
    pub trace: &'a [u8],
    pub directory: &'a str,
}

/// What it writes, and what stands in a new tally then.
#[derive(Drop)]
struct Outputs<'a> {
    out: &'a [u8],
    report: &'a str,
    screen: &'a str,
    tally: &'a str,
}

pub fn host(
    rt: &(impl Abort + AllocGlobal),
    inputs: &Inputs,
    fails: &[Fail],
    piece: usize,
) -> MemoryHost
    requires { 1 ≤ piece }
    ensures { (role : Role) → (stream_of result role).active ≡ false }
{
    let host = MemoryHost::new(
        rt.alloc(),
        inputs.topology.as_bytes(),
        inputs.trace,
        inputs.directory.as_bytes(),
        fails,
        piece,
        4_096,
    );
    host.expect(rt, "memory for a host")
}

/// The command line of these options.
pub fn line_of(rt: &(impl Abort + AllocGlobal), command: &str, options: &str) -> String {
    format!(in rt.alloc(); "{command} {options}").expect(rt, "memory")
}

/// Compares all that came of a run.
fn assert_came(
    rt: &(impl Abort + AllocGlobal),
    status: Status,
    host: &MemoryHost,
    tally: Tally,
    outputs: &Outputs,
) {
    assert_eq!(rt; status, Status::Done);
    assert_eq!(rt; host.written_bytes(Role::Out), outputs.out);
    assert_eq!(rt; host.written_bytes(Role::Report), outputs.report.as_bytes());
    assert_eq!(rt; host.written_bytes(Role::Screen), outputs.screen.as_bytes());
    let told = format!(in rt.alloc(); "{tally:?}").expect(rt, "memory");
    assert_eq!(rt; told.as_str(), outputs.tally);
}

/// Runs `rehearse` with these options, and compares all that comes of it.
fn assert_rehearses(
    rt: &(impl Abort + AllocGlobal),
    options: &str,
    inputs: &Inputs,
    outputs: &Outputs,
) {
    let line = line_of(rt, "rehearse", options);
    let words = words_in(rt, line.as_str());
    let mut host = host(rt, inputs, &[], 4_096);
    let mut tally = Tally::new();
    let status = plain(rt.alloc(), &words, &mut host, &mut tally);
    assert_came(rt, status, &host, tally, outputs);
}

/// Runs `rehearse` with these options on one thread, and `emulate` on several: the same comes of both.
fn assert_both(
    rt: &(impl Abort + AllocGlobal + Threads + Wait + Sync),
    options: &str,
    inputs: &Inputs,
    outputs: &Outputs,
) {
    assert_rehearses(rt, options, inputs, outputs);
    let line = line_of(rt, "emulate", options);
    let words = words_in(rt, line.as_str());
    let mut host = host(rt, inputs, &[], 4_096);
    let mut tally = Tally::new();
    let status = modelnet(rt, &words, &mut host, &Quiet, &mut tally);
    assert_came(rt, status, &host, tally, outputs);
}

/// A capture in ns of this link type; each packet is (time in ns, original length, captured bytes).
fn captured(
    rt: &(impl Abort + AllocGlobal),
    link_type: u32,
    packets: &[(u64, u32, &[u8])],
) -> Vec<u8> {
    let (header, _) = ONE_PACKET.split_at(20);
    let mut text = Vec::from_slice(rt.alloc(), header).expect(rt, "memory");
    push_number(rt, &mut text, link_type);
    for (time_ns, original, bytes) in packets {
        push_record(rt, &mut text, *time_ns, *original, bytes);
    }
    text
}

/// The header of an IPv4 packet from 10.0.a.b to 10.c.d.e, by (a, b) and (c, d, e).
fn header(from: (u8, u8), to: (u8, u8, u8)) -> [u8; 20] {
    let (a, b) = from;
    let (c, d, e) = to;
    [
        0x45, 0, 4, 0xe2, 0, 0, 0, 0, 0x40, 0x11, 0, 0, 10, 0, a, b, 10, c, d, e,
    ]
}

/// Two stubs of two nodes each, joined by a slow link between routers, as NetworkX writes it.
pub const TWO_STUBS: &str = "graph [
  name \"two stubs\"
  node [
    id 0
    label \"a\"
    address \"10.0.0.1\"
  ]
  node [
    id 1
    label \"b\"
    address \"10.0.0.2\"
  ]
  node [
    id 2
    label \"r\"
  ]
  node [
    id 3
    label \"s\"
  ]
  node [
    id 4
    label \"c\"
    address \"10.0.1.1\"
  ]
  node [
    id 5
    label \"d\"
    address \"10.0.1.2\"
  ]
  edge [
    source 0
    target 2
    bandwidth 10000000
    latency 1000
  ]
  edge [
    source 1
    target 2
    bandwidth 10000000
    latency 1000
  ]
  edge [
    source 2
    target 3
    bandwidth 2000000
    latency 20000
    queue 20
    weight 1.5
  ]
  edge [
    source 3
    target 4
    bandwidth 10000000
    latency 1000
  ]
  edge [
    source 3
    target 5
    bandwidth 10000000
    latency 1000
  ]
]
";

/// A packet of 1,250 bytes from each node of the one stub to a node of the other, both at once.
pub const TWO_PACKETS: [u8; 96] = [
    0x4d, 0x3c, 0xb2, 0xa1, 2, 0, 4, 0, 0, 0, 0, 0, 0, 0, 0, 0, 0, 0, 4, 0, 0x65, 0, 0, 0, //
    0, 0, 0, 0, 0, 0, 0, 0, 0x14, 0, 0, 0, 0xe2, 4, 0, 0, //
    0x45, 0, 4, 0xe2, 0, 0, 0, 0, 0x40, 0x11, 0, 0, 10, 0, 0, 1, 10, 0, 1, 1, //
    0, 0, 0, 0, 0, 0, 0, 0, 0x14, 0, 0, 0, 0xe2, 4, 0, 0, //
    0x45, 0, 4, 0xe2, 0, 0, 0, 0, 0x40, 0x11, 0, 0, 10, 0, 0, 2, 10, 0, 1, 2,
];

/// They leave at ticks 290 and 340, that is, after 29,000,000 and 34,000,000 ns.
pub const TWO_PACKETS_OUT: [u8; 96] = [
    0x4d, 0x3c, 0xb2, 0xa1, 2, 0, 4, 0, 0, 0, 0, 0, 0, 0, 0, 0, 0, 0, 4, 0, 0x65, 0, 0, 0, //
    0, 0, 0, 0, 0x40, 0x81, 0xba, 1, 0x14, 0, 0, 0, 0xe2, 4, 0, 0, //
    0x45, 0, 4, 0xe2, 0, 0, 0, 0, 0x40, 0x11, 0, 0, 10, 0, 0, 1, 10, 0, 1, 1, //
    0, 0, 0, 0, 0x80, 0xcc, 6, 2, 0x14, 0, 0, 0, 0xe2, 4, 0, 0, //
    0x45, 0, 4, 0xe2, 0, 0, 0, 0, 0x40, 0x11, 0, 0, 10, 0, 0, 2, 10, 0, 1, 2,
];

pub const TWO_PACKETS_REPORT: &str = "modelnet report 1
packets 2 bound 2 unbound 0 left 2 dropped 0
pipe 0 passed 1 lost 0 full 0
pipe 2 passed 1 lost 0 full 0
pipe 4 passed 1 lost 0 full 0
pipe 6 passed 1 lost 0 full 0
pipe 8 passed 2 lost 0 full 0
";

pub const TWO_CORES: &str = "modelnet cluster 1
cores 2 lookahead 200 windows 2
core 0 pipes 5 entered 2 visits 4 arrivals 2 settles 0
core 1 pipes 5 entered 0 visits 2 arrivals 0 settles 2
";

/// The owners that `assign` gives, too.
pub const TWO_STUBS_ON_TWO_CORES: &str = "modelnet-directory 1 cores 2 pipes 10
pipe 0 core 0
pipe 1 core 0
pipe 2 core 0
pipe 3 core 0
pipe 4 core 1
pipe 5 core 1
pipe 6 core 1
pipe 7 core 1
pipe 8 core 0
pipe 9 core 1
";

pub const TWO_STUBS_CROSSED: Inputs = Inputs {
    topology: TWO_STUBS,
    trace: &TWO_PACKETS,
    directory: TWO_STUBS_ON_TWO_CORES,
};

/// Options of `rehearse` and `emulate`.
pub const CROSS: &str = "--topology g --trace t --out o --report r --mode walk:1 --cores 2";

pub const CROSS_AND_TELL: &str =
    "--topology g --trace t --out o --report r --mode walk:1 --cores 2 \
    --directory d --cluster-report yes";

#[test]
fn two_packets_cross_two_stubs(rt: HostRuntime) {
    let told = Outputs {
        out: &TWO_PACKETS_OUT,
        report: TWO_PACKETS_REPORT,
        screen: TWO_CORES,
        tally: "Tally { cores: 2, windows: 4, visits: 6 }",
    };
    assert_both(&rt, CROSS_AND_TELL, &TWO_STUBS_CROSSED, &told);
    let options = "--cluster-report yes --topology g --trace t --out o --report r \
        --mode walk:1 --cores 1";
    let alone = Outputs {
        out: &TWO_PACKETS_OUT,
        report: TWO_PACKETS_REPORT,
        screen: "modelnet cluster 1
cores 1 lookahead 1099511627776 windows 1
core 0 pipes 10 entered 2 visits 6 arrivals 0 settles 0
",
        tally: "Tally { cores: 1, windows: 1, visits: 6 }",
    };
    assert_both(&rt, options, &TWO_STUBS_CROSSED, &alone);
}

#[test]
fn drawn_orders_change_nothing(rt: HostRuntime) {
    let told = Outputs {
        out: &TWO_PACKETS_OUT,
        report: TWO_PACKETS_REPORT,
        screen: "",
        tally: "Tally { cores: 2, windows: 4, visits: 6 }",
    };
    for order in 1u64..4 {
        let options = format!(in rt.alloc(); "{CROSS} --order {order} --turns 500").expect(
            &rt, "memory",
        );
        assert_rehearses(&rt, options.as_str(), &TWO_STUBS_CROSSED, &told);
    }
}

/// Three edge nodes round one router.
pub const STAR: &str = "graph [
  node [ id 0 address \"10.0.0.1\" ]
  node [ id 1 address \"10.0.0.2\" ]
  node [ id 2 ]
  node [ id 3 address \"10.0.0.3\" ]
  edge [ source 0 target 2 bandwidth 8000000 latency 5000 ]
  edge [ source 1 target 2 bandwidth 8000000 latency 5000 ]
  edge [ source 2 target 3 bandwidth 8000000 latency 5000 ]
]
";

const STAR_ON_THREE_CORES: &str = "modelnet-directory 1 cores 3 pipes 6
pipe 0 core 0
pipe 1 core 0
pipe 2 core 1
pipe 3 core 1
pipe 4 core 2
pipe 5 core 2
";

/// Two packets of 1,000 bytes to the third node, one from each other node: at these times.
pub fn to_the_third(rt: &(impl Abort + AllocGlobal), first_ns: u64, second_ns: u64) -> Vec<u8> {
    let first = header((0, 1), (0, 0, 3));
    let second = header((0, 2), (0, 0, 3));
    captured(
        rt,
        101,
        &[(first_ns, 1000, &first), (second_ns, 1000, &second)],
    )
}

const STAR_REPORT: &str = "modelnet report 1
packets 2 bound 2 unbound 0 left 2 dropped 0
pipe 0 passed 1 lost 0 full 0
pipe 2 passed 1 lost 0 full 0
pipe 4 passed 2 lost 0 full 0
";

const THREE_CORES: &str = "modelnet cluster 1
cores 3 lookahead 50 windows 2
core 0 pipes 2 entered 1 visits 1 arrivals 1 settles 0
core 1 pipes 2 entered 1 visits 1 arrivals 1 settles 0
core 2 pipes 2 entered 0 visits 2 arrivals 0 settles 2
";

pub const MEET: &str = "--topology g --trace t --out o --report r --cores 3 --directory d";

#[test]
fn two_packets_of_two_cores_meet_in_a_pipe_of_a_third(rt: HostRuntime) {
    let trace = to_the_third(&rt, 0, 0);
    let inputs = Inputs {
        topology: STAR,
        trace: &trace,
        directory: STAR_ON_THREE_CORES,
    };
    let out = to_the_third(&rt, 12_000_000, 13_000_000);
    let told = Outputs {
        out: &out,
        report: STAR_REPORT,
        screen: THREE_CORES,
        tally: "Tally { cores: 3, windows: 6, visits: 4 }",
    };
    let options = format!(in rt.alloc(); "{MEET} --cluster-report yes").expect(&rt, "memory");
    assert_both(&rt, options.as_str(), &inputs, &told);
    for order in 0u64..8 {
        let options = format!(in rt.alloc();
            "{MEET} --cluster-report yes --order {order} --turns 20"
        ).expect(&rt, "memory");
        assert_rehearses(&rt, options.as_str(), &inputs, &told);
    }
}

/// An Ethernet frame of so many bytes: its kind, and what it carries, padded with zeros.
fn frame(rt: &(impl Abort + AllocGlobal), size: usize, kind: [u8; 2], carried: &[u8]) -> Vec<u8> {
    let mut bytes = Vec::from_slice(rt.alloc(), &[0; 12]).expect(rt, "memory");
    bytes.extend_from_slice(&kind).expect(rt, "memory");
    bytes.extend_from_slice(carried).expect(rt, "memory");
    bytes.resize(size, 0).expect(rt, "memory");
    bytes
}

#[test]
fn packets_without_a_route_are_told_with_their_causes(rt: HostRuntime) {
    let arp = frame(&rt, 42, [8, 6], &[]);
    let ipv6 = frame(&rt, 60, [0x86, 0xdd], &[0x60]);
    let nowhere = frame(&rt, 34, [8, 0], &header((0, 1), (9, 9, 9)));
    let bound = frame(&rt, 34, [8, 0], &header((0, 1), (0, 1, 1)));
    let short = frame(&rt, 33, [8, 0], &[0x45]);
    let mut foreign = header((9, 9), (0, 1, 1));
    foreign[13] = 9;
    let unknown = frame(&rt, 34, [8, 0], &foreign);
    let trace = captured(
        &rt,
        1,
        &[
            (0, 42, &arp),
            (0, 60, &ipv6),
            (0, 34, &nowhere),
            (0, 1250, &bound),
            (0, 33, &short),
            (0, 34, &unknown),
        ],
    );
    let inputs = Inputs {
        topology: TWO_STUBS,
        trace: &trace,
        directory: "",
    };
    let out = captured(&rt, 1, &[(29_000_000, 1250, &bound)]);
    let told = Outputs {
        out: &out,
        report: "modelnet report 1
packets 6 bound 1 unbound 5 left 1 dropped 0
pipe 0 passed 1 lost 0 full 0
pipe 4 passed 1 lost 0 full 0
pipe 8 passed 1 lost 0 full 0
unbound 0 cause not-ipv4
unbound 1 cause not-ipv4
unbound 2 cause no-destination
unbound 4 cause short
unbound 5 cause no-source
",
        screen: "",
        tally: "Tally { cores: 1, windows: 1, visits: 3 }",
    };
    let options = "--topology g --trace t --out o --report r --mode walk:1";
    assert_both(&rt, options, &inputs, &told);
}

#[test]
fn a_packet_to_its_own_node_leaves_at_once(rt: HostRuntime) {
    let bytes = header((0, 1), (0, 0, 1));
    let trace = captured(&rt, 101, &[(0, 1250, &bytes)]);
    let inputs = Inputs {
        topology: TWO_STUBS,
        trace: &trace,
        directory: "",
    };
    let told = Outputs {
        out: &trace,
        report: "modelnet report 1
packets 1 bound 1 unbound 0 left 1 dropped 0
",
        screen: "",
        tally: "Tally { cores: 1, windows: 0, visits: 0 }",
    };
    let options = "--topology g --trace t --out o --report r --mode walk:1";
    assert_both(&rt, options, &inputs, &told);
}

/// Two edge nodes with a router between them.
const ROW_OF_THREE: &str = "graph [
  node [ id 0 address \"10.0.0.1\" ]
  node [ id 1 ]
  node [ id 2 address \"10.0.0.2\" ]
  edge [ source 0 target 1 bandwidth 8000000 latency 5000 ]
  edge [ source 1 target 2 bandwidth 8000000 latency 5000 ]
]
";

/// Packets of 1,000 bytes from the first edge node to the second, at these times.
fn to_the_second(rt: &(impl Abort + AllocGlobal), first_ns: u64, second_ns: u64) -> Vec<u8> {
    let bytes = header((0, 1), (0, 0, 2));
    captured(
        rt,
        101,
        &[(first_ns, 1000, &bytes), (second_ns, 1000, &bytes)],
    )
}

#[test]
fn sixteen_cores_and_four_pipes(rt: HostRuntime) {
    let trace = to_the_second(&rt, 0, 100_000_000_000_000);
    let inputs = Inputs {
        topology: ROW_OF_THREE,
        trace: &trace,
        directory: "",
    };
    let out = to_the_second(&rt, 12_000_000, 100_000_012_000_000);
    let told = Outputs {
        out: &out,
        report: "modelnet report 1
packets 2 bound 2 unbound 0 left 2 dropped 0
pipe 0 passed 2 lost 0 full 0
pipe 2 passed 2 lost 0 full 0
",
        screen: "modelnet cluster 1
cores 16 lookahead 50 windows 4
core 0 pipes 1 entered 2 visits 2 arrivals 2 settles 0
core 1 pipes 1 entered 0 visits 0 arrivals 0 settles 0
core 2 pipes 1 entered 0 visits 2 arrivals 0 settles 2
core 3 pipes 1 entered 0 visits 0 arrivals 0 settles 0
core 4 pipes 0 entered 0 visits 0 arrivals 0 settles 0
core 5 pipes 0 entered 0 visits 0 arrivals 0 settles 0
core 6 pipes 0 entered 0 visits 0 arrivals 0 settles 0
core 7 pipes 0 entered 0 visits 0 arrivals 0 settles 0
core 8 pipes 0 entered 0 visits 0 arrivals 0 settles 0
core 9 pipes 0 entered 0 visits 0 arrivals 0 settles 0
core 10 pipes 0 entered 0 visits 0 arrivals 0 settles 0
core 11 pipes 0 entered 0 visits 0 arrivals 0 settles 0
core 12 pipes 0 entered 0 visits 0 arrivals 0 settles 0
core 13 pipes 0 entered 0 visits 0 arrivals 0 settles 0
core 14 pipes 0 entered 0 visits 0 arrivals 0 settles 0
core 15 pipes 0 entered 0 visits 0 arrivals 0 settles 0
",
        tally: "Tally { cores: 16, windows: 64, visits: 4 }",
    };
    let options = "--topology g --trace t --out o --report r --cores 16 --cluster-report yes";
    assert_both(&rt, options, &inputs, &told);
}

/// So many nodes in a row, with an address at either end.
fn row_of(rt: &impl AllocGlobal, count: u32) -> Result<String, AllocError> {
    let mut text = String::from_str(rt.alloc(), "graph [ node [ id 0 address \"10.0.0.1\" ]")?;
    for id in 1..count {
        let before = id - 1;
        if id + 1 < count {
            writeln!(text, " node [ id {id} ]")?;
        } else {
            writeln!(text, " node [ id {id} address \"10.0.0.2\" ]")?;
        }
        writeln!(
            text,
            " edge [ source {before} target {id} bandwidth 8000000 latency 1000 ]"
        )?;
    }
    text.push_str("]")?;
    Ok(text)
}

#[test]
fn a_route_of_256_pipes_is_too_far_and_one_pipe_is_not(rt: HostRuntime) {
    let row = row_of(&rt, 257).expect(&rt, "memory");
    let bytes = header((0, 1), (0, 0, 2));
    let trace = captured(&rt, 101, &[(0, 1000, &bytes)]);
    let inputs = Inputs {
        topology: row.as_str(),
        trace: &trace,
        directory: "",
    };
    let none = captured(&rt, 101, &[]);
    let far = Outputs {
        out: &none,
        report: "modelnet report 1
packets 1 bound 0 unbound 1 left 0 dropped 0
unbound 0 cause too-far
",
        screen: "",
        tally: "Tally { cores: 1, windows: 0, visits: 0 }",
    };
    let options = "--topology g --trace t --out o --report r";
    assert_both(&rt, options, &inputs, &far);
    let out = captured(&rt, 101, &[(257_000_000, 1000, &bytes)]);
    let left = Outputs {
        out: &out,
        report: "modelnet report 1
packets 1 bound 1 unbound 0 left 1 dropped 0
pipe 0 passed 1 lost 0 full 0
",
        screen: "",
        tally: "Tally { cores: 1, windows: 1, visits: 1 }",
    };
    let options = "--topology g --trace t --out o --report r --mode end";
    assert_both(&rt, options, &inputs, &left);
}

#[test]
fn a_pipe_that_becomes_faster_is_left_out_of_order(rt: HostRuntime) {
    let trace = to_the_second(&rt, 0, 500_000);
    let inputs = Inputs {
        topology: "graph [
  node [ id 0 address \"10.0.0.1\" ]
  node [ id 2 address \"10.0.0.2\" ]
  edge [ source 0 target 2 bandwidth 8000000 latency 5000 ]
]
",
        trace: &trace,
        directory: "modelnet-directory 2 cores 1 pipes 2 changes 1
pipe 0 core 0
pipe 1 core 0
change tick 5 pipe 0 bps 80000000 us 1000 queue 50 ppm 0
",
    };
    let out = to_the_second(&rt, 2_100_000, 6_000_000);
    let told = Outputs {
        out: &out,
        report: "modelnet report 1
packets 2 bound 2 unbound 0 left 2 dropped 0
pipe 0 passed 2 lost 0 full 0
",
        screen: "",
        tally: "Tally { cores: 1, windows: 1, visits: 2 }",
    };
    let options = "--topology g --trace t --out o --report r --directory d";
    assert_both(&rt, options, &inputs, &told);
}

/// The directory of three cores in its second version, with this head and this change of a pipe.
pub fn star_with_a_change(
    rt: &(impl Abort + AllocGlobal),
    changes: u32,
    pipe: u32,
    latency_us: u32,
) -> String {
    let text = format!(in rt.alloc();
        "modelnet-directory 2 cores 3 pipes 6 changes {changes}
pipe 0 core 0
pipe 1 core 0
pipe 2 core 1
pipe 3 core 1
pipe 4 core 2
pipe 5 core 2
change tick 1000 pipe {pipe} bps 8000000 us {latency_us} queue 50 ppm 0
"
    );
    text.expect(rt, "memory")
}

#[test]
fn a_change_after_all_visits_shortens_the_windows_alone(rt: HostRuntime) {
    let trace = to_the_third(&rt, 0, 0);
    let directory = star_with_a_change(&rt, 1, 0, 0);
    let inputs = Inputs {
        topology: STAR,
        trace: &trace,
        directory: directory.as_str(),
    };
    let out = to_the_third(&rt, 12_000_000, 13_000_000);
    let told = Outputs {
        out: &out,
        report: STAR_REPORT,
        screen: "modelnet cluster 1
cores 3 lookahead 1 windows 2
core 0 pipes 2 entered 1 visits 1 arrivals 1 settles 0
core 1 pipes 2 entered 1 visits 1 arrivals 1 settles 0
core 2 pipes 2 entered 0 visits 2 arrivals 0 settles 2
",
        tally: "Tally { cores: 3, windows: 6, visits: 4 }",
    };
    let options = format!(in rt.alloc(); "{MEET} --cluster-report yes").expect(&rt, "memory");
    assert_both(&rt, options.as_str(), &inputs, &told);
}

#[test]
fn a_header_alone_and_one_packet(rt: HostRuntime) {
    for (length, report, tally) in [
        (
            24usize,
            "modelnet report 1
packets 0 bound 0 unbound 0 left 0 dropped 0
",
            "Tally { cores: 2, windows: 0, visits: 0 }",
        ),
        (
            60,
            "modelnet report 1
packets 1 bound 1 unbound 0 left 1 dropped 0
pipe 0 passed 1 lost 0 full 0
pipe 4 passed 1 lost 0 full 0
pipe 8 passed 1 lost 0 full 0
",
            "Tally { cores: 2, windows: 4, visits: 3 }",
        ),
    ] {
        let trace = TWO_PACKETS.get(..length).expect(&rt, "so many bytes");
        let inputs = Inputs {
            topology: TWO_STUBS,
            trace,
            directory: "",
        };
        let out = TWO_PACKETS_OUT.get(..length).expect(&rt, "so many bytes");
        let told = Outputs {
            out,
            report,
            screen: "",
            tally,
        };
        assert_both(&rt, CROSS, &inputs, &told);
    }
}
