use crate::status::Status;
use crate::status_line::status_line;
use changes::ChangesFault;
use gml_reader::{GmlFault, Item};
use journal_check::JournalFault;
use mn_edge::Role;
use mn_words::{Opt, WordsFault};
use ownership::AssignFault;
use pcap_io::PcapFault;
use plan::PlanFault;
use std::alloc::Global;
use std::test::Fail;
use topo::{Key, Many, TopoFault};

/// The lines of these statuses, one after another.
fn lines_of(alloc: Global, statuses: &[Status]) -> Result<Vec<u8>, Fail> {
    let mut lines = Vec::new(alloc);
    for status in statuses {
        let line = status_line(alloc, status)?;
        lines.extend_from_slice(line.as_slice())?;
    }
    Ok(lines)
}

#[test]
fn lines_of_words(rt: HostRuntime) -> Result<(), Fail> {
    let faults = [
        WordsFault::Command,
        WordsFault::Form,
        WordsFault::Value(Opt::Mode),
        WordsFault::Value(Opt::Cores),
        WordsFault::Value(Opt::Seed),
        WordsFault::Value(Opt::TickNs),
        WordsFault::Value(Opt::ClusterReport),
        WordsFault::Value(Opt::Order),
        WordsFault::Value(Opt::Turns),
        WordsFault::Value(Opt::Number),
        WordsFault::Value(Opt::Packets),
        WordsFault::Value(Opt::Pipe),
        WordsFault::Value(Opt::Loss),
        WordsFault::Value(Opt::Move),
    ];
    let lines = lines_of(rt.alloc(), &faults.map(Status::BadWords))?;
    let expected = "\
modelnet: no such command
modelnet: bad words
modelnet: bad value of --mode
modelnet: bad value of --cores
modelnet: bad value of --seed
modelnet: bad value of --tick-ns
modelnet: bad value of --cluster-report
modelnet: bad value of --order
modelnet: bad value of --turns
modelnet: bad value of --number
modelnet: bad value of --packets
modelnet: bad value of PIPE
modelnet: bad value of --loss
modelnet: bad value of MOVE
";
    assert_eq!(rt; lines.as_slice(), expected.as_bytes());
    Ok(())
}

#[test]
fn lines_of_traces(rt: HostRuntime) -> Result<(), Fail> {
    let faults = [
        PcapFault::NotPcap,
        PcapFault::ShortHeader,
        PcapFault::Version(1),
        PcapFault::LinkType(4_294_967_295),
        PcapFault::Truncated(0),
        PcapFault::TimeRange(7),
        PcapFault::TooLong(1_048_575),
        PcapFault::TooMany,
    ];
    let lines = lines_of(rt.alloc(), &faults.map(Status::BadTrace))?;
    let expected = "\
modelnet: trace: not pcap
modelnet: trace: short header
modelnet: trace: version 1
modelnet: trace: link type 4294967295
modelnet: trace: packet 0 is cut short
modelnet: trace: time of packet 7 out of range
modelnet: trace: packet 1048575 is too long
modelnet: trace: too many packets
";
    assert_eq!(rt; lines.as_slice(), expected.as_bytes());
    Ok(())
}

#[test]
fn lines_of_topologies_and_plans(rt: HostRuntime) -> Result<(), Fail> {
    let node = Item::Node(3);
    let edge = Item::Edge(4);
    let statuses = [
        Status::BadTopology(GmlFault::Lex { place: 8 }),
        Status::BadTopology(GmlFault::Grammar { place: 21 }),
        Status::BadTopology(GmlFault::TooDeep { place: 134 }),
        Status::BadTopology(GmlFault::NoGraph),
        Status::BadTopology(GmlFault::Missing {
            item: node,
            key: Key::Id,
        }),
        Status::BadTopology(GmlFault::Missing {
            item: edge,
            key: Key::Bandwidth,
        }),
        Status::BadTopology(GmlFault::Kind {
            item: Item::Graph,
            key: Key::Directed,
        }),
        Status::BadTopology(GmlFault::BadAddress { node: 5 }),
        Status::BadTopology(GmlFault::Topo(TopoFault::TooMany(Many::Nodes))),
        Status::BadTopology(GmlFault::Topo(TopoFault::TooMany(Many::EdgeNodes))),
        Status::BadTopology(GmlFault::Topo(TopoFault::TooMany(Many::Links))),
        Status::BadTopology(GmlFault::Topo(TopoFault::DuplicateId(1))),
        Status::BadTopology(GmlFault::Topo(TopoFault::DuplicateAddress(2))),
        Status::BadTopology(GmlFault::Topo(TopoFault::UnknownNode(0))),
        Status::BadTopology(GmlFault::Topo(TopoFault::Range(6, Key::Loss))),
        Status::BadPlan(PlanFault::TooManyPipes(1_001_000)),
    ];
    let lines = lines_of(rt.alloc(), &statuses)?;
    let expected = "\
modelnet: topology: bad byte at 8
modelnet: topology: grammar at 21
modelnet: topology: too deep at 134
modelnet: topology: no graph
modelnet: topology: missing id in node 3
modelnet: topology: missing bandwidth in edge 4
modelnet: topology: bad directed in graph
modelnet: topology: bad address in node 5
modelnet: topology: too many nodes
modelnet: topology: too many edge nodes
modelnet: topology: too many links
modelnet: topology: id of node 1 is taken
modelnet: topology: address of node 2 is taken
modelnet: topology: unknown node in edge 0
modelnet: topology: loss of edge 6 out of range
modelnet: plan: 1001000 pipes
";
    assert_eq!(rt; lines.as_slice(), expected.as_bytes());
    Ok(())
}

#[test]
fn lines_of_directories(rt: HostRuntime) -> Result<(), Fail> {
    let faults = [
        PlanFault::Changes(ChangesFault::Head),
        PlanFault::Changes(ChangesFault::Count),
        PlanFault::Changes(ChangesFault::Line(8)),
        PlanFault::Changes(ChangesFault::Range(9)),
        PlanFault::Changes(ChangesFault::Order(10)),
        PlanFault::Assign(AssignFault::Head),
        PlanFault::Assign(AssignFault::Line(2)),
        PlanFault::Assign(AssignFault::Core(3)),
        PlanFault::Assign(AssignFault::Twice(4)),
        PlanFault::Assign(AssignFault::Missing(5)),
    ];
    let lines = lines_of(rt.alloc(), &faults.map(Status::BadPlan))?;
    let expected = "\
modelnet: directory: bad head
modelnet: directory: wrong number of lines
modelnet: directory: bad line 8
modelnet: directory: range in line 9
modelnet: directory: order in line 10
modelnet: directory: bad head
modelnet: directory: bad line 2
modelnet: directory: bad core in line 3
modelnet: directory: second owner in line 4
modelnet: directory: no owner of pipe 5
";
    assert_eq!(rt; lines.as_slice(), expected.as_bytes());
    Ok(())
}

#[test]
fn lines_of_roles_and_of_memory(rt: HostRuntime) -> Result<(), Fail> {
    let statuses = [
        Status::Done,
        Status::NoMemory,
        Status::ReadFault(Role::Topology),
        Status::ReadFault(Role::Trace),
        Status::ReadFault(Role::Directory),
        Status::TooLarge(Role::Topology),
        Status::TooLarge(Role::Trace),
        Status::TooLarge(Role::Directory),
        Status::ReadFault(Role::Journal),
        Status::TooLarge(Role::Journal),
        Status::BadJournal(JournalFault::Line(5)),
        Status::BadJournal(JournalFault::Short(6)),
        Status::BadMove(0),
        Status::WriteFault(Role::Out),
        Status::WriteFault(Role::Report),
        Status::WriteFault(Role::Screen),
    ];
    let lines = lines_of(rt.alloc(), &statuses)?;
    let expected = "\
modelnet: no memory
modelnet: cannot read topology
modelnet: cannot read trace
modelnet: cannot read directory
modelnet: topology is too large
modelnet: trace is too large
modelnet: directory is too large
modelnet: cannot read journal
modelnet: journal is too large
modelnet: journal: line 5 differs
modelnet: journal: ends after 6 lines
modelnet: no pipe of move 0
modelnet: cannot write out
modelnet: cannot write report
modelnet: cannot write screen
";
    assert_eq!(rt; lines.as_slice(), expected.as_bytes());
    Ok(())
}
