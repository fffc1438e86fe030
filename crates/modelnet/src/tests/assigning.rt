//! `assign`: which core owns each pipe of a topology, and each answer that may come in its place.
use super::distilling::{
    TWO_STUBS, assert_prints, assert_read_faults, assert_write_faults, fan_of_routers,
    status_within,
};
use crate::status::Status;
use gml_reader::{GmlFault, Item};
use mn_edge::Role;
use plan::PlanFault;
use topo::Key;

const TO_TWO_CORES: &str = "assign --topology g --mode walk:1 --cores 2";

/// One core starts in each stub and takes its links; the two pipes of the middle are dealt last.
const TWO_STUBS_ON_TWO_CORES: &str = "modelnet-directory 1 cores 2 pipes 10
pipe 0 core 0
pipe 1 core 0
pipe 2 core 0
pipe 3 core 0
pipe 4 core 1
pipe 5 core 1
pipe 6 core 1
pipe 7 core 1
pipe 8 core 0
pipe 9 core 1
";

#[test]
fn two_stubs_are_dealt_to_two_cores(rt: HostRuntime) {
    assert_prints(
        &rt,
        TO_TWO_CORES,
        TWO_STUBS,
        Status::Done,
        TWO_STUBS_ON_TWO_CORES,
    );
}

#[test]
fn more_cores_than_pipes(rt: HostRuntime) {
    let row =
        "graph [ directed 1 node [ id 7 address \"10.0.0.1\" ] node [ id 8 ] node [ id 9 address \"10.0.0.2\" ] \
        edge [ source 7 target 8 bandwidth 8000000 latency 50 ] \
        edge [ source 8 target 9 bandwidth 8000000 latency 50 ] ]";
    let dealt = "modelnet-directory 1 cores 16 pipes 2
pipe 0 core 0
pipe 1 core 1
";
    let line = "assign --cores=16 --topology g";
    assert_prints(&rt, line, row, Status::Done, dealt);
}

#[test]
fn a_topology_without_edge_nodes_and_one_without_pipes(rt: HostRuntime) {
    let link =
        "graph [ node [ id 0 ] node [ id 1 ] edge [ source 0 target 1 bandwidth 1000 latency 0 ] ]";
    let dealt = "modelnet-directory 1 cores 2 pipes 2
pipe 0 core 0
pipe 1 core 1
";
    let line = "assign --topology g --cores 2";
    assert_prints(&rt, line, link, Status::Done, dealt);
    let none = "modelnet-directory 1 cores 1 pipes 0\n";
    assert_prints(&rt, "assign --topology g", "graph [ ]", Status::Done, none);
}

#[test]
fn a_topology_is_refused_by_its_first_fault(rt: HostRuntime) {
    let missing = GmlFault::Missing {
        item: Item::Node(0),
        key: Key::Id,
    };
    let status = Status::BadTopology(missing);
    assert_prints(&rt, TO_TWO_CORES, "graph [ node [ ] ]", status, "");
}

#[test]
fn a_mesh_of_1001000_pipes_is_refused(rt: HostRuntime) {
    let fan = fan_of_routers(&rt).expect(&rt, "memory");
    let status = Status::BadPlan(PlanFault::TooManyPipes(1_001_000));
    assert_prints(&rt, TO_TWO_CORES, fan.as_str(), status, "");
}

#[test]
fn a_failed_read_of_the_topology_is_named(rt: HostRuntime) {
    assert_read_faults(&rt, TO_TWO_CORES, TWO_STUBS_ON_TWO_CORES);
}

#[test]
fn a_failed_write_leaves_a_front_of_the_screen(rt: HostRuntime) {
    assert_write_faults(&rt, TO_TWO_CORES, TWO_STUBS_ON_TWO_CORES);
}

#[test]
fn a_topology_above_its_limit_is_too_large(rt: HostRuntime) {
    let line = "assign --topology g";
    assert_eq!(rt; status_within(&rt, line, 9), Status::Done);
    assert_eq!(rt;
        status_within(&rt, line, 8),
        Status::TooLarge(Role::Topology)
    );
}
