//! `emulate`: it writes what `rehearse` writes, and its cores run side by side.
use super::rehearsing::{
    Inputs, Quiet, STAR, TWO_CORES, TWO_PACKETS_OUT, TWO_PACKETS_REPORT, TWO_STUBS_CROSSED, host,
    to_the_third,
};
use super::words_in;
use crate::status::Status;
use crate::top::modelnet;
use core_loop::Tally;
use mn_edge::{MemoryHost, Role};
use mn_words::{Opt, WordsFault};
use std::process::Abort;
use std::sync::Wait;
use std::sync::atomic::{AtomicBool, Ordering};
use std::thread::Threads;
use workers::Hook;

/// Runs a command line whose cores may have threads, and compares the output trace and the report. The host and what is counted are
/// for the caller to look at.
fn crossed(
    rt: &(impl Abort + AllocGlobal + Threads + Wait + Sync),
    line: &str,
) -> (MemoryHost, Tally) {
    let words = words_in(rt, line);
    let mut host = host(rt, &TWO_STUBS_CROSSED, &[], 4_096);
    let mut tally = Tally::new();
    let status = modelnet(rt, &words, &mut host, &Quiet, &mut tally);
    assert_eq!(rt; status, Status::Done);
    assert_eq!(rt; host.written_bytes(Role::Out), TWO_PACKETS_OUT.as_slice());
    assert_eq!(rt;
        host.written_bytes(Role::Report),
        TWO_PACKETS_REPORT.as_bytes()
    );
    (host, tally)
}

fn assert_counts(rt: &(impl Abort + AllocGlobal), tally: Tally, counted: &str) {
    let told = format!(in rt.alloc(); "{tally:?}").expect(rt, "memory");
    assert_eq!(rt; told.as_str(), counted);
}

#[test]
fn two_packets_cross_two_stubs(rt: HostRuntime) {
    let line = "emulate --topology g --trace t --out o --report r --mode walk:1 --cores 2 \
        --directory d --cluster-report yes";
    let (host, tally) = crossed(&rt, line);
    assert_eq!(rt; host.written_bytes(Role::Screen), TWO_CORES.as_bytes());
    assert_counts(&rt, tally, "Tally { cores: 2, windows: 4, visits: 6 }");
    let line = "emulate --topology g --trace t --out o --report r --mode walk:1";
    let (host, tally) = crossed(&rt, line);
    assert!(rt; host.written_bytes(Role::Screen).is_empty());
    assert_counts(&rt, tally, "Tally { cores: 1, windows: 1, visits: 6 }");
    let line = "emulate --topology g --trace t --out o --report r --mode walk:1 --cores 8";
    let (host, _) = crossed(&rt, line);
    assert!(rt; host.written_bytes(Role::Screen).is_empty());
}

#[test]
fn the_other_commands_are_those_of_plain(rt: HostRuntime) {
    let line = "rehearse --topology g --trace t --out o --report r --mode walk:1 --cores 2";
    let (host, tally) = crossed(&rt, line);
    assert!(rt; host.written_bytes(Role::Screen).is_empty());
    assert_counts(&rt, tally, "Tally { cores: 2, windows: 4, visits: 6 }");
}

/// Runs words that are refused: no role is begun.
fn assert_no_order(
    rt: &(impl Abort + AllocGlobal + Threads + Wait + Sync),
    words: &[&str],
    fault: WordsFault,
) {
    let mut host = host(rt, &TWO_STUBS_CROSSED, &[], 4_096);
    let status = modelnet(rt, words, &mut host, &Quiet, &mut Tally::new());
    assert_eq!(rt; status, Status::BadWords(fault));
    for role in [Role::Out, Role::Report, Role::Screen] {
        assert!(rt; host.written_bytes(role).is_empty());
    }
}

#[test]
fn words_that_are_no_order_begin_nothing(rt: HostRuntime) {
    let lines = [
        ("emulate", WordsFault::Form),
        (
            "emulate --topology g --trace t --out o --report r --seed 1 --seed 1",
            WordsFault::Form,
        ),
        (
            "emulate --topology g --trace t --out o --report r --cores=17",
            WordsFault::Value(Opt::Cores),
        ),
        ("emulation", WordsFault::Command),
    ];
    for (line, fault) in lines {
        assert_no_order(&rt, &words_in(&rt, line), fault);
    }
    assert_no_order(&rt, &[], WordsFault::Command);
}

/// Cores 1 and 2 each raise a flag of their own, and wait for the other's.
#[derive(Drop)]
struct Meeting {
    first: AtomicBool,
    second: AtomicBool,
    missed: AtomicBool,
}

impl Meeting {
    fn wait_for(&self, flag: &AtomicBool) {
        for _look in 0..200_000_000u32 {
            if flag.load(Ordering::SeqCst) {
                return;
            }
        }
        self.missed.store(true, Ordering::SeqCst);
    }
}

impl Hook for Meeting {
    fn at_start(&self, core: u32) {
        if core == 1 {
            self.first.store(true, Ordering::SeqCst);
            self.wait_for(&self.second);
        }
        if core == 2 {
            self.second.store(true, Ordering::SeqCst);
            self.wait_for(&self.first);
        }
    }
}

/// Cores that are started one after the other wait in vain, in either order.
#[test]
fn two_cores_meet_before_their_first_turns(rt: HostRuntime) {
    let trace = to_the_third(&rt, 0, 0);
    let inputs = Inputs {
        topology: STAR,
        trace: &trace,
        directory: "",
    };
    let words = words_in(
        &rt,
        "emulate --topology g --trace t --out o --report r --cores 3",
    );
    let mut host = host(&rt, &inputs, &[], 4_096);
    let meeting = Meeting {
        first: AtomicBool::new(false),
        second: AtomicBool::new(false),
        missed: AtomicBool::new(false),
    };
    let status = modelnet(&rt, &words, &mut host, &meeting, &mut Tally::new());
    assert_eq!(rt; status, Status::Done);
    assert!(rt; meeting.first.load(Ordering::SeqCst));
    assert!(rt; meeting.second.load(Ordering::SeqCst));
    assert!(rt; !meeting.missed.load(Ordering::SeqCst));
    let out = to_the_third(&rt, 12_000_000, 13_000_000);
    assert_eq!(rt; host.written_bytes(Role::Out), out.as_slice());
}
