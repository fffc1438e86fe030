//! `migrate`: what leaves a topology while pipes move, what became of the moves, and each answer that may come in the place of Done.
use super::rehearsing::{TWO_PACKETS_OUT, TWO_PACKETS_REPORT, TWO_STUBS_CROSSED, host};
use super::words_in;
use crate::plain::plain;
use crate::status::Status;
use core_loop::Tally;
use mn_edge::{Fail, Op, Role};
use mn_words::{Opt, WordsFault};
use std::process::Abort;

/// Before window 1 the last link of packet 0 goes to core 0, and before window 9, which isn't run, its first link to core 1.
pub const MOVE: &str = "migrate --topology g --trace t --out o --report r --mode walk:1 --cores 2 \
    --directory d 1:4:0 9:0:1";

const TWO_WINDOWS: &str = "modelnet moves 1
windows 2 moved 1
core 0 visits 5
core 1 visits 1
";

/// Runs a command line over a host of which these calls fail, and compares how it ends and how many bytes of each whole output are
/// written.
fn assert_moves(
    rt: &(impl Abort + AllocGlobal),
    line: &str,
    fails: &[Fail],
    status: Status,
    written: [usize; 3],
) {
    let words = words_in(rt, line);
    let mut host = host(rt, &TWO_STUBS_CROSSED, fails, 4_096);
    let ended = plain(rt.alloc(), &words, &mut host, &mut Tally::new());
    assert_eq!(rt; ended, status, "at {line}");
    let [out, report, screen] = written;
    let whole = TWO_PACKETS_OUT.get(..out).expect(rt, "a front");
    assert_eq!(rt; host.written_bytes(Role::Out), whole);
    let whole = TWO_PACKETS_REPORT
        .as_bytes()
        .get(..report)
        .expect(rt, "a front");
    assert_eq!(rt; host.written_bytes(Role::Report), whole);
    let whole = TWO_WINDOWS.as_bytes().get(..screen).expect(rt, "a front");
    assert_eq!(rt; host.written_bytes(Role::Screen), whole);
}

const WHOLE: [usize; 3] = [
    TWO_PACKETS_OUT.len(),
    TWO_PACKETS_REPORT.len(),
    TWO_WINDOWS.len(),
];

#[test]
fn a_pipe_that_moves_changes_no_output(rt: HostRuntime) {
    assert_moves(&rt, MOVE, &[], Status::Done, WHOLE);
    let line = "migrate --topology g --trace t --out o --report r --mode walk:1 --cores 2 1:10:0";
    assert_moves(&rt, line, &[], Status::BadMove(0), [0, 0, 0]);
    let line = "migrate --topology g --trace t --out o --report r --mode walk:1 --cores 2 \
        0:9:1 0:10:0 0:11:0";
    assert_moves(&rt, line, &[], Status::BadMove(1), [0, 0, 0]);
    let line = "migrate --topology g --trace t --out o --report r --mode walk:1 --cores 2 1:4:2";
    let status = Status::BadWords(WordsFault::Value(Opt::Move));
    assert_moves(&rt, line, &[], status, [0, 0, 0]);
}

#[test]
fn each_failed_call_is_named_by_its_role(rt: HostRuntime) {
    let [out, report, _] = WHOLE;
    for (role, op, status, written) in [
        (
            Role::Topology,
            Op::Read,
            Status::ReadFault(Role::Topology),
            [0, 0, 0],
        ),
        (
            Role::Trace,
            Op::Begin,
            Status::ReadFault(Role::Trace),
            [0, 0, 0],
        ),
        (
            Role::Directory,
            Op::Finish,
            Status::ReadFault(Role::Directory),
            [0, 0, 0],
        ),
        (
            Role::Out,
            Op::Write,
            Status::WriteFault(Role::Out),
            [0, 0, 0],
        ),
        (
            Role::Report,
            Op::Begin,
            Status::WriteFault(Role::Report),
            [out, 0, 0],
        ),
        (
            Role::Screen,
            Op::Write,
            Status::WriteFault(Role::Screen),
            [out, report, 0],
        ),
    ] {
        let fail = Fail { role, op, k: 0 };
        assert_moves(&rt, MOVE, &[fail], status, written);
    }
}
