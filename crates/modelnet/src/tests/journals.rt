//! `journal` and `check`: the list of all visits, a journal that is right or differs, and each answer that may come in the place of Done.
ghost use Rattle.std.specs.Prelude.{◌≡◌, ◌≤◌, false};
ghost use Rattle.mn_edge.specs.declared.role.Role.{Role};
ghost use Rattle.mn_edge.specs.MemoryHostView.{stream_of};
ghost use Rattle.modelnet.specs.TheCommands.{AreWithinUsual};

use super::rehearsing::{TWO_STUBS_CROSSED, host};
use super::words_in;
use crate::plain::{plain, plain_within};
use crate::read_limits::ReadLimits;
use crate::status::Status;
use core_loop::Tally;
use journal_check::JournalFault;
use mn_base::limits::{DIRECTORY_BYTES_MAX, TOPOLOGY_BYTES_MAX, TRACE_BYTES_MAX};
use mn_edge::{Fail, MemoryHost, Op, Role};
use std::process::Abort;

/// The journal of two packets that cross two stubs, in pieces: its first four lines, its fifth line, and the rest.
const FOUR_LINES: &str = "modelnet journal 1
tick 0 packet 0 hop 0 pipe 0 pass exit 20
tick 0 packet 1 hop 0 pipe 2 pass exit 20
tick 20 packet 0 hop 1 pipe 8 pass exit 270
";

const FIFTH_LINE: &str = "tick 20 packet 1 hop 1 pipe 8 pass exit 320\n";

const SIXTH_LINE: &str = "tick 270 packet 0 hop 2 pipe 4 pass exit 290\n";

const LAST_LINE: &str = "tick 320 packet 1 hop 2 pipe 6 pass exit 340\n";

const TWO_STUBS_JOURNAL: [&str; 4] = [FOUR_LINES, FIFTH_LINE, SIXTH_LINE, LAST_LINE];

pub const LIST: &str =
    "journal --topology g --trace t --out o --mode walk:1 --cores 2 --directory d";

pub const CHECK: &str =
    "check --topology g --trace t --journal j --mode walk:1 --cores 2 --directory d";

fn joined(rt: &(impl Abort + AllocGlobal), pieces: &[&str]) -> String {
    let mut text = String::new(rt.alloc());
    for piece in pieces {
        text.push_str(piece).expect(rt, "memory");
    }
    text
}

/// A host that has a crossing of two stubs to read, and a journal.
fn host_with(
    rt: &(impl Abort + AllocGlobal),
    journal: &str,
    fails: &[Fail],
    piece: usize,
) -> MemoryHost
    requires { 1 ≤ piece }
    ensures { (role : Role) → (stream_of result role).active ≡ false }
{
    let crossing = host(rt, &TWO_STUBS_CROSSED, fails, piece);
    let given = crossing.with_journal(rt.alloc(), journal.as_bytes());
    given.expect(rt, "memory for a journal")
}

#[test]
fn the_visits_of_two_packets_are_the_same_on_any_number_of_cores(rt: HostRuntime) {
    let journal = joined(&rt, &TWO_STUBS_JOURNAL);
    for line in [
        LIST,
        "journal --topology g --trace t --out o --mode walk:1",
        "journal --topology=g --trace=t --out=o --mode=walk:1 --cores=16",
    ] {
        let words = words_in(&rt, line);
        let mut host = host(&rt, &TWO_STUBS_CROSSED, &[], 4_096);
        let status = plain(rt.alloc(), &words, &mut host, &mut Tally::new());
        assert_eq!(rt; status, Status::Done, "at {line}");
        assert_eq!(rt; host.written_bytes(Role::Out), journal.as_bytes());
        assert!(rt; host.written_bytes(Role::Report).is_empty());
        assert!(rt; host.written_bytes(Role::Screen).is_empty());
    }
}

#[test]
fn a_journal_is_right_or_differs_at_a_line(rt: HostRuntime) {
    let late = "tick 20 packet 1 hop 1 pipe 8 pass exit 319\n";
    let more = [FOUR_LINES, FIFTH_LINE, SIXTH_LINE, LAST_LINE, LAST_LINE];
    let cut = "tick 320 packet 1 hop 2 pipe 6 pass exit 34";
    let rows: [(&[&str], Status, &str); 6] = [
        (&TWO_STUBS_JOURNAL, Status::Done, "journal ok 6\n"),
        (
            &[FOUR_LINES, late, SIXTH_LINE, LAST_LINE],
            Status::BadJournal(JournalFault::Line(5)),
            "",
        ),
        (
            &[FOUR_LINES, FIFTH_LINE, SIXTH_LINE],
            Status::BadJournal(JournalFault::Short(6)),
            "",
        ),
        (&[], Status::BadJournal(JournalFault::Short(0)), ""),
        (&more, Status::BadJournal(JournalFault::Line(8)), ""),
        (
            &[FOUR_LINES, FIFTH_LINE, SIXTH_LINE, cut],
            Status::BadJournal(JournalFault::Line(7)),
            "",
        ),
    ];
    for line in [
        CHECK,
        "check --topology g --trace t --journal j --mode walk:1 --cores 16",
    ] {
        for (pieces, due, screen) in rows {
            let words = words_in(&rt, line);
            let journal = joined(&rt, pieces);
            let mut host = host_with(&rt, journal.as_str(), &[], 4_096);
            let status = plain(rt.alloc(), &words, &mut host, &mut Tally::new());
            assert_eq!(rt; status, due, "at {line}");
            assert_eq!(rt; host.written_bytes(Role::Screen), screen.as_bytes());
            assert!(rt; host.written_bytes(Role::Out).is_empty());
        }
    }
}

#[test]
fn each_failed_call_is_named_by_its_role(rt: HostRuntime) {
    let journal = joined(&rt, &TWO_STUBS_JOURNAL);
    for (line, role, op, status) in [
        (
            LIST,
            Role::Topology,
            Op::Read,
            Status::ReadFault(Role::Topology),
        ),
        (LIST, Role::Trace, Op::Read, Status::ReadFault(Role::Trace)),
        (
            LIST,
            Role::Directory,
            Op::Finish,
            Status::ReadFault(Role::Directory),
        ),
        (LIST, Role::Out, Op::Begin, Status::WriteFault(Role::Out)),
        (
            CHECK,
            Role::Topology,
            Op::Begin,
            Status::ReadFault(Role::Topology),
        ),
        (
            CHECK,
            Role::Trace,
            Op::Finish,
            Status::ReadFault(Role::Trace),
        ),
        (
            CHECK,
            Role::Directory,
            Op::Read,
            Status::ReadFault(Role::Directory),
        ),
        (
            CHECK,
            Role::Journal,
            Op::Read,
            Status::ReadFault(Role::Journal),
        ),
        (
            CHECK,
            Role::Screen,
            Op::Write,
            Status::WriteFault(Role::Screen),
        ),
    ] {
        let words = words_in(&rt, line);
        let fail = Fail { role, op, k: 0 };
        let mut host = host_with(&rt, journal.as_str(), &[fail], 4_096);
        let ended = plain(rt.alloc(), &words, &mut host, &mut Tally::new());
        assert_eq!(rt; ended, status, "at {line}");
        assert!(rt; host.written_bytes(Role::Out).is_empty());
        assert!(rt; host.written_bytes(Role::Screen).is_empty());
    }
}

/// How a check of the crossing of two stubs ends, where so many bytes of each input are read at most.
fn status_within(rt: &(impl Abort + AllocGlobal), limits: &ReadLimits) -> Status
    requires { AreWithinUsual limits.now }
{
    let words = words_in(rt, CHECK);
    let journal = joined(rt, &TWO_STUBS_JOURNAL);
    let mut host = host_with(rt, journal.as_str(), &[], 4_096);
    plain_within(rt.alloc(), limits, &words, &mut host, &mut Tally::new())
}

#[test]
fn a_journal_above_its_limit_is_too_large(rt: HostRuntime) {
    let mut limits = ReadLimits {
        topology: TOPOLOGY_BYTES_MAX,
        trace: TRACE_BYTES_MAX,
        directory: DIRECTORY_BYTES_MAX,
        journal: 281,
    };
    assert_eq!(rt; status_within(&rt, &limits), Status::Done);
    limits.journal = 280;
    assert_eq!(rt;
        status_within(&rt, &limits),
        Status::TooLarge(Role::Journal)
    );
}
