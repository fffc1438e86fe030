use super::*;
use journal::{LossBy, PacketPlan, Setup, SetupParts, Visit};
use mn_base::limits::KEEP_MAX;
use mn_base::{NoMemory, PipeParams, Refusal};
use pipe::Step;
use std::alloc::Global;
use std::test::Fail;

/// 1,000 bytes take 10 ticks of 100,000 ns, the latency is 50 ticks, and one packet at a time waits or transmits.
const ONE_AT_A_TIME: PipeParams = PipeParams {
    bps: 8_000_000,
    latency_us: 5_000,
    latency_ticks: 50,
    queue: 1,
    keep: KEEP_MAX,
};

/// Two packets of 1,000 bytes come to one pipe at tick 0.
fn two_packets(alloc: Global) -> Result<Setup, NoMemory> {
    Ok(Setup::new(SetupParts {
        tick_ns: 100_000,
        seed: 0,
        base_ns: 0,
        link_type: 101,
        cores: 1,
        pipes: vec![in alloc; ONE_AT_A_TIME]?,
        owners: vec![in alloc; 0]?,
        routes: vec![in alloc; vec![in alloc; 0]?]?,
        packets: vec![in alloc;
            PacketPlan {
                entry_tick: 0,
                number: 0,
                len: 1_000,
                route: 0,
                core: 0
            },
            PacketPlan {
                entry_tick: 0,
                number: 1,
                len: 1_000,
                route: 0,
                core: 0
            },
        ]?,
        changes: Vec::new(alloc),
        loss: LossBy::Packet,
    }))
}

fn line(n: u32) -> Result<u32, Refusal<JournalFault>> {
    Err(Refusal::Fault(JournalFault::Line(n)))
}

fn short(n: u32) -> Result<u32, Refusal<JournalFault>> {
    Err(Refusal::Fault(JournalFault::Short(n)))
}

#[test]
fn the_right_text_and_texts_that_differ(rt: HostRuntime) -> Result<(), Fail> {
    let setup = two_packets(rt.alloc())?;
    let right = "modelnet journal 1\n\
                 tick 0 packet 0 hop 0 pipe 0 pass exit 60\n\
                 tick 0 packet 1 hop 0 pipe 0 full\n";
    let cases = [
        (right, Ok(2)),
        ("", short(0)),
        ("modelnet journal 1\n", short(1)),
        (
            "modelnet journal 1\ntick 0 packet 0 hop 0 pipe 0 pass exit 61\n",
            line(2),
        ),
        (
            "modelnet journal 1\ntick 0 packet 0 hop 0 pipe 0 pass exit 60",
            line(2),
        ),
        (
            "modelnet journal 1\n\
             tick 0 packet 0 hop 0 pipe 0 pass exit 60\n\
             tick 0 packet 1 hop 0 pipe 0 full\n\n",
            line(4),
        ),
    ];
    for (text, answer) in cases {
        assert_eq!(rt; check_journal(rt.alloc(), &setup, text.as_bytes()), answer);
    }
    Ok(())
}

#[test]
fn each_kind_of_line_is_printed(rt: HostRuntime) -> Result<(), Fail> {
    let visits = [
        Visit {
            tick: 0,
            packet: 0,
            hop: 0,
            pipe: 2,
            step: Step::Pass { exit: 20 },
        },
        Visit {
            tick: 20,
            packet: 0,
            hop: 1,
            pipe: 8,
            step: Step::Lost,
        },
        Visit {
            tick: 20,
            packet: 1,
            hop: 1,
            pipe: 8,
            step: Step::Full,
        },
    ];
    let text = print_journal(rt.alloc(), &visits)?;
    assert_eq!(rt;
        text.as_slice(),
        b"modelnet journal 1\ntick 0 packet 0 hop 0 pipe 2 pass exit 20\ntick 20 packet 0 hop 1 pipe 8 lost\ntick 20 packet 1 hop 1 pipe 8 full\n".as_slice()
    );
    Ok(())
}
