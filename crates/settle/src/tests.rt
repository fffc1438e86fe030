ghost use Rattle.std.specs.Prelude.{◌≡◌, ℕ, [], ◌∷◌, IfOk};
ghost use Rattle.journal.specs.declared.setup.PacketPlan.{PacketPlan};

use crate::{Outcome, count_visits, drop_lines, gather};
use journal::{LossBy, PacketPlan, Setup, SetupParts, fates};
use mn_base::limits::{KEEP_MAX, LINK_TYPE_RAW, TICK_NS_DEFAULT};
use mn_base::{Bytes, Cause, NoMemory, PipeParams};
use std::alloc::Global;
use std::test::Fail;

/// Three packets of 1,000 bytes on a pipe of 8 Mbit/s, 5 ms and one place in its queue.
fn setup(alloc: Global) -> Result<Setup, NoMemory>
    ensures { let packet : ℕ → ℕ → PacketPlan = λ number tick. record { number = number; entry_tick = tick; len = 1000; route = 0; core = 0 } in
        IfOk result (λ s. s.packets ≡ packet 0 10 ∷ packet 1 9 ∷ packet 2 0 ∷ []) }
{
    let pipe = PipeParams::new(8_000_000, 5_000, 1, KEEP_MAX, TICK_NS_DEFAULT);
    let last = PacketPlan {
        number: 0,
        entry_tick: 10,
        len: 1_000,
        route: 0,
        core: 0,
    };
    let middle = PacketPlan {
        number: 1,
        entry_tick: 9,
        ..last
    };
    let first = PacketPlan {
        number: 2,
        entry_tick: 0,
        ..last
    };
    let route = vec![in alloc; 0]?;
    Ok(Setup::new(SetupParts {
        tick_ns: TICK_NS_DEFAULT,
        seed: 0,
        base_ns: 0,
        link_type: LINK_TYPE_RAW,
        cores: 1,
        pipes: vec![in alloc; pipe]?,
        owners: vec![in alloc; 0]?,
        routes: vec![in alloc; route]?,
        packets: vec![in alloc; last, middle, first]?,
        changes: Vec::new(alloc),
        loss: LossBy::Packet,
    }))
}

/// 1,000 bytes take 10 ticks, and the latency is 50. The packet that comes at tick 9 finds the first one still there, and
/// the one at tick 10 doesn't.
fn outcome(alloc: Global) -> Result<Outcome, NoMemory> {
    let setup = setup(alloc)?;
    let fates = fates(alloc, &setup)?;
    let bytes = Bytes::copy(alloc, b"a")?;
    let more = Bytes::copy(alloc, b"b")?;
    let most = Bytes::copy(alloc, b"c")?;
    gather(alloc, &setup, &fates, vec![in alloc; bytes, more, most]?)
}

#[test]
fn a_drop_between_two_packets_that_leave(rt: HostRuntime) -> Result<(), Fail> {
    let outcome = outcome(rt.alloc())?;
    let mut seen = Vec::new(rt.alloc());
    for left in &outcome.leaving {
        seen.push((left.tick, left.packet, left.bytes.as_slice()))?;
    }
    assert_eq!(rt;
        seen.as_slice(),
        [(60, 2, b"c".as_slice()), (70, 0, b"a".as_slice())].as_slice()
    );
    assert_eq!(rt; outcome.dropped.len(), 1);
    let line = outcome.dropped[0];
    assert_eq!(rt;
        (line.packet, line.pipe, line.tick, line.cause),
        (1, 0, 9, Cause::Full)
    );
    assert_eq!(rt; outcome.pipe_counts.len(), 1);
    let counts = outcome.pipe_counts[0];
    assert_eq!(rt;
        (counts.pipe, counts.passed, counts.lost, counts.full),
        (0, 2, 0, 1)
    );
    Ok(())
}

#[test]
fn drops_and_counts_alone_are_those_of_the_outcome(rt: HostRuntime) -> Result<(), Fail> {
    let setup = setup(rt.alloc())?;
    let fates = fates(rt.alloc(), &setup)?;
    let lines = drop_lines(rt.alloc(), &setup, &fates)?;
    assert_eq!(rt; lines.len(), 1);
    assert_eq!(rt; (lines[0].packet, lines[0].tick), (1, 9));
    let counts = count_visits(rt.alloc(), &setup, &fates)?;
    assert_eq!(rt; counts.len(), 1);
    assert_eq!(rt; (counts[0].passed, counts[0].full), (2, 1));
    Ok(())
}
