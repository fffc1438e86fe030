use crate::{
    RedCause, RedFate, RedPacket, RedParams, RedPipe, RedSetup, RedStep, print_red_report,
    red_fates, red_journal,
};
use mn_base::PipeParams;
use mn_base::limits::{KEEP_MAX, TICK_NS_DEFAULT};
use std::test::Fail;

/// A packet of 1,000 bytes at tick 0, which transmits for 10 ticks at 8,000,000 bit/s.
const PACKET: RedPacket = RedPacket {
    entry_tick: 0,
    len: 1_000,
};

#[test]
fn the_third_of_three_packets_is_dropped_early(rt: HostRuntime) -> Result<(), Fail> {
    let base = PipeParams::new(8_000_000, 5_000, 50, KEEP_MAX, TICK_NS_DEFAULT);
    let one = RedParams {
        base,
        shift: 0,
        min: 1,
        max: 2,
        early: 0,
    };
    let setup = RedSetup {
        tick_ns: TICK_NS_DEFAULT,
        seed: 0,
        pipes: vec![in rt.alloc(); one]?,
        packets: vec![in rt.alloc(); PACKET, PACKET, PACKET]?,
    };
    let visits = red_journal(rt.alloc(), &setup)?;
    let fates = red_fates(rt.alloc(), &setup, &visits)?;
    let dropped = RedFate::Dropped {
        pipe: 0,
        tick: 0,
        cause: RedCause::Early,
    };
    assert_eq!(rt;
        fates.as_slice(),
        [
            RedFate::Left { tick: 60 },
            RedFate::Left { tick: 70 },
            dropped
        ]
        .as_slice()
    );
    let text = print_red_report(rt.alloc(), &setup, &visits)?;
    let expected = b"modelnet red report 1\n\
        packets 3 bound 3 unbound 0 left 2 dropped 1\n\
        pipe 0 passed 2 lost 0 full 0 early 1\n\
        drop 2 pipe 0 tick 0 cause early\n";
    assert_eq!(rt; text.as_slice(), expected.as_slice());
    Ok(())
}

#[test]
fn averages_move_by_half_of_the_way(rt: HostRuntime) -> Result<(), Fail> {
    let base = PipeParams::new(8_000_000, 5_000, 50, KEEP_MAX, TICK_NS_DEFAULT);
    let params = RedParams {
        base,
        shift: 1,
        min: 1,
        max: 2,
        early: 0,
    };
    let mut pipe = RedPipe::new(rt.alloc(), params, TICK_NS_DEFAULT);
    assert_eq!(rt; pipe.visit(0, 1_000, false, 0)?, RedStep::Pass { exit: 60 });
    assert_eq!(rt; pipe.visit(0, 1_000, false, 0)?, RedStep::Pass { exit: 70 });
    assert_eq!(rt; pipe.visit(0, 1_000, true, 0)?, RedStep::Lost);
    assert_eq!(rt; pipe.visit(0, 1_000, false, 0)?, RedStep::Pass { exit: 80 });
    assert_eq!(rt; pipe.visit(0, 1_000, false, 0)?, RedStep::Early);
    Ok(())
}
