use crate::{
    Bytes, Draws, PipeParams, Refusal, count_lines, entry_tick, field, is_bandwidth, is_latency,
    is_link_type, is_loss, is_queue_limit, keep_both, keep_of_ppm, read_u64, split_line,
    ticks_of_us, tx_ns,
};
use std::test::Fail;

#[test]
fn formulas_at_worked_values(rt: HostRuntime) {
    assert_eq!(rt; tx_ns(8_000_000, 1_000), 1_000_000);
    assert_eq!(rt; tx_ns(1_000, 262_144), 2_097_152_000_000);
    assert_eq!(rt; ticks_of_us(5_000, 100_000), 50);
    assert_eq!(rt; ticks_of_us(0, 100_000), 1);
    assert_eq!(rt; keep_of_ppm(1), 4_294_963_001);
    assert_eq!(rt; keep_of_ppm(0), 4_294_967_296);
    assert_eq!(rt; keep_of_ppm(1_000_000), 0);
    assert_eq!(rt; keep_both(2_147_483_648, 2_147_483_648), 1_073_741_824);
    assert_eq!(rt; entry_tick(1_000_000, 100_000, 1_250_000), 2);
}

#[test]
fn decimals(rt: HostRuntime) {
    assert_eq!(rt; read_u64(b"007"), Some(7));
    assert_eq!(rt; read_u64(b"18446744073709551615"), Some(u64::MAX));
    assert_eq!(rt; read_u64(b"18446744073709551616"), None);
    assert_eq!(rt; read_u64(b""), None);
    assert_eq!(rt; read_u64(b"+1"), None);
    assert_eq!(rt; read_u64(b"12:"), None);
}

#[test]
fn bytes_and_params(rt: HostRuntime) -> Result<(), Fail> {
    let bytes = Bytes::copy(rt.alloc(), b"\xaa\xbb")?;
    assert_eq!(rt; bytes.as_slice(), b"\xaa\xbb".as_slice());
    let params = PipeParams::new(8_000_000, 5_000, 50, 4_294_967_296, 100_000);
    assert_eq!(rt; params.latency_ticks, 50);
    Ok(())
}

#[test]
fn ranges_have_their_ends(rt: HostRuntime) {
    assert_eq!(rt;
        [999, 1_000, 1_000_000_000_000, 1_000_000_000_001].map(is_bandwidth),
        [false, true, true, false]
    );
    assert_eq!(rt;
        [0, 10_000_000, 10_000_001].map(is_latency),
        [true, true, false]
    );
    assert_eq!(rt;
        [0, 1, 1_000, 1_001].map(is_queue_limit),
        [false, true, true, false]
    );
    assert_eq!(rt; [0, 1_000_000, 1_000_001].map(is_loss), [true, true, false]);
    assert_eq!(rt;
        [0, 1, 101, 113, 228].map(is_link_type),
        [false, true, true, false, true]
    );
}

#[test]
fn a_fault_is_mapped_and_out_of_memory_stays(rt: HostRuntime) {
    let none: Refusal<u8> = Refusal::NoMemory;
    assert_eq!(rt; none.map_fault(u64::from), Refusal::NoMemory);
    assert_eq!(rt;
        Refusal::Fault(3u8).map_fault(u64::from),
        Refusal::Fault(3u64)
    );
}

#[test]
fn draws_from_a_number(rt: HostRuntime) {
    let mut draws = Draws::new(0);
    assert_eq!(rt; draws.draw(3), 2);
    let mut draws = Draws::new(0);
    assert_eq!(rt; draws.draw(16), 15);
}

#[test]
fn lines_and_their_fields(rt: HostRuntime) {
    assert_eq!(rt; count_lines(b""), 0);
    assert_eq!(rt; count_lines(b"a\n\nb"), 3);
    assert_eq!(rt; count_lines(b"a\nb\n"), 2);
    assert_eq!(rt; split_line(b"a\nb\n"), (b"a".as_slice(), b"b\n".as_slice()));
    assert_eq!(rt; split_line(b"a"), (b"a".as_slice(), b"".as_slice()));
    assert_eq!(rt;
        field(b"pipe 07 core 1", "pipe "),
        Some((7, b" core 1".as_slice()))
    );
    assert_eq!(rt; field(b"pipe x", "pipe "), None);
    assert_eq!(rt; field(b"pipe 18446744073709551616", "pipe "), None);
}
