ghost use Rattle.std.specs.Prelude.{◌≡◌, ◌≤◌};
ghost use Rattle.mn_base.specs.Ranges.{IsBandwidth, IsLoss, IsTickLength};
ghost use Rattle.mn_base.specs.Times.{entry_tick_of};
ghost use Rattle.mn_base.specs.Units.{transmission, latency_in_ticks, keep, keep_of_both};
ghost use Rattle.mn_base.specs.declared.limits.TheConstants.{KEEP_MAX, PACKET_BYTES_MAX, PIPE_LATENCY_TICKS_MAX, PIPE_LATENCY_US_MAX, TX_NS_MAX};

/// How long a packet of `len` bytes takes onto a pipe of `bps` bit/s, in ns, rounded up.
///
/// 1,000 bytes at 8,000,000 bit/s take 1,000,000 ns.
pub fn tx_ns(bps: u64, len: u32) -> u64
    requires bandwidth { IsBandwidth bps }
    requires len { len ≤ PACKET_BYTES_MAX }
    ensures value { result ≡ transmission bps len }
    ensures bound { result ≤ TX_NS_MAX }
{
    (u64::from(len) * 8_000_000_000).div_ceil(bps)
}

/// The latency of a pipe in ticks, rounded up; every pipe delays by at least one tick.
///
/// 5,000 us are 50 ticks of 100,000 ns, and 0 us are 1 tick.
pub fn ticks_of_us(us: u64, tick_ns: u64) -> u64
    requires us { us ≤ PIPE_LATENCY_US_MAX }
    requires tick { IsTickLength tick_ns }
    ensures value { result ≡ latency_in_ticks us tick_ns }
    ensures least { 1 ≤ result }
    ensures most { result ≤ PIPE_LATENCY_TICKS_MAX }
{
    (us * 1_000).div_ceil(tick_ns).max(1)
}

/// The keep of a loss of `ppm` parts in a million: a visit is lost if and only if its 32-bit word is at least this.
///
/// `keep_of_ppm(1)` is 4,294,963,001.
pub fn keep_of_ppm(ppm: u32) -> u64
    requires ppm { IsLoss ppm }
    ensures value { result ≡ keep ppm }
    ensures bound { result ≤ KEEP_MAX }
{
    (1_000_000 - u64::from(ppm)) * 4_294_967_296 / 1_000_000
}

/// The keep of two pipes in a row.
///
/// Half of a half, `keep_both(2_147_483_648, 2_147_483_648)`, is 1,073,741,824.
pub fn keep_both(a: u64, b: u64) -> u64
    requires a { a ≤ KEEP_MAX }
    requires b { b ≤ KEEP_MAX }
    ensures value { result ≡ keep_of_both a b }
    ensures bound { result ≤ KEEP_MAX }
{
    ((u128::from(a) * u128::from(b)) >> 32) as u64
}

/// The tick at which a packet enters: whole ticks of `tick_ns` ns since the time base, both times in ns.
///
/// 250,000 ns after the base are 2 ticks of 100,000 ns.
pub fn entry_tick(base_ns: u64, tick_ns: u64, time_ns: u64) -> u64
    requires base { base_ns ≤ time_ns }
    requires tick { 1 ≤ tick_ns }
    ensures value { result ≡ entry_tick_of base_ns tick_ns time_ns }
{
    (time_ns - base_ns) / tick_ns
}
