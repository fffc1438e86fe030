ghost use Rattle.std.specs.Prelude.{◌≡◌, ◌≤◌};
ghost use Rattle.mn_base.specs.Ranges.{IsBandwidth, IsQueueLimit, IsTickLength};
ghost use Rattle.mn_base.specs.declared.limits.TheConstants.{PIPE_LATENCY_US_MAX, PIPE_LATENCY_TICKS_MAX, KEEP_MAX};

use crate::units::ticks_of_us;

/// The parameters of one pipe.
#[derive(Clone, Copy, Debug, PartialEq, Eq)]
pub struct PipeParams {
    /// Bandwidth, in bit/s.
    pub bps: u64,
    /// Latency, in microseconds: the sum over the links that the pipe stands for.
    pub latency_us: u64,
    /// Latency, in ticks.
    pub latency_ticks: u64,
    /// Queue limit, in packets that wait or transmit.
    pub queue: u32,
    /// Of the 2^32 loss words, how many lose nothing: a visit is lost if and only if its word is at least this.
    pub keep: u64,
    pub ghost bandwidth: { IsBandwidth bps },
    pub ghost latency: { latency_us ≤ PIPE_LATENCY_US_MAX },
    pub ghost delays: { (1 ≤ latency_ticks) × (latency_ticks ≤ PIPE_LATENCY_TICKS_MAX) },
    pub ghost places: { IsQueueLimit queue },
    pub ghost keeps: { keep ≤ KEEP_MAX },
}

impl PipeParams {
    ghost use Rattle.mn_base.specs.Params.{IsParamsOf};

    /// The parameters with the latency in ticks of `tick_ns` ns.
    ///
    /// 8 Mbit/s, 5,000 us and ticks of 100,000 ns give a latency of 50 ticks.
    pub fn new(bps: u64, latency_us: u64, queue: u32, keep: u64, tick_ns: u64) -> PipeParams
        requires bandwidth { IsBandwidth bps }
        requires latency { latency_us ≤ PIPE_LATENCY_US_MAX }
        requires queue_limit { IsQueueLimit queue }
        requires keep { keep ≤ KEEP_MAX }
        requires tick { IsTickLength tick_ns }
        ensures { IsParamsOf tick_ns bps latency_us queue keep result }
    {
        PipeParams {
            bps,
            latency_us,
            latency_ticks: ticks_of_us(latency_us, tick_ns),
            queue,
            keep,
        }
    }
}
