ghost use Rattle.std.specs.Prelude.{◌≡◌, ◌↔◌, IsTrue};
ghost use Rattle.mn_base.specs.Ranges.{is_bandwidth, IsBandwidth, is_latency, IsLatency, is_queue_limit, IsQueueLimit, is_loss, IsLoss, IsLinkType};

use crate::limits::{
    BPS_MAX, BPS_MIN, LINK_LATENCY_US_MAX, LINK_TYPE_ETHERNET, LINK_TYPE_IPV4, LINK_TYPE_RAW,
    LOSS_PPM_MAX, QUEUE_MAX, QUEUE_MIN,
};

/// Whether a number of bit/s is a bandwidth: from 1,000 to 10^12.
pub fn is_bandwidth(bps: u64) -> bool
    ensures value { result ≡ is_bandwidth bps }
    ensures within { IsTrue result ↔ IsBandwidth bps }
{
    BPS_MIN <= bps && bps <= BPS_MAX
}

/// Whether a number of microseconds is the latency of a link: at most 10,000,000.
pub fn is_latency(us: u64) -> bool
    ensures value { result ≡ is_latency us }
    ensures within { IsTrue result ↔ IsLatency us }
{
    us <= u64::from(LINK_LATENCY_US_MAX)
}

/// Whether a number of packets is a queue limit: from 1 to 1,000.
pub fn is_queue_limit(packets: u64) -> bool
    ensures value { result ≡ is_queue_limit packets }
    ensures within { IsTrue result ↔ IsQueueLimit packets }
{
    u64::from(QUEUE_MIN) <= packets && packets <= u64::from(QUEUE_MAX)
}

/// Whether a number of ppm (parts in a million) is a loss: at most 1,000,000.
pub fn is_loss(ppm: u64) -> bool
    ensures value { result ≡ is_loss ppm }
    ensures within { IsTrue result ↔ IsLoss ppm }
{
    ppm <= u64::from(LOSS_PPM_MAX)
}

/// Whether captures of a link type are read: 1 (Ethernet), 101 (IP) and 228 (IPv4) are.
pub fn is_link_type(link_type: u32) -> bool
    ensures { IsTrue result ↔ IsLinkType link_type }
{
    matches!(
        link_type,
        LINK_TYPE_ETHERNET | LINK_TYPE_RAW | LINK_TYPE_IPV4
    )
}
