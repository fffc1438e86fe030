//! Averages of how many packets wait, in 1/65,536 packets.

ghost use Rattle.std.specs.Prelude.{◌≡◌, ℕ, ◌*◌, ◌≤◌, false};
ghost use Rattle.mn_base.specs.declared.limits.TheConstants.{QUEUE_MAX};
ghost use Rattle.red_queue.specs.Ranges.{IsRedParams};
ghost use Rattle.red_queue.specs.Outcome.{aged, drop_limit, drops_early};

use crate::params::RedParams;

/// One packet, in the unit of averages.
pub(crate) const ONE_PACKET: u64 = 65_536;

/// An average moved towards a count of packets.
///
/// At a shift of 1 it goes half of the way: from 32,768 to two packets it comes to 81,920.
pub(crate) fn aged_by(params: RedParams, average: u64, count: u64) -> u64
    requires params { IsRedParams params }
    requires average { average ≤ QUEUE_MAX * ONE_PACKET }
    requires count { count ≤ QUEUE_MAX }
    ensures value { result ≡ aged params average count }
    ensures bound { result ≤ QUEUE_MAX * ONE_PACKET }
{
    let weight = 1u64 << params.shift;
    ((weight - 1) * average + count * ONE_PACKET) >> params.shift
}

/// Whether a packet with this early word is dropped early at an average.
pub(crate) fn is_early(params: RedParams, average: u64, word: u32) -> bool
    requires params { IsRedParams params }
    requires average { average ≤ QUEUE_MAX * ONE_PACKET }
    ensures { result ≡ drops_early params average word }
{
    let least = u64::from(params.min) * ONE_PACKET;
    let most = u64::from(params.max) * ONE_PACKET;
    if average >= most {
        return true;
    }
    average >= least && u128::from(word) < limit_between(params, average)
}

/// Whether there may be two early words of which one drops a packet at this average and one doesn't.
#[tactic(auto, using(crate::proofs::Outcomes::blind_rare, crate::proofs::Outcomes::blind_below, crate::proofs::Outcomes::blind_above))]
pub(crate) fn words_decide(params: RedParams, average: u64) -> bool
    ensures { result ≡ false → (word other : ℕ) → drops_early params average word ≡ drops_early params average other }
{
    let least = u64::from(params.min) * ONE_PACKET;
    let most = u64::from(params.max) * ONE_PACKET;
    if params.early == 0 {
        return false;
    }
    if average < least {
        return false;
    }
    average < most
}

/// Of the 2^32 early words, how many drop a packet at an average from `min` up to, not including, `max`.
fn limit_between(params: RedParams, average: u64) -> u128
    requires params { IsRedParams params }
    requires average { average ≤ QUEUE_MAX * ONE_PACKET }
    ensures { result ≡ drop_limit params average }
{
    let least = u64::from(params.min) * ONE_PACKET;
    let most = u64::from(params.max) * ONE_PACKET;
    let part = u64::from(params.early) * average.saturating_sub(least);
    (u128::from(part) << 32) / u128::from(1_000_000 * (most - least))
}
