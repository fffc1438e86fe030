ghost use Rattle.std.specs.Prelude.{◌≡◌, [], ◌∷◌, IfSome};
ghost use Rattle.mn_words.specs.Order.{IsPipeSpec, IsRedSpec};
ghost use Rattle.mn_words.specs.Pipes.{pipe_of_parts, pipe_spec_of, red_of_parts, red_spec_of};

use crate::bare::BareWord;
use crate::order::{PipeSpec, RedSpec};
use crate::parts::{FourParts, four_parts};
use crate::values::number_within;
use mn_base::limits::{
    BPS_MAX, BPS_MIN, LINK_LATENCY_US_MAX, LOSS_PPM_MAX, QUEUE_MAX, QUEUE_MIN, RED_EARLY_PPM_MAX,
    RED_MAX_MAX, RED_MIN_MAX, RED_SHIFT_MAX,
};

/// A PIPE `BPS:LATENCY_US:QUEUE:PPM`: four plain decimals in the ranges of a link.
///
/// `8000000:5000:50:0` has 8 Mbit/s, 5 ms, room for 50 packets and no loss.
impl BareWord for PipeSpec {
    ghost use Rattle.mn_words.specs.Order.{IsPipeSpec};
    ghost use Rattle.mn_words.specs.Pipes.{pipe_spec_of};

    ghost said = { pipe_spec_of };

    ghost is_in_range = { IsPipeSpec };

    #[tactic(auto, unfolding(crate::specs::Pipes::pipe_spec_of), using(crate::proofs::ColonParts::counts))]
    fn said_by(word: &str) -> Option<PipeSpec>
        ensures value { result ≡ pipe_spec_of word.now }
        ensures range { IfSome result IsPipeSpec }
    {
        let parts = four_parts(word)?;
        if parts.rest.is_some() {
            return None;
        }
        pipe_of(&parts)
    }
}

/// A PIPE `BPS:LATENCY_US:QUEUE:PPM:SHIFT:MIN:MAX:EARLY`: that of a chain, and four more.
///
/// `8000000:5000:50:0:1:1:2:0` has 8 Mbit/s, 5 ms, room for 50 packets and no loss. A visit moves its average halfway to the packets
/// that wait, and where that is at least 2 packets the visitor is dropped.
impl BareWord for RedSpec {
    ghost use Rattle.mn_words.specs.Order.{IsRedSpec};
    ghost use Rattle.mn_words.specs.Pipes.{red_spec_of};

    ghost said = { red_spec_of };

    ghost is_in_range = { IsRedSpec };

    #[tactic(auto, unfolding(crate::specs::Pipes::red_spec_of), using(crate::proofs::ColonParts::counts))]
    fn said_by(word: &str) -> Option<RedSpec>
        ensures value { result ≡ red_spec_of word.now }
        ensures range { IfSome result IsRedSpec }
    {
        let parts = four_parts(word)?;
        let back = parts.rest?;
        let base = pipe_of(&parts)?;
        let parts = four_parts(back)?;
        if parts.rest.is_some() {
            return None;
        }
        red_of(base, &parts)
    }
}

/// The pipe of the first four parts.
#[tactic(auto, unfolding(crate::specs::Pipes::pipe_of_parts))]
fn pipe_of(parts: &FourParts) -> Option<PipeSpec>
    ensures value { result
        ≡ pipe_of_parts (parts.now.first.now ∷ parts.now.second.now ∷ parts.now.third.now ∷ parts.now.fourth.now ∷ []) }
    ensures range { IfSome result IsPipeSpec }
{
    let bps = number_within(parts.first, BPS_MIN, BPS_MAX)?;
    let latency_us = number_within(parts.second, 0, u64::from(LINK_LATENCY_US_MAX))?;
    let queue = number_within(parts.third, u64::from(QUEUE_MIN), u64::from(QUEUE_MAX))?;
    let ppm = number_within(parts.fourth, 0, u64::from(LOSS_PPM_MAX))?;
    Some(PipeSpec {
        bps,
        latency_us: latency_us as u32,
        queue: queue as u32,
        ppm: ppm as u32,
    })
}

/// How a pipe drops early, of the first four parts.
#[tactic(auto, unfolding(crate::specs::Pipes::red_of_parts))]
fn red_of(base: PipeSpec, parts: &FourParts) -> Option<RedSpec>
    requires { IsPipeSpec base }
    ensures value { result
        ≡ red_of_parts base (parts.now.first.now ∷ parts.now.second.now ∷ parts.now.third.now ∷ parts.now.fourth.now ∷ []) }
    ensures range { IfSome result IsRedSpec }
{
    let shift = number_within(parts.first, 0, u64::from(RED_SHIFT_MAX))?;
    let min = number_within(parts.second, 0, u64::from(RED_MIN_MAX))?;
    let max = number_within(parts.third, min + 1, u64::from(RED_MAX_MAX))?;
    let early = number_within(parts.fourth, 0, u64::from(RED_EARLY_PPM_MAX))?;
    Some(RedSpec {
        base,
        shift: shift as u32,
        min: min as u32,
        max: max as u32,
        early: early as u32,
    })
}
