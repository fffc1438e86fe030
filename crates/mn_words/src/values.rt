ghost use Rattle.std.specs.Prelude.{◌≡◌, ◌≤◌, IfSome};
ghost use Rattle.mn_base.specs.Ranges.{IsTickLength};
ghost use Rattle.distill.specs.Modes.{IsFrontierCount, IsMode};
ghost use Rattle.mn_words.specs.Values.{number_within, colon_parts, tick_of, cores_of, turns_of, packets_of, yes_or_no, loss_of, mode_of, walk_of, walk_numbers, frontier_count};
ghost use Rattle.mn_words.specs.Order.{IsCoreCount};

use crate::parts::first_part;
use distill::Mode;
use journal::LossBy;
use mn_base::limits::{
    CORES_MAX, FRONTIERS_MAX, TICK_NS_MAX, TICK_NS_MIN, TURNS_MAX, WORKLOAD_PACKETS_MAX,
};
use mn_base::read_u64;

/// The number that a plain decimal text writes, where it is from `least` to `most`.
#[tactic(auto, unfolding(crate::specs::Values::number_within))]
pub fn number_within(text: &str, least: u64, most: u64) -> Option<u64>
    ensures value { result ≡ number_within least most text.now }
    ensures least { IfSome result (λ number. least ≤ number) }
    ensures most { IfSome result (λ number. number ≤ most) }
{
    let number = read_u64(text.as_bytes())?;
    if least <= number && number <= most {
        Some(number)
    } else {
        None
    }
}

/// The tick length that a text names, in ns.
pub fn tick_of(text: &str) -> Option<u64>
    ensures value { result ≡ tick_of text.now }
    ensures range { IfSome result IsTickLength }
{
    number_within(text, TICK_NS_MIN, TICK_NS_MAX)
}

/// How many cores a text names: from 1 to 16.
pub fn cores_of(text: &str) -> Option<u32>
    ensures value { result ≡ cores_of text.now }
    ensures range { IfSome result IsCoreCount }
{
    let count = number_within(text, 1, u64::from(CORES_MAX))?;
    Some(count as u32)
}

/// How many turns a text names: at most 1,000,000.
pub fn turns_of(text: &str) -> Option<u32>
    ensures value { result ≡ turns_of text.now }
    ensures range { IfSome result (λ turns. turns ≤ TURNS_MAX) }
{
    let count = number_within(text, 0, u64::from(TURNS_MAX))?;
    Some(count as u32)
}

/// How many packets of a workload a text names: from 1 to 200,000.
pub fn packets_of(text: &str) -> Option<u32>
    ensures value { result ≡ packets_of text.now }
    ensures least { IfSome result (λ packets. 1 ≤ packets) }
    ensures most { IfSome result (λ packets. packets ≤ WORKLOAD_PACKETS_MAX) }
{
    let count = number_within(text, 1, u64::from(WORKLOAD_PACKETS_MAX))?;
    Some(count as u32)
}

/// `yes` or `no`.
#[tactic(auto, unfolding(crate::specs::Values::yes_or_no))]
pub fn yes_or_no(text: &str) -> Option<bool>
    ensures { result ≡ yes_or_no text.now }
{
    if text == "yes" {
        Some(true)
    } else if text == "no" {
        Some(false)
    } else {
        None
    }
}

/// `packet` or `arrival`.
#[tactic(auto, unfolding(crate::specs::Values::loss_of))]
pub fn loss_of(text: &str) -> Option<LossBy>
    ensures { result ≡ loss_of text.now }
{
    if text == "packet" {
        Some(LossBy::Packet)
    } else if text == "arrival" {
        Some(LossBy::Arrival)
    } else {
        None
    }
}

/// `hop`, `end`, `walk:W` or `walk:W:O`.
#[tactic(auto, unfolding(crate::specs::Values::mode_of))]
pub fn mode_of(text: &str) -> Option<Mode>
    ensures value { result ≡ mode_of text.now }
    ensures range { IfSome result IsMode }
{
    if text == "hop" {
        Some(Mode::Hop)
    } else if text == "end" {
        Some(Mode::End)
    } else {
        walk_of(text)
    }
}

/// The mode of `walk` and the numbers after its colon.
#[tactic(auto, unfolding(crate::specs::Values::walk_of), using(crate::proofs::ColonParts::walk_of_one))]
fn walk_of(text: &str) -> Option<Mode>
    ensures value { result ≡ walk_of (colon_parts text.now) }
    ensures range { IfSome result IsMode }
{
    let (first, numbers) = first_part(text)?;
    if first == "walk" {
        walk_numbers(numbers)
    } else {
        None
    }
}

/// The mode of one number of frontiers, or of two with a colon between them.
#[tactic(auto, unfolding(crate::specs::Values::walk_numbers), using(crate::proofs::ColonParts::walk_numbers_more))]
fn walk_numbers(text: &str) -> Option<Mode>
    ensures value { result ≡ walk_numbers (colon_parts text.now) }
    ensures range { IfSome result IsMode }
{
    let Some((first, second)) = first_part(text) else {
        let walk_in = frontier_count(text)?;
        return Some(Mode::Walk(walk_in));
    };
    if first_part(second).is_some() {
        return None;
    }
    let walk_in = frontier_count(first)?;
    let walk_out = frontier_count(second)?;
    Some(Mode::WalkOut(walk_in, walk_out))
}

/// How many frontiers a text names: from 1 to 4,096.
fn frontier_count(text: &str) -> Option<u32>
    ensures value { result ≡ frontier_count text.now }
    ensures range { IfSome result IsFrontierCount }
{
    let count = number_within(text, 1, u64::from(FRONTIERS_MAX))?;
    Some(count as u32)
}
