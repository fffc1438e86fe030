ghost use Rattle.std.specs.Prelude.{◌≡◌, ◌⊎◌, ◌↔◌, ℕ, ◌<◌, ◌≤◌, length, All};
ghost use Rattle.mn_base.specs.Among.{Among};
ghost use Rattle.mn_base.specs.declared.limits.TheConstants.{PIPES_MAX, LOOKAHEAD_MAX};
ghost use Rattle.journal.specs.IsSetup.{IsSetup};
ghost use Rattle.parcel.specs.Owners.{owned_by};
ghost use Rattle.parcel.specs.Lookahead.{crossed_pipes, lookahead_of};
ghost use Rattle.parcel.specs.PipeSets.{Has, IsCrossed, HasRoutesBefore, AddsRoute, IsLeastOf, IsFirstLatency, IsChangedLatency};

use crate::pipe_set::PipeSet;
use journal::{Setup, SetupParts};
use mn_base::limits::LOOKAHEAD_MAX;

/// The lookahead of a setup, in ticks: the least latency, over first parameters and all changes, of a pipe that the route of some
/// packet leaves for a pipe of another core; `LOOKAHEAD_MAX` where there is no such pipe. Windows are that long.
pub fn lookahead(setup: &Setup) -> u64
    ensures { result ≡ lookahead_of setup.now }
{
    lookahead_by(setup, &setup.parts().owners)
}

/// The lookahead in ticks that a setup has with these owners of its pipes, one core for each pipe.
///
/// It goes once through the routes that packets take, then once through the pipes and the changes.
pub fn lookahead_by(setup: &Setup, owners: &[u32]) -> u64
    requires one_a_pipe { length owners.now ≡ length setup.now.pipes }
    requires cores { All (λ core. core < setup.now.cores) owners.now }
    ensures lookahead { result ≡ lookahead_of (owned_by setup.now owners.now) }
    ensures positive { 1 ≤ result }
    ensures most { result ≤ LOOKAHEAD_MAX }
{
    let parts = setup.parts();
    let crossed = crossed_of(parts, owners);
    let least = least_of_first(parts, &crossed);
    least_of_changes(parts, &crossed, least)
}

/// The pipes that the route of some packet leaves for a pipe of another core.
fn crossed_of(parts: &SetupParts, owners: &[u32]) -> PipeSet
    requires { IsSetup (owned_by parts.now owners.now) }
    ensures { (q : ℕ) → Has result q ↔ IsCrossed (owned_by parts.now owners.now) q }
{
    let mut crossed = PipeSet::empty();
    let mut walked = 0;
    for packet in &parts.packets {
        walked = walk(parts, owners, packet.route as usize, walked, &mut crossed);
    }
    crossed
}

/// Adds the pipes that a route leaves for a pipe of another core. Those of all routes before `walked` are there; says up to where
/// they are now.
///
/// A plan numbers its routes as its packets come to take them. Then each is gone through once.
fn walk(
    parts: &SetupParts,
    owners: &[u32],
    route: usize,
    walked: usize,
    crossed: &mut PipeSet,
) -> usize
    requires setup { IsSetup (owned_by parts.now owners.now) }
    requires known { route < length parts.now.routes }
    requires before { HasRoutesBefore (owned_by parts.now owners.now) crossed.old walked }
    ensures { AddsRoute (owned_by parts.now owners.now) crossed.old crossed.new route result }
{
    if route < walked {
        return walked;
    }
    add_crossed(owners, &parts.routes[route], crossed);
    if route == walked {
        return walked + 1;
    }
    walked
}

/// Adds the pipes that a list of pipes leaves for a pipe of another core.
fn add_crossed(owners: &[u32], route: &[u32], crossed: &mut PipeSet)
    requires few { length owners.now ≤ PIPES_MAX }
    requires named { All (λ pipe. pipe < length owners.now) route.now }
    ensures { (q : ℕ) → Has crossed.new q ↔ (Has crossed.old q ⊎ Among q (crossed_pipes owners.now route.now)) }
{
    for hop in 1..route.len() {
        let pipe = route[hop - 1];
        if owners[pipe as usize] != owners[route[hop] as usize] {
            crossed.add(pipe);
        }
    }
}

/// The least latency of the first parameters of these pipes, at most `LOOKAHEAD_MAX`.
fn least_of_first(parts: &SetupParts, crossed: &PipeSet) -> u64
    requires { length parts.now.pipes ≤ PIPES_MAX }
    ensures { IsLeastOf LOOKAHEAD_MAX (IsFirstLatency parts.now crossed.now) (length parts.now.pipes) result }
{
    let mut least = LOOKAHEAD_MAX;
    for (pipe, params) in parts.pipes.iter().enumerate() {
        if crossed.has(pipe as u32) {
            least = least.min(params.latency_ticks);
        }
    }
    least
}

/// The least of a latency and those of the changes of these pipes.
fn least_of_changes(parts: &SetupParts, crossed: &PipeSet, latency: u64) -> u64
    requires { All (λ c. c.pipe < PIPES_MAX) parts.now.changes }
    ensures { IsLeastOf latency (IsChangedLatency parts.now crossed.now) (length parts.now.changes) result }
{
    let mut least = latency;
    for change in &parts.changes {
        if crossed.has(change.pipe) {
            least = least.min(change.params.latency_ticks);
        }
    }
    least
}
