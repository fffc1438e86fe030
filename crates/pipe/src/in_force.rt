ghost use Rattle.std.specs.Prelude.{◌≡◌, ℕ, ◌<◌, ◌≤◌, drop, length, AllPairs};
ghost use Rattle.pipe.specs.Params.{last_params};

use mn_base::PipeParams;

/// The parameters of a pipe at a tick, and how many of its changes are at or below that tick.
#[derive(Clone, Copy, Debug)]
pub(crate) struct InForce {
    pub params: PipeParams,
    pub reached: usize,
}

/// What is in force at a tick, by what was in force at an earlier one.
pub(crate) fn in_force_at(changes: &[(u64, PipeParams)], before: InForce, tick: u64) -> InForce
    requires rising { AllPairs (λ c d. c.0 < d.0) changes.now }
    requires within { before.reached ≤ length changes.now }
    ensures within { result.reached ≤ length changes.now }

    // The parameters at this tick.
    ensures params { last_params tick before.params (drop before.reached changes.now) ≡ result.params }

    // From this tick on, no more than these and the changes ahead is needed.
    ensures ahead { (later : ℕ) → tick ≤ later
        → last_params later result.params (drop result.reached changes.now)
        ≡ last_params later before.params (drop before.reached changes.now) }
{
    let mut now = before;
    while now.reached < changes.len() && changes[now.reached].0 <= tick {
        now = InForce {
            params: changes[now.reached].1,
            reached: now.reached + 1,
        };
    }
    now
}
