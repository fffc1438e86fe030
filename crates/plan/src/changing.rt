ghost use Rattle.std.specs.Prelude.{◌≡◌, All, IfOk};
ghost use Rattle.std.specs.List.{AllZip};
ghost use Rattle.mn_base.specs.Ranges.{IsTickLength};
ghost use Rattle.changes.specs.Changes.{IsChange};
ghost use Rattle.plan.specs.Setups.{IsChangeTo};

use changes::Change;
use journal::PipeChange;
use mn_base::{NoMemory, PipeParams, keep_of_ppm};
use std::alloc::Global;

/// The changes of a directory text as those of a setup: latency in ticks, loss as a keep.
pub fn pipe_changes(
    alloc: Global,
    changes: &[Change],
    tick_ns: u64,
) -> Result<Vec<PipeChange>, NoMemory>
    requires tick { IsTickLength tick_ns }
    requires changes { All IsChange changes.now }
    ensures { IfOk result (λ made. AllZip (IsChangeTo tick_ns) changes.now made.items) }
{
    let mut made = Vec::with_capacity(alloc, changes.len())?;
    for change in changes {
        let keep = keep_of_ppm(change.ppm);
        let latency_us = u64::from(change.latency_us);
        made.push(PipeChange {
            tick: change.tick,
            pipe: change.pipe,
            params: PipeParams::new(change.bps, latency_us, change.queue, keep, tick_ns),
        })?;
    }
    Ok(made)
}
