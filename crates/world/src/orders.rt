ghost use Rattle.std.specs.Prelude.{◌≡◌, ◌≤◌, ◌<◌, All, IfOk};
ghost use Rattle.mn_base.specs.declared.limits.TheConstants.{CORES_MAX};
ghost use Rattle.world.specs.Orders.{drawn_order};

use mn_base::{Draws, NoMemory};
use std::alloc::Global;

/// An order of `turns` cores, drawn from `cores` by the stream of draws that starts at `number`.
pub fn order_list(alloc: Global, number: u64, turns: u32, cores: u32) -> Result<Vec<u32>, NoMemory>
    requires some_core { 1 ≤ cores }
    requires few_cores { cores ≤ CORES_MAX }
    ensures order { IfOk result (λ order. order.items ≡ drawn_order number turns cores) }
    ensures below { IfOk result (λ order. All (λ core. core < cores) order.items) }
{
    let mut draws = Draws::new(number);
    let mut order = Vec::with_capacity(alloc, turns as usize)?;
    for _turn in 0..turns {
        order.push(draws.draw(cores))?;
    }
    Ok(order)
}
