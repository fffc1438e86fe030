ghost use Rattle.std.specs.Prelude.{◌≡◌, ◌≤◌, [], ◌∷◌, length, IfOk, IfErr};
ghost use Rattle.mn_words.specs.Order.{IsAssignOrder, IsCoreCount};
ghost use Rattle.ownership.specs.Assignment.{assignment};
ghost use Rattle.ownership.specs.Texts.{directory_text};
ghost use Rattle.modelnet.specs.Distilling.{SaysOwners};
ghost use Rattle.modelnet.specs.Exact.{NoMemoryOrRefuses};
ghost use Rattle.modelnet.specs.TheCommands.{topology_refuses};

use crate::distilling::distilled_topology;
use crate::status::Status;
use distill::Distilled;
use mn_base::limits::{TICK_NS_DEFAULT, TOPOLOGY_BYTES_MAX};
use mn_base::{Bytes, NoMemory};
use mn_words::AssignOrder;
use ownership::{assign, print_directory};
use std::alloc::Global;

/// The directory of the assignment of the pipes that the topology of these bytes has in the order's mode.
pub fn assigned_text(alloc: Global, order: &AssignOrder, text: Bytes) -> Result<Bytes, Status>
    requires order { IsAssignOrder order.now }
    requires few { length text ≤ TOPOLOGY_BYTES_MAX }
    ensures owners { IfOk result (SaysOwners order.now text) }
    ensures refusal { IfErr result (NoMemoryOrRefuses (topology_refuses order.now.mode) (text ∷ [])) }
{
    let kept = distilled_topology(alloc, text, order.mode, TICK_NS_DEFAULT)?;
    let Ok(screen) = owners_text(alloc, &kept.distilled, order.cores) else {
        return Err(Status::NoMemory);
    };
    Ok(screen)
}

/// The directory of the assignment of these pipes.
fn owners_text(alloc: Global, distilled: &Distilled, cores: u32) -> Result<Bytes, NoMemory>
    requires { IsCoreCount cores }
    ensures { IfOk result (λ text. text ≡ directory_text (assignment distilled.now cores)) }
{
    let directory = assign(alloc, distilled, cores)?;
    print_directory(alloc, &directory)
}
