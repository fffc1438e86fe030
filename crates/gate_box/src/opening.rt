ghost use Rattle.std.specs.Prelude.{◌≡◌, IfOk};

use crate::ends::{Receiver, Sender};
use crate::lane::Lane;
use crate::rule::{GateTable, Roles, WORDS};
use mn_base::NoMemory;
use std::alloc::Global;
use std::sync::Arc;

/// The two ends of one lane, with nothing posted. Each may move to a thread of its own.
pub fn pair<L: Lane>(alloc: Global, name: L::Name) -> Result<(Sender<L>, Receiver<L>), NoMemory>
    ensures one_lane { IfOk result (λ ends. ends.0.lane ≡ ends.1.lane) }
    ensures sender { IfOk result (λ ends. ends.0 ≡ record { lane = ends.0.lane; name = name; next = 0; misses = 0; found = 0 }) }
    ensures receiver { IfOk result (λ ends. ends.1 ≡ record { lane = ends.1.lane; name = name; next = 0; misses = 0; found = 0 }) }
{
    let (table, mut seat) = GateTable::<L>::vacant(alloc, &[0; WORDS], 1, &name)?;
    let other = table.shared.split_seat::<Roles>(&mut seat);
    let mine = Arc::new(alloc, table)?;
    let theirs = Arc::try_clone(&mine)?;
    Ok((Sender::at(mine, seat), Receiver::at(theirs, other)))
}
