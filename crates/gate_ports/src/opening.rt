ghost use Rattle.std.specs.Prelude.{◌≡◌, ◌<◌, ◌≤◌, ◌+◌, [], length, IfOk, OnOk};
ghost use Rattle.mn_base.specs.declared.limits.TheConstants.{CORES_MAX};
ghost use Rattle.journal.specs.IsSetup.{IsSetup};
ghost use Rattle.gate_ports.specs.GatePortsView.{EachAt, IsFresh, AreJoined};
ghost use Rattle.gate_ports.specs.Building.{HasSenders, HasReceivers, JoinsOne, JoinsRow, AreOfOneLane};

use crate::gate_ports::GatePorts;
use crate::lane_name::{LaneName, Parcels};
use gate_box::{Receiver, Sender, pair};
use journal::Setup;
use mn_base::NoMemory;
use std::alloc::Global;
use std::mem;

/// Room for so many more ends stands after the senders of each core: 128 bytes that are never used. Where the allocator lays these rows
/// one after the other, the senders of two cores are in no cache line together. The rows of receivers have no such room.
const SPARE: usize = 8;

/// The senders of one core, by the cores to which they send.
type Senders<'s> = Vec<Sender<Parcels<'s>>>;

/// The receivers of one core, by the cores from which they receive.
type Receivers<'s> = Vec<Receiver<Parcels<'s>>>;

/// The ports of each core, in core order, with a lane from each core to each, itself among them, and nothing posted.
pub fn lanes<'s>(alloc: Global, setup: &'s Setup) -> Result<Vec<GatePorts<'s>>, NoMemory>
    ensures count { IfOk result (λ all. length all.items ≡ setup.now.cores) }
    ensures fresh { IfOk result (λ all. EachAt (IsFresh setup.now) all.items) }
    ensures one_lane { IfOk result (λ all. AreJoined all.items) }
{
    let cores = setup.parts().cores;
    let mut senders = no_senders(alloc, cores)?;
    let mut receivers = Vec::with_capacity(alloc, cores as usize)?;
    for to in 0..cores {
        receivers.push(lanes_to(alloc, setup, to, &mut senders)?)?;
    }
    ports_of(alloc, setup, &mut senders, &mut receivers)
}

/// No sender yet, for each core.
fn no_senders<'s>(alloc: Global, cores: u32) -> Result<Vec<Senders<'s>>, NoMemory>
    ensures count { IfOk result (λ all. length all.items ≡ cores) }
    ensures none { IfOk result (λ all. EachAt (λ core row. row.items ≡ []) all.items) }
{
    let mut all: Vec<Senders<'s>> = Vec::with_capacity(alloc, cores as usize)?;
    for _core in 0..cores {
        let row: Senders<'s> = Vec::with_capacity(alloc, cores as usize + SPARE)?;
        all.push(row)?;
    }
    Ok(all)
}

/// Makes the lanes to one core: its receivers. Each core gets one more sender.
fn lanes_to<'s>(
    alloc: Global,
    setup: &'s Setup,
    to: u32,
    senders: &mut [Senders<'s>],
) -> Result<Receivers<'s>, NoMemory>
    requires few { length senders.old ≤ CORES_MAX }
    requires senders { EachAt (HasSenders setup.now to) senders.old }
    ensures senders { OnOk result (EachAt (HasSenders setup.now (to + 1)) senders.new) }
    ensures receivers { IfOk result (HasReceivers setup.now (length senders.old) to) }
    ensures one_lane { IfOk result (λ row. EachAt (JoinsRow senders.old row) senders.new) }
{
    let mut receivers = Vec::with_capacity(alloc, senders.len())?;
    for from in 0..senders.len() {
        let name = LaneName {
            setup,
            from: from as u32,
            to,
        };
        join(alloc, name, &mut senders[from], &mut receivers)?;
    }
    Ok(receivers)
}

/// Makes one lane. Its ends are the last sender of the one core and the last receiver of the other.
fn join<'s>(
    alloc: Global,
    name: LaneName<'s>,
    senders: &mut Senders<'s>,
    receivers: &mut Receivers<'s>,
) -> Result<(), NoMemory>
    requires senders { HasSenders name.setup.now name.to name.from senders.old }
    requires receivers { HasReceivers name.setup.now name.from name.to receivers.old }
    ensures senders { OnOk result (HasSenders name.entry.setup.now (name.entry.to + 1) name.entry.from senders.new) }
    ensures receivers { OnOk result (HasReceivers name.entry.setup.now (name.entry.from + 1) name.entry.to receivers.new) }
    ensures one_lane { OnOk result (JoinsOne senders.old senders.new receivers.old receivers.new) }
{
    let (sender, receiver) = pair::<Parcels>(alloc, name)?;
    senders.push(sender)?;
    receivers.push(receiver)?;
    Ok(())
}

/// The ports of all cores, by their senders and receivers, which are taken out of the lists.
fn ports_of<'s>(
    alloc: Global,
    setup: &'s Setup,
    senders: &mut [Senders<'s>],
    receivers: &mut [Receivers<'s>],
) -> Result<Vec<GatePorts<'s>>, NoMemory>
    requires setup { IsSetup setup.now }
    requires cores { length senders.old ≡ setup.now.cores }
    requires same { length receivers.old ≡ setup.now.cores }
    requires senders { EachAt (HasSenders setup.now setup.now.cores) senders.old }
    requires receivers { EachAt (HasReceivers setup.now setup.now.cores) receivers.old }
    requires one_lane { AreOfOneLane senders.old receivers.old }
    ensures count { IfOk result (λ all. length all.items ≡ setup.now.cores) }
    ensures fresh { IfOk result (λ all. EachAt (IsFresh setup.now) all.items) }
    ensures one_lane { IfOk result (λ all. AreJoined all.items) }
{
    let mut all = Vec::with_capacity(alloc, senders.len())?;
    for core in 0..senders.len() {
        let to_others = mem::replace(&mut senders[core], Vec::new(alloc));
        let from_others = mem::replace(&mut receivers[core], Vec::new(alloc));
        all.push(GatePorts::of(setup, core as u32, to_others, from_others))?;
    }
    Ok(all)
}
