ghost use Rattle.std.specs.Prelude.{◌≡◌, ◌≢◌, ◌≤◌, false, length, All, IfOk, IfErr, MatchResult};
ghost use Rattle.std.specs.Option.{ForSome};
ghost use Rattle.mn_base.specs.declared.limits.TheConstants.{DIRECTORY_BYTES_MAX};
ghost use Rattle.mn_base.specs.Refused.{IfFault};
ghost use Rattle.mn_edge.specs.declared.role.Role.{Role};
ghost use Rattle.mn_edge.specs.declared.role.Role.TheVariants as input;
ghost use Rattle.pcap_io.specs.Capture.{Capture, IsRecordTime};
ghost use Rattle.plan.specs.Options.{AreOptions};
ghost use Rattle.plan.specs.Setups.{IsPlan};
ghost use Rattle.plan.specs.Faults.{PlanFirst};
ghost use Rattle.topo.specs.TopologyView.{TopologyView};
ghost use Rattle.modelnet.specs.Commands.{Host};
ghost use Rattle.modelnet.specs.Planning.{reading_command, planning_command};
ghost use Rattle.modelnet.specs.PlanSteps.{HasTopology, HasTrace, HasInputs, HasPlan};
ghost use Rattle.modelnet.specs.Progress.{HasStopped};
ghost use Rattle.modelnet.specs.Running.{IsRunnable};
ghost use Rattle.modelnet.specs.TheCommands.{AreWithinUsual};

use crate::planning::Planning;
use crate::read_limits::ReadLimits;
use crate::roles::read_input;
use crate::status::Status;
use gml_reader::read_gml;
use mn_base::{Bytes, Refusal};
use mn_edge::{Host, Role};
use pcap_io::Trace;
use pcapng_in::read_capture;
use plan::{Options, PlanFault, Planned, plan};
use std::alloc::Global;
use topo::Topology;

/// What was read to plan a run.
#[derive(Drop)]
pub struct Inputs {
    pub topology: Topology,
    pub trace: Trace,
    /// The text of the directory, where one is named.
    pub directory: Option<Bytes>,
}

/// Reads the inputs of a plan, one after the other, and plans.
pub fn read_plan<H: Host>(
    alloc: Global,
    limits: &ReadLimits,
    asked: &Planning,
    host: &mut H,
) -> Result<Planned, Status>
    requires inactive { (role : Role) → (H.part host.old role).active ≡ false }
    requires options { AreOptions asked.now.options }
    requires limits { AreWithinUsual limits.now }
    ensures plan { IfOk result (HasPlan limits.now asked.now (H.part host.old) (H.part host.new)) }
    ensures runnable { IfOk result IsRunnable }
    ensures stops { IfErr result (HasStopped (planning_command limits.now asked.now) (H.part host.old) (H.part host.new)) }
{
    let inputs = read_inputs(alloc, limits, asked, host)?;
    let planned = plan_inputs(alloc, &asked.options, inputs)?;
    Ok(planned)
}

/// Reads the inputs of a plan, one after the other.
pub fn read_inputs<H: Host>(
    alloc: Global,
    limits: &ReadLimits,
    asked: &Planning,
    host: &mut H,
) -> Result<Inputs, Status>
    requires inactive { (role : Role) → (H.part host.old role).active ≡ false }
    requires limits { AreWithinUsual limits.now }
    ensures read { IfOk result (λ inputs.
        HasInputs limits.now asked.now inputs.topology inputs.trace inputs.directory (H.part host.old) (H.part host.new)) }
    ensures times { IfOk result (λ inputs. All (λ packet. IsRecordTime packet.time_ns) inputs.trace.packets) }
    ensures few { IfOk result (λ inputs. ForSome inputs.directory (λ text. length text ≤ DIRECTORY_BYTES_MAX)) }
    ensures stops { IfErr result (HasStopped (reading_command limits.now asked.now) (H.part host.old) (H.part host.new)) }
{
    let topology = read_topology(alloc, limits, asked, host)?;
    let trace = read_trace(alloc, limits, asked, host)?;
    let directory = read_directory(alloc, limits, asked, host)?;
    Ok(Inputs {
        topology,
        trace,
        directory,
    })
}

/// Reads the topology of a plan.
fn read_topology<H: Host>(
    alloc: Global,
    limits: &ReadLimits,
    asked: &Planning,
    host: &mut H,
) -> Result<Topology, Status>
    requires inactive { (H.part host.old input.Topology).active ≡ false }
    requires limits { AreWithinUsual limits.now }
    ensures read { IfOk result (λ topology. HasTopology limits.now asked.now topology (H.part host.old) (H.part host.new)) }
    ensures stops { IfErr result (HasStopped (reading_command limits.now asked.now) (H.part host.old) (H.part host.new)) }
    ensures others { (other : Role) → other ≢ input.Topology → H.part host.new other ≡ H.part host.old other }
{
    let text = read_input(alloc, host, Role::Topology, asked.topology, limits.topology)?;
    let topology = read_gml(alloc, text.as_slice())?;
    Ok(topology)
}

/// Reads the trace of a plan, whose topology was read.
fn read_trace<H: Host>(
    alloc: Global,
    limits: &ReadLimits,
    asked: &Planning,
    host: &mut H,
) -> Result<Trace, Status>
    requires inactive { (H.part host.old input.Trace).active ≡ false }
    requires limits { AreWithinUsual limits.now }
    ensures read { (start : Host) (topology : TopologyView) → HasTopology limits.now asked.now topology start (H.part host.old)
        → MatchResult result (λ trace. HasTrace limits.now asked.now topology trace start (H.part host.new))
        (HasStopped (reading_command limits.now asked.now) start (H.part host.new)) }
    ensures times { IfOk result (λ trace. All (λ packet. IsRecordTime packet.time_ns) trace.packets) }
    ensures others { (other : Role) → other ≢ input.Trace → H.part host.new other ≡ H.part host.old other }
{
    let text = read_input(alloc, host, Role::Trace, asked.trace, limits.trace)?;
    let trace = read_capture(alloc, text.as_slice())?;
    Ok(trace)
}

/// Reads the text of the directory, where one is named. The topology and the trace were read.
fn read_directory<H: Host>(
    alloc: Global,
    limits: &ReadLimits,
    asked: &Planning,
    host: &mut H,
) -> Result<Option<Bytes>, Status>
    requires inactive { (H.part host.old input.Directory).active ≡ false }
    requires limits { AreWithinUsual limits.now }
    ensures read { (start : Host) (topology : TopologyView) (trace : Capture)
        → HasTrace limits.now asked.now topology trace start (H.part host.old)
        → MatchResult result (λ text. HasInputs limits.now asked.now topology trace text start (H.part host.new))
        (HasStopped (reading_command limits.now asked.now) start (H.part host.new)) }
    ensures few { IfOk result (λ text. ForSome text (λ bytes. length bytes ≤ DIRECTORY_BYTES_MAX)) }
{
    match asked.directory {
        None => Ok(None),
        Some(name) => {
            let text = read_input(alloc, host, Role::Directory, name, limits.directory)?;
            Ok(Some(text))
        }
    }
}

/// The plan of these inputs.
pub fn plan_inputs(
    alloc: Global,
    options: &Options,
    inputs: Inputs,
) -> Result<Planned, Refusal<PlanFault>>
    requires options { AreOptions options.now }
    requires bytes { ForSome inputs.directory (λ text. length text ≤ DIRECTORY_BYTES_MAX) }
    requires times { All (λ packet. IsRecordTime packet.time_ns) inputs.trace.packets }
    ensures planned { IfOk result (IsPlan inputs.topology inputs.trace options.now inputs.directory) }
    ensures runnable { IfOk result IsRunnable }
    ensures fault { IfErr result (λ refusal. IfFault refusal (PlanFirst inputs.topology options.now inputs.directory)) }
{
    let Inputs {
        topology,
        trace,
        directory,
    } = inputs;
    // A read of the trace, so that the proof knows what its type keeps.
    let _kept = trace.link_type();
    match &directory {
        Some(text) => plan(alloc, &topology, trace, options, Some(text.as_slice())),
        None => plan(alloc, &topology, trace, options, None),
    }
}
