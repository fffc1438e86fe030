ghost use Rattle.std.specs.Prelude.{◌≡◌, ◌≤◌, All, IfOk, IfErr, length};
ghost use Rattle.std.specs.Option.{ForSome};
ghost use Rattle.mn_base.specs.declared.limits.TheConstants.{DIRECTORY_BYTES_MAX};
ghost use Rattle.mn_base.specs.Refused.{IfFault, Refuses};
ghost use Rattle.pcap_io.specs.Capture.{IsRecordTime};
ghost use Rattle.plan.specs.declared.faults.PlanFault.{PlanFault};
ghost use Rattle.plan.specs.declared.faults.PlanFault.TheVariants as fault;
ghost use Rattle.plan.specs.Options.{AreOptions};
ghost use Rattle.plan.specs.Setups.{IsPlan, given_text};
ghost use Rattle.plan.specs.Faults.{PlanFirst};

use crate::directing::direct;
use crate::faults::PlanFault;
use crate::options::Options;
use crate::parts::plan_over;
use distill::{TooManyPipes, distill};
use journal::Setup;
use mn_base::{Bytes, Refusal, Unbound};
use pcap_io::Trace;
use std::alloc::Global;
use std::marker::Model;
use topo::Topology;

/// What a run is made of.
#[derive(Drop)]
pub struct Planned {
    /// Pipes, routes and bound packets.
    pub setup: Setup,
    /// The captured bytes of the bound packets, in their order.
    pub bytes: Vec<Bytes>,
    /// The packets that aren't bound, by number, each with its cause.
    pub unbounds: Vec<(u32, Unbound)>,
}

impl Model for Planned {
    ghost use Rattle.plan.specs.PlannedView.{PlannedView};

    ghost Value = { PlannedView };

    ghost view = { λ p. record { setup = p.setup; bytes = p.bytes.items; unbounds = p.unbounds.items } };
}

/// The plan of a trace over a topology: the distilled pipes with their owners and changes, and the packets, bound by their addresses.
///
/// A packet is bound to the two nodes whose addresses its captured bytes say and to the least route between them, unless one of the
/// causes of `Unbound` stands against it; the first in their order counts. Each ordered pair of nodes has one route, in order of
/// first use. Bytes are moved, not copied. A destination is searched for once.
///
/// The faults, first the earliest: `TooManyPipes`, and then, if there is a directory text, `Changes` and `Assign`.
pub fn plan(
    alloc: Global,
    topology: &Topology,
    trace: Trace,
    options: &Options,
    directory: Option<&[u8]>,
) -> Result<Planned, Refusal<PlanFault>>
    requires options { AreOptions options.now }
    requires bytes { ForSome directory (λ text. length text.now ≤ DIRECTORY_BYTES_MAX) }
    requires times { All (λ packet. IsRecordTime packet.time_ns) trace.packets }
    ensures planned { IfOk result (IsPlan topology.now trace options.now (given_text directory.entry)) }
    ensures fault { IfErr result (λ refusal. IfFault refusal (PlanFirst topology.now options.now (given_text directory.entry))) }
    ensures only_fault { (fault : PlanFault) → PlanFirst topology.now options.now (given_text directory.entry) fault → Refuses fault result }
{
    make_plan(alloc, topology, trace, options, directory)
}

fn make_plan(
    alloc: Global,
    topology: &Topology,
    trace: Trace,
    options: &Options,
    directory: Option<&[u8]>,
) -> Result<Planned, Refusal<PlanFault>>
    requires options { AreOptions options.now }
    requires bytes { ForSome directory (λ text. length text.now ≤ DIRECTORY_BYTES_MAX) }
    requires times { All (λ packet. IsRecordTime packet.time_ns) trace.packets }
    ensures planned { IfOk result (IsPlan topology.now trace options.now (given_text directory.entry)) }
    ensures fault { IfErr result (λ refusal. IfFault refusal (PlanFirst topology.now options.now (given_text directory.entry))) }
{
    let distilled = distill(alloc, topology, options.mode, options.tick_ns).map_err(|e| e.map_fault(
        too_many,
    ))?;
    let directed = direct(alloc, &distilled, options.cores, directory)?;
    Ok(plan_over(alloc, topology, &distilled, &directed, trace, options)?)
}

fn too_many(many: TooManyPipes) -> PlanFault
    ensures { result ≡ fault.TooManyPipes many.count }
{
    PlanFault::TooManyPipes(many.count)
}
