ghost use Rattle.std.specs.Prelude.{◌≡◌, ◌≤◌, All, IfOk, OnOk, map, filter_map, length};
ghost use Rattle.std.specs.Result.{result_ok};
ghost use Rattle.pcap_io.specs.Capture.{IsTrace, IsRecordTime, trace_base};
ghost use Rattle.distill.specs.Distilled.{IsDistilled, KeepsPipeLimits};
ghost use Rattle.distill.specs.Latency.{arcs_of_pipes};
ghost use Rattle.plan.specs.Options.{AreOptions};
ghost use Rattle.plan.specs.Grounds.{grounds_of, AreFit};
ghost use Rattle.plan.specs.Router.{bindings_of};
ghost use Rattle.plan.specs.Answers.{AreAnswered};
ghost use Rattle.plan.specs.Setups.{IsSetupWith, IsPlanOver};

use crate::answering::{Answered, answer_all, bound, bound_bytes, unbound, used_routes};
use crate::binder::Binder;
use crate::changing::pipe_changes;
use crate::directing::Directed;
use crate::options::Options;
use crate::planning::Planned;
use crate::uses::Use;
use distill::{Distilled, DistilledPipe};
use ip_bind::AddressBook;
use journal::{PacketPlan, Setup, SetupParts};
use mn_base::{NoMemory, PipeParams, Unbound};
use ownership::Directory;
use pcap_io::Trace;
use routes::{Arc, Graph};
use std::alloc::Global;
use topo::Topology;

/// The plan of a trace over a distilled topology, whose owners, entry cores and changes are given.
pub(crate) fn plan_over(
    alloc: Global,
    topology: &Topology,
    distilled: &Distilled,
    directed: &Directed,
    trace: Trace,
    options: &Options,
) -> Result<Planned, NoMemory>
    requires options { AreOptions options.now }
    requires distilled { IsDistilled topology.now options.now.mode options.now.tick_ns distilled.now }
    requires fit { AreFit distilled.now options.now.cores directed.now.directory directed.now.changes.items }
    requires times { All (λ packet. IsRecordTime packet.time_ns) trace.packets }
    ensures { IfOk result (IsPlanOver topology.now distilled.now directed.now.directory directed.now.changes.items trace options.now) }
{
    let Answered { uses, packets } = answers(
        alloc,
        topology,
        distilled,
        &directed.directory,
        &trace,
        options.tick_ns,
    )?;
    let setup = setup_of(
        alloc, topology, distilled, directed, &trace, options, uses, &packets,
    )?;
    let unbounds = unbound(alloc, &packets)?;
    let bytes = bound_bytes(alloc, trace.into_packets(), &packets)?;
    Ok(Planned {
        setup,
        bytes,
        unbounds,
    })
}

/// What becomes of the packets of a trace over a distilled topology.
fn answers(
    alloc: Global,
    topology: &Topology,
    distilled: &Distilled,
    directory: &Directory,
    trace: &Trace,
    tick_ns: u64,
) -> Result<Answered, NoMemory>
    requires tick { 1 ≤ tick_ns }
    requires nodes { distilled.now.nodes ≡ length topology.now.nodes }
    requires entries { length directory.now.entries ≡ length topology.now.nodes }
    ensures answered { IfOk result (λ made. AreAnswered (grounds_of topology.now distilled.now directory.now trace.now tick_ns) trace.now.packets
        (bindings_of made.uses.items) made.packets.items) }
    ensures count { IfOk result (λ made. length made.packets.items ≡ length trace.now.packets) }
    ensures trace { OnOk result (IsTrace trace.now) }
{
    let graph = graph_of(alloc, distilled)?;
    let by = Binder {
        topology,
        book: AddressBook::new(alloc, topology)?,
        graph: &graph,
        directory,
        link_type: trace.link_type(),
        base_ns: trace.time_base(),
        tick_ns,
    };
    answer_all(alloc, &by, trace.packets())
}

/// The pipes as a graph that weighs latencies, in microseconds.
fn graph_of(alloc: Global, distilled: &Distilled) -> Result<Graph, NoMemory>
    ensures nodes { IfOk result (λ graph. graph.nodes ≡ distilled.now.nodes) }
    ensures arcs { IfOk result (λ graph. graph.arcs ≡ arcs_of_pipes distilled.now.pipes) }
{
    let arcs = arcs_of(alloc, distilled.pipes())?;
    Ok(Graph::new(distilled.nodes(), arcs))
}

fn arcs_of(alloc: Global, pipes: &[DistilledPipe]) -> Result<Vec<Arc>, NoMemory>
    ensures { IfOk result (λ arcs. arcs.items ≡ arcs_of_pipes pipes.now) }
{
    let arcs = pipes
        .iter()
        .map(|pipe| Arc {
            from: pipe.from,
            to: pipe.to,
            weight: pipe.params.latency_us,
        })
        .collect(alloc)?;
    Ok(arcs)
}

/// The setup of the packets that are bound.
fn setup_of(
    alloc: Global,
    topology: &Topology,
    distilled: &Distilled,
    directed: &Directed,
    trace: &Trace,
    options: &Options,
    uses: Vec<Use>,
    answers: &[Result<PacketPlan, Unbound>],
) -> Result<Setup, NoMemory>
    requires options { AreOptions options.now }
    requires distilled { IsDistilled topology.now options.now.mode options.now.tick_ns distilled.now }
    requires fit { AreFit distilled.now options.now.cores directed.now.directory directed.now.changes.items }
    requires times { All (λ packet. IsRecordTime packet.time_ns) trace.now.packets }
    requires answered { AreAnswered (grounds_of topology.now distilled.now directed.now.directory trace.now options.now.tick_ns) trace.now.packets
        (bindings_of uses.items) answers.now }
    ensures { IfOk result (IsSetupWith options.now distilled.now directed.now.directory directed.now.changes.items trace.now
        (map (λ b. b.route) (bindings_of uses.items)) (filter_map result_ok answers.now)) }
{
    let routes = used_routes(alloc, uses)?;
    let packets = bound(alloc, answers)?;
    let parts = parts_of(alloc, distilled, directed, trace, options, routes, packets)?;
    Ok(Setup::new(parts))
}

/// The parts of a setup with these routes and packets.
fn parts_of(
    alloc: Global,
    distilled: &Distilled,
    directed: &Directed,
    trace: &Trace,
    options: &Options,
    routes: Vec<Vec<u32>>,
    packets: Vec<PacketPlan>,
) -> Result<SetupParts, NoMemory>
    requires options { AreOptions options.now }
    requires fit { AreFit distilled.now options.now.cores directed.now.directory directed.now.changes.items }
    ensures parts { IfOk result (IsSetupWith options.now distilled.now directed.now.directory directed.now.changes.items trace.now
        (map (λ route. route.items) routes.items) packets.items) }
    ensures trace { OnOk result (IsTrace trace.now) }
    ensures base { OnOk result (All (λ packet. trace_base trace.now ≤ packet.time_ns) trace.now.packets) }
    ensures limits { OnOk result (KeepsPipeLimits distilled.now) }
{
    let base_ns = trace.time_base();
    let pipes = params_of(alloc, distilled.pipes())?;
    let owners = owners_of(alloc, &directed.directory, pipes.len() as u32)?;
    let changes = pipe_changes(alloc, &directed.changes, options.tick_ns)?;
    Ok(SetupParts {
        tick_ns: options.tick_ns,
        seed: options.seed,
        base_ns,
        link_type: trace.link_type(),
        cores: options.cores,
        pipes,
        owners,
        routes,
        packets,
        changes,
        loss: options.loss,
    })
}

fn params_of(alloc: Global, pipes: &[DistilledPipe]) -> Result<Vec<PipeParams>, NoMemory>
    ensures { IfOk result (λ params. params.items ≡ map (λ pipe. pipe.params) pipes.now) }
{
    let params = pipes.iter().map(|pipe| pipe.params).collect(alloc)?;
    Ok(params)
}

/// The owners of so many pipes, which are all.
fn owners_of(alloc: Global, directory: &Directory, pipes: u32) -> Result<Vec<u32>, NoMemory>
    requires { length directory.now.owners ≡ pipes }
    ensures { IfOk result (λ owners. owners.items ≡ directory.now.owners) }
{
    let mut owners = Vec::with_capacity(alloc, pipes as usize)?;
    for pipe in 0..pipes {
        owners.push(directory.owner(pipe))?;
    }
    Ok(owners)
}
