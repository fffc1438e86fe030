ghost use Rattle.std.specs.Prelude.{◌≡◌, ◌≤◌, ◌<◌, ◌+◌, ◌*◌, ◌/◌, ◌%◌, ℕ, [], Some, None, IfOk, OnOk, length, vec_len};
ghost use Rattle.mn_base.specs.declared.limits.TheConstants.{CORES_MAX};
ghost use Rattle.ownership.specs.Assignment.{owned_after, pipe_of_turn};
ghost use Rattle.ownership.specs.Owners.{AreOwners};
ghost use Rattle.ownership.specs.Turning.{HaveStarted, HoldsTurns, IsNextUnowned, IsReach};

use crate::incidence::Incidence;
use crate::reach::Reach;
use distill::Distilled;
use mn_base::NoMemory;
use std::alloc::Global;

/// What is owned after some turns, and what each core reaches.
#[derive(Drop)]
pub(crate) struct Turns {
    /// The owner of each pipe that has one.
    pub owners: Vec<Option<u32>>,
    /// What each core reaches.
    pub reaches: Vec<Reach>,
    /// Every pipe below this number has an owner.
    pub least: usize,
}

/// The first pipe from `from` on without an owner, or their number where none is.
fn next_unowned(owners: &[Option<u32>], from: usize) -> usize
    requires { from ≤ length owners.now }
    ensures { IsNextUnowned owners.now from result }
{
    let mut pipe = from;
    'owned: while pipe < owners.len() && owners[pipe].is_some() {
        pipe += 1;
    }
    pipe
}

/// What a core reaches before the first turn: the node that it starts with, if there is one.
fn start(
    alloc: Global,
    distilled: &Distilled,
    incidence: &Incidence,
    cores: u32,
    core: u32,
    owners: &[Option<u32>],
) -> Result<Reach, NoMemory>
    requires core { core < cores }
    requires few_cores { cores ≤ CORES_MAX }
    requires incidence { incidence.now ≡ distilled.now }
    requires owners { AreOwners (length distilled.now.pipes) [] owners.now }
    ensures { IfOk result (λ reach. IsReach distilled.now cores [] None core reach) }
{
    let edge_nodes = distilled.edge_nodes();
    let place = start_place(core, cores, edge_nodes.len());
    let mut reach = Reach::new(alloc, distilled.nodes() as usize)?;
    if place >= edge_nodes.len() {
        return Ok(reach);
    }
    let node = edge_nodes[place];
    reach.add_node(node, incidence.row(node), owners)?;
    Ok(reach)
}

/// Which of so many edge nodes a core starts with.
fn start_place(core: u32, cores: u32, edge_nodes: usize) -> usize
    requires { core < cores }
    ensures { result ≡ core * edge_nodes / cores }
{
    (u128::from(core) * edge_nodes as u128 / u128::from(cores)) as usize
}

/// What each core reaches before the first turn.
fn starts(
    alloc: Global,
    distilled: &Distilled,
    incidence: &Incidence,
    cores: u32,
    owners: &[Option<u32>],
) -> Result<Vec<Reach>, NoMemory>
    requires few_cores { cores ≤ CORES_MAX }
    requires incidence { incidence.now ≡ distilled.now }
    requires owners { AreOwners (length distilled.now.pipes) [] owners.now }
    ensures { IfOk result (λ reaches. HaveStarted distilled.now cores cores reaches.items) }
{
    let mut reaches = Vec::new(alloc);
    for core in 0..cores {
        let reach = start(alloc, distilled, incidence, cores, core, owners)?;
        reaches.push(reach)?;
    }
    Ok(reaches)
}

impl Turns {
    /// Before the first turn: each core has the node that it starts with.
    pub(crate) fn new(
        alloc: Global,
        distilled: &Distilled,
        incidence: &Incidence,
        cores: u32,
    ) -> Result<Turns, NoMemory>
        requires few_cores { cores ≤ CORES_MAX }
        requires incidence { incidence.now ≡ distilled.now }
        ensures { IfOk result (λ turns. HoldsTurns distilled.now cores [] None turns) }
    {
        let owners = vec![in alloc; None; distilled.pipes().len()]?;
        let reaches = starts(alloc, distilled, incidence, cores, &owners)?;
        Ok(Turns {
            owners,
            reaches,
            least: 0,
        })
    }

    /// Takes turn `turn`, which is that of core `turn % cores`.
    pub(crate) fn take(
        &mut self,
        distilled: &Distilled,
        incidence: &Incidence,
        cores: u32,
        turn: usize,
    ) -> Result<(), NoMemory>
        requires some_core { 1 ≤ cores }
        requires incidence { incidence.now ≡ distilled.now }
        requires before { HoldsTurns distilled.now cores (owned_after distilled.now cores turn) None self.old }
        ensures { OnOk result (HoldsTurns distilled.now cores (owned_after distilled.now cores (turn + 1)) None self.new) }
    {
        match self.pick(distilled, cores, turn) {
            Some(pipe) => self.give(distilled, incidence, cores, turn, pipe),
            None => Ok(()),
        }
    }

    /// The pipe of a turn: the least of those that the core reaches, or the least of all, or none where all are owned.
    fn pick(&mut self, distilled: &Distilled, cores: u32, turn: usize) -> Option<u32>
        requires some_core { 1 ≤ cores }
        requires before { HoldsTurns distilled.now cores (owned_after distilled.now cores turn) None self.old }
        ensures pipe { result ≡ pipe_of_turn distilled.now cores (owned_after distilled.now cores turn) (turn % cores) }
        ensures holds { HoldsTurns distilled.now cores (owned_after distilled.now cores turn) result self.new }
    {
        let _pipes = distilled.pipes();
        let reach = &mut self.reaches[turn % cores as usize];
        let near = reach.near.take_unowned(&self.owners);
        if near.is_some() {
            return near;
        }
        self.least = next_unowned(&self.owners, self.least);
        (self.least < self.owners.len()).then_some(self.least as u32)
    }

    /// Gives the pipe of a turn to the core, which reaches both its ends from then on.
    fn give(
        &mut self,
        distilled: &Distilled,
        incidence: &Incidence,
        cores: u32,
        turn: usize,
        pipe: u32,
    ) -> Result<(), NoMemory>
        requires some_core { 1 ≤ cores }
        requires incidence { incidence.now ≡ distilled.now }
        requires pipe { pipe_of_turn distilled.now cores (owned_after distilled.now cores turn) (turn % cores) ≡ Some pipe }
        requires before { HoldsTurns distilled.now cores (owned_after distilled.now cores turn) (Some pipe) self.old }
        ensures { OnOk result (HoldsTurns distilled.now cores (owned_after distilled.now cores (turn + 1)) None self.new) }
    {
        let core = turn % cores as usize;
        let ends = distilled.pipes()[pipe as usize];
        self.owners[pipe as usize] = Some(core as u32);
        let reach = &mut self.reaches[core];
        reach.add_node(ends.from, incidence.row(ends.from), &self.owners)?;
        reach.add_node(ends.to, incidence.row(ends.to), &self.owners)
    }
}
