ghost use Rattle.std.specs.Prelude.{◌≡◌, ◌⊎◌, ◌<◌, ◌==◌, ◌||◌, ℕ, [], true, false, None, IfOk, OnOk, length};
ghost use Rattle.mn_base.specs.Among.{Among};
ghost use Rattle.frontier.specs.NodeSets.{has};
ghost use Rattle.ownership.specs.Turning.{AddsNode};

use crate::near::NearPipes;
use frontier::NodeSet;
use mn_base::NoMemory;
use std::alloc::Global;

/// What a core reaches: its node set, and the pipes with an end there that it may take.
#[derive(Drop)]
pub(crate) struct Reach {
    pub nodes: NodeSet,
    pub near: NearPipes,
}

impl Reach {
    pub(crate) fn new(alloc: Global, nodes: usize) -> Result<Reach, NoMemory>
        ensures size { IfOk result (λ reach. length reach.nodes ≡ nodes) }
        ensures empty { IfOk result (λ reach. (v : ℕ) → has reach.nodes v ≡ false) }
        ensures none { IfOk result (λ reach. reach.near ≡ []) }
    {
        Ok(Reach {
            nodes: NodeSet::new(alloc, nodes)?,
            near: NearPipes::new(alloc),
        })
    }

    /// Adds a node, and the unowned pipes of those at the node, which are `row`.
    pub(crate) fn add_node(
        &mut self,
        node: u32,
        row: &[u32],
        owners: &[Option<u32>],
    ) -> Result<(), NoMemory>
        requires node { node < length self.old.nodes }
        requires row { (k : ℕ) → Among k row.now → k < length owners.now }
        ensures { OnOk result (AddsNode node row.now owners.now self.old self.new) }
    {
        if self.nodes.contains(node) {
            return Ok(());
        }
        self.nodes.add(&[node]);
        for pipe in row {
            self.near.insert_unowned(*pipe, owners)?;
        }
        Ok(())
    }
}
