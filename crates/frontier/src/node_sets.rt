ghost use Rattle.std.specs.Prelude.{◌≡◌, ℕ, ◌<◌, ◌||◌, ◌&&◌, ◌==◌, false, ◌++◌, ◌∷◌, [], ◌^◌, if◌then◌else◌, not, filter, map, length, All, IfOk, OnOk};
ghost use Rattle.std.specs.List.{range_with_len};
ghost use Rattle.frontier.specs.NodeSets.{has, is_in, is_in_one, is_beside};

use mn_base::NoMemory;
use std::alloc::Global;
use std::marker::Model;
use topo::Link;

/// A set of nodes of a topology, which contracts see as a mark for each node.
#[derive(Drop)]
pub struct NodeSet {
    marks: Vec<bool>,
}

impl Model for NodeSet {
    ghost use Rattle.std.specs.Prelude.{Bool, List};

    ghost Value = { List Bool };

    ghost view = { λ s. s.marks.items };
}

impl NodeSet {
    /// The empty set of so many nodes.
    pub fn new(alloc: Global, nodes: usize) -> Result<NodeSet, NoMemory>
        ensures size { IfOk result (λ s. length s ≡ nodes) }
        ensures empty { IfOk result (λ s. (v : ℕ) → has s v ≡ false) }
    {
        let marks = vec![in alloc; false; nodes]?;
        Ok(NodeSet { marks })
    }

    /// How many nodes the topology has.
    pub fn size(&self) -> usize
        ensures { result ≡ length self.now }
    {
        self.marks.len()
    }

    /// Whether a node is in the set.
    pub fn contains(&self, node: u32) -> bool
        requires { node < length self.now }
        ensures { result ≡ has self.now node }
    {
        self.marks[node as usize]
    }

    /// Adds nodes.
    pub fn add(&mut self, nodes: &[u32])
        requires { All (λ v. v < length self.old) nodes.now }
        ensures size { length self.new ≡ length self.old }
        ensures added { (v : ℕ) → has self.new v ≡ (has self.old v || is_in v nodes.now) }
    {
        for node in nodes {
            self.mark(*node, true);
        }
    }

    /// Adds the nodes of several lists.
    pub fn add_all(&mut self, lists: &[Vec<u32>])
        requires { All (λ list. All (λ v. v < length self.old) list.items) lists.now }
        ensures size { length self.new ≡ length self.old }
        ensures added { (v : ℕ) → has self.new v
            ≡ (has self.old v || is_in_one v (map (λ list. list.items) lists.now)) }
    {
        for list in lists {
            self.add(list);
        }
    }

    /// The nodes that a link, in either direction, joins to a node of the set.
    pub fn beside(&self, alloc: Global, links: &[Link]) -> Result<NodeSet, NoMemory>
        requires { All (λ link. (link.from < length self.now) × (link.to < length self.now)) links.now }
        ensures size { IfOk result (λ s. length s ≡ length self.now) }
        ensures beside { IfOk result (λ s. (v : ℕ) → has s v ≡ is_beside links.now (has self.now) v) }
    {
        let mut beside = NodeSet::new(alloc, self.marks.len())?;
        for link in links {
            beside.mark(link.from, self.contains(link.to));
            beside.mark(link.to, self.contains(link.from));
        }
        Ok(beside)
    }

    /// The nodes of this set that aren't in the other, in number order.
    #[tactic(auto, using(crate::proofs::Numbers::filter_range_more))]
    pub(crate) fn members_outside(
        &self,
        alloc: Global,
        other: &NodeSet,
    ) -> Result<Vec<u32>, NoMemory>
        requires sizes { length other.now ≡ length self.now }
        requires few { length self.now < 2 ^ 32 }
        ensures { IfOk result (λ v. v.items
            ≡ filter (λ v. not (has other.now v) && has self.now v) (range_with_len 0 (length self.now))) }
    {
        let mut members = Vec::new(alloc);
        for node in 0..self.marks.len() as u32 {
            push_if(
                &mut members,
                node,
                !other.contains(node) && self.contains(node),
            )?;
        }
        Ok(members)
    }

    /// Adds a node if it is to be added.
    fn mark(&mut self, node: u32, is_added: bool)
        requires { node < length self.old }
        ensures size { length self.new ≡ length self.old }
        ensures marked { (v : ℕ) → has self.new v ≡ (has self.old v || (node == v && is_added)) }
    {
        let mark = &mut self.marks[node as usize];
        *mark = *mark || is_added;
    }
}

/// Adds a node at the end of a list if it is to be added.
pub fn push_if(list: &mut Vec<u32>, node: u32, is_added: bool) -> Result<(), NoMemory>
    ensures { OnOk result (list.new.items ≡ list.old.items ++ (if is_added then node ∷ [] else [])) }
{
    if is_added {
        list.push(node)?;
    }
    Ok(())
}
