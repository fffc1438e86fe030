ghost use Rattle.std.specs.Prelude.{◌≡◌, ◌<◌, ◌≤◌, ◌^◌, length, vec_len, Some, None, All, IfOk, OnOk, IfErr};
ghost use Rattle.std.specs.List.{count_by};
ghost use Rattle.mn_base.specs.Refused.{IfFault};
ghost use Rattle.topo.specs.Faults.{topo_fault};
ghost use Rattle.topo.specs.Links.{links_of};
ghost use Rattle.mn_base.specs.declared.limits.TheConstants.{NODES_MAX, EDGE_NODES_MAX, LINKS_MAX};
ghost use Rattle.topo.specs.Nodes.{is_edge_node, node_with};
ghost use Rattle.topo.specs.Topologies.{IsLink, IsTopology, topology_of};

use crate::counts::node_count_fault;
use crate::edges::first_edge_fault;
use crate::faults::TopoFault;
use crate::identity::{address_fault, numbers_by_id};
use crate::linking::links_of;
use crate::parts::{EdgeSpec, Link, Node};
use mn_base::Refusal;
use std::alloc::Global;
use std::marker::Model;

/// A valid topology, which contracts see as its lists of nodes and links.
#[derive(Drop)]
pub struct Topology {
    nodes: Vec<Node>,
    links: Vec<Link>,
}

impl Model for Topology {
    ghost use Rattle.topo.specs.TopologyView.{TopologyView};
    ghost use Rattle.topo.specs.Topologies.{IsTopology};

    ghost Value = { TopologyView };

    ghost view = { λ t. record { nodes = t.nodes.items; links = t.links.items } };

    ghost invariant = { λ t. IsTopology (record { nodes = t.nodes.items; links = t.links.items }) };
}

impl Topology {
    /// The topology of the nodes and of the links of the edges.
    ///
    /// An edge of an undirected topology gives two links, source to target first; of a directed one it gives one. An
    /// edge from a node to itself is checked and gives none. The faults are looked for in the order of `TopoFault`'s
    /// variants, those of edges edge by edge, and `TooMany(Links)` last.
    pub fn new(
        alloc: Global,
        nodes: Vec<Node>,
        edges: Vec<EdgeSpec>,
        directed: bool,
    ) -> Result<Topology, Refusal<TopoFault>>
        requires nodes { vec_len nodes < 2 ^ 32 }
        requires edges { vec_len edges < 2 ^ 32 }
        ensures topology { IfOk result (λ t. t ≡ topology_of nodes.items edges.items directed) }
        ensures no_fault { OnOk result (topo_fault nodes.items edges.items directed ≡ None) }
        ensures fault { IfErr result
            (λ e. IfFault e (λ f. topo_fault nodes.items edges.items directed ≡ Some f)) }
    {
        let links = checked_links(alloc, &nodes, &edges, directed)?;
        Ok(Topology { nodes, links })
    }

    /// The nodes, by their numbers.
    pub fn nodes(&self) -> &[Node]
        ensures lent { result.now ≡ self.now.nodes }
        ensures few { length result.now ≤ NODES_MAX }
        ensures few_edge_nodes { count_by is_edge_node result.now ≤ EDGE_NODES_MAX }
        ensures valid { IsTopology self.now }
    {
        &self.nodes
    }

    /// The links, by their numbers.
    pub fn links(&self) -> &[Link]
        ensures lent { result.now ≡ self.now.links }
        ensures few { length result.now ≤ LINKS_MAX }
        ensures hold { All (IsLink (length self.now.nodes)) result.now }
        ensures valid { IsTopology self.now }
    {
        &self.links
    }
}

/// The links of the edges, where nodes and edges have no fault.
fn checked_links(
    alloc: Global,
    nodes: &[Node],
    edges: &[EdgeSpec],
    directed: bool,
) -> Result<Vec<Link>, Refusal<TopoFault>>
    requires { length edges.now < 2 ^ 32 }
    ensures links { IfOk result
        (λ v. v.items ≡ links_of directed (node_with nodes.now) edges.now) }
    ensures no_fault { OnOk result (topo_fault nodes.now edges.now directed ≡ None) }
    ensures fault { IfErr result
        (λ e. IfFault e (λ f. topo_fault nodes.now edges.now directed ≡ Some f)) }
{
    if let Some(fault) = node_count_fault(nodes) {
        return Err(Refusal::Fault(fault));
    }
    let numbers = numbers_by_id(alloc, nodes)?;
    if let Some(fault) = address_fault(alloc, nodes)? {
        return Err(Refusal::Fault(fault));
    }
    if let Some(fault) = first_edge_fault(&numbers, edges) {
        return Err(Refusal::Fault(fault));
    }
    links_of(alloc, &numbers, edges, directed)
}
