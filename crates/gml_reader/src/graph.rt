ghost use Rattle.std.specs.Prelude.{◌≡◌, ◌<◌, ◌≤◌, ◌^◌, ◌+◌, length, vec_len, IfOk, IfSome, OnOk};
ghost use Rattle.mn_base.specs.declared.limits.TheConstants.{TOPOLOGY_BYTES_MAX};
ghost use Rattle.gml_reader.specs.Grammar.{Pairs, spelled};
ghost use Rattle.gml_reader.specs.Values.{pairs};
ghost use Rattle.gml_reader.specs.Values as tree;
ghost use Rattle.gml_reader.specs.Walk.{IsListIn};
ghost use Rattle.gml_reader.specs.Reading.{graph_in};
ghost use Rattle.gml_reader.specs.ReadGraph.{IsDirected, IsGraph, AreItems, IsGraphRead};

use crate::bytes::is_named;
use crate::faults::{GmlFault, Item};
use crate::items::{edge, node};
use crate::keys::{number_in, value_at};
use crate::walk::{FirstPair, ValueTokens};
use gml_lex::Token;
use mn_base::Refusal;
use std::alloc::Global;
use topo::{EdgeSpec, Key, Node, Topology};

/// The tokens of the first list with the key `graph`.
#[tactic(auto, unfolding(crate::specs::Reading::graph_in))]
pub(crate) fn graph_in<'t>(text: &[u8], tokens: &'t [Token]) -> Option<&'t [Token]>
    ensures graph { (t : Pairs) → IsListIn (length text.now) t → tokens.now ≡ spelled t
        → IsGraph (length text.now) (graph_in text.now (pairs t)) result }
    ensures within { IfSome result (λ s. length s.now ≤ length tokens.now) }
{
    let mut rest = tokens;
    while let Some(pair) = FirstPair::of(rest) {
        if is_named(text, pair.key, b"graph") {
            if let ValueTokens::Inner(graph) = pair.value {
                return Some(graph);
            }
        }
        rest = pair.rest;
    }
    None
}

/// Whether edges go one way alone: 0 or 1, and 0 where none is given.
#[tactic(auto, unfolding(crate::specs::Reading::directed_fault, crate::specs::Reading::is_directed))]
fn directed(text: &[u8], graph: &[Token]) -> Result<bool, GmlFault>
    ensures { (t : Pairs) → IsListIn (length text.now) t → graph.now ≡ spelled t
        → IsDirected text.now (pairs t) result }
{
    let Some(value) = value_at(text, graph, Key::Directed.name().as_bytes()) else {
        return Ok(false);
    };
    match number_in(text, value) {
        Some(0) => Ok(false),
        Some(1) => Ok(true),
        _ => Err(GmlFault::Kind {
            item: Item::Graph,
            key: Key::Directed,
        }),
    }
}

/// The nodes and edges of a graph, in the order of the text.
#[derive(Drop)]
struct Items {
    nodes: Vec<Node>,
    edges: Vec<EdgeSpec>,
}

impl Items {
    ghost use Rattle.gml_reader.specs.ReadGraph.{IsPair, IsItem};

    /// Reads one pair of the graph.
    fn read(&mut self, text: &[u8], pair: FirstPair) -> Result<(), Refusal<GmlFault>>
        requires nodes { vec_len self.old.nodes < 2 ^ 32 }
        requires edges { vec_len self.old.edges < 2 ^ 32 }
        ensures item { (p : tree.PairTree) → IsPair (length text.now) p pair.entry
            → IsItem text.now self.old.nodes.items self.old.edges.items p
            self.new.nodes.items self.new.edges.items result }
        ensures one_node { OnOk result (vec_len self.new.nodes ≤ vec_len self.old.nodes + 1) }
        ensures one_edge { OnOk result (vec_len self.new.edges ≤ vec_len self.old.edges + 1) }
    {
        if is_named(text, pair.key, Key::Node.name().as_bytes()) {
            match node(text, self.nodes.len() as u32, pair.value) {
                Ok(node) => self.nodes.push(node)?,
                Err(fault) => return Err(Refusal::Fault(fault)),
            }
        } else if is_named(text, pair.key, Key::Edge.name().as_bytes()) {
            match edge(text, self.edges.len() as u32, pair.value) {
                Ok(edge) => self.edges.push(edge)?,
                Err(fault) => return Err(Refusal::Fault(fault)),
            }
        }
        Ok(())
    }
}

/// The nodes and edges of a graph, or the first fault among them.
fn read_items(alloc: Global, text: &[u8], graph: &[Token]) -> Result<Items, Refusal<GmlFault>>
    requires { length graph.now ≤ TOPOLOGY_BYTES_MAX }
    ensures items { (t : Pairs) → IsListIn (length text.now) t → graph.now ≡ spelled t
        → AreItems text.now (pairs t) result }
    ensures few_nodes { IfOk result (λ i. vec_len i.nodes < 2 ^ 32) }
    ensures few_edges { IfOk result (λ i. vec_len i.edges < 2 ^ 32) }
{
    let mut items = Items {
        nodes: Vec::new(alloc),
        edges: Vec::new(alloc),
    };
    let mut rest = graph;
    while let Some(pair) = FirstPair::of(rest) {
        items.read(text, pair)?;
        rest = pair.rest;
    }
    Ok(items)
}

/// The topology of a graph, or its first fault.
pub(crate) fn read_graph(
    alloc: Global,
    text: &[u8],
    graph: &[Token],
) -> Result<Topology, Refusal<GmlFault>>
    requires { length graph.now ≤ TOPOLOGY_BYTES_MAX }
    ensures { (t : Pairs) → IsListIn (length text.now) t → graph.now ≡ spelled t
        → IsGraphRead text.now (pairs t) result }
{
    let directed = match directed(text, graph) {
        Ok(directed) => directed,
        Err(fault) => return Err(Refusal::Fault(fault)),
    };
    let Items { nodes, edges } = read_items(alloc, text, graph)?;
    match Topology::new(alloc, nodes, edges, directed) {
        Ok(topology) => Ok(topology),
        Err(refusal) => Err(refusal.map_fault(GmlFault::Topo)),
    }
}
