ghost use Rattle.std.specs.Prelude.{◌≡◌, ◌<◌, [], IfOk, vec_len};
ghost use Rattle.std.specs.List.{All};
ghost use Rattle.routes.specs.Search.{IsInto};

use crate::graph::Graph;
use mn_base::NoMemory;
use std::alloc::Global;
use std::marker::Model;

/// The arcs that lead to each node of a graph, made once for the routes to many destinations.
#[derive(Debug, Drop)]
pub struct Incoming<'g> {
    graph: &'g Graph,
    rows: Vec<Vec<u32>>,
}

impl<'g> Model for Incoming<'g> {
    ghost use Rattle.routes.specs.GraphView.{GraphView};
    ghost use Rattle.routes.specs.Search.{IsIncoming, lists_of};

    ghost Value = { GraphView };

    ghost view = { λ i. i.graph.now };

    ghost invariant = { λ i. IsIncoming i.graph.now (lists_of i.rows.items) };
}

impl<'g> Incoming<'g> {
    /// The arcs into the nodes of `graph`. It takes time and memory in O(nodes + arcs).
    pub fn new(alloc: Global, graph: &'g Graph) -> Result<Incoming<'g>, NoMemory>
        ensures { IfOk result (λ incoming. incoming ≡ graph.now) }
    {
        let mut rows = empty_rows(alloc, graph.nodes())?;
        for (number, arc) in graph.arcs().iter().enumerate() {
            rows[arc.to as usize].push(number as u32)?;
        }
        Ok(Incoming { graph, rows })
    }

    pub(crate) fn graph(&self) -> &'g Graph
        ensures { result.now ≡ self.now }
    {
        self.graph
    }

    /// The numbers of the arcs that lead to a node.
    pub(crate) fn row(&self, node: u32) -> &[u32]
        requires { node < self.now.nodes }
        ensures { IsInto self.now.arcs node result.now }
    {
        self.rows[node as usize].as_slice()
    }
}

/// A table of so many empty rows.
fn empty_rows(alloc: Global, count: u32) -> Result<Vec<Vec<u32>>, NoMemory>
    ensures len { IfOk result (λ rows. vec_len rows ≡ count) }
    ensures empty { IfOk result (λ rows. All (λ row. row.items ≡ []) rows.items) }
{
    let mut rows = Vec::new(alloc);
    for _row in 0..count {
        rows.push(Vec::new(alloc))?;
    }
    Ok(rows)
}
