ghost use Rattle.std.specs.Prelude.{◌≡◌, ◌≢◌, ℕ, ◌<◌, ◌↔◌, List, length, IsTrue, IsNone, IfSome, IfOk, All, AllPairs};
ghost use Rattle.routes.specs.Walk.{IsWalk};
ghost use Rattle.routes.specs.LeastWalk.{IsNoGreater, IsLeastWalk};

use crate::graph::Graph;
use crate::incoming::Incoming;
use crate::label::Label;
use crate::search::Search;
use mn_base::NoMemory;
use std::alloc::Global;
use std::marker::Model;

/// The least walks from each node of a graph to one destination.
///
/// Walks are compared by the sum of their weights, then by their number of arcs, then by their lists of arc numbers in
/// lexicographic order. Each node keeps only the first arc of its walk: what follows is the walk of that arc's end.
#[derive(Debug, Drop)]
pub struct Routes<'g> {
    graph: &'g Graph,
    labels: Vec<Option<Label>>,
    destination: u32,
}

impl<'g> Model for Routes<'g> {
    ghost use Rattle.routes.specs.RoutesView.{RoutesView};
    ghost use Rattle.routes.specs.Table.{IsRoutes};

    ghost Value = { RoutesView };

    ghost view = { λ r. record { graph = r.graph.now; destination = r.destination } };

    ghost invariant = { λ r. IsRoutes r.graph.now r.labels.items r.destination };
}

impl<'g> Routes<'g> {
    /// The routes of `graph` to one of its nodes. For many destinations make the graph's [`Incoming`] once, and take
    /// [`Routes::by_incoming`].
    pub fn toward(alloc: Global, graph: &'g Graph, destination: u32) -> Result<Routes<'g>, NoMemory>
        requires { destination < graph.now.nodes }
        ensures graph { IfOk result (λ routes. routes.graph ≡ graph.now) }
        ensures destination { IfOk result (λ routes. routes.destination ≡ destination) }
    {
        let incoming = Incoming::new(alloc, graph)?;
        Routes::by_incoming(alloc, &incoming, destination)
    }

    /// The routes to one node of a graph whose incoming arcs were made before.
    ///
    /// Nodes are settled from the destination on, nearest first (Dijkstra 1959). Of two walks of equal weight and equally
    /// many arcs a node keeps the one with the lesser first arc: what follows their first arcs was compared before, so lists
    /// of arcs are compared without being built. It takes time in O((nodes + arcs) · log nodes), and memory in O(nodes).
    pub fn by_incoming(
        alloc: Global,
        incoming: &Incoming<'g>,
        destination: u32,
    ) -> Result<Routes<'g>, NoMemory>
        requires { destination < incoming.now.nodes }
        ensures graph { IfOk result (λ routes. routes.graph ≡ incoming.now) }
        ensures destination { IfOk result (λ routes. routes.destination ≡ destination) }
    {
        let graph = incoming.graph();
        let mut search = Search::start(alloc, graph, destination)?;
        search.run(incoming)?;
        Ok(Routes {
            graph,
            labels: search.labels,
            destination,
        })
    }

    /// Whether a walk leads from `source` to the destination, without building it. Where one does, one is least.
    pub fn reaches(&self, source: u32) -> bool
        requires { source < self.now.graph.nodes }
        ensures walk { IsTrue result ↔ ((walk : List ℕ) × IsWalk self.now.graph.arcs source self.now.destination walk) }
        ensures least { IsTrue result ↔ ((walk : List ℕ) × IsLeastWalk self.now.graph.arcs source self.now.destination walk) }
    {
        self.labels[source as usize].is_some()
    }

    /// The least walk from `source` to the destination, as the numbers of its arcs, or `None` where no walk exists. It
    /// is empty from the destination itself.
    ///
    /// It takes time in proportion to the length of the walk.
    pub fn walk(&self, alloc: Global, source: u32) -> Result<Option<Vec<u32>>, NoMemory>
        requires { source < self.now.graph.nodes }
        ensures walk { IfOk result (λ found. IfSome found (λ walk.
            IsWalk self.now.graph.arcs source self.now.destination walk.items)) }
        ensures least { IfOk result (λ found. IfSome found (λ walk. (other : List ℕ)
            → IsWalk self.now.graph.arcs source self.now.destination other
            → IsNoGreater self.now.graph.arcs walk.items other)) }
        ensures none { IfOk result (λ found. IsNone found
            ↔ ((other : List ℕ) → ¬ IsWalk self.now.graph.arcs source self.now.destination other)) }
        ensures short { IfOk result (λ found. IfSome found (λ walk. length walk.items < self.now.graph.nodes)) }

        // Its arcs are arcs of the graph, and pairwise different.
        ensures named { IfOk result (λ found. IfSome found (λ walk. All (λ e. e < length self.now.graph.arcs) walk.items)) }
        ensures distinct { IfOk result (λ found. IfSome found (λ walk. AllPairs (λ a b. a ≢ b) walk.items)) }
    {
        let Some(first) = self.labels[source as usize] else {
            return Ok(None);
        };
        let graph = self.graph;
        let mut walk = Vec::new(alloc);
        let mut node = source;
        for _step in 0..first.hops {
            let Some(label) = self.labels[node as usize] else {
                unreachable!()
            };
            walk.push(label.next)?;
            node = graph.arc(label.next).to;
        }
        Ok(Some(walk))
    }
}
