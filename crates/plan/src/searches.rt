ghost use Rattle.std.specs.Prelude.{◌≡◌, ◌<◌, IfOk, All, vec_len, None};
ghost use Rattle.plan.specs.Searches.{FindsRoute};

use mn_base::limits::ROUTE_PIPES_MAX;
use mn_base::{NoMemory, Unbound};
use routes::{Graph, Incoming, Routes};
use std::alloc::Global;
use std::marker::Model;

/// The searches of a graph: a destination is searched for once, when a route to it is first asked for. Contracts see the graph.
#[derive(Drop)]
pub(crate) struct Searches<'g> {
    incoming: Incoming<'g>,
    /// The routes to each node that was a destination.
    found: Vec<Option<Routes<'g>>>,
}

impl<'g> Model for Searches<'g> {
    ghost use Rattle.routes.specs.GraphView.{GraphView};
    ghost use Rattle.plan.specs.Searches.{AreSearches};

    ghost Value = { GraphView };

    ghost view = { λ s. s.incoming };

    ghost invariant = { λ s. AreSearches s.incoming s.found.items };
}

impl<'g> Searches<'g> {
    /// The searches of a graph of so many nodes, none of which was made.
    pub(crate) fn new(
        alloc: Global,
        graph: &'g Graph,
        nodes: usize,
    ) -> Result<Searches<'g>, NoMemory>
        requires { nodes ≡ graph.now.nodes }
        ensures { IfOk result (λ searches. searches ≡ graph.now) }
    {
        let incoming = Incoming::new(alloc, graph)?;
        let found = none_found(alloc, nodes)?;
        Ok(Searches { incoming, found })
    }

    /// The pipes of the route from one node to another, or why there is none.
    pub(crate) fn route(
        &mut self,
        alloc: Global,
        source: u32,
        destination: u32,
    ) -> Result<Result<Vec<u32>, Unbound>, NoMemory>
        requires source { source < self.old.nodes }
        requires destination { destination < self.old.nodes }
        ensures graph { self.new ≡ self.old }
        ensures route { IfOk result (FindsRoute self.old.arcs source destination) }
    {
        if let Some(routes) = &self.found[destination as usize] {
            return route_by(alloc, routes, source);
        }
        let routes = Routes::by_incoming(alloc, &self.incoming, destination)?;
        let route = route_by(alloc, &routes, source)?;
        self.found[destination as usize] = Some(routes);
        Ok(route)
    }
}

/// A table of so many destinations that nobody asked for.
fn none_found<'g>(alloc: Global, nodes: usize) -> Result<Vec<Option<Routes<'g>>>, NoMemory>
    ensures len { IfOk result (λ found. vec_len found ≡ nodes) }
    ensures none { IfOk result (λ found. All (λ routes. routes ≡ None) found.items) }
{
    let mut found = Vec::new(alloc);
    for _node in 0..nodes {
        found.push(None)?;
    }
    Ok(found)
}

/// The pipes of the route from a node, or why there is none.
fn route_by(
    alloc: Global,
    routes: &Routes,
    source: u32,
) -> Result<Result<Vec<u32>, Unbound>, NoMemory>
    requires { source < routes.now.graph.nodes }
    ensures { IfOk result (FindsRoute routes.now.graph.arcs source routes.now.destination) }
{
    let Some(walk) = routes.walk(alloc, source)? else {
        return Ok(Err(Unbound::NoRoute));
    };
    if walk.len() > ROUTE_PIPES_MAX {
        return Ok(Err(Unbound::TooFar));
    }
    Ok(Ok(walk))
}
