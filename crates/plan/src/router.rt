ghost use Rattle.std.specs.Prelude.{◌≡◌, ◌<◌, [], IfOk, OnOk, length, None};
ghost use Rattle.std.specs.BTreeMap.{IsEmpty};
ghost use Rattle.mn_base.specs.declared.limits.TheConstants.{PACKETS_MAX};
ghost use Rattle.plan.specs.Router.{bindings_of, HoldsAnswers, IsFirstAnswer, IsRouterAnswer};

use crate::searches::Searches;
use crate::uses::Use;
use mn_base::{NoMemory, Unbound};
use routes::Graph;
use std::alloc::Global;
use std::collections::BTreeMap;

/// Routes that are found on demand, the route of each ordered pair of nodes once.
#[derive(Drop)]
pub(crate) struct Router<'g> {
    pub searches: Searches<'g>,
    /// What was answered for a source and a destination: the place of their route among the uses, or why they have none.
    pub answers: BTreeMap<(u32, u32), Result<u32, Unbound>>,
    /// The routes in order of first use.
    pub uses: Vec<Use>,
}

impl<'g> Router<'g> {
    /// A router over a graph of so many nodes, which found no route yet.
    pub(crate) fn new(alloc: Global, graph: &'g Graph, nodes: usize) -> Result<Router<'g>, NoMemory>
        requires { nodes ≡ graph.now.nodes }
        ensures graph { IfOk result (λ router. router.searches ≡ graph.now) }
        ensures unused { IfOk result (λ router. router.uses.items ≡ []) }
        ensures holds { IfOk result HoldsAnswers }
    {
        Ok(Router {
            searches: Searches::new(alloc, graph, nodes)?,
            answers: BTreeMap::new(alloc),
            uses: Vec::new(alloc),
        })
    }

    /// The place among the uses of the route from one node to another, or why they have none.
    pub(crate) fn find(
        &mut self,
        alloc: Global,
        source: u32,
        destination: u32,
    ) -> Result<Result<u32, Unbound>, NoMemory>
        requires holds { HoldsAnswers self.old }
        requires source { source < self.old.searches.nodes }
        requires destination { destination < self.old.searches.nodes }
        requires few { length self.old.uses.items < PACKETS_MAX }
        ensures graph { self.new.searches ≡ self.old.searches }
        ensures holds { OnOk result (HoldsAnswers self.new) }
        ensures answers { IfOk result (IsRouterAnswer self.old.searches.arcs (bindings_of self.old.uses.items) source destination
            (bindings_of self.new.uses.items)) }
    {
        if let Some(answer) = self.answers.get(&(source, destination)).copied() {
            return Ok(answer);
        }
        let answer = self.first(alloc, source, destination)?;
        self.answers.insert((source, destination), answer)?;
        Ok(answer)
    }

    /// The same where nobody asked yet.
    fn first(
        &mut self,
        alloc: Global,
        source: u32,
        destination: u32,
    ) -> Result<Result<u32, Unbound>, NoMemory>
        requires source { source < self.old.searches.nodes }
        requires destination { destination < self.old.searches.nodes }
        requires few { length self.old.uses.items < PACKETS_MAX }
        ensures graph { self.new.searches ≡ self.old.searches }
        ensures answers { self.new.answers ≡ self.old.answers }
        ensures first { IfOk result (IsFirstAnswer self.old.searches.arcs (bindings_of self.old.uses.items) source destination
            (bindings_of self.new.uses.items)) }
    {
        let route = match self.searches.route(alloc, source, destination)? {
            Ok(route) => route,
            Err(cause) => return Ok(Err(cause)),
        };
        let place = self.uses.len() as u32;
        self.uses.push(Use {
            source,
            destination,
            route,
        })?;
        Ok(Ok(place))
    }
}
