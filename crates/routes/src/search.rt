ghost use Rattle.std.specs.Prelude.{◌≡◌, ◌<◌, [], IfOk, OnOk, IfSome, IfNone, length};
ghost use Rattle.routes.specs.Table.{home, label_of, IsRoutes};
ghost use Rattle.routes.specs.Search.{settled_of, IsNodeQueue};
ghost use Rattle.routes.specs.Searching.{IsSearching, IsAtRest, Settles, IsAtEnd, Puts, Offers, Relaxes};

use crate::graph::Graph;
use crate::incoming::Incoming;
use crate::label::{Label, entry, is_no_worse};
use crate::node_queue::NodeQueue;
use mn_base::NoMemory;
use std::alloc::Global;

/// A search on its way from the destination back (Dijkstra 1959): nodes are settled nearest first.
#[derive(Drop)]
pub(crate) struct Search {
    pub(crate) destination: u32,
    pub(crate) labels: Vec<Option<Label>>,
    settled: Vec<bool>,
    queue: NodeQueue,
}

impl Search {
    /// The start: only the destination has a label, and no node is settled.
    pub(crate) fn start(alloc: Global, graph: &Graph, destination: u32) -> Result<Search, NoMemory>
        requires { destination < graph.now.nodes }
        ensures destination { IfOk result (λ s. s.destination ≡ destination) }
        ensures started { IfOk result (λ s. IsSearching graph.now s home []) }
    {
        let nodes = graph.nodes() as usize;
        let mut labels = vec![in alloc; None; nodes]?;
        labels[destination as usize] = Some(Label {
            weight: 0,
            hops: 0,
            next: 0,
        });
        let settled = vec![in alloc; false; nodes]?;
        let mut queue = NodeQueue::new(alloc);
        queue.push((0, 0, destination))?;
        Ok(Search {
            destination,
            labels,
            settled,
            queue,
        })
    }

    /// Settles the nearest node that isn't settled and has a label.
    fn settle(&mut self) -> Option<(u32, Label)>
        requires places { length self.old.settled.items ≡ length self.old.labels.items }
        requires queue { IsNodeQueue (label_of self.old.labels.items) (settled_of self.old.settled.items) self.old.queue }
        ensures settles { IfSome result (λ r. Settles self.old self.new r.0 r.1) }
        ensures all { IfNone result (IsAtEnd self.old self.new) }
    {
        let (_, _, node) = self.queue.pop()?;
        let label = self.labels[node as usize]?;
        self.settled[node as usize] = true;
        Some((node, label))
    }

    /// Gives a node a label, and adds its entry.
    fn put(&mut self, node: u32, label: Label) -> Result<(), NoMemory>
        requires { node < length self.old.labels.items }
        ensures { OnOk result (Puts self.old self.new node label) }
    {
        self.queue.push(entry(label, node))?;
        self.labels[node as usize] = Some(label);
        Ok(())
    }

    /// Offers a label to a node, which takes it if it isn't settled and has none or a worse one.
    fn offer(&mut self, node: u32, label: Label) -> Result<(), NoMemory>
        requires node { node < length self.old.labels.items }
        requires places { length self.old.settled.items ≡ length self.old.labels.items }
        requires queue { IsNodeQueue (label_of self.old.labels.items) (settled_of self.old.settled.items) self.old.queue }
        ensures { OnOk result (Offers self.old self.new node label) }
    {
        if self.settled[node as usize] {
            return Ok(());
        }
        match self.labels[node as usize] {
            Some(own) if is_no_worse(own, label) => Ok(()),
            Some(own) => {
                self.queue.remove(entry(own, node));
                self.put(node, label)
            }
            None => self.put(node, label),
        }
    }

    /// Looks at each arc of the row: those into the node that was settled last, which has the label `last`.
    fn relax(&mut self, graph: &Graph, row: &[u32], last: Label) -> Result<(), NoMemory>
        requires { IsSearching graph.now self.old last row.now }
        ensures { OnOk result (Relaxes graph.now self.old self.new last []) }
    {
        for number in row {
            let arc = graph.arc(*number);
            let label = Label {
                weight: arc.weight + last.weight,
                hops: last.hops + 1,
                next: *number,
            };
            self.offer(arc.from, label)?;
        }
        Ok(())
    }

    /// Settles all nodes that reach the destination.
    pub(crate) fn run(&mut self, incoming: &Incoming) -> Result<(), NoMemory>
        requires goal { self.old.destination < incoming.now.nodes }
        requires rest { IsAtRest incoming.now self.old }
        ensures { OnOk result (IsRoutes incoming.now self.new.labels.items self.old.destination) }
    {
        while let Some((node, label)) = self.settle() {
            self.relax(incoming.graph(), incoming.row(node), label)?;
        }
        Ok(())
    }
}
