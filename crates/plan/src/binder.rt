ghost use Rattle.std.specs.Prelude.{◌≡◌, ◌≤◌, ◌<◌, IfOk, OnOk, length};
ghost use Rattle.mn_base.specs.declared.limits.TheConstants.{PACKETS_MAX};
ghost use Rattle.plan.specs.Binding.{ends_of};
ghost use Rattle.plan.specs.Router.{bindings_of, HoldsAnswers};
ghost use Rattle.plan.specs.Answers.{IsAnswer};
ghost use Rattle.plan.specs.Grounds.{AreGrounds};

use crate::router::Router;
use ip_bind::{AddressBook, addresses};
use journal::PacketPlan;
use mn_base::{NoMemory, Unbound, entry_tick};
use ownership::Directory;
use pcap_io::Packet;
use routes::Graph;
use std::alloc::Global;
use std::marker::Model;
use topo::Topology;

/// What the packets of a trace are bound by.
#[derive(Drop)]
pub(crate) struct Binder<'a> {
    pub topology: &'a Topology,
    pub book: AddressBook,
    pub graph: &'a Graph,
    pub directory: &'a Directory,
    pub link_type: u32,
    pub base_ns: u64,
    pub tick_ns: u64,
}

impl<'a> Model for Binder<'a> {
    ghost use Rattle.plan.specs.Grounds.{Grounds, AreGrounds, IsBookOf};

    ghost Value = { Grounds };

    ghost view = { λ b. record {
      nodes = b.topology.now.nodes;
      graph = b.graph.now;
      entries = b.directory.now.entries;
      link_type = b.link_type;
      base_ns = b.base_ns;
      tick_ns = b.tick_ns;
    } };

    ghost invariant = { λ b. AreGrounds (record {
      nodes = b.topology.now.nodes;
      graph = b.graph.now;
      entries = b.directory.now.entries;
      link_type = b.link_type;
      base_ns = b.base_ns;
      tick_ns = b.tick_ns;
    }) × IsBookOf b.topology.now.nodes b.book };
}

impl<'a> Binder<'a> {
    /// The nodes whose addresses a captured frame says, source first, or the first cause why there are none.
    fn ends(&self, frame: &[u8]) -> Result<(u32, u32), Unbound>
        ensures ends { result ≡ ends_of self.now.nodes self.now.link_type frame.now }
        ensures valid { AreGrounds self.now }
    {
        let (source, destination) = addresses(self.link_type, frame)?;
        let source = self.book.find(source).ok_or(Unbound::NoSource)?;
        let destination = self.book.find(destination).ok_or(Unbound::NoDestination)?;
        Ok((source, destination))
    }

    /// A packet of this number as it enters, or why it isn't bound.
    pub(crate) fn bind(
        &self,
        alloc: Global,
        router: &mut Router,
        number: u32,
        packet: &Packet,
    ) -> Result<Result<PacketPlan, Unbound>, NoMemory>
        requires graph { router.old.searches ≡ self.now.graph }
        requires holds { HoldsAnswers router.old }
        requires few { length router.old.uses.items < PACKETS_MAX }
        requires time { self.now.base_ns ≤ packet.now.time_ns }
        ensures graph { router.new.searches ≡ router.old.searches }
        ensures holds { OnOk result (HoldsAnswers router.new) }
        ensures answer { IfOk result (IsAnswer self.now (bindings_of router.old.uses.items) number packet.now (bindings_of router.new.uses.items)) }
    {
        let (source, destination) = match self.ends(packet.bytes.as_slice()) {
            Ok(ends) => ends,
            Err(cause) => return Ok(Err(cause)),
        };
        let route = match router.find(alloc, source, destination)? {
            Ok(route) => route,
            Err(cause) => return Ok(Err(cause)),
        };
        Ok(Ok(PacketPlan {
            number,
            entry_tick: entry_tick(self.base_ns, self.tick_ns, packet.time_ns),
            len: packet.original,
            route,
            core: self.directory.entry(source),
        }))
    }
}
