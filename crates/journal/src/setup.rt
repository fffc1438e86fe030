ghost use Rattle.std.specs.Prelude.{◌≡◌, ◌≢◌, ◌+◌, ◌-◌, ◌*◌, ◌<◌, ◌≤◌, length, All, AllPairs};
ghost use Rattle.mn_base.specs.Ranges.{IsTickLength, IsLinkType};
ghost use Rattle.journal.specs.IsSetup.{IsSetup, IsChangeBefore, longest_way};
ghost use Rattle.journal.specs.SetupView.{packet_of};

use mn_base::PipeParams;
use mn_base::limits::{
    CORES_MAX, OUTPUT_NS_END, PACKET_BYTES_MAX, PACKETS_MAX, PIPES_MAX, ROUTE_DELAY_NS_END,
    ROUTE_PIPES_MAX, TIME_NS_END,
};
use std::marker::Model;

/// One bound packet, as it enters.
#[derive(Clone, Copy, Debug, PartialEq, Eq)]
pub struct PacketPlan {
    /// The tick at which it enters.
    pub entry_tick: u64,
    /// The packet's index in the trace, from 0.
    pub number: u32,
    /// Its original length, in bytes.
    pub len: u32,
    /// The index of its route in the list of routes.
    pub route: u32,
    /// The core at which it enters.
    pub core: u32,
}

/// A change of a pipe's parameters.
#[derive(Clone, Copy, Debug, PartialEq, Eq)]
pub struct PipeChange {
    /// The first tick at which it holds.
    pub tick: u64,
    /// The pipe's number.
    pub pipe: u32,
    /// The parameters from that tick on.
    pub params: PipeParams,
}

/// How the loss words of a pipe are numbered.
#[derive(Clone, Copy, Debug, PartialEq, Eq)]
pub enum LossBy {
    /// The place of a visit's word is the packet's number.
    Packet,
    /// The place of a visit's word is the number of earlier visits to the pipe.
    Arrival,
}

/// The parts of a setup.
#[derive(Drop)]
pub struct SetupParts {
    /// The tick length, in ns.
    pub tick_ns: u64,
    /// The seed of the loss words.
    pub seed: u64,
    /// The least time of a record in the trace, in ns.
    pub base_ns: u64,
    /// The link type of the trace: 1, 101 or 228.
    pub link_type: u32,
    /// The number of cores.
    pub cores: u32,
    /// The first parameters of the pipes, by their numbers.
    pub pipes: Vec<PipeParams>,
    /// The core that owns each pipe.
    pub owners: Vec<u32>,
    /// The routes, each a list of pipes.
    pub routes: Vec<Vec<u32>>,
    /// The bound packets, by their numbers.
    pub packets: Vec<PacketPlan>,
    /// The changes of pipes, by tick and then by pipe.
    pub changes: Vec<PipeChange>,
    /// How loss words are numbered.
    pub loss: LossBy,
}

impl Model for SetupParts {
    ghost use Rattle.std.specs.Prelude.{map};
    ghost use Rattle.journal.specs.SetupView.{SetupView};

    ghost Value = { SetupView };

    ghost view = { λ s. record {
      tick_ns = s.tick_ns;
      seed = s.seed;
      base_ns = s.base_ns;
      link_type = s.link_type;
      cores = s.cores;
      pipes = s.pipes.items;
      owners = s.owners.items;
      routes = map (λ r. r.items) s.routes.items;
      packets = s.packets.items;
      changes = s.changes.items;
      loss = s.loss;
    } };
}

/// A setup: what the one journal of a run is made of, within the limits.
#[derive(Drop)]
pub struct Setup {
    parts: SetupParts,
}

impl Model for Setup {
    ghost use Rattle.journal.specs.SetupView.{SetupView};
    ghost use Rattle.mn_base.specs.Ranges.{IsTickLength, IsLinkType};
    ghost use Rattle.journal.specs.IsSetup.{IsSetup};

    ghost Value = { SetupView };

    ghost view = { λ s. s.parts };

    ghost invariant = { λ s. IsSetup s.parts };
}

impl Setup {
    /// The setup of these parts. It checks nothing: each condition is the caller's to know.
    pub fn new(parts: SetupParts) -> Setup
        requires tick { IsTickLength parts.tick_ns }
        requires link_type { IsLinkType parts.link_type }
        requires cores_least { 1 ≤ parts.cores }
        requires cores_most { parts.cores ≤ CORES_MAX }
        requires pipes_most { length parts.pipes ≤ PIPES_MAX }
        requires one_owner { length parts.owners ≡ length parts.pipes }
        requires owners { All (λ core. core < parts.cores) parts.owners }
        requires routes_most { All (λ route. length route ≤ ROUTE_PIPES_MAX) parts.routes }
        requires routes_named { All (λ route. All (λ pipe. pipe < length parts.pipes) route) parts.routes }
        requires routes_distinct { All (λ route. AllPairs (λ a b. a ≢ b) route) parts.routes }
        requires numbers_rise { AllPairs (λ p q. p.number < q.number) parts.packets }
        requires numbers_most { All (λ p. p.number < PACKETS_MAX) parts.packets }
        requires lens_most { All (λ p. p.len ≤ PACKET_BYTES_MAX) parts.packets }
        requires packet_routes { All (λ p. p.route < length parts.routes) parts.packets }
        requires packet_cores { All (λ p. p.core < parts.cores) parts.packets }
        requires changes_rise { AllPairs IsChangeBefore parts.changes }
        requires changes_named { All (λ c. c.pipe < length parts.pipes) parts.changes }
        requires entries_fit { All (λ p. p.entry_tick * parts.tick_ns < TIME_NS_END - ROUTE_DELAY_NS_END) parts.packets }
        requires times_fit { All (λ p. parts.base_ns + p.entry_tick * parts.tick_ns < OUTPUT_NS_END) parts.packets }
        requires delays_fit { All (λ route. longest_way parts route < ROUTE_DELAY_NS_END) parts.routes }
        ensures { result ≡ parts }
    {
        Setup { parts }
    }

    /// Its parts.
    pub fn parts(&self) -> &SetupParts
        ensures same { result.now ≡ self.now }
        ensures kept { IsSetup self.now }
    {
        &self.parts
    }

    /// The packet of a number, if the setup has it.
    ///
    /// Where all packets before it are bound, its index is its number; otherwise it is sought by halves.
    pub fn find(&self, number: u32) -> Option<PacketPlan>
        ensures { result ≡ packet_of self.now number }
    {
        let packets = self.parts().packets.as_slice();
        let index = number as usize;
        if index < packets.len() && packets[index].number == number {
            Some(packets[index])
        } else {
            self.seek(number)
        }
    }

    /// The same by halves.
    fn seek(&self, number: u32) -> Option<PacketPlan>
        ensures { result ≡ packet_of self.now number }
    {
        let packets = self.parts().packets.as_slice();
        let index = packets.partition_point(|packet| packet.number < number);
        if index < packets.len() && packets[index].number == number {
            Some(packets[index])
        } else {
            None
        }
    }
}
