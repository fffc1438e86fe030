use crate::params::RedParams;
use std::marker::Model;

/// One packet, as it enters. Its number is its index.
#[derive(Clone, Copy, Debug, PartialEq, Eq)]
pub struct RedPacket {
    /// The tick at which it enters.
    pub entry_tick: u64,
    /// Its original length, in bytes.
    pub len: u32,
}

/// Pipes in a row, and the packets that go through all of them in order.
#[derive(Drop)]
pub struct RedSetup {
    /// The tick length, in ns.
    pub tick_ns: u64,
    /// The seed of the loss words and of the early words.
    pub seed: u64,
    /// The pipes, in the order of the row.
    pub pipes: Vec<RedParams>,
    /// The packets, by their numbers.
    pub packets: Vec<RedPacket>,
}

impl Model for RedSetup {
    ghost use Rattle.red_queue.specs.SetupView.{RedSetupView};

    ghost Value = { RedSetupView };

    ghost view = { λ s. record {
      tick_ns = s.tick_ns;
      seed = s.seed;
      pipes = s.pipes.items;
      packets = s.packets.items;
    } };
}
