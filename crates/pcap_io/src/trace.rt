ghost use Rattle.std.specs.Prelude.{◌≡◌, ◌≤◌, All};
ghost use Rattle.pcap_io.specs.Capture.{Capture, IsTrace, trace_base};

use crate::packet::Packet;
use std::marker::Model;

/// A capture: its link type and its packets, in the order of the file.
///
/// The link type is 1 (Ethernet), 101 (raw IP) or 228 (IPv4), and each packet is within the limits: at most `PACKETS_MAX`
/// packets, each with a time below 2^32 s and at most `PACKET_BYTES_MAX` bytes, both captured and original.
#[derive(Drop)]
pub struct Trace {
    link_type: u32,
    packets: Vec<Packet>,
}

impl Model for Trace {
    ghost use Rattle.pcap_io.specs.Capture.{Capture, IsTrace};

    ghost Value = { Capture };

    ghost view = { λ t. record { link_type = t.link_type; packets = t.packets.items } };

    ghost invariant = { λ t. IsTrace (record { link_type = t.link_type; packets = t.packets.items }) };
}

impl Trace {
    /// A trace of these packets, with no memory taken.
    pub fn new(link_type: u32, packets: Vec<Packet>) -> Trace
        requires { IsTrace (record { link_type = link_type; packets = packets.items }) }
        ensures { result ≡ record { link_type = link_type; packets = packets.items } }
    {
        Trace { link_type, packets }
    }

    /// The link type, as pcap numbers them (https://www.tcpdump.org/linktypes.html).
    pub fn link_type(&self) -> u32
        ensures value { result ≡ self.now.link_type }
        ensures within { IsTrace self.now }
    {
        self.link_type
    }

    /// Lends the packets.
    pub fn packets(&self) -> &[Packet]
        ensures value { result.now ≡ self.now.packets }
        ensures within { IsTrace self.now }
    {
        self.packets.as_slice()
    }

    /// The time base of a run on this trace: the least time of all records, in ns since the epoch, or 0 where there is none.
    pub fn time_base(&self) -> u64
        ensures value { result ≡ trace_base self.now }
        ensures least { All (λ packet. result ≤ packet.time_ns) self.now.packets }
    {
        let Some((first, others)) = self.packets.as_slice().split_first() else {
            return 0;
        };
        let mut least = first.time_ns;
        'others: for packet in others {
            least = least.min(packet.time_ns);
        }
        least
    }

    /// The packets themselves, with no memory taken.
    pub fn into_packets(self) -> Vec<Packet>
        ensures value { result.items ≡ self.packets }
        ensures within { IsTrace self }
    {
        self.packets
    }
}
