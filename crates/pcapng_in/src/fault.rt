ghost use Rattle.std.specs.Prelude.{Some};

use pcap_io::PcapFault;
use std::error::Error;
use std::fmt;

/// What is wrong with a pcapng file: the first fault from its start. A number is the place of the faulty block: its
/// offset in the file, in bytes. Its text is that of the line on which the program says it.
#[derive(Clone, Copy, Debug, PartialEq, Eq)]
pub enum NgFault {
    /// The file ends within this block.
    Cut(u32),
    /// The byte-order magic of this section header has neither order.
    Magic(u32),
    /// The length isn't a multiple of 4, is too small for the block's type, or isn't that at the block's end.
    Length(u32),
    /// The major version of this section isn't 1.
    Version(u32),
    /// The link type of this interface is none that is read, or isn't that of the first interface of the file.
    LinkType(u32),
    /// An option of this interface runs past its body.
    Options(u32),
    /// The time resolution of this interface isn't one byte, or its unit is neither 10^0 to 10^-18 s nor 2^0 to 2^-63 s.
    Resolution(u32),
    /// There are more than `PACKETS_MAX` packets.
    TooMany,
    /// The section of this packet has no such interface so far.
    Interface(u32),
    /// The time of this packet is at least 3,600,000,001 s.
    TimeRange(u32),
    /// The captured or original length of this packet is above `PACKET_BYTES_MAX`.
    TooLong(u32),
    /// The captured bytes of this packet don't fit into its block.
    Data(u32),
    /// The file has no interface.
    NoInterface,
}

/// What is wrong with a capture, by its format.
#[derive(Clone, Copy, Debug, PartialEq, Eq)]
pub enum CaptureFault {
    /// Of a file that doesn't begin as pcapng does.
    Pcap(PcapFault),
    /// Of a file that begins as pcapng does.
    Ng(NgFault),
}

impl Error for NgFault {}

impl fmt::Display for NgFault {
    ghost use Rattle.pcapng_in.specs.FaultTexts.{ng_fault_text};

    ghost output = { λ fault. Some (ng_fault_text fault) };

    #[tactic(auto, unfolding(crate::specs::FaultTexts::ng_fault_text))]
    fn fmt<W: fmt::Write>(&self, f: &mut fmt::Formatter<W>) -> fmt::Result {
        match *self {
            NgFault::Cut(place) => write!(f, "block at {place} is cut short"),
            NgFault::Magic(place) => write!(f, "byte order at {place}"),
            NgFault::Length(place) => write!(f, "length at {place}"),
            NgFault::Version(place) => write!(f, "version at {place}"),
            NgFault::LinkType(place) => write!(f, "link type at {place}"),
            NgFault::Options(place) => write!(f, "options at {place}"),
            NgFault::Resolution(place) => write!(f, "resolution at {place}"),
            NgFault::TooMany => f.write_str("too many packets"),
            NgFault::Interface(place) => write!(f, "interface at {place}"),
            NgFault::TimeRange(place) => write!(f, "time at {place} out of range"),
            NgFault::TooLong(place) => write!(f, "packet at {place} is too long"),
            NgFault::Data(place) => write!(f, "packet at {place} is cut short"),
            NgFault::NoInterface => f.write_str("no interface"),
        }
    }
}

impl Error for CaptureFault {}

impl fmt::Display for CaptureFault {
    ghost use Rattle.pcapng_in.specs.FaultTexts.{capture_fault_text};

    ghost output = { λ fault. Some (capture_fault_text fault) };

    fn fmt<W: fmt::Write>(&self, f: &mut fmt::Formatter<W>) -> fmt::Result {
        match *self {
            CaptureFault::Pcap(fault) => write!(f, "{fault}"),
            CaptureFault::Ng(fault) => write!(f, "{fault}"),
        }
    }
}
