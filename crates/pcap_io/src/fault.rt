ghost use Rattle.std.specs.Prelude.{Some};

use std::error::Error;
use std::fmt;

/// What is wrong with bytes that are no capture: the first fault from their start.
/// Records are numbered from 0. Its text is that of the line on which the program says it.
#[derive(Clone, Copy, Debug, PartialEq, Eq)]
pub enum PcapFault {
    /// No magic number of pcap opens the file.
    NotPcap,
    /// The file ends within the header of 24 bytes.
    ShortHeader,
    /// The major version, which isn't 2.
    Version(u16),
    /// The link type, which is neither 1, 101 nor 228.
    LinkType(u32),
    /// The file ends within this record.
    Truncated(u32),
    /// This record has more seconds than `RECORD_SECONDS_MAX` of mn_base.
    TimeRange(u32),
    /// This record has a captured or original length of more than `PACKET_BYTES_MAX` bytes.
    TooLong(u32),
    /// There are more than `PACKETS_MAX` records.
    TooMany,
}

impl Error for PcapFault {}

impl fmt::Display for PcapFault {
    ghost use Rattle.pcap_io.specs.FaultTexts.{pcap_fault_text};

    ghost output = { λ fault. Some (pcap_fault_text fault) };

    #[tactic(auto, unfolding(crate::specs::FaultTexts::pcap_fault_text))]
    fn fmt<W: fmt::Write>(&self, f: &mut fmt::Formatter<W>) -> fmt::Result {
        match *self {
            PcapFault::NotPcap => f.write_str("not pcap"),
            PcapFault::ShortHeader => f.write_str("short header"),
            PcapFault::Version(major) => write!(f, "version {major}"),
            PcapFault::LinkType(link_type) => write!(f, "link type {link_type}"),
            PcapFault::Truncated(record) => write!(f, "packet {record} is cut short"),
            PcapFault::TimeRange(record) => write!(f, "time of packet {record} out of range"),
            PcapFault::TooLong(record) => write!(f, "packet {record} is too long"),
            PcapFault::TooMany => f.write_str("too many packets"),
        }
    }
}
