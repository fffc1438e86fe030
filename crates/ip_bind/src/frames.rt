ghost use Rattle.std.specs.Prelude.{◌≡◌, ◌+◌, ◌≤◌, length};
ghost use Rattle.mn_base.specs.Ranges.{IsLinkType};
ghost use Rattle.ip_bind.specs.Frames.{ether_type, address_at, addresses_of_header, addresses_of};

use mn_base::Unbound;
use mn_base::limits::LINK_TYPE_ETHERNET;

/// The length of an Ethernet header, in bytes.
const ETHERNET_HEADER_BYTES: usize = 14;

/// The EtherType of IPv4.
const ETHER_TYPE_IPV4: u16 = 0x0800;

/// The least length of an IPv4 header, in bytes (RFC 791).
const IPV4_HEADER_BYTES: usize = 20;

/// Source and destination of the IPv4 packet (RFC 791) that a frame carries, each with its first byte highest.
///
/// The link type is 1 (Ethernet II), 101 (raw IP) or 228 (IPv4), as pcap numbers them. The frame is the bytes that
/// were captured. It is `Short` where they end within the Ethernet header or within the first 20 bytes of the IPv4
/// header, and `NotIpv4` where the EtherType isn't that of IPv4 or the version isn't 4, whichever is met first.
pub fn addresses(link_type: u32, frame: &[u8]) -> Result<(u32, u32), Unbound>
    requires { IsLinkType link_type }
    ensures { result ≡ addresses_of link_type frame.now }
{
    if link_type != LINK_TYPE_ETHERNET {
        return addresses_of_header(frame);
    }
    if frame.len() < ETHERNET_HEADER_BYTES {
        return Err(Unbound::Short);
    }
    if ether_type(frame) != ETHER_TYPE_IPV4 {
        return Err(Unbound::NotIpv4);
    }
    addresses_of_header(&frame[ETHERNET_HEADER_BYTES..])
}

/// What the Ethernet frame says that it carries.
#[tactic(auto, unfolding(crate::specs::Frames::ether_type))]
fn ether_type(frame: &[u8]) -> u16
    requires { 14 ≤ length frame.now }
    ensures { result ≡ ether_type frame.now }
{
    u16::from_be_bytes([frame[12], frame[13]])
}

/// Source and destination of the header that opens the bytes.
fn addresses_of_header(header: &[u8]) -> Result<(u32, u32), Unbound>
    ensures { result ≡ addresses_of_header header.now }
{
    if header.len() < IPV4_HEADER_BYTES {
        return Err(Unbound::Short);
    }
    if header[0] >> 4 != 4 {
        return Err(Unbound::NotIpv4);
    }
    Ok((address_at(header, 12), address_at(header, 16)))
}

/// The address at a place of the header.
#[tactic(auto, unfolding(crate::specs::Frames::address_at))]
fn address_at(header: &[u8], place: usize) -> u32
    requires { place + 4 ≤ length header.now }
    ensures { result ≡ address_at place header.now }
{
    u32::from_be_bytes([
        header[place],
        header[place + 1],
        header[place + 2],
        header[place + 3],
    ])
}
