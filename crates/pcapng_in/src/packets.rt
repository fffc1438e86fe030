ghost use Rattle.std.specs.Prelude.{◌≡◌, ◌+◌, ◌-◌, ◌*◌, ◌^◌, ◌/◌, ◌<◌, ◌≤◌, nat_lt, nat_le, length, All, Some, None, if◌then◌else◌};
ghost use Rattle.pcap_io.specs.declared.form.ByteOrder.{ByteOrder};
ghost use Rattle.pcapng_in.specs.Options.{padded};
ghost use Rattle.pcapng_in.specs.Packets.{HasRate, time_in_ns, is_too_long, simple_captured, ReadsEnhanced, ReadsSimple};
ghost use Rattle.pcapng_in.specs.declared.packets.TheConstants.{CAPTURE_NS_END};

use crate::fault::NgFault;
use crate::interface::Interface;
use mn_base::limits::{PACKET_BYTES_MAX, PACKETS_MAX, RECORD_SECONDS_MAX};
use pcap_io::ByteOrder;

/// The time of a packet is below this, in ns: its seconds are at most `RECORD_SECONDS_MAX`.
pub const CAPTURE_NS_END: u64 = (RECORD_SECONDS_MAX as u64 + 1) * 1_000_000_000;

/// What a packet's block says besides its bytes: a time in ns, and two lengths in bytes.
#[derive(Clone, Copy)]
pub struct PacketHeader {
    pub time_ns: u64,
    pub captured: u32,
    pub original: u32,
}

/// A time of two halves, in units of which so many are a second, in ns, rounded down once.
fn time_in_ns(high: u32, low: u32, per_second: u64) -> u128
    requires { 1 ≤ per_second }
    ensures { result ≡ time_in_ns high low per_second }
{
    let units = u128::from(high) * 4_294_967_296 + u128::from(low);
    units * 1_000_000_000 / u128::from(per_second)
}

fn is_too_long(captured: u32, original: u32) -> bool
    ensures { result ≡ is_too_long captured original }
{
    captured > PACKET_BYTES_MAX || original > PACKET_BYTES_MAX
}

/// A length with its padding to a multiple of 4 bytes.
fn padded(len: u32) -> u64
    ensures value { result ≡ padded len }
    ensures more { len ≤ result }
{
    u64::from(len).div_ceil(4) * 4
}

/// Reads the enhanced packet block of so many bytes that opens the text, after so many packets and these interfaces of its section.
pub fn read_enhanced(
    place: u32,
    count: usize,
    interfaces: &[Interface],
    order: ByteOrder,
    len: u32,
    text: &[u8],
) -> Result<PacketHeader, NgFault>
    requires least { 32 ≤ len }
    requires whole { len ≤ length text.now }
    requires rates { All HasRate interfaces.now }
    ensures { ReadsEnhanced place count interfaces.now order len text.now result }
{
    if count == PACKETS_MAX {
        return Err(NgFault::TooMany);
    }
    let number = order.word(text, 8) as usize;
    if number >= interfaces.len() {
        return Err(NgFault::Interface(place));
    }
    let interface = interfaces[number];
    let time = time_in_ns(
        order.word(text, 12),
        order.word(text, 16),
        interface.per_second,
    );
    if time >= u128::from(CAPTURE_NS_END) {
        return Err(NgFault::TimeRange(place));
    }
    let captured = order.word(text, 20);
    let original = order.word(text, 24);
    if is_too_long(captured, original) {
        return Err(NgFault::TooLong(place));
    }
    if padded(captured) > u64::from(len - 32) {
        return Err(NgFault::Data(place));
    }
    Ok(PacketHeader {
        time_ns: time as u64,
        captured,
        original,
    })
}

/// The captured length of a simple packet, which the interface's snaplen bounds.
fn simple_captured(original: u32, snaplen: u32) -> u32
    ensures { result ≡ simple_captured original snaplen }
{
    if snaplen == 0 {
        original
    } else {
        original.min(snaplen)
    }
}

/// Reads the simple packet block of so many bytes that opens the text. Its time is that of the packet before it.
pub fn read_simple(
    place: u32,
    count: usize,
    interfaces: &[Interface],
    last_ns: u64,
    order: ByteOrder,
    len: u32,
    text: &[u8],
) -> Result<PacketHeader, NgFault>
    requires least { 16 ≤ len }
    requires whole { len ≤ length text.now }
    ensures { ReadsSimple place count interfaces.now last_ns order len text.now result }
{
    if count == PACKETS_MAX {
        return Err(NgFault::TooMany);
    }
    if interfaces.is_empty() {
        return Err(NgFault::Interface(place));
    }
    let interface = interfaces[0];
    let original = order.word(text, 8);
    let captured = simple_captured(original, interface.snaplen);
    if is_too_long(captured, original) {
        return Err(NgFault::TooLong(place));
    }
    if padded(captured) > u64::from(len - 16) {
        return Err(NgFault::Data(place));
    }
    Ok(PacketHeader {
        time_ns: last_ns,
        captured,
        original,
    })
}
