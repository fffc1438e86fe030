ghost use Rattle.std.specs.Prelude.{◌≡◌, ◌≢◌, ◌*◌, ◌^◌, ◌<◌, ◌≤◌, ◌++◌, true, All, length};
ghost use Rattle.std.specs.List.{flat_map};
ghost use Rattle.mn_edge.specs.declared.role.Role.{Role};
ghost use Rattle.mn_edge.specs.Whole.{AddsWhole};
ghost use Rattle.pcap_io.specs.Buffering.{AddsBuffered};
ghost use Rattle.pcap_io.specs.Capture.{IsPacket};
ghost use Rattle.pcap_io.specs.Writing.{header_text, record_header_text, record_text, pcap_text};

use crate::block::Block;
use crate::packet::Packet;
use crate::trace::Trace;
use mn_base::limits::PACKET_BYTES_MAX;
use mn_edge::{Host, Role, WriteFault};

/// The header of a capture that is written: little-endian, in ns, version 2.4.
#[tactic(auto, unfolding(crate::specs::Writing::header_text))]
fn header(link_type: u32) -> [u8; 24]
    ensures { result ≡ header_text link_type }
{
    let [s0, s1, s2, s3] = PACKET_BYTES_MAX.to_le_bytes();
    let [l0, l1, l2, l3] = link_type.to_le_bytes();
    [
        0x4d, 0x3c, 0xb2, 0xa1, 2, 0, 4, 0, 0, 0, 0, 0, 0, 0, 0, 0, s0, s1, s2, s3, l0, l1, l2, l3,
    ]
}

/// The header of a record, whose captured bytes follow.
#[tactic(auto, unfolding(crate::specs::Writing::record_header_text))]
fn record_header(packet: &Packet) -> [u8; 16]
    requires { IsPacket packet.now }
    ensures { result ≡ record_header_text packet.now }
{
    let time_ns = packet.time_ns;
    let seconds = (time_ns / 1_000_000_000) as u32;
    let fraction = (time_ns % 1_000_000_000) as u32;
    let captured = packet.bytes.as_slice().len() as u32;
    let [s0, s1, s2, s3] = seconds.to_le_bytes();
    let [f0, f1, f2, f3] = fraction.to_le_bytes();
    let [c0, c1, c2, c3] = captured.to_le_bytes();
    let [o0, o1, o2, o3] = packet.original.to_le_bytes();
    [
        s0, s1, s2, s3, f0, f1, f2, f3, c0, c1, c2, c3, o0, o1, o2, o3,
    ]
}

fn write_record<H: Host>(
    block: &mut Block,
    host: &mut H,
    role: Role,
    packet: &Packet,
) -> Result<(), WriteFault>
    requires active { (H.part host.old role).active ≡ true }
    requires within { IsPacket packet.now }
    ensures own { AddsBuffered (block.old ++ record_text packet.now) (H.part host.old role) (H.part host.new role) block.new result }
    ensures others { (other : Role) → other ≢ role → H.part host.new other ≡ H.part host.old other }
{
    block.put(host, role, &record_header(packet))?;
    block.put(host, role, packet.bytes.as_slice())
}

fn write_records<H: Host>(
    block: &mut Block,
    host: &mut H,
    role: Role,
    packets: &[Packet],
) -> Result<(), WriteFault>
    requires active { (H.part host.old role).active ≡ true }
    requires within { All IsPacket packets.now }
    ensures own { AddsBuffered (block.old ++ flat_map record_text packets.now) (H.part host.old role) (H.part host.new role) block.new result }
    ensures others { (other : Role) → other ≢ role → H.part host.new other ≡ H.part host.old other }
{
    'packets: for packet in packets {
        write_record(block, host, role, packet)?;
    }
    Ok(())
}

/// Writes a trace to an active role, as a little-endian capture of version 2.4 in ns. It takes no memory.
///
/// The bytes go through one array of 64 KiB, so that the host is called once for that many.
/// A `WriteFault` comes only where the role's count of faults rose, and then a front of the file was written.
pub fn write_pcap<H: Host>(trace: &Trace, host: &mut H, role: Role) -> Result<(), WriteFault>
    requires { (H.part host.old role).active ≡ true }
    ensures own { AddsWhole (pcap_text trace.now) (H.part host.old role) (H.part host.new role) result }
    ensures others { (other : Role) → other ≢ role → H.part host.new other ≡ H.part host.old other }
{
    let mut block = Block::new();
    block.put(host, role, &header(trace.link_type()))?;
    write_records(&mut block, host, role, trace.packets())?;
    block.flush(host, role)
}
