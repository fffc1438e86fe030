use mn_base::Bytes;

/// One captured packet.
#[derive(Drop)]
pub struct Packet {
    /// When it was captured, in ns since the epoch of the capture's clock.
    pub time_ns: u64,
    /// How long it was on the wire, in bytes.
    pub original: u32,
    /// The bytes that were captured, which may be fewer or more than `original`.
    pub bytes: Bytes,
}
