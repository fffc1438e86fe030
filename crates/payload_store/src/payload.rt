ghost use Rattle.std.specs.Prelude.{◌≡◌};

use mn_base::Bytes;
use std::marker::Model;

/// The bytes of a packet, out of the store. It isn't `Drop`: it has to be spent, by `into_bytes` or `discard`.
pub struct Payload {
    packet: u32,
    bytes: Bytes,
}

impl Model for Payload {
    ghost use Rattle.payload_store.specs.PayloadView.{PayloadView};

    ghost Value = { PayloadView };

    ghost view = { λ p. record { packet = p.packet; bytes = p.bytes } };
}

impl Payload {
    pub(crate) fn new(packet: u32, bytes: Bytes) -> Payload
        ensures { result ≡ record { packet = packet; bytes = bytes } }
    {
        Payload { packet, bytes }
    }

    /// Whose bytes they are.
    pub fn packet(&self) -> u32
        ensures { result ≡ self.now.packet }
    {
        self.packet
    }

    /// The bytes, for a packet that left.
    pub fn into_bytes(self) -> Bytes
        ensures { result ≡ self.bytes }
    {
        let Payload { packet: _, bytes } = self;
        bytes
    }

    /// Gives the bytes up, for a packet that was dropped.
    pub fn discard(self) {
        let Payload {
            packet: _,
            bytes: _,
        } = self;
    }
}
