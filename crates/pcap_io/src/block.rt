//! Bytes on their way to a host: they are handed over in blocks, since each call of a host costs a call of the system.

ghost use Rattle.std.specs.Prelude.{◌≡◌, ◌≢◌, ◌+◌, ◌≤◌, ◌++◌, [], true, length, OnOk};
ghost use Rattle.mn_edge.specs.declared.role.Role.{Role};
ghost use Rattle.mn_edge.specs.Whole.{AddsWhole};
ghost use Rattle.pcap_io.specs.Buffering.{AddsBuffered};
ghost use Rattle.pcap_io.specs.declared.block.TheConstants.{BLOCK_BYTES};

use mn_edge::{Host, Role, WriteFault, write_all};
use std::marker::Model;

/// How many bytes a block holds, at most.
pub const BLOCK_BYTES: usize = 65_536;

/// Bytes that aren't handed over yet, in one fixed array. Contracts see them as a list.
#[derive(Drop)]
pub struct Block {
    bytes: [u8; BLOCK_BYTES],
    filled: usize,
}

impl Model for Block {
    ghost use Rattle.std.specs.Prelude.{ℕ, List, ◌≤◌, take};
    ghost use Rattle.pcap_io.specs.declared.block.TheConstants.{BLOCK_BYTES};

    ghost Value = { List ℕ };

    ghost view = { λ b. take b.filled b.bytes };

    ghost invariant = { λ b. b.filled ≤ BLOCK_BYTES };
}

impl Block {
    pub fn new() -> Block
        ensures { result ≡ [] }
    {
        Block {
            bytes: [0; BLOCK_BYTES],
            filled: 0,
        }
    }

    fn len(&self) -> usize
        ensures value { result ≡ length self.now }
        ensures bound { result ≤ BLOCK_BYTES }
    {
        self.filled
    }

    fn as_slice(&self) -> &[u8]
        ensures { result.now ≡ self.now }
    {
        &self.bytes[..self.filled]
    }

    fn append(&mut self, piece: &[u8])
        requires { length self.old + length piece.now ≤ BLOCK_BYTES }
        ensures { self.new ≡ self.old ++ piece.now }
    {
        let filled = self.filled;
        self.bytes[filled..filled + piece.len()].copy_from_slice(piece);
        self.filled = filled + piece.len();
    }

    fn clear(&mut self)
        ensures { self.new ≡ [] }
    {
        self.filled = 0;
    }

    /// Puts a piece after the bytes of the block, which are handed over first where the two don't fit together.
    pub fn put<H: Host>(&mut self, host: &mut H, role: Role, piece: &[u8]) -> Result<(), WriteFault>
        requires active { (H.part host.old role).active ≡ true }
        ensures own { AddsBuffered (self.old ++ piece.now) (H.part host.old role) (H.part host.new role) self.new result }
        ensures others { (other : Role) → other ≢ role → H.part host.new other ≡ H.part host.old other }
    {
        if piece.len() > BLOCK_BYTES - self.len() {
            self.flush(host, role)?;
        }
        if piece.len() > BLOCK_BYTES {
            return write_all(host, role, piece);
        }
        self.append(piece);
        Ok(())
    }

    /// Hands over the bytes of the block.
    pub fn flush<H: Host>(&mut self, host: &mut H, role: Role) -> Result<(), WriteFault>
        requires active { (H.part host.old role).active ≡ true }
        ensures own { AddsWhole self.old (H.part host.old role) (H.part host.new role) result }
        ensures others { (other : Role) → other ≢ role → H.part host.new other ≡ H.part host.old other }
        ensures empty { OnOk result (self.new ≡ []) }
    {
        write_all(host, role, self.as_slice())?;
        self.clear();
        Ok(())
    }
}
