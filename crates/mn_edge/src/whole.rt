ghost use Rattle.std.specs.Prelude.{◌≡◌, ◌≢◌, ◌≤◌, true};
ghost use Rattle.mn_edge.specs.declared.role.Role.{Role};
ghost use Rattle.mn_edge.specs.Whole.{ReadsWhole, AddsWhole};

use crate::host::{Host, WriteFault};
use crate::role::Role;
use mn_base::Bytes;
use mn_base::limits::TRACE_BYTES_MAX;
use std::alloc::Global;

/// Why a role was not read to its end.
#[derive(Clone, Copy, Debug, PartialEq, Eq)]
pub enum ReadEnd {
    /// Memory was refused.
    NoMemory,
    /// A call of the host failed.
    Fault,
    /// More bytes came than the limit.
    TooLarge,
}

/// How many bytes one read asks for.
const PIECE: usize = 65_536;

/// Reads an active role to its end. More than `limit` bytes are refused.
pub fn read_all<H: Host>(
    alloc: Global,
    host: &mut H,
    role: Role,
    limit: usize,
) -> Result<Bytes, ReadEnd>
    requires active { (H.part host.old role).active ≡ true }
    requires limit { limit ≤ TRACE_BYTES_MAX }
    ensures own { ReadsWhole limit (H.part host.old role) (H.part host.new role) result }
    ensures others { (other : Role) → other ≢ role → H.part host.new other ≡ H.part host.old other }
{
    let mut bytes = Vec::new(alloc);
    let mut buffer = [0u8; PIECE];
    'pieces: loop {
        let Ok(count) = host.read(role, &mut buffer) else {
            return Err(ReadEnd::Fault);
        };
        if count == 0 {
            return Ok(Bytes::from_vec(bytes));
        }
        if count > limit - bytes.len() {
            return Err(ReadEnd::TooLarge);
        }
        if bytes.extend_from_slice(&buffer[..count]).is_err() {
            return Err(ReadEnd::NoMemory);
        }
    }
}

/// Writes these bytes whole to an active role.
pub fn write_all<H: Host>(host: &mut H, role: Role, text: &[u8]) -> Result<(), WriteFault>
    requires active { (H.part host.old role).active ≡ true }
    ensures own { AddsWhole text.now (H.part host.old role) (H.part host.new role) result }
    ensures others { (other : Role) → other ≢ role → H.part host.new other ≡ H.part host.old other }
{
    let mut rest = text;
    'pieces: while !rest.is_empty() {
        let Ok(count) = host.write(role, rest) else {
            return Err(WriteFault);
        };
        rest = rest.split_at(count).1;
    }
    Ok(())
}
