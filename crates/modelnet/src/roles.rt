ghost use Rattle.std.specs.Prelude.{◌≡◌, ◌≢◌, ◌≤◌, false};
ghost use Rattle.mn_edge.specs.declared.role.Role.{Role};
ghost use Rattle.pcap_io.specs.Writing.{pcap_text};
ghost use Rattle.modelnet.specs.Roles.{input, output, ReadsInput, WritesOutput};

use crate::status::Status;
use mn_base::Bytes;
use mn_base::limits::TRACE_BYTES_MAX;
use mn_edge::{Host, ReadEnd, Role, read_all, write_all};
use pcap_io::{Trace, write_pcap};
use std::alloc::Global;

/// Begins an input under its name, reads it whole and finishes it.
pub fn read_input<H: Host>(
    alloc: Global,
    host: &mut H,
    role: Role,
    name: &str,
    limit: usize,
) -> Result<Bytes, Status>
    requires inactive { (H.part host.old role).active ≡ false }
    requires limit { limit ≤ TRACE_BYTES_MAX }
    ensures own { ReadsInput (input role name.now limit) (H.part host.old role) (H.part host.new role) result }
    ensures others { (other : Role) → other ≢ role → H.part host.new other ≡ H.part host.old other }
{
    let Ok(()) = host.begin(role, name) else {
        return Err(Status::ReadFault(role));
    };
    let bytes = match read_all(alloc, host, role, limit) {
        Ok(bytes) => bytes,
        Err(ReadEnd::NoMemory) => return Err(Status::NoMemory),
        Err(ReadEnd::Fault) => return Err(Status::ReadFault(role)),
        Err(ReadEnd::TooLarge) => return Err(Status::TooLarge(role)),
    };
    let Ok(()) = host.finish(role) else {
        return Err(Status::ReadFault(role));
    };
    Ok(bytes)
}

/// Begins an output under its name, writes these bytes whole and finishes it.
pub fn write_output<H: Host>(
    host: &mut H,
    role: Role,
    name: &str,
    bytes: &[u8],
) -> Result<(), Status>
    requires { (H.part host.old role).active ≡ false }
    ensures own { WritesOutput (output role name.now) bytes.now (H.part host.old role) (H.part host.new role) result }
    ensures others { (other : Role) → other ≢ role → H.part host.new other ≡ H.part host.old other }
{
    let Ok(()) = host.begin(role, name) else {
        return Err(Status::WriteFault(role));
    };
    let Ok(()) = write_all(host, role, bytes) else {
        return Err(Status::WriteFault(role));
    };
    let Ok(()) = host.finish(role) else {
        return Err(Status::WriteFault(role));
    };
    Ok(())
}

/// Begins an output under its name, writes a trace to it as a pcap file and finishes it.
pub fn write_trace<H: Host>(
    host: &mut H,
    role: Role,
    name: &str,
    trace: &Trace,
) -> Result<(), Status>
    requires { (H.part host.old role).active ≡ false }
    ensures own { WritesOutput (output role name.now) (pcap_text trace.now) (H.part host.old role) (H.part host.new role) result }
    ensures others { (other : Role) → other ≢ role → H.part host.new other ≡ H.part host.old other }
{
    let Ok(()) = host.begin(role, name) else {
        return Err(Status::WriteFault(role));
    };
    let Ok(()) = write_pcap(trace, host, role) else {
        return Err(Status::WriteFault(role));
    };
    let Ok(()) = host.finish(role) else {
        return Err(Status::WriteFault(role));
    };
    Ok(())
}
