ghost use Rattle.std.specs.Prelude.{◌≡◌, ◌≢◌, false};
ghost use Rattle.mn_edge.specs.declared.role.Role.{Role};
ghost use Rattle.mn_edge.specs.declared.role.Role.TheVariants as output;
ghost use Rattle.pcap_io.specs.Writing.{pcap_text};
ghost use Rattle.modelnet.specs.Commands.{Answered, status_of};
ghost use Rattle.modelnet.specs.Writing.{writing_command, run_writings};

use crate::roles::{write_output, write_trace};
use crate::status::Status;
use mn_base::Bytes;
use mn_edge::{Host, Role};
use pcap_io::Trace;

/// What a run writes.
#[derive(Drop)]
pub struct Texts {
    /// The trace of the packets that left.
    pub out: Trace,
    /// The report.
    pub report: Bytes,
    /// What is shown on the screen, if anything is.
    pub screen: Option<Bytes>,
}

/// Writes what a run has made: the trace and the report under these names, and what is shown, one role after the other.
pub fn write_texts<H: Host>(
    out: &str,
    report: &str,
    texts: &Texts,
    host: &mut H,
) -> Result<(), Status>
    requires out { (H.part host.old output.Out).active ≡ false }
    requires report { (H.part host.old output.Report).active ≡ false }
    requires screen { (H.part host.old output.Screen).active ≡ false }
    ensures answered { Answered
        (writing_command (run_writings out.now report.now (pcap_text texts.now.out) texts.now.report texts.now.screen))
        (H.part host.old) (H.part host.new) (status_of result) }
    ensures others { (role : Role) → role ≢ output.Out → role ≢ output.Report → role ≢ output.Screen → H.part host.new role ≡ H.part host.old role }
{
    write_trace(host, Role::Out, out, &texts.out)?;
    write_output(host, Role::Report, report, texts.report.as_slice())?;
    match &texts.screen {
        None => Ok(()),
        Some(text) => write_output(host, Role::Screen, "-", text.as_slice()),
    }
}
