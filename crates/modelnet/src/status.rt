ghost use Rattle.std.specs.Prelude.{◌≡◌};
ghost use Rattle.modelnet.specs.Statuses.{status_number};

use distill::TooManyPipes;
use gml_reader::GmlFault;
use journal_check::JournalFault;
use mn_base::Refusal;
use mn_edge::Role;
use mn_words::WordsFault;
use pcap_io::PcapFault;
use pcapng_in::{CaptureFault, NgFault};
use plan::PlanFault;

/// How a command ended.
#[derive(Clone, Copy, Debug, PartialEq, Eq)]
pub enum Status {
    /// All was read to its end and written.
    Done,
    /// Memory was refused; nothing was written.
    NoMemory,
    /// The command line is invalid.
    BadWords(WordsFault),
    /// The topology is no GML text that gives one; this is its first fault.
    BadTopology(GmlFault),
    /// The trace is no pcap file, nor does it begin as a pcapng file; this is its first fault.
    BadTrace(PcapFault),
    /// No run can be planned on the topology, or not with the directory.
    BadPlan(PlanFault),
    /// A call of the host on this input role failed.
    ReadFault(Role),
    /// A call of the host on this output role failed.
    WriteFault(Role),
    /// More bytes of this role came than its limit.
    TooLarge(Role),
    /// The journal isn't that of the plan; this is where it first differs.
    BadJournal(JournalFault),
    /// The move of this number, from 0, is the first that names no pipe of the plan.
    BadMove(u32),
    /// The trace begins as a pcapng file, and this is its first fault.
    BadCapture(NgFault),
}

impl From<Refusal<CaptureFault>> for Status {
    ghost use Rattle.std.specs.Prelude.{◌≡◌};
    ghost use Rattle.modelnet.specs.Statuses.{trace_refusal};

    ghost from_gives = { λ refusal status. status ≡ trace_refusal refusal };

    fn from(refusal: Refusal<CaptureFault>) -> Status {
        match refusal {
            Refusal::NoMemory => Status::NoMemory,
            Refusal::Fault(CaptureFault::Pcap(fault)) => Status::BadTrace(fault),
            Refusal::Fault(CaptureFault::Ng(fault)) => Status::BadCapture(fault),
        }
    }
}

impl From<Refusal<GmlFault>> for Status {
    ghost use Rattle.std.specs.Prelude.{◌≡◌};
    ghost use Rattle.modelnet.specs.Statuses.{topology_refusal};

    ghost from_gives = { λ refusal status. status ≡ topology_refusal refusal };

    fn from(refusal: Refusal<GmlFault>) -> Status {
        match refusal {
            Refusal::NoMemory => Status::NoMemory,
            Refusal::Fault(fault) => Status::BadTopology(fault),
        }
    }
}

impl From<Refusal<TooManyPipes>> for Status {
    ghost use Rattle.std.specs.Prelude.{◌≡◌};
    ghost use Rattle.modelnet.specs.Statuses.{pipes_refusal};

    ghost from_gives = { λ refusal status. status ≡ pipes_refusal refusal };

    fn from(refusal: Refusal<TooManyPipes>) -> Status {
        match refusal {
            Refusal::NoMemory => Status::NoMemory,
            Refusal::Fault(TooManyPipes { count }) => {
                Status::BadPlan(PlanFault::TooManyPipes(count))
            }
        }
    }
}

impl From<Refusal<PlanFault>> for Status {
    ghost use Rattle.std.specs.Prelude.{◌≡◌};
    ghost use Rattle.modelnet.specs.Statuses.{plan_refusal};

    ghost from_gives = { λ refusal status. status ≡ plan_refusal refusal };

    fn from(refusal: Refusal<PlanFault>) -> Status {
        match refusal {
            Refusal::NoMemory => Status::NoMemory,
            Refusal::Fault(fault) => Status::BadPlan(fault),
        }
    }
}

impl From<Refusal<JournalFault>> for Status {
    ghost use Rattle.std.specs.Prelude.{◌≡◌};
    ghost use Rattle.modelnet.specs.Statuses.{journal_refusal};

    ghost from_gives = { λ refusal status. status ≡ journal_refusal refusal };

    fn from(refusal: Refusal<JournalFault>) -> Status {
        match refusal {
            Refusal::NoMemory => Status::NoMemory,
            Refusal::Fault(fault) => Status::BadJournal(fault),
        }
    }
}

impl Status {
    /// The number with which the program ends.
    pub fn number(&self) -> u8
        ensures number { result ≡ status_number self.now }
    {
        match self {
            Status::Done => 0,
            Status::NoMemory => 1,
            Status::BadWords(_) => 2,
            Status::BadTopology(_) => 3,
            Status::BadTrace(_) => 4,
            Status::BadPlan(_) => 5,
            Status::ReadFault(_) => 6,
            Status::WriteFault(_) => 7,
            Status::TooLarge(_) => 8,
            Status::BadJournal(_) => 9,
            Status::BadMove(_) => 10,
            Status::BadCapture(_) => 11,
        }
    }
}
