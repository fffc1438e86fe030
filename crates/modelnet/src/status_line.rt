ghost use Rattle.std.specs.Prelude.{◌≡◌, string_bytes, IfOk};
ghost use Rattle.modelnet.specs.StatusTexts.{assign_fault_text, changes_fault_text, journal_fault_text, opt_name, plan_fault_text, role_name, words_fault_text, status_text};

use crate::status::Status;
use changes::ChangesFault;
use journal_check::JournalFault;
use mn_base::{Bytes, NoMemory};
use mn_edge::Role;
use mn_words::{Opt, WordsFault};
use ownership::AssignFault;
use plan::PlanFault;
use std::alloc::{AllocError, Global};

/// The line that tells how a command ended, with a line feed at its end. `Done` has no line, and its text is empty.
///
/// A trace whose first record is cut short gives `modelnet: trace: packet 0 is cut short`.
pub fn status_line(alloc: Global, status: &Status) -> Result<Bytes, NoMemory>
    ensures line { IfOk result (λ line. line ≡ status_text status.now) }
{
    let line = line_of(alloc, *status)?;
    Ok(Bytes::from_vec(line.into_bytes()))
}

#[tactic(auto, unfolding(crate::specs::StatusTexts::status_text))]
fn line_of(alloc: Global, status: Status) -> Result<String, AllocError>
    ensures { IfOk result (λ line. string_bytes line ≡ status_text status) }
{
    match status {
        Status::Done => Ok(String::new(alloc)),
        Status::NoMemory => String::from_str(alloc, "modelnet: no memory\n"),
        Status::BadWords(fault) => {
            let text = words_fault_text(alloc, fault)?;
            format!(in alloc; "modelnet: {text}\n")
        }
        Status::BadTopology(fault) => format!(in alloc; "modelnet: topology: {fault}\n"),
        Status::BadTrace(fault) => format!(in alloc; "modelnet: trace: {fault}\n"),
        Status::BadJournal(fault) => {
            let text = journal_fault_text(alloc, fault)?;
            format!(in alloc; "modelnet: journal: {text}\n")
        }
        Status::BadMove(number) => format!(in alloc; "modelnet: no pipe of move {number}\n"),
        Status::BadCapture(fault) => format!(in alloc; "modelnet: trace: {fault}\n"),
        Status::BadPlan(fault) => {
            let text = plan_fault_text(alloc, fault)?;
            format!(in alloc; "modelnet: {text}\n")
        }
        Status::ReadFault(role) => {
            let role = role_name(role);
            format!(in alloc; "modelnet: cannot read {role}\n")
        }
        Status::WriteFault(role) => {
            let role = role_name(role);
            format!(in alloc; "modelnet: cannot write {role}\n")
        }
        Status::TooLarge(role) => {
            let role = role_name(role);
            format!(in alloc; "modelnet: {role} is too large\n")
        }
    }
}

#[tactic(auto, unfolding(crate::specs::StatusTexts::words_fault_text))]
fn words_fault_text(alloc: Global, fault: WordsFault) -> Result<String, AllocError>
    ensures { IfOk result (λ text. string_bytes text ≡ words_fault_text fault) }
{
    match fault {
        WordsFault::Command => String::from_str(alloc, "no such command"),
        WordsFault::Form => String::from_str(alloc, "bad words"),
        WordsFault::Value(opt) => {
            let name = opt_name(opt);
            format!(in alloc; "bad value of {name}")
        }
    }
}

#[tactic(auto, unfolding(crate::specs::StatusTexts::plan_fault_text))]
fn plan_fault_text(alloc: Global, fault: PlanFault) -> Result<String, AllocError>
    ensures { IfOk result (λ text. string_bytes text ≡ plan_fault_text fault) }
{
    match fault {
        PlanFault::TooManyPipes(count) => format!(in alloc; "plan: {count} pipes"),
        PlanFault::Changes(fault) => {
            let text = changes_fault_text(alloc, fault)?;
            format!(in alloc; "directory: {text}")
        }
        PlanFault::Assign(fault) => {
            let text = assign_fault_text(alloc, fault)?;
            format!(in alloc; "directory: {text}")
        }
    }
}

#[tactic(auto, unfolding(crate::specs::StatusTexts::changes_fault_text))]
fn changes_fault_text(alloc: Global, fault: ChangesFault) -> Result<String, AllocError>
    ensures { IfOk result (λ text. string_bytes text ≡ changes_fault_text fault) }
{
    match fault {
        ChangesFault::Head => String::from_str(alloc, "bad head"),
        ChangesFault::Count => String::from_str(alloc, "wrong number of lines"),
        ChangesFault::Line(n) => format!(in alloc; "bad line {n}"),
        ChangesFault::Range(n) => format!(in alloc; "range in line {n}"),
        ChangesFault::Order(n) => format!(in alloc; "order in line {n}"),
    }
}

#[tactic(auto, unfolding(crate::specs::StatusTexts::assign_fault_text))]
fn assign_fault_text(alloc: Global, fault: AssignFault) -> Result<String, AllocError>
    ensures { IfOk result (λ text. string_bytes text ≡ assign_fault_text fault) }
{
    match fault {
        AssignFault::Head => String::from_str(alloc, "bad head"),
        AssignFault::Line(n) => format!(in alloc; "bad line {n}"),
        AssignFault::Core(n) => format!(in alloc; "bad core in line {n}"),
        AssignFault::Twice(n) => format!(in alloc; "second owner in line {n}"),
        AssignFault::Missing(pipe) => format!(in alloc; "no owner of pipe {pipe}"),
    }
}

#[tactic(auto, unfolding(crate::specs::StatusTexts::journal_fault_text))]
fn journal_fault_text(alloc: Global, fault: JournalFault) -> Result<String, AllocError>
    ensures { IfOk result (λ text. string_bytes text ≡ journal_fault_text fault) }
{
    match fault {
        JournalFault::Line(n) => format!(in alloc; "line {n} differs"),
        JournalFault::Short(n) => format!(in alloc; "ends after {n} lines"),
    }
}

fn opt_name(opt: Opt) -> &'static str
    ensures { result.now ≡ opt_name opt }
{
    match opt {
        Opt::Mode => "--mode",
        Opt::Cores => "--cores",
        Opt::Seed => "--seed",
        Opt::TickNs => "--tick-ns",
        Opt::ClusterReport => "--cluster-report",
        Opt::Order => "--order",
        Opt::Turns => "--turns",
        Opt::Number => "--number",
        Opt::Packets => "--packets",
        Opt::Pipe => "PIPE",
        Opt::Loss => "--loss",
        Opt::Move => "MOVE",
    }
}

fn role_name(role: Role) -> &'static str
    ensures { result.now ≡ role_name role }
{
    match role {
        Role::Topology => "topology",
        Role::Trace => "trace",
        Role::Directory => "directory",
        Role::Journal => "journal",
        Role::Out => "out",
        Role::Report => "report",
        Role::Screen => "screen",
    }
}

#[cfg(test)]
mod tests;
