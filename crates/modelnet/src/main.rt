//! The emulator's commands over a host, and the program.
//! It depends on the crates below it; its files are the roles of a host and, for each command, the run and the order of its roles.
//! Its contracts, on `plain` and on `modelnet`, which has threads, speak of `Answers` and `IsExact` (specs/Answers.antt): what stands
//! after each answer, and which one it is.
#![tactic(auto)]

ghost use Rattle.std.specs.Prelude.{◌≡◌, false};
ghost use Rattle.std.specs.Process.{exit_status};
ghost use Rattle.mn_edge.specs.declared.role.Role.{Role};
ghost use Rattle.modelnet.specs.Ends.{IsEnding};
ghost use Rattle.modelnet.specs.Statuses.{status_number};
ghost use Rattle.mn_words.specs.Words.{texts};

mod assign_command;
mod assign_run;
mod chain_command;
mod chain_run;
mod chain_setup;
mod check_command;
mod command_line;
mod distill_command;
mod distill_run;
mod distilling;
mod emulate_command;
mod journal_command;
mod laws;
mod migrate_command;
mod migrate_run;
mod plain;
mod plan_inputs;
mod planning;
mod read_limits;
mod red_command;
mod red_run;
mod red_setup;
mod rehearse_command;
mod roles;
mod run_outputs;
mod running;
mod running_threads;
mod status;
mod status_line;
#[cfg(test)]
mod tests;
mod top;
mod workload_command;
mod workload_run;

use crate::command_line::{command_line, words_behind};
use crate::status::Status;
use crate::status_line::status_line;
use crate::top::modelnet;
use core_loop::Tally;
use mn_edge::{Host, RealHost};
use std::process::ExitCode;
use std::str;
use std::sync::Wait;
use std::thread::Threads;
use workers::Hook;

/// A hook that does nothing.
struct NoHook;

impl Hook for NoHook {
    fn at_start(&self, _core: u32) {}
}

fn main(rt: HostRuntime) -> ExitCode {
    program(&rt, &rt)
}

/// Carries out the program's words over the files of the system. Where they can't be had, the answer says why.
fn program(rt: &HostRuntime, threads: &(impl Threads + Wait + Sync + AllocGlobal)) -> ExitCode {
    let all = match command_line(rt) {
        Ok(all) => all,
        Err(status) => return end(rt, &status),
    };
    let Ok(words) = words_behind(rt.alloc(), &all) else {
        return end(rt, &Status::NoMemory);
    };
    let mut host = RealHost::new(*rt);
    carry_out(rt, threads, words.as_slice(), &mut host)
}

/// Carries out words over a host, with threads where they are asked for, prints the line of the answer, and ends with its number.
fn carry_out<R: Threads + Wait + Sync + AllocGlobal, H: Host>(
    rt: &HostRuntime,
    threads: &R,
    words: &[&str],
    host: &mut H,
) -> ExitCode
    requires { (role : Role) → (H.part host.old role).active ≡ false }
    ensures { IsEnding (texts words.now) (H.part host.old) (H.part host.new) (exit_status result) }
{
    let mut tally = Tally::new();
    let status = modelnet(threads, words, host, &NoHook, &mut tally);
    end(rt, &status)
}

/// Ends with an answer: its line to standard error, and its number. Nothing is printed where there is no memory for the line.
fn end(rt: &HostRuntime, status: &Status) -> ExitCode
    ensures { exit_status result ≡ status_number status.now }
{
    if let Ok(line) = status_line(rt.alloc(), status)
        && let Ok(text) = str::from_utf8(line.as_slice())
    {
        let _ = rt.eprint(text);
    }
    ExitCode::from(status.number())
}
