ghost use Rattle.std.specs.Prelude.{◌≡◌};
ghost use Rattle.mn_words.specs.TheCommands.{command_of, form_of};

use crate::form::Form;

/// A command of the table.
#[derive(Clone, Copy, Debug, PartialEq, Eq)]
pub enum Command {
    Chain,
    Distill,
    Assign,
    Rehearse,
    Emulate,
    Workload,
    Journal,
    Check,
    Red,
    Migrate,
}

/// The command of a word.
#[tactic(auto, unfolding(crate::specs::TheCommands::command_of))]
pub fn command_of(word: &str) -> Option<Command>
    ensures { result ≡ command_of word.now }
{
    if word == "chain" {
        Some(Command::Chain)
    } else if word == "distill" {
        Some(Command::Distill)
    } else if word == "assign" {
        Some(Command::Assign)
    } else if word == "rehearse" {
        Some(Command::Rehearse)
    } else if word == "emulate" {
        Some(Command::Emulate)
    } else if word == "workload" {
        Some(Command::Workload)
    } else if word == "journal" {
        Some(Command::Journal)
    } else if word == "check" {
        Some(Command::Check)
    } else if word == "red" {
        Some(Command::Red)
    } else if word == "migrate" {
        Some(Command::Migrate)
    } else {
        None
    }
}

/// The options that a run on cores needs.
const RUN_NEEDS: &[&str] = &["--topology", "--trace", "--out", "--report"];

/// The options that a plan may have.
const PLAN_MAY_HAVE: &[&str] = &[
    "--mode",
    "--cores",
    "--seed",
    "--tick-ns",
    "--directory",
    "--loss",
];

/// Those that a run on cores may have.
const RUN_MAY_HAVE: &[&str] = &[
    "--cluster-report",
    "--mode",
    "--cores",
    "--seed",
    "--tick-ns",
    "--directory",
    "--loss",
];

/// And those that a run in chosen turns may have.
const TURNS_MAY_HAVE: &[&str] = &[
    "--order",
    "--turns",
    "--cluster-report",
    "--mode",
    "--cores",
    "--seed",
    "--tick-ns",
    "--directory",
    "--loss",
];

/// The form of each command: a row of the table.
#[tactic(auto, unfolding(crate::specs::TheCommands::form_of))]
pub fn form_of(command: Command) -> Form
    ensures { result ≡ form_of command }
{
    let (needs, may_have): (&[&str], &[&str]) = match command {
        Command::Chain => (
            &["--trace", "--out", "--report"],
            &["--tick-ns", "--seed", "--loss"],
        ),
        Command::Distill => (&["--topology"], &["--mode", "--tick-ns"]),
        Command::Assign => (&["--topology"], &["--mode", "--cores"]),
        Command::Rehearse => (RUN_NEEDS, TURNS_MAY_HAVE),
        Command::Emulate => (RUN_NEEDS, RUN_MAY_HAVE),
        Command::Workload => (&["--number"], &["--packets", "--cores"]),
        Command::Journal => (&["--topology", "--trace", "--out"], PLAN_MAY_HAVE),
        Command::Check => (&["--topology", "--trace", "--journal"], PLAN_MAY_HAVE),
        Command::Red => (&["--trace", "--out", "--report"], &["--tick-ns", "--seed"]),
        Command::Migrate => (RUN_NEEDS, PLAN_MAY_HAVE),
    };
    let takes_bare = matches!(command, Command::Chain | Command::Red | Command::Migrate);
    Form {
        needs,
        may_have,
        takes_bare,
    }
}
