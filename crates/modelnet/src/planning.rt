ghost use Rattle.std.specs.Prelude.{◌≡◌, option_copied};
ghost use Rattle.modelnet.specs.Journals.{journal_planning, check_planning};
ghost use Rattle.modelnet.specs.Moving.{migrate_planning};
ghost use Rattle.modelnet.specs.TheCommands.{run_planning};

use mn_words::{CheckOrder, FileName, JournalOrder, MigrateOrder, RunOrder};
use plan::Options;
use std::marker::Model;

/// What a command reads to plan a run, by the names of the files, and what it asks of the plan.
#[derive(Drop)]
pub struct Planning<'a> {
    /// The topology.
    pub topology: &'a str,
    /// The trace.
    pub trace: &'a str,
    /// The directory, where one is named.
    pub directory: Option<&'a str>,
    /// How the topology is distilled, dealt to cores and run.
    pub options: Options,
}

impl<'a> Model for Planning<'a> {
    ghost use Rattle.std.specs.Prelude.{option_copied};
    ghost use Rattle.modelnet.specs.Planning.{PlanningView};

    ghost Value = { PlanningView };

    ghost view = { λ p. record {
      topology = p.topology.now;
      trace = p.trace.now;
      directory = option_copied p.directory;
      options = p.options;
    } };
}

impl<'a> Planning<'a> {
    /// What `rehearse` and `emulate` ask for.
    pub fn of_run(order: &'a RunOrder) -> Planning<'a>
        ensures { result ≡ run_planning order.now }
    {
        Planning {
            topology: order.topology.as_str(),
            trace: order.trace.as_str(),
            directory: lent_name(&order.directory),
            options: Options {
                mode: order.mode,
                cores: order.cores,
                seed: order.seed,
                tick_ns: order.tick_ns,
                loss: order.loss,
            },
        }
    }

    /// What `journal` asks for.
    pub fn of_journal(order: &'a JournalOrder) -> Planning<'a>
        ensures { result ≡ journal_planning order.now }
    {
        Planning {
            topology: order.topology.as_str(),
            trace: order.trace.as_str(),
            directory: lent_name(&order.directory),
            options: Options {
                mode: order.mode,
                cores: order.cores,
                seed: order.seed,
                tick_ns: order.tick_ns,
                loss: order.loss,
            },
        }
    }

    /// What `check` asks for.
    pub fn of_check(order: &'a CheckOrder) -> Planning<'a>
        ensures { result ≡ check_planning order.now }
    {
        Planning {
            topology: order.topology.as_str(),
            trace: order.trace.as_str(),
            directory: lent_name(&order.directory),
            options: Options {
                mode: order.mode,
                cores: order.cores,
                seed: order.seed,
                tick_ns: order.tick_ns,
                loss: order.loss,
            },
        }
    }

    /// What `migrate` asks for.
    pub fn of_migrate(order: &'a MigrateOrder) -> Planning<'a>
        ensures { result ≡ migrate_planning order.now }
    {
        Planning {
            topology: order.topology.as_str(),
            trace: order.trace.as_str(),
            directory: lent_name(&order.directory),
            options: Options {
                mode: order.mode,
                cores: order.cores,
                seed: order.seed,
                tick_ns: order.tick_ns,
                loss: order.loss,
            },
        }
    }
}

/// Lends the name of a file, where there is one.
fn lent_name(name: &Option<FileName>) -> Option<&str>
    ensures { option_copied result ≡ name.now }
{
    match name {
        Some(name) => Some(name.as_str()),
        None => None,
    }
}
