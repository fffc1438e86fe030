//! The words of a command line: what they ask for, or their first fault.
//!
//! It depends on mn_base (limits, numbers, refusals), distill (for `Mode`) and journal (for `LossBy`). Its contract speaks of
//! `ordered` (specs/Words.antt), which cites the tables of commands and of options (specs/TheCommands.antt, specs/Options.antt) and
//! the items of a list of words (specs/Items.antt).
#![tactic(auto)]

mod bare;
mod command;
mod form;
mod moves;
mod opt;
mod options;
mod order;
mod parts;
mod pipes;
mod rest;
mod values;
mod words;

pub use opt::{Opt, WordsFault};
pub use order::{
    AssignOrder, ChainOrder, CheckOrder, DistillOrder, FileName, JournalOrder, MigrateOrder,
    MoveSpec, Order, PipeSpec, RedOrder, RedSpec, RunOrder, WorkloadOrder,
};
pub use words::read_words;

#[cfg(test)]
mod tests;
