//! One pipe: bandwidth, latency, a queue of limited length and loss, by the list of the visits before. And the due visits that a
//! maker of visits holds, from which it takes the first in canonical order.
//! It depends on mn_base.
//! Its contracts speak of `step_at` (specs/Steps.antt), for each list that a pipe stands for (specs/PipeView.antt), and of
//! `TakesVisit` (specs/HeldVisits.antt).
#![tactic(auto)]

mod due_visits;
mod in_force;
mod step;
mod visits;

pub use due_visits::{DueVisit, DueVisits};
pub use step::Step;
pub use visits::Pipe;

#[cfg(test)]
mod tests;
