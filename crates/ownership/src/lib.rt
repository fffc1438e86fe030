//! Which core owns each pipe of a distilled topology, and at which core the packets of each node begin: the assignment, and the text
//! of a directory, read and printed.
//! It depends on distill, frontier, changes, topo and mn_base.
//! Its contracts speak in `assignment` (specs/Assignment.antt), `Directs` (specs/Reading.antt), `directory_fault`
//! (specs/Faults.antt) and `directory_text` (specs/Texts.antt).
#![tactic(auto)]

mod assigning;
mod directory;
mod entries;
mod faults;
mod incidence;
pub mod laws;
mod near;
mod printing;
mod reach;
mod reading;
mod turns;

pub use assigning::assign;
pub use directory::Directory;
pub use faults::AssignFault;
pub use printing::print_directory;
pub use reading::read_directory;

#[cfg(test)]
mod tests;
