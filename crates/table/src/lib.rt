//! The check table, on which several people work by turns. A table lies in memory that it is lent for its life, and
//! allocates nothing. `specs/Standing.antt` says which standing of the rules a table stands for; each public call goes
//! from every standing that the table stood for, by the rules, to one that it stands for now.
#![tactic(auto)]

ghost use Rattle.table.specs.Standing.{AlwaysStands};

mod calls;
mod mark;
mod offers;
mod opening;
mod places;
mod settling;
mod table;
mod telling;
mod ticket;
mod verdict;

pub use table::Table;
pub use ticket::{Refusal, Ticket};
pub use verdict::Verdict;

/// Each table stands for a standing, whatever was called on it.
pub fn always_stands()
    ensures { AlwaysStands }
{}
