//! Working a check table through: over its rows and their branches in order, each waiting branch is settled by the first
//! offer that the table accepts. `rules/specs/Working.antt` says which calls these are.
#![tactic(auto)]

mod offering;
mod walking;

pub use walking::work_through;
