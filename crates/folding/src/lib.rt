//! Forms and matching: high terms cut, conditions dropped, and older rows that take a form.
#![tactic(auto)]

mod change;
mod cutting;
mod forming;
mod matching;
mod pairing;
pub mod renaming;
mod rewriting;
mod trimming;
mod view;

pub use forming::form;
pub use matching::takes;
pub use renaming::Renaming;
