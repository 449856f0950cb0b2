//! Conditions between terms of uninterpreted symbols, decided exactly by congruence closure.
//! `specs/Congruence.antt` has the smallest congruence, `specs/Labels.antt` what the calls answer, and
//! `specs/Working.antt` the words of the inner functions.
#![tactic(auto)]

mod deciding;
mod labels;
mod pending;
mod places;
mod table;

pub use deciding::{Verdict, decide, entails};
pub use table::bucket;
