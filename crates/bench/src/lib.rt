//! Runs of a sheet on one plant model. `running` has the calls and the order of the questions that are put
//! to the model; the modules below it work out values, judge a configuration and take a step.
#![tactic(auto)]

pub mod configuration;
mod current;
mod equations;
mod places;
mod readings;
mod running;
mod terms;

pub use configuration::Configuration;
pub use running::{run, run_to};
