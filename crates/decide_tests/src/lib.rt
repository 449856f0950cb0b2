//! Examples of deciding: texts with their answers, entailment, and a bank that fills up and is emptied again.
#![tactic(auto)]

#[cfg(test)]
mod banks;
#[cfg(test)]
mod texts;
