//! The test whether memory is a bank, in one pass.
ghost use Rattle.std.specs.Prelude.{ℕ, Decides};
ghost use Rattle.terms.specs.Bank.{Bank};

use super::nodes::Nodes;
use terms::{MOST_TERMS, TermRecord, is_measured};

/// Whether the first `terms` records are a bank: subterms first, each term once, with its height and names.
pub fn is_bank(bank: &[TermRecord], terms: usize) -> bool
    ensures { Decides result (Bank bank.now terms) }
{
    if terms > MOST_TERMS || terms > bank.len() {
        return false;
    }
    let mut nodes = Nodes::new(bank);
    // By number, since a record is measured against those below its place.
    for i in 0..terms {
        if !is_measured(bank, i) || !nodes.enter() {
            return false;
        }
    }
    true
}
