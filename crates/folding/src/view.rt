//! The bank, for calls that only read it.
ghost use Rattle.terms.specs.Bank.{Bank};
ghost use Rattle.folding.specs.Viewing.{Bank-prop};

use terms::{Count, TermRecord};

/// The records of a bank, and how many of them are in use.
#[derive(Clone, Copy)]
pub(crate) struct View<'a> {
    pub records: &'a [TermRecord],
    pub count: Count,
    ghost is_bank: { Bank records.now count.terms } by { Bank-prop records.now count.terms },
}
