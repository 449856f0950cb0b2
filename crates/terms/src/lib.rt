//! Terms of uninterpreted symbols in a lent bank of records: each term once, subterms first.
//! `specs/Terms.antt` says what a term, a condition and an interpretation are, and `specs/Bank.antt` which terms the
//! records stand for.
#![tactic(auto)]

mod bank;

pub use bank::{
    CountGuard, MOST_TERMS, intern, intern_above, is_measured, is_ordered, same_node, with_places,
};

/// How a term is made: a name, or a symbol over the terms at some places of the bank.
#[derive(Clone, Copy, Debug, PartialEq, Eq)]
pub enum Node {
    Name(u8),
    Constant(u8),
    Unary(u8, u16),
    Binary(u8, u16, u16),
    Ternary(u8, u16, u16, u16),
}

/// One term of the bank, with its height and the set of its names: bit x is set where name x stands in it.
#[derive(Clone, Copy, Debug, PartialEq, Eq)]
pub struct TermRecord {
    pub node: Node,
    pub height: u16,
    pub names: u32,
}

impl TermRecord {
    /// What a place holds before it is used.
    pub const BLANK: TermRecord = TermRecord {
        node: Node::Name(0),
        height: 0,
        names: 0,
    };
}

/// The sign between the two terms of a condition.
#[derive(Clone, Copy, Debug, PartialEq, Eq)]
pub enum Sign {
    Equal,
    Different,
}

/// A condition between the terms at two places of the bank.
#[derive(Clone, Copy, Debug, PartialEq, Eq)]
pub struct Condition {
    pub left: u16,
    pub right: u16,
    pub sign: Sign,
}

impl Condition {
    /// What a place holds before it is used.
    pub const BLANK: Condition = Condition {
        left: 0,
        right: 0,
        sign: Sign::Equal,
    };
}

/// How many records of the bank are in use.
// Beside the bank and not in one struct with it, since callers lend each by itself.
#[derive(Clone, Copy, Debug, PartialEq, Eq)]
pub struct Count {
    pub terms: u16,
}
