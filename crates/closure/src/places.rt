//! The terms that closure works on: the first places of a bank, each over places below it.
ghost use Rattle.std.specs.Prelude.{◌≡◌, ℕ, ◌<◌, ◌≤◌, length, MatchOption};
ghost use Rattle.terms.specs.Bank.{Ordered};
ghost use Rattle.closure.specs.Working.{sig};
ghost use Rattle.closure.specs.Props.{Ordered-prop};

use terms::{MOST_TERMS, Node, TermRecord, is_ordered};

/// The first `terms` places of a bank, which is lent with its count beside.
// Not the slice of the first terms: what the calls promise is said of the bank that was lent.
#[derive(Drop)]
pub(crate) struct Places<'a> {
    pub(crate) bank: &'a [TermRecord],
    pub(crate) terms: usize,
    ghost ordered: { Ordered bank.now terms } by { Ordered-prop bank.now terms },
    ghost few: { terms ≤ 512 },
}

impl<'a> Places<'a> {
    /// The first `terms` places, where each is over places below it and they are no more than a bank holds.
    pub(crate) fn new(bank: &'a [TermRecord], terms: usize) -> Option<Self>
        ensures { MatchOption result (Ordered bank.now terms → terms ≤ 512 → ⊥) (λ p. (p.bank.now ≡ bank.now) × (p.terms ≡ terms)) }
    {
        if terms > MOST_TERMS || !is_ordered(bank, terms) {
            return None;
        }
        Some(Places { bank, terms })
    }

    /// The node of a place, with the label of each place in it for the place.
    pub(crate) fn signature(&self, place: usize, labels: &[u16]) -> Node
        requires inside { place < self.now.terms }
        requires labelled { self.now.terms ≤ length labels.now }
        ensures { result ≡ sig self.now.bank.now labels.now place }
    {
        // Not `with_places`, whose test that the places fit makes the whole closure a seventh slower.
        match self.bank[place].node {
            Node::Name(x) => Node::Name(x),
            Node::Constant(f) => Node::Constant(f),
            Node::Unary(f, a) => Node::Unary(f, labels[a as usize]),
            Node::Binary(f, a, b) => Node::Binary(f, labels[a as usize], labels[b as usize]),
            Node::Ternary(f, a, b, c) => Node::Ternary(
                f,
                labels[a as usize],
                labels[b as usize],
                labels[c as usize],
            ),
        }
    }
}
