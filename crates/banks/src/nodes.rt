//! The nodes of a bank's first places, looked up on chains of places by bucket.
ghost use Rattle.std.specs.Prelude.{◌≡◌, ℕ, ◌+◌, ◌<◌, ◌≤◌, true, length, None, Decides, MatchOption};
ghost use Rattle.terms.specs.Bank.{node_at, Lacks};
ghost use Rattle.closure.specs.Working.{Chains};
ghost use Rattle.closure.specs.Props.{Chains-prop};
ghost use Rattle.banks.specs.Listing.{Listed};

use closure::bucket;
use terms::{MOST_TERMS, Node, TermRecord};

/// The first `used` places, each on the chain of its node's bucket, where a lower place follows.
/// The chains stand in arrays, since the checker works in memory of fixed size.
#[derive(Drop)]
pub(crate) struct Nodes<'a> {
    pub(crate) bank: &'a [TermRecord],
    pub(crate) used: usize,
    heads: [Option<u16>; 1024],
    next: [Option<u16>; MOST_TERMS],
    ghost inside: { used ≤ length bank.now },
    ghost few: { used ≤ 512 },
    ghost chains: { Chains heads next used } by { Chains-prop heads next used },
    ghost listed: { ∥ Listed bank.now heads next used ∥₁ },
}

impl<'a> Nodes<'a> {
    /// None of the bank's places.
    pub(crate) fn new(bank: &'a [TermRecord]) -> Self
        ensures bank { result.bank.now ≡ bank.now }
        ensures none { result.used ≡ 0 }
    {
        Nodes {
            bank,
            used: 0,
            heads: [None; 1024],
            next: [None; MOST_TERMS],
        }
    }

    /// A place with the node.
    // The walk is like that of `closure`'s table, which compares by labels. A walk for both would be public and take the
    // test as a closure, and that the closure may be called would be a `requires` of it; public calls ask nothing.
    fn find(&self, node: Node) -> Option<usize>
        ensures { MatchOption result (Lacks self.now.bank.now self.now.used node) (λ j. (j < self.now.used) × (node_at self.now.bank.now j ≡ node)) }
    {
        let mut at = self.heads[bucket(node)];
        while let Some(j) = at {
            let place = j as usize;
            if self.bank[place].node == node {
                return Some(place);
            }
            at = self.next[place];
        }
        None
    }

    /// Whether no place has the node of the next one, which is then put on its chain.
    pub(crate) fn enter(&mut self) -> bool
        requires inside { self.old.used < length self.old.bank.now }
        requires few { self.old.used < 512 }
        ensures bank { self.new.bank.now ≡ self.old.bank.now }
        ensures new { Decides result (Lacks self.old.bank.now self.old.used (node_at self.old.bank.now self.old.used)) }
        ensures one { result ≡ true → self.new.used ≡ self.old.used + 1 }
    {
        let node = self.bank[self.used].node;
        if self.find(node).is_some() {
            return false;
        }
        let head = &mut self.heads[bucket(node)];
        self.next[self.used] = *head;
        *head = Some(self.used as u16);
        self.used += 1;
        true
    }
}
