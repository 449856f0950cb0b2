//! The table of signatures: chains of places by the bucket of their signature.
ghost use Rattle.std.specs.Prelude.{◌≡◌, ℕ, ◌+◌, ◌<◌, ◌≤◌, false, length, is_some, None, MatchOption, ◌≢◌, slice_index_or};
ghost use Rattle.closure.specs.Working.{sig, Closed, bucket_of, Reaches, Chains, Rooted, Grown, Swept, flag};
ghost use Rattle.closure.specs.Props.{Chains-prop};

use super::labels::join;
use super::pending::{Equation, Pending, Uses, propagate};
use super::places::Places;
use terms::{MOST_TERMS, Node};

const BUCKETS: usize = 1024;

/// The bucket of a signature.
pub fn bucket(signature: Node) -> usize
    ensures value { result ≡ bucket_of signature }
    ensures inside { result < 1024 }
{
    match signature {
        Node::Name(x) => x as usize,
        Node::Constant(f) => (f as usize * 7 + 97) % BUCKETS,
        Node::Unary(f, a) => (f as usize * 61 + a as usize * 5 + 193) % BUCKETS,
        Node::Binary(f, a, b) => (f as usize * 61 + a as usize * 37 + b as usize * 5 + 389)
            % BUCKETS,
        Node::Ternary(f, a, b, c) => {
            (f as usize * 61 + a as usize * 151 + b as usize * 37 + c as usize * 5 + 769) % BUCKETS
        }
    }
}

/// Each of the first `seen` places has one of its signature on the chain of its bucket. Chains are links in arrays,
/// since closure allocates nothing.
// The places are no field, though `seen` is at most their count: `visit` and `step` would have to promise that they stay,
// and each clause would name them by way of the table.
#[derive(Drop)]
pub(crate) struct Table {
    heads: [Option<u16>; BUCKETS],
    next: [Option<u16>; MOST_TERMS],
    pub(crate) seen: usize,
    ghost few: { seen ≤ 512 },
    ghost chains: { Chains heads next seen } by { Chains-prop heads next seen },
}

impl Table {
    fn new() -> Self
        ensures { result.seen ≡ 0 }
    {
        Table {
            heads: [None; BUCKETS],
            next: [None; MOST_TERMS],
            seen: 0,
        }
    }

    /// A place of the sought signature on the table. Its bucket is given too, since its callers have it.
    // Crate `banks` walks its chains in the same way. A walk for both would be public and take the test as a closure, and
    // that the closure may be called would be a `requires` of it; public calls ask nothing.
    pub(crate) fn lookup(
        &self,
        places: &Places,
        labels: &[u16],
        at: usize,
        sought: Node,
    ) -> Option<usize>
        requires inside { self.now.seen ≤ places.now.terms }
        requires labelled { places.now.terms ≤ length labels.now }
        requires bucket { at ≡ bucket_of sought }
        requires below { at < 1024 }
        ensures { MatchOption result ((j : ℕ) → Reaches self.now.next (slice_index_or self.now.heads (bucket_of sought) None) j → sig places.now.bank.now labels.now j ≢ sought) (λ j. (j < self.now.seen) × (sig places.now.bank.now labels.now j ≡ sought)) }
    {
        let mut link = self.heads[at];
        while let Some(j) = link {
            let place = j as usize;
            if places.signature(place, labels) == sought {
                return Some(place);
            }
            link = self.next[place];
        }
        None
    }

    /// Looks the next place up by its signature: joins it with a place that has the same, or puts it on its chain.
    /// Answers the label that gave way, where two classes became one.
    fn visit(&mut self, places: &Places, labels: &mut [u16]) -> Option<u16>
        requires inside { self.old.seen < places.now.terms }
        requires labelled { places.now.terms ≤ length labels.old }
        requires rooted { Rooted places.now.terms labels.old }
        ensures seen { self.new.seen ≡ self.old.seen + 1 }
        ensures grown { Grown places.now.bank.now places.now.terms labels.old labels.new (flag (is_some result)) }
        ensures swept { is_some result ≡ false → Swept places.now.bank.now labels.old self.old.heads self.old.next self.old.seen → Swept places.now.bank.now labels.new self.new.heads self.new.next self.new.seen }
    {
        let i = self.seen;
        let sought = places.signature(i, labels);
        let at = bucket(sought);
        match self.lookup(places, labels, at, sought) {
            Some(j) => {
                self.seen += 1;
                let gone = labels[i].max(labels[j]);
                join(labels, places.terms, i, j).then_some(gone)
            }
            None => {
                self.next[i] = self.heads[at];
                self.heads[at] = Some(i as u16);
                self.seen += 1;
                None
            }
        }
    }

    /// Looks the next place up, and joins what follows among the places up to it. Answers how often two classes
    /// became one.
    fn step(
        &mut self,
        places: &Places,
        labels: &mut [u16],
        uses: &mut Uses,
        pending: &mut Pending,
    ) -> u16
        requires inside { self.old.seen < places.now.terms }
        requires labelled { places.now.terms ≤ length labels.old }
        requires rooted { Rooted places.now.terms labels.old }
        ensures seen { self.new.seen ≡ self.old.seen + 1 }
        ensures grown { Grown places.now.bank.now places.now.terms labels.old labels.new result }
        ensures swept { result ≡ 0 → Swept places.now.bank.now labels.old self.old.heads self.old.next self.old.seen → Swept places.now.bank.now labels.new self.new.heads self.new.next self.new.seen }
    {
        match self.visit(places, labels) {
            Some(gone) => 1 + propagate(places, self, labels, uses, pending, gone),
            None => 0,
        }
    }
}

/// One pass over all places, lowest first; answers how often two classes became one.
fn sweep(places: &Places, labels: &mut [u16], uses: &mut Uses, pending: &mut Pending) -> u16
    requires labelled { places.now.terms ≤ length labels.old }
    requires rooted { Rooted places.now.terms labels.old }
    ensures grown { Grown places.now.bank.now places.now.terms labels.old labels.new result }
    ensures closed { result ≡ 0 → Closed places.now.bank.now places.now.terms labels.new }
{
    let mut table = Table::new();
    let mut joins = 0;
    // The table counts what it has seen, and takes the next place by that.
    while table.seen < places.terms {
        joins += table.step(places, labels, uses, pending);
    }
    joins
}

/// Closes the labels under congruence, by passes until one finds nothing to join; answers how often two classes
/// became one.
pub(crate) fn saturate(places: &Places, labels: &mut [u16]) -> u16
    requires labelled { places.now.terms ≤ length labels.old }
    requires rooted { Rooted places.now.terms labels.old }
    ensures grown { Grown places.now.bank.now places.now.terms labels.old labels.new result }
    ensures closed { Closed places.now.bank.now places.now.terms labels.new }
{
    let mut uses = Uses::BLANK;
    uses.list(places, labels);
    let mut slots = [Equation::BLANK; 64];
    let mut pending = Pending::new(&mut slots);
    let mut joins = 0;
    loop {
        let found = sweep(places, labels, &mut uses, &mut pending);
        if found == 0 {
            return joins;
        }
        joins += found;
    }
}
